//! What a description lists under a reference, types that are connected, and words that are values.
ghost use Rattle.std.specs.Prelude.{◌≡◌, ◌<◌, ◌==◌, ℤ, IfNone, IfSome, length, position};
ghost use Rattle.value_types.specs.Joint.{Joins};
ghost use Rattle.value_types.specs.Values.{Fits, word_of, word_value};

use value_types::{ByReference, Joint, PortType, Referenced, connectable, from_word};

/// The place of the first element with a reference.
pub fn find_place<T: Referenced>(list: &ByReference<T>, reference: u32) -> Option<usize>
    ensures place { result ≡ position (λ x. T.reference x == reference) list.now }
    ensures within { IfSome result (λ place. place < length list.now) }
{
    list.place_of(reference)
}

/// How an output of the first type and an input of the second go together.
pub fn how_joined(from: PortType, to: PortType) -> Joint
    ensures { Joins from to result }
{
    connectable(from, to)
}

/// The value that a word is of a type, if it is one.
pub fn value_of_word(kind: PortType, word: u64) -> Option<i128>
    ensures found { result ≡ word_value kind word }
    ensures value { IfSome result (λ value. Fits kind value × (word_of value ≡ word)) }
    ensures wrong { IfNone result ((value : ℤ) → Fits kind value → word_of value ≡ word → ⊥) }
{
    from_word(kind, word)
}
