ghost use Rattle.std.specs.Prelude.{◌≡◌, ◌≢◌, ℕ, ◌<◌, List, [], ◌++◌, Ok, None, IfSome, IfOk, IsSomeAnd};
ghost use Rattle.sim_base.specs.Escape.{escaped, escaped_byte, hex_digit};

use crate::cut::after;
use sim_base::escaped_byte;
use std::alloc::{AllocError, Global};

// The first byte of a name as its text has it, and the text after it.
fn byte_before(word: &[u8]) -> Option<(u8, &[u8])>
    ensures found { IfSome result (λ p. word.now ≡ escaped_byte p.0 ++ p.1.now) }
    ensures exact { (byte : ℕ) (rest : List ℕ) → byte < 256 → word.now ≡ escaped_byte byte ++ rest →
        IsSomeAnd result (λ p. (p.0 ≡ byte) × (p.1.now ≡ rest)) }
{
    let byte = guess_byte(word);
    let escaped = escaped_byte(byte);
    let rest = after(word, escaped.as_slice())?;
    Some((byte, rest))
}

fn guess_byte(word: &[u8]) -> u8
    ensures { (byte : ℕ) (rest : List ℕ) → byte < 256 → word.now ≡ escaped_byte byte ++ rest →
        result ≡ byte }
{
    match word {
        [b'%', high, low, ..] => number(*high) * 16 + number(*low),
        [byte, ..] => *byte,
        [] => 0,
    }
}

fn number(digit: u8) -> u8
    ensures low { result < 16 }
    ensures exact { (n : ℕ) → n < 16 → digit ≡ hex_digit n → result ≡ n }
{
    match digit {
        b'0'..=b'9' => digit - b'0',
        b'A'..=b'F' => digit - b'A' + 10,
        _ => 0,
    }
}

/// The name that a word writes with its bytes escaped, where it is the word of one. A name isn't empty.
pub fn name(alloc: Global, word: &[u8]) -> Result<Option<Vec<u8>>, AllocError>
    ensures found { IfOk result
        (λ o. IfSome o (λ v. (v.items ≢ []) × (word.now ≡ escaped v.items))) }
    ensures none { (whole : List ℕ) → whole ≢ [] → word.now ≡ escaped whole → result ≡ Ok None → ⊥ }
{
    let mut bytes = Vec::new(alloc);
    let mut rest = word;
    while !rest.is_empty() {
        let Some((byte, after)) = byte_before(rest) else {
            return Ok(None);
        };
        bytes.push(byte)?;
        rest = after;
    }
    if bytes.is_empty() {
        Ok(None)
    } else {
        Ok(Some(bytes))
    }
}
