ghost use Rattle.std.specs.Prelude.{◌≡◌, ◌↔◌, ◌-◌, ◌^◌, ℤ, pos, negsuc, ◌≤ℤ◌, IfSome, IfNone, IsTrue};
ghost use Rattle.std.specs.Int.{w64, cast_signed};
ghost use Rattle.value_types.specs.Values.{Fits, greatest_of, is_fitting, is_signed, least_of, number_of, word_of, word_value};

/// The type of a variable (FMI 3.0, 2.4.7): those whose values are whole numbers.
#[derive(Clone, Copy, Debug, PartialEq, Eq)]
pub enum PortType {
    Int8,
    UInt8,
    Int16,
    UInt16,
    Int32,
    UInt32,
    Int64,
    UInt64,
    /// 0 is false and 1 is true.
    Boolean,
    /// The range is that of `Int64`.
    Enumeration,
    /// 0 is inactive and 1 is active.
    Clock,
}

/// The least value of a type.
pub fn least_value(kind: PortType) -> i128
    ensures { result ≡ least_of kind }
{
    match kind {
        PortType::Int8 => i128::from(i8::MIN),
        PortType::Int16 => i128::from(i16::MIN),
        PortType::Int32 => i128::from(i32::MIN),
        PortType::Int64 | PortType::Enumeration => i128::from(i64::MIN),
        PortType::UInt8
        | PortType::UInt16
        | PortType::UInt32
        | PortType::UInt64
        | PortType::Boolean
        | PortType::Clock => 0,
    }
}

/// The greatest value of a type.
pub fn greatest_value(kind: PortType) -> i128
    ensures { result ≡ greatest_of kind }
{
    match kind {
        PortType::Int8 => i128::from(i8::MAX),
        PortType::UInt8 => i128::from(u8::MAX),
        PortType::Int16 => i128::from(i16::MAX),
        PortType::UInt16 => i128::from(u16::MAX),
        PortType::Int32 => i128::from(i32::MAX),
        PortType::UInt32 => i128::from(u32::MAX),
        PortType::Int64 | PortType::Enumeration => i128::from(i64::MAX),
        PortType::UInt64 => i128::from(u64::MAX),
        PortType::Boolean | PortType::Clock => 1,
    }
}

/// Whether a value is in the range of a type.
pub fn fits(kind: PortType, value: i128) -> bool
    ensures within { IsTrue result ↔ Fits kind value }
    ensures tested { result ≡ is_fitting kind value }
{
    least_value(kind) <= value && value <= greatest_value(kind)
}

/// The word of a value: its 64-bit two's complement.
pub fn to_word(kind: PortType, value: i128) -> u64
    requires { Fits kind value }
    ensures { result ≡ word_of value }
{
    if is_signed(kind) {
        signed_word(value)
    } else {
        unsigned_word(value)
    }
}

/// The value whose word this is, where the type has one.
pub fn from_word(kind: PortType, word: u64) -> Option<i128>
    ensures found { result ≡ word_value kind word }
    ensures value { IfSome result (λ value. Fits kind value × (word_of value ≡ word)) }
    ensures wrong { IfNone result ((value : ℤ) → Fits kind value → word_of value ≡ word → ⊥) }
{
    let value = number(kind, word);
    if fits(kind, value) { Some(value) } else { None }
}

fn is_signed(kind: PortType) -> bool
    ensures { result ≡ is_signed kind }
{
    least_value(kind) < 0
}

fn number(kind: PortType, word: u64) -> i128
    ensures number { result ≡ number_of kind word }
    ensures word { word_of result ≡ word }
{
    if is_signed(kind) {
        signed_value(word)
    } else {
        i128::from(word)
    }
}

fn signed_word(value: i128) -> u64
    requires low { negsuc (2 ^ 63 - 1) ≤ℤ value }
    requires high { value ≤ℤ pos (2 ^ 63 - 1) }
    ensures { result ≡ word_of value }
{
    (value as i64).cast_unsigned()
}

fn unsigned_word(value: i128) -> u64
    requires low { pos 0 ≤ℤ value }
    requires high { value ≤ℤ pos (2 ^ 64 - 1) }
    ensures { result ≡ word_of value }
{
    value as u64
}

fn signed_value(word: u64) -> i128
    ensures number { result ≡ cast_signed w64 word }
    ensures word { word_of result ≡ word }
{
    i128::from(word.cast_signed())
}
