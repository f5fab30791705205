//! Factors and offsets of linear transformations.
ghost use Rattle.std.specs.Prelude.{◌≡◌, ◌↔◌, ℤ, Some, IfSome, IsTrue, false, nat_eq, codes};
ghost use Rattle.std.specs.List.{list_all, starts_with};
ghost use Rattle.value_types.specs.Reading.{Reads};
ghost use Rattle.transformations.specs.Numbers.{AreZeros, is_zero, WritesFactor};

use value_types::{PortType, read_value};

fn is_zero(byte: u8) -> bool
    ensures { result ≡ is_zero byte }
{
    byte == b'0'
}

fn all_zeros(text: &str) -> bool
    ensures { result ≡ list_all is_zero text.now }
{
    text.as_bytes().iter().all(|byte| is_zero(*byte))
}

// Whether a text is zeros, one or more.
fn are_zeros(text: &str) -> bool
    ensures { IsTrue result ↔ AreZeros text.now }
{
    !text.is_empty() && all_zeros(text)
}

// The number of 64 bits that an optional minus and digits write.
fn read_unmarked(text: &str) -> Option<i64>
    ensures unmarked { IfSome result (λ value. starts_with nat_eq text.now (codes "+") ≡ false) }
    ensures value { IfSome result (Reads PortType.Int64 text.now) }
    ensures exact { (value : ℤ) → starts_with nat_eq text.now (codes "+") ≡ false →
        Reads PortType.Int64 text.now value → result ≡ Some value }
{
    if text.starts_with("+") {
        return None;
    }
    let value = read_value(PortType::Int64, text)?;
    Some(value as i64)
}

/// A factor or an offset: an optional minus and digits, and perhaps a point with zeros after it, in 64 bits.
pub(crate) fn read_factor(text: &str) -> Option<i64>
    ensures value { IfSome result (WritesFactor text.now) }
    ensures exact { (value : ℤ) → WritesFactor text.now value → result ≡ Some value }
{
    match text.split_once('.') {
        Some((whole, zeros)) => {
            if are_zeros(zeros) {
                read_unmarked(whole)
            } else {
                None
            }
        }
        None => read_unmarked(text),
    }
}
