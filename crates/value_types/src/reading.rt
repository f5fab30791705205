ghost use Rattle.std.specs.Prelude.{◌≡◌, ℤ, Some, IfSome, FitsSigned};
ghost use Rattle.std.specs.Int.{w128};
ghost use Rattle.value_types.specs.Reading.{Reads, Writes};
ghost use Rattle.value_types.specs.Values.{Fits};

use crate::PortType;
use crate::values::fits;

/// The value that a text in a document has in a type: an optional sign and digits, with leading zeros or without,
/// or for a Boolean `true`, `false`, `1` or `0`.
pub fn read_value(kind: PortType, text: &str) -> Option<i128>
    ensures value { IfSome result (Reads kind text.now) }
    ensures exact { (value : ℤ) → Reads kind text.now value → result ≡ Some value }
{
    match kind {
        PortType::Boolean => read_boolean(text),
        _ => read_number(kind, text),
    }
}

fn read_boolean(text: &str) -> Option<i128>
    ensures value { IfSome result (Reads PortType.Boolean text.now) }
    ensures exact { (value : ℤ) → Reads PortType.Boolean text.now value → result ≡ Some value }
{
    match text {
        "true" | "1" => Some(1),
        "false" | "0" => Some(0),
        _ => None,
    }
}

fn read_number(kind: PortType, text: &str) -> Option<i128>
    ensures value { IfSome result (λ value. Writes text.now value × Fits kind value) }
    ensures exact { (value : ℤ) → Writes text.now value → Fits kind value → result ≡ Some value }
{
    let value = read_whole(text)?;
    if fits(kind, value) { Some(value) } else { None }
}

// The number that a text writes, where 128 bits hold it.
fn read_whole(text: &str) -> Option<i128>
    ensures value { IfSome result (Writes text.now) }
    ensures exact { (value : ℤ) → Writes text.now value → FitsSigned w128 value →
        result ≡ Some value }
{
    text.parse().ok()
}
