ghost use Rattle.std.specs.Prelude.{ℤ, pos, negsuc, ◌+◌, ◌∷◌, ◌≡◌, ◌↔◌, ℕ, ◌^◌, ◌<◌, Some, IfSome, IfNone, IsTrue, decimal};
ghost use Rattle.std.specs.Str.{IsAscii};
ghost use Rattle.std.specs.Fmt.{signed_decimal};
ghost use Rattle.trace_reading.specs.Lines.{IsShort};

use crate::cut::after;
use itoa::Buffer;

/// The number that the bytes write without leading zeros, where 64 bits hold it.
pub(crate) fn number(bytes: &[u8]) -> Option<u64>
    ensures found { IfSome result (λ n. bytes.now ≡ decimal n) }
    ensures exact { (n : ℕ) → n < 2 ^ 64 → bytes.now ≡ decimal n → result ≡ Some n }
{
    let n = parse_number(as_text(bytes)?)?;
    if writes(bytes, n) { Some(n) } else { None }
}

fn as_text(bytes: &[u8]) -> Option<&str>
    ensures same { IfSome result (λ text. text.now ≡ bytes.now) }
    ensures none { IfNone result (IsAscii bytes.now → ⊥) }
{
    match str::from_utf8(bytes) {
        Ok(text) => Some(text),
        Err(_) => None,
    }
}

// It takes a plus and leading zeros too.
fn parse_number(text: &str) -> Option<u64>
    ensures exact { (n : ℕ) → n < 2 ^ 64 → text.now ≡ decimal n → result ≡ Some n }
{
    text.parse().ok()
}

fn writes(bytes: &[u8], n: u64) -> bool
    ensures { IsTrue result ↔ (bytes.now ≡ decimal n) }
{
    bytes == Buffer::new().format(n).as_bytes()
}

/// The value that the bytes write, where a word of 64 bits holds it.
pub(crate) fn value(bytes: &[u8]) -> Option<i128>
    ensures found { IfSome result (λ v. bytes.now ≡ signed_decimal v) }
    ensures exact { (v : ℤ) → IsShort v → bytes.now ≡ signed_decimal v → result ≡ Some v }
{
    match after(bytes, b"-") {
        Some(digits) => negative_number(digits),
        None => natural_number(bytes),
    }
}

fn negative_number(digits: &[u8]) -> Option<i128>
    ensures found { IfSome result (λ v. 45 ∷ digits.now ≡ signed_decimal v) }
    ensures exact { (n : ℕ) → n + 1 < 2 ^ 64 → digits.now ≡ decimal (n + 1) →
        result ≡ Some (negsuc n) }
{
    let n = number(digits)?;
    if n == 0 { None } else { Some(-i128::from(n)) }
}

fn natural_number(bytes: &[u8]) -> Option<i128>
    ensures found { IfSome result (λ v. bytes.now ≡ signed_decimal v) }
    ensures exact { (n : ℕ) → n < 2 ^ 64 → bytes.now ≡ decimal n → result ≡ Some (pos n) }
{
    Some(i128::from(number(bytes)?))
}
