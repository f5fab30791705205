ghost use Rattle.std.specs.Prelude.{◌≡◌, ◌≢◌, ◌↔◌, ℕ, ◌+◌, ◌-◌, ◌*◌, ◌%◌, ◌^◌, ◌<◌, ◌≤◌, ◌++◌, Some, IfSome, IsTrue, if◌then◌else◌, length, take, drop};
ghost use Rattle.std.specs.List.{after_first, before_first, position, position_or_len};
ghost use Rattle.std.specs.Str.Parse.{AllDigits, IsNumeral, digits_value, digits_value_after, starts_with_minus, without_leading_plus, without_leading_sign};
ghost use Rattle.clock_fraction.specs.declared.fraction.Fraction.{Fraction};
ghost use Rattle.clock_fraction.specs.Decimal.{Denotes, IsShortest, is_mark, is_point};

use crate::Fraction;
use crate::digits::{are_digits, read_digits, significant_len};
use crate::shortest::shortest_fraction;

/// The number of seconds that a decimal writes, over the least power of ten. A decimal is an optional `+`, digits with
/// an optional point among, before or after them, and an optional `e` or `E` with an optional sign and digits. There is
/// none for other texts, for a counter above 10^18, and for a resolution above 10^18.
pub fn from_decimal(text: &str) -> Option<Fraction>
    ensures value { IfSome result (Denotes text.now) }
    ensures exact { (fraction : Fraction) → Denotes text.now fraction → result ≡ Some fraction }
{
    let body = without_plus(text.as_bytes());
    let (mantissa, exponent) = split_at_mark(body);
    let (whole, places) = split_at_point(mantissa);
    let power = without_sign(exponent);
    let is_marked = mantissa.len() < body.len();
    if is_decimal(whole, places, power, is_marked) {
        fraction_of(whole, places, power, has_minus(exponent))
    } else {
        None
    }
}

fn is_decimal(whole: &[u8], places: &[u8], power: &[u8], is_marked: bool) -> bool
    ensures { IsTrue result
        ↔ (IsNumeral 10 (whole.now ++ places.now) × AllDigits 10 power.now × (IsTrue is_marked → 0 < length power.now)) }
{
    if whole.is_empty() && places.is_empty() {
        return false;
    }
    if is_marked && power.is_empty() {
        return false;
    }
    both_are_digits(whole, places) && are_digits(power)
}

#[tactic(auto, using(crate::proofs::DigitLemmas::appends))]
fn both_are_digits(whole: &[u8], places: &[u8]) -> bool
    ensures { IsTrue result ↔ AllDigits 10 (whole.now ++ places.now) }
{
    are_digits(whole) && are_digits(places)
}

fn fraction_of(whole: &[u8], places: &[u8], power: &[u8], has_minus: bool) -> Option<Fraction>
    requires whole { AllDigits 10 whole.now }
    requires places { AllDigits 10 places.now }
    requires power { AllDigits 10 power.now }
    ensures value { IfSome result (λ fraction. (k : ℕ)
        × IsShortest (digits_value 10 (whole.now ++ places.now))
        (if has_minus then 0 else digits_value 10 power.now)
        (length places.now + (if has_minus then digits_value 10 power.now else 0)) k fraction) }
    ensures exact { (k : ℕ) (fraction : Fraction)
        → IsShortest (digits_value 10 (whole.now ++ places.now))
        (if has_minus then 0 else digits_value 10 power.now)
        (length places.now + (if has_minus then digits_value 10 power.now else 0)) k fraction
        → result ≡ Some fraction }
{
    let (prefix, kept) = significant_parts(whole, places);
    let number = read_digits(read_digits(0, &whole[..prefix]), &places[..kept]);
    let zeros = (places.len() - kept) as u128 + (whole.len() - prefix) as u128;
    let tens = read_digits(0, power);
    if has_minus {
        shortest_fraction(number, zeros, places.len() as u128 + tens)
    } else {
        shortest_fraction(number, zeros + tens, places.len() as u128)
    }
}

// How many digits of the whole part and of the places stand before the zeros at the end of both.
fn significant_parts(whole: &[u8], places: &[u8]) -> (usize, usize)
    requires whole { AllDigits 10 whole.now }
    requires places { AllDigits 10 places.now }
    ensures whole { result.0 ≤ length whole.now }
    ensures places { result.1 ≤ length places.now }
    ensures zeros { digits_value 10 (whole.now ++ places.now)
        ≡ digits_value_after 10 (digits_value 10 (take result.0 whole.now)) (take result.1 places.now)
        * 10 ^ (length places.now - result.1 + (length whole.now - result.0)) }
    ensures last { let number = digits_value_after 10 (digits_value 10 (take result.0 whole.now)) (take result.1 places.now) in
        number ≢ 0 → number % 10 ≢ 0 }
{
    let kept = significant_len(places);
    if kept == 0 {
        (significant_len(whole), 0)
    } else {
        (whole.len(), kept)
    }
}

fn split_at_mark(body: &[u8]) -> (&[u8], &[u8])
    ensures before { result.0.now ≡ before_first is_mark body.now }
    ensures after { result.1.now ≡ after_first is_mark body.now }
{
    split_at(body, place_of_mark(body))
}

fn split_at_point(mantissa: &[u8]) -> (&[u8], &[u8])
    ensures before { result.0.now ≡ before_first is_point mantissa.now }
    ensures after { result.1.now ≡ after_first is_point mantissa.now }
{
    split_at(mantissa, place_of_point(mantissa))
}

fn place_of_mark(body: &[u8]) -> usize
    ensures place { result ≡ position_or_len is_mark body.now }
    ensures within { result ≤ length body.now }
{
    find_mark(body).unwrap_or(body.len())
}

fn place_of_point(mantissa: &[u8]) -> usize
    ensures place { result ≡ position_or_len is_point mantissa.now }
    ensures within { result ≤ length mantissa.now }
{
    find_point(mantissa).unwrap_or(mantissa.len())
}

fn find_mark(body: &[u8]) -> Option<usize>
    ensures { result ≡ position is_mark body.now }
{
    body.iter().position(|b| *b == b'e' || *b == b'E')
}

fn find_point(mantissa: &[u8]) -> Option<usize>
    ensures { result ≡ position is_point mantissa.now }
{
    mantissa.iter().position(|b| *b == b'.')
}

// What stands before a place, and after it.
fn split_at(bytes: &[u8], place: usize) -> (&[u8], &[u8])
    requires { place ≤ length bytes.now }
    ensures before { result.0.now ≡ take place bytes.now }
    ensures after { result.1.now ≡ drop (place + 1) bytes.now }
{
    if place < bytes.len() {
        (&bytes[..place], &bytes[place + 1..])
    } else {
        (bytes, &[])
    }
}

fn without_plus(text: &[u8]) -> &[u8]
    ensures { result.now ≡ without_leading_plus text.now }
{
    match text {
        [b'+', rest @ ..] => rest,
        _ => text,
    }
}

fn without_sign(exponent: &[u8]) -> &[u8]
    ensures { result.now ≡ without_leading_sign exponent.now }
{
    match exponent {
        [b'+' | b'-', rest @ ..] => rest,
        _ => exponent,
    }
}

fn has_minus(exponent: &[u8]) -> bool
    ensures { result ≡ starts_with_minus exponent.now }
{
    exponent.first() == Some(&b'-')
}
