ghost use Rattle.std.specs.Prelude.{◌≡◌, ◌+◌, ◌*◌, ◌<◌, ◌≤◌};

use crate::text::append_number;
use std::alloc::AllocError;

// A fraction whose denominator has 64 bits ends within these, or never.
const MOST_PLACES: usize = 63;

const SIGNIFICANT_END: u64 = 1_000_000_000_000_000;

/// Appends a point to a text, in seconds: exact where that has an end as a decimal, else with 15 significant digits, the
/// last one rounded to the nearest.
pub fn append_seconds(t: u64, resolution: u64, out: &mut Vec<u8>) -> Result<(), AllocError>
    requires { 1 ≤ resolution }
{
    let whole = t / resolution;
    let rest = t % resolution;
    let start = out.len();
    append_number(whole, out)?;
    if append_exact(rest, resolution, out)? {
        return Ok(());
    }
    out.truncate(start);
    if whole < SIGNIFICANT_END {
        append_rounded(whole, rest, resolution, out)
    } else {
        append_number(rounded_whole(whole), out)
    }
}

// The digits after the point, where they have an end.
fn append_exact(rest: u64, resolution: u64, out: &mut Vec<u8>) -> Result<bool, AllocError>
    requires { rest < resolution }
{
    if rest == 0 {
        return Ok(true);
    }
    out.push(b'.')?;
    let mut rest = rest;
    'places: for _ in 0..MOST_PLACES {
        let (digit, left) = next_digit(rest, resolution);
        out.push(b'0' + digit)?;
        rest = left;
        if rest == 0 {
            return Ok(true);
        }
    }
    Ok(false)
}

// The next digit of a fraction, and the rest of it.
fn next_digit(rest: u64, resolution: u64) -> (u8, u64)
    requires { rest < resolution }
    ensures digit { result.0 < 10 }
    ensures rest { result.1 < resolution }
    ensures value { result.0 * resolution + result.1 ≡ rest * 10 }
{
    let tenfold = u128::from(rest) * 10;
    let resolution = u128::from(resolution);
    ((tenfold / resolution) as u8, (tenfold % resolution) as u64)
}

// A fraction that has no end, after fewer than 16 digits of a whole: never half way between two decimals.
fn append_rounded(
    whole: u64,
    rest: u64,
    resolution: u64,
    out: &mut Vec<u8>,
) -> Result<(), AllocError>
    requires rest { rest < resolution }
    requires whole { whole < 1000000000000000 }
{
    let mut digits = whole;
    let mut places = 0;
    let mut rest = rest;
    'places: for _ in 0..MOST_PLACES {
        if digits >= SIGNIFICANT_END / 10 {
            break;
        }
        let (digit, left) = next_digit(rest, resolution);
        digits = digits * 10 + u64::from(digit);
        rest = left;
        places += 1;
    }
    if rest > resolution - rest {
        digits += 1;
    }
    if digits == SIGNIFICANT_END && places > 0 {
        digits = SIGNIFICANT_END / 10;
        places -= 1;
    }
    append_point(digits, places, out)
}

// A number with so many of its digits after the point.
fn append_point(digits: u64, places: usize, out: &mut Vec<u8>) -> Result<(), AllocError> {
    let mut buffer = itoa::Buffer::new();
    let text = buffer.format(digits).as_bytes();
    if places == 0 {
        return out.extend_from_slice(text);
    }
    if text.len() > places {
        let (whole, after) = text.split_at(text.len() - places);
        out.extend_from_slice(whole)?;
        out.push(b'.')?;
        return out.extend_from_slice(after);
    }
    out.extend_from_slice(b"0.")?;
    for _ in text.len()..places {
        out.push(b'0')?;
    }
    out.extend_from_slice(text)
}

// A whole with more than 15 digits, rounded to 15, where a fraction that has no end stands after it.
fn rounded_whole(whole: u64) -> u64 {
    let mut scale = 1u64;
    'scale: for _ in 0..5 {
        if whole / scale >= SIGNIFICANT_END {
            scale *= 10;
        }
    }
    let below = whole % scale;
    let kept = whole - below;
    if below >= scale - below {
        kept.saturating_add(scale)
    } else {
        kept
    }
}
