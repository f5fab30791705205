ghost use Rattle.std.specs.Prelude.{◌≡◌, ◌-◌, ◌^◌, pos, negsuc, ◌+ℤ◌, ◌*ℤ◌, ◌≤ℤ◌};
ghost use Rattle.value_types.specs.Values.{word_of};
ghost use Rattle.bench_fmus.specs.Wrapping.{count_of, wrapped_between, wrapped, wrapped_int64};

use value_types::{PortType, greatest_value, least_value, to_word};

const LEAST_INT64: i128 = i64::MIN as i128;

const GREATEST_INT64: i128 = i64::MAX as i128;

const GREATEST_COUNT: i128 = u64::MAX as i128;

// A number of the range stays as it is, and most are.
#[tactic(auto, using(crate::proofs::WrapLemmas::wrapped_within))]
fn wrap_between(least: i128, greatest: i128, value: i128) -> i128
    requires low { negsuc (2 ^ 63 - 1) ≤ℤ least }
    requires order { least ≤ℤ greatest }
    requires high { greatest ≤ℤ pos (2 ^ 64 - 1) }
    ensures value { result ≡ wrapped_between least greatest value }
    ensures low { least ≤ℤ result }
    ensures high { result ≤ℤ greatest }
{
    if least <= value && value <= greatest {
        value
    } else {
        reduce_between(least, greatest, value)
    }
}

// Two remainders keep each number within 128 bits.
fn reduce_between(least: i128, greatest: i128, value: i128) -> i128
    requires low { negsuc (2 ^ 63 - 1) ≤ℤ least }
    requires order { least ≤ℤ greatest }
    requires high { greatest ≤ℤ pos (2 ^ 64 - 1) }
    ensures value { result ≡ wrapped_between least greatest value }
    ensures low { least ≤ℤ result }
    ensures high { result ≤ℤ greatest }
{
    let count = greatest - least + 1;
    let rest = value.rem_euclid(count);
    least + (rest - least).rem_euclid(count)
}

/// The word of a number wrapped into a type.
#[tactic(auto, using(crate::proofs::WrapLemmas::within_words))]
pub(crate) fn wrapped_word(kind: PortType, value: i128) -> u64
    ensures { result ≡ word_of (wrapped kind value) }
{
    to_word(
        kind,
        wrap_between(least_value(kind), greatest_value(kind), value),
    )
}

/// A number wrapped into Int64.
pub(crate) fn wrapping_value(value: i128) -> i64
    ensures { result ≡ wrapped_int64 value }
{
    wrap_between(LEAST_INT64, GREATEST_INT64, value) as i64
}

/// A sum wrapped into Int64.
pub(crate) fn wrapping_sum(a: i64, b: i128) -> i64
    ensures { result ≡ wrapped_int64 (a +ℤ b) }
{
    let b = wrap_between(LEAST_INT64, GREATEST_INT64, b);
    wrap_between(LEAST_INT64, GREATEST_INT64, i128::from(a) + b) as i64
}

/// A product wrapped into Int64.
pub(crate) fn wrapping_product(a: i128, b: i128) -> i64
    ensures { result ≡ wrapped_int64 (a *ℤ b) }
{
    let first = i128::from(wrapping_value(a));
    let second = i128::from(wrapping_value(b));
    wrapping_value(first * second)
}

/// A number read as a count.
pub(crate) fn count_of(value: i128) -> u64
    ensures { result ≡ count_of value }
{
    if value < 0 {
        0
    } else if value > GREATEST_COUNT {
        u64::MAX
    } else {
        value as u64
    }
}
