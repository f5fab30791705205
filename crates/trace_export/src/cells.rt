ghost use Rattle.std.specs.Prelude.{◌≡◌, ◌<ℤ◌, pos, negsuc, from_bits};
ghost use Rattle.std.specs.Float.{binary32, binary64};
ghost use Rattle.trace_export.specs.Fields.{low_bits};

use std::num::{f32_from_bits_with_nan, f64_from_bits_with_nan};

/// What a port's number stands for.
#[derive(Clone, Copy, Debug, PartialEq, Eq)]
pub enum Form {
    /// The number itself.
    Whole,
    /// The real of 64 bits with these bits.
    Float64,
    /// The real of 32 bits with these bits.
    Float32,
}

/// A port in an instant: what its number stands for, and the number where it has one.
#[derive(Clone, Copy, Debug, PartialEq, Eq)]
pub struct Cell {
    pub form: Form,
    pub value: Option<i128>,
}

/// The low 64 bits of a number in two's complement.
pub(crate) fn low_64_bits(value: i128) -> u64
    ensures { result ≡ low_bits 64 value }
{
    if value < 0 {
        u64::MAX - (before_zero(value) % 18446744073709551616) as u64
    } else {
        (value as u128 % 18446744073709551616) as u64
    }
}

/// The low 32 bits of a number in two's complement.
pub(crate) fn low_32_bits(value: i128) -> u32
    ensures { result ≡ low_bits 32 value }
{
    if value < 0 {
        u32::MAX - (before_zero(value) % 4294967296) as u32
    } else {
        (value as u128 % 4294967296) as u32
    }
}

// How many numbers stand between a number below zero and zero.
fn before_zero(value: i128) -> u128
    requires { value <ℤ pos 0 }
    ensures { value ≡ negsuc result }
{
    (-(value + 1)) as u128
}

/// The real of 64 bits that a number holds.
pub(crate) fn float64_of(value: i128) -> f64
    ensures { result ≡ from_bits binary64 (low_bits 64 value) }
{
    f64_from_bits_with_nan(low_64_bits(value))
}

/// The real of 32 bits that a number holds.
pub(crate) fn float32_of(value: i128) -> f32
    ensures { result ≡ from_bits binary32 (low_bits 32 value) }
{
    f32_from_bits_with_nan(low_32_bits(value))
}
