ghost use Rattle.std.specs.Prelude.{◌≡◌, ◌+ℤ◌, ◌*ℤ◌, pos, negsuc, ◌≤ℤ◌, ◌-◌, ◌^◌};

/// The number by the linear transformation.
pub fn scale(factor: i64, offset: i64, value: i128) -> i128
    requires least { negsuc (2 ^ 63 - 1) ≤ℤ value }
    requires greatest { value ≤ℤ pos (2 ^ 64 - 1) }
    ensures { result ≡ factor *ℤ value +ℤ offset }
{
    i128::from(factor) * value + i128::from(offset)
}
