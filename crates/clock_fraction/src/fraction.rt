ghost use Rattle.std.specs.Prelude.{◌≡◌, ℕ, Some, IfSome};
ghost use Rattle.clock_fraction.specs.Counts.{IsCounts, counts_of};

/// A number of seconds, `counter / resolution` (FMI 3.0, Clocks: intervalCounter, shiftCounter and resolution).
#[derive(Clone, Copy, Debug, PartialEq, Eq)]
pub struct Fraction {
    pub counter: u64,
    pub resolution: u64,
}

/// A fraction of seconds in counts, of which a second has `resolution`. There is none where the fraction has the
/// resolution 0 or is no whole number of counts.
pub fn to_counts(fraction: Fraction, resolution: u64) -> Option<u128>
    ensures counts { result ≡ counts_of fraction resolution }
    ensures whole { IfSome result (IsCounts fraction resolution) }
    ensures exact { (counts : ℕ) → IsCounts fraction resolution counts → result ≡ Some counts }
{
    if fraction.resolution == 0 {
        return None;
    }
    let product = u128::from(resolution) * u128::from(fraction.counter);
    let divisor = u128::from(fraction.resolution);
    if product % divisor == 0 {
        Some(product / divisor)
    } else {
        None
    }
}
