//! Fractions of seconds, their decimals, and ticks.
ghost use Rattle.std.specs.Prelude.{◌≡◌, ◌^◌, ◌<◌, ◌≤◌, ℕ, Some, IfSome};
ghost use Rattle.clock_fraction.specs.Counts as c;
ghost use Rattle.clock_fraction.specs.Decimal.{Denotes};
ghost use Rattle.clock_fraction.specs.Ticks.{IsTick};
ghost use Rattle.clock_fraction.specs.declared.fraction.Fraction.{Fraction};

use clock_fraction::{Fraction, from_decimal, next_tick_after, to_counts};

/// A fraction of seconds in counts, of which a second has `resolution`.
pub fn counts_of(fraction: Fraction, resolution: u64) -> Option<u128>
    ensures counts { result ≡ c.counts_of fraction resolution }
    ensures whole { IfSome result (c.IsCounts fraction resolution) }
    ensures exact { (counts : ℕ) → c.IsCounts fraction resolution counts → result ≡ Some counts }
{
    to_counts(fraction, resolution)
}

/// The fraction of seconds that a decimal denotes.
pub fn decimal_of(text: &str) -> Option<Fraction>
    ensures value { IfSome result (Denotes text.now) }
    ensures exact { (fraction : Fraction) → Denotes text.now fraction → result ≡ Some fraction }
{
    from_decimal(text)
}

/// The first point after `t` at which a clock ticks. All are in counts.
pub fn next_tick(start: u64, shift: u128, interval: u128, t: u64) -> u128
    requires start { start ≤ 2 ^ 62 }
    requires shift { shift ≤ 2 ^ 126 }
    requires interval { interval ≤ 2 ^ 126 }
    requires moves { 0 < interval }
    requires point { t ≤ 2 ^ 62 }
    ensures tick { IsTick start shift interval result }
    ensures after { t < result }
    ensures least { (u : ℕ) → IsTick start shift interval u → t < u → result ≤ u }
{
    next_tick_after(start, shift, interval, t)
}
