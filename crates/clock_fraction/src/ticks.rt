ghost use Rattle.std.specs.Prelude.{◌≡◌, ◌↔◌, ℕ, ◌^◌, ◌<◌, ◌≤◌, IsTrue};
ghost use Rattle.clock_fraction.specs.declared.fraction.Fraction.{Fraction};
ghost use Rattle.clock_fraction.specs.Counts.{IsCounts};
ghost use Rattle.clock_fraction.specs.Ticks.{IsMultiple, IsTick, Ticks};

/// Whether a clock ticks at `t`: first at `start + shift`, then every `interval`. All are in counts.
pub fn ticks_at(start: u64, shift: u128, interval: u128, t: u64) -> bool
    requires start { start ≤ 2 ^ 62 }
    requires shift { shift ≤ 2 ^ 126 }
    requires interval { interval ≤ 2 ^ 126 }
    requires moves { 0 < interval }
    requires point { t ≤ 2 ^ 62 }
    ensures ticks { IsTrue result ↔ IsTick start shift interval t }

    // In counts of whole shifts and intervals, these are the ticks in seconds.
    ensures seconds { (per_second : ℕ) (after every : Fraction)
        → IsCounts after per_second shift → IsCounts every per_second interval
        → (IsTrue result ↔ Ticks per_second start after every t) }
{
    is_tick(start, shift, interval, t)
}

/// The first point after `t` at which a clock ticks that ticks first at `start + shift`, then every `interval`. All
/// are in counts.
pub fn next_tick_after(start: u64, shift: u128, interval: u128, t: u64) -> u128
    requires start { start ≤ 2 ^ 62 }
    requires shift { shift ≤ 2 ^ 126 }
    requires interval { interval ≤ 2 ^ 126 }
    requires moves { 0 < interval }
    requires point { t ≤ 2 ^ 62 }
    ensures tick { IsTick start shift interval result }
    ensures after { t < result }
    ensures least { (u : ℕ) → IsTick start shift interval u → t < u → result ≤ u }
{
    let first = u128::from(start) + shift;
    let point = u128::from(t);
    if point < first {
        first
    } else {
        point - (point - first) % interval + interval
    }
}

fn is_multiple(value: u128, unit: u128) -> bool
    requires { 0 < unit }
    ensures { IsTrue result ↔ IsMultiple value unit }
{
    value % unit == 0
}

fn is_tick(start: u64, shift: u128, interval: u128, t: u64) -> bool
    requires start { start ≤ 2 ^ 62 }
    requires shift { shift ≤ 2 ^ 126 }
    requires moves { 0 < interval }
    ensures { IsTrue result ↔ IsTick start shift interval t }
{
    let first = u128::from(start) + shift;
    let point = u128::from(t);
    first <= point && is_multiple(point - first, interval)
}
