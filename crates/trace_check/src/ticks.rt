ghost use Rattle.std.specs.Prelude.{◌≡◌, ◌≤◌, ◌^◌, ◌↔◌, ℕ, IfOk, IfSome, IfNone, IsTrue, Some, slice_get, All};
ghost use Rattle.value_types.specs.declared.shape.IntervalVariability.TheVariants.{Constant};
ghost use Rattle.trace_check.specs.Steps.{AreConstantClocks, IsAnyOff, IsWithinLimits};
ghost use Rattle.trace_check.specs.Ticks.{HasLimitedClocks, IsConstant, IsConstantClock, IsDue, IsOffTick, PassesTick};

use crate::sources::{is_active, value};
use clock_fraction::{next_tick_after, ticks_at};
use std::alloc::{AllocError, Global};
use system_model::{Port, Role, System, Timing};
use value_types::IntervalVariability;

/// A Clock that its description calls constant, with its interval and shift in counts.
#[derive(Clone, Copy)]
pub struct ConstantClock {
    pub port: usize,
    pub interval: u128,
    pub shift: u128,
}

/// The constant Clocks of a system.
pub(crate) fn constant_clocks(
    alloc: Global,
    system: &System,
) -> Result<Vec<ConstantClock>, AllocError>
    requires { HasLimitedClocks system.now }
    ensures { IfOk result (λ clocks. AreConstantClocks system.now clocks.items) }
{
    let mut clocks = Vec::new(alloc);
    for (p, port) in system.ports.as_slice().iter().enumerate() {
        if let Some(clock) = constant_clock(system, p, port) {
            clocks.push(clock)?;
        }
    }
    Ok(clocks)
}

fn constant_clock(system: &System, p: usize, port: &Port) -> Option<ConstantClock>
    requires { slice_get system.now.ports p ≡ Some port.now }
    ensures found { IfSome result (λ c. IsConstantClock system.now c.port c.interval c.shift) }
    ensures place { IfSome result (λ c. c.port ≡ p) }
    ensures none { IfNone result ((interval shift : ℕ) →
        IsConstantClock system.now p interval shift → ⊥) }
{
    match port.role {
        Role::TimeClock {
            timing: Timing::Periodic { interval, shift },
        } => {
            if is_constant(system, port) {
                Some(ConstantClock {
                    port: p,
                    interval,
                    shift,
                })
            } else {
                None
            }
        }
        _ => None,
    }
}

// Whether the description of a port's component calls its Clock constant.
fn is_constant(system: &System, port: &Port) -> bool
    ensures { IsTrue result ↔ IsConstant system.now port.now }
{
    let Some(component) = system.components.get(port.component.0 as usize) else {
        return false;
    };
    match component.shape.clocks.find(port.reference) {
        Some(timing) => is_constant_interval(timing.variability),
        None => false,
    }
}

fn is_constant_interval(variability: IntervalVariability) -> bool
    ensures { IsTrue result ↔ (variability ≡ Constant) }
{
    match variability {
        IntervalVariability::Constant => true,
        _ => false,
    }
}

/// Whether a constant Clock isn't active exactly where it is due, or a tick of one was passed over since the instant
/// before.
pub(crate) fn is_off_tick(
    clocks: &[ConstantClock],
    start: u64,
    last: Option<(u64, u64)>,
    t: u64,
    n: u64,
    values: &[Option<i128>],
) -> bool
    requires limits { All IsWithinLimits clocks.now }
    requires start { start ≤ 2 ^ 62 }
    requires last { IfSome last (λ before. before.0 ≤ 2 ^ 62) }
    requires point { t ≤ 2 ^ 62 }
    ensures { IsTrue result ↔ IsAnyOff clocks.now start last t n values.now }
{
    for clock in clocks {
        if is_clock_off(*clock, start, last, t, n, value(values, clock.port)) {
            return true;
        }
    }
    false
}

fn is_clock_off(
    clock: ConstantClock,
    start: u64,
    last: Option<(u64, u64)>,
    t: u64,
    n: u64,
    value: Option<i128>,
) -> bool
    requires limits { IsWithinLimits clock }
    requires start { start ≤ 2 ^ 62 }
    requires last { IfSome last (λ before. before.0 ≤ 2 ^ 62) }
    requires point { t ≤ 2 ^ 62 }
    ensures { IsTrue result ↔ IsOffTick start clock.interval clock.shift last t n value }
{
    is_active(value) != is_due(clock, start, t, n) || passes_tick(clock, start, last, t)
}

fn is_due(clock: ConstantClock, start: u64, t: u64, n: u64) -> bool
    requires limits { IsWithinLimits clock }
    requires start { start ≤ 2 ^ 62 }
    requires point { t ≤ 2 ^ 62 }
    ensures { IsTrue result ↔ IsDue start clock.interval clock.shift t n }
{
    n == 0 && ticks_at(start, clock.shift, clock.interval, t)
}

// Whether a tick lies between the point of the instant before and this one.
fn passes_tick(clock: ConstantClock, start: u64, last: Option<(u64, u64)>, t: u64) -> bool
    requires limits { IsWithinLimits clock }
    requires start { start ≤ 2 ^ 62 }
    requires last { IfSome last (λ before. before.0 ≤ 2 ^ 62) }
    ensures { IsTrue result ↔ PassesTick start clock.interval clock.shift last t }
{
    match last {
        Some((before, _)) => {
            next_tick_after(start, clock.shift, clock.interval, before) < u128::from(t)
        }
        None => false,
    }
}
