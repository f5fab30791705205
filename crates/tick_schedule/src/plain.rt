//! The calls of a schedule for callers that count no steps. Each opens a ledger of its own, for the function below it that
//! is generic in the ledger.

ghost use Rattle.std.specs.Prelude.{◌≡◌, ◌↔◌, ◌⊎◌, ℕ, ◌<◌, ◌≤◌, ◌^◌, IfNone, IfSome, IsTrue, Some, None, length};
ghost use Rattle.std.specs.List.{slice_get};
ghost use Rattle.tick_schedule.specs.Timetable.{EventAt, HasNext, IsCountdown, IsUnasked, TicksAt, after_tick, with_clock, with_event};
ghost use Rattle.tick_schedule.specs.declared.clock.ClockState.{ClockState};
ghost use Rattle.tick_schedule.specs.declared.clock.ClockState.TheVariants.{Countdown, Periodic};

use crate::schedule::Schedule;
use crate::steps::Steps;
use std::marker::Brand;
use std::sync::ledger::{Blank, Ledger};

/// Gives a fixed Clock the interval and the shift, in counts, that it was asked for.
pub fn fix(schedule: &mut Schedule, clock: usize, interval: u128, shift: u128)
    requires unasked { IsUnasked schedule.old clock }
    requires moves { 0 < interval }
    requires interval { interval ≤ 2 ^ 126 }
    requires shift { shift ≤ 2 ^ 126 }
    ensures { schedule.new ≡ with_clock schedule.old clock (Periodic interval shift 0) }
{
    fix_by::<Brand>(schedule, clock, interval, shift, Blank::new(1));
}

fn fix_by<L: Ledger>(
    schedule: &mut Schedule,
    clock: usize,
    interval: u128,
    shift: u128,
    blank: Blank,
)
    requires name { blank.name ≡ L.name }
    requires parts { blank.parts ≡ L.parts }
    requires some { 0 < blank.parts }
    requires unasked { IsUnasked schedule.old clock }
    requires moves { 0 < interval }
    requires interval { interval ≤ 2 ^ 126 }
    requires shift { shift ≤ 2 ^ 126 }
    ensures { schedule.new ≡ with_clock schedule.old clock (Periodic interval shift 0) }
{
    schedule.fix(clock, interval, shift, &mut Steps::<L>::new(blank));
}

/// Whether a Clock ticks at `t`. No Clock may have a tick below `t` that it still has to make.
pub fn due(schedule: &Schedule, clock: usize, t: u64) -> bool
    requires clock { clock < length schedule.now.clocks }
    requires none_below { (other point : ℕ) → TicksAt schedule.now other point → t ≤ point }
    ensures { IsTrue result ↔ TicksAt schedule.now clock t }
{
    due_by::<Brand>(schedule, clock, t, Blank::new(1))
}

fn due_by<L: Ledger>(schedule: &Schedule, clock: usize, t: u64, blank: Blank) -> bool
    requires name { blank.name ≡ L.name }
    requires parts { blank.parts ≡ L.parts }
    requires some { 0 < blank.parts }
    requires clock { clock < length schedule.now.clocks }
    requires none_below { (other point : ℕ) → TicksAt schedule.now other point → t ≤ point }
    ensures { IsTrue result ↔ TicksAt schedule.now clock t }
{
    schedule.due(clock, t, &mut Steps::<L>::new(blank))
}

/// The first point after `t`, up to the stop, at which a Clock ticks or a component has its event time. No Clock may have a
/// tick up to `t` that it still has to make, and no component an event time up to `t`.
pub fn next_after(schedule: &Schedule, t: u64) -> Option<u64>
    requires ticks_later { (clock point : ℕ) → TicksAt schedule.now clock point → t < point }
    requires events_later { (component point : ℕ) → EventAt schedule.now component point →
        t < point }
    ensures found { IfSome result (λ point.
        ((clock : ℕ) × TicksAt schedule.now clock point) ⊎
        ((component : ℕ) × EventAt schedule.now component point)) }
    ensures after { IfSome result (λ point. t < point) }
    ensures least_tick { IfSome result (λ point. (clock other : ℕ) →
        TicksAt schedule.now clock other → point ≤ other) }
    ensures least_event { IfSome result (λ point. (component other : ℕ) →
        EventAt schedule.now component other → point ≤ other) }
    ensures no_tick { IfNone result ((clock point : ℕ) → TicksAt schedule.now clock point → ⊥) }
    ensures no_event { IfNone result ((component point : ℕ) →
        EventAt schedule.now component point → ⊥) }
{
    next_by::<Brand>(schedule, t, Blank::new(1))
}

fn next_by<L: Ledger>(schedule: &Schedule, t: u64, blank: Blank) -> Option<u64>
    requires name { blank.name ≡ L.name }
    requires parts { blank.parts ≡ L.parts }
    requires some { 0 < blank.parts }
    requires ticks_later { (clock point : ℕ) → TicksAt schedule.now clock point → t < point }
    requires events_later { (component point : ℕ) → EventAt schedule.now component point →
        t < point }
    ensures found { IfSome result (λ point.
        ((clock : ℕ) × TicksAt schedule.now clock point) ⊎
        ((component : ℕ) × EventAt schedule.now component point)) }
    ensures after { IfSome result (λ point. t < point) }
    ensures least_tick { IfSome result (λ point. (clock other : ℕ) →
        TicksAt schedule.now clock other → point ≤ other) }
    ensures least_event { IfSome result (λ point. (component other : ℕ) →
        EventAt schedule.now component other → point ≤ other) }
    ensures no_tick { IfNone result ((clock point : ℕ) → TicksAt schedule.now clock point → ⊥) }
    ensures no_event { IfNone result ((component point : ℕ) →
        EventAt schedule.now component point → ⊥) }
{
    schedule.next_after(t, &mut Steps::<L>::new(blank))
}

/// The next point of a Clock, up to the stop.
pub fn point(schedule: &Schedule, clock: usize) -> Option<u64>
    requires { clock < length schedule.now.clocks }
    ensures found { IfSome result (TicksAt schedule.now clock) }
    ensures least { IfSome result (λ point. (other : ℕ) → TicksAt schedule.now clock other →
        point ≤ other) }
    ensures none { IfNone result ((point : ℕ) → TicksAt schedule.now clock point → ⊥) }
{
    point_by::<Brand>(schedule, clock, Blank::new(1))
}

fn point_by<L: Ledger>(schedule: &Schedule, clock: usize, blank: Blank) -> Option<u64>
    requires name { blank.name ≡ L.name }
    requires parts { blank.parts ≡ L.parts }
    requires some { 0 < blank.parts }
    requires clock { clock < length schedule.now.clocks }
    ensures found { IfSome result (TicksAt schedule.now clock) }
    ensures least { IfSome result (λ point. (other : ℕ) → TicksAt schedule.now clock other →
        point ≤ other) }
    ensures none { IfNone result ((point : ℕ) → TicksAt schedule.now clock point → ⊥) }
{
    schedule.point(clock, &mut Steps::<L>::new(blank))
}

/// The event time of a component, up to the stop.
pub fn event_point(schedule: &Schedule, component: usize) -> Option<u64>
    requires { component < length schedule.now.events }
    ensures found { IfSome result (EventAt schedule.now component) }
    ensures none { IfNone result ((point : ℕ) → EventAt schedule.now component point → ⊥) }
{
    event_point_by::<Brand>(schedule, component, Blank::new(1))
}

fn event_point_by<L: Ledger>(schedule: &Schedule, component: usize, blank: Blank) -> Option<u64>
    requires name { blank.name ≡ L.name }
    requires parts { blank.parts ≡ L.parts }
    requires some { 0 < blank.parts }
    requires component { component < length schedule.now.events }
    ensures found { IfSome result (EventAt schedule.now component) }
    ensures none { IfNone result ((point : ℕ) → EventAt schedule.now component point → ⊥) }
{
    schedule.event_point(component, &mut Steps::<L>::new(blank))
}

/// Arms a countdown or changing Clock for a point, in place of an earlier arming. Past the stop it is never due.
pub fn arm(schedule: &mut Schedule, clock: usize, point: u128)
    requires { IsCountdown schedule.old clock }
    ensures { schedule.new ≡ with_clock schedule.old clock (Countdown (Some point)) }
{
    arm_by::<Brand>(schedule, clock, point, Blank::new(1));
}

fn arm_by<L: Ledger>(schedule: &mut Schedule, clock: usize, point: u128, blank: Blank)
    requires name { blank.name ≡ L.name }
    requires parts { blank.parts ≡ L.parts }
    requires some { 0 < blank.parts }
    requires countdown { IsCountdown schedule.old clock }
    ensures { schedule.new ≡ with_clock schedule.old clock (Countdown (Some point)) }
{
    schedule.arm(clock, point, &mut Steps::<L>::new(blank));
}

/// Gives a component another event time, or none. Past the stop it is never due.
pub fn event_at(schedule: &mut Schedule, component: usize, point: Option<u64>)
    requires { component < length schedule.old.events }
    ensures { schedule.new ≡ with_event schedule.old component point }
{
    event_by::<Brand>(schedule, component, point, Blank::new(1));
}

fn event_by<L: Ledger>(schedule: &mut Schedule, component: usize, point: Option<u64>, blank: Blank)
    requires name { blank.name ≡ L.name }
    requires parts { blank.parts ≡ L.parts }
    requires some { 0 < blank.parts }
    requires component { component < length schedule.old.events }
    ensures { schedule.new ≡ with_event schedule.old component point }
{
    schedule.event_at(component, point, &mut Steps::<L>::new(blank));
}

/// Disarms a countdown or changing Clock, if it is armed.
pub fn disarm(schedule: &mut Schedule, clock: usize)
    requires { IsCountdown schedule.old clock }
    ensures { schedule.new ≡ with_clock schedule.old clock (Countdown None) }
{
    disarm_by::<Brand>(schedule, clock, Blank::new(1));
}

fn disarm_by<L: Ledger>(schedule: &mut Schedule, clock: usize, blank: Blank)
    requires name { blank.name ≡ L.name }
    requires parts { blank.parts ≡ L.parts }
    requires some { 0 < blank.parts }
    requires countdown { IsCountdown schedule.old clock }
    ensures { schedule.new ≡ with_clock schedule.old clock (Countdown None) }
{
    schedule.disarm(clock, &mut Steps::<L>::new(blank));
}

/// A Clock has ticked at its next point: a periodic one goes on to the tick after it, and a countdown or changing one is no
/// longer armed.
pub fn ticked(schedule: &mut Schedule, clock: usize)
    requires { HasNext schedule.old clock }
    ensures { (state : ClockState) → slice_get schedule.old.clocks clock ≡ Some state
        → schedule.new ≡ with_clock schedule.old clock (after_tick state) }
{
    ticked_by::<Brand>(schedule, clock, Blank::new(1));
}

fn ticked_by<L: Ledger>(schedule: &mut Schedule, clock: usize, blank: Blank)
    requires name { blank.name ≡ L.name }
    requires parts { blank.parts ≡ L.parts }
    requires some { 0 < blank.parts }
    requires next { HasNext schedule.old clock }
    ensures { (state : ClockState) → slice_get schedule.old.clocks clock ≡ Some state
        → schedule.new ≡ with_clock schedule.old clock (after_tick state) }
{
    schedule.ticked(clock, &mut Steps::<L>::new(blank));
}
