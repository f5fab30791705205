//! When Clocks tick.
ghost use Rattle.std.specs.List.{slice_get};
ghost use Rattle.std.specs.Prelude.{All, IfOk, IsTrue, None, Some, length, map, replicate, ℕ, ◌+◌, ◌<◌, ◌^◌, ◌↔◌, ◌≡◌, ◌≤◌};
ghost use Rattle.tick_schedule.specs.Timetable.{HasNext, IsSoundClock, TicksAt, after_tick, resumed_state, with_clock, with_event};
ghost use Rattle.tick_schedule.specs.declared.clock.ClockState.{ClockState};

use std::alloc::{AllocError, Global};
use std::sync::ledger::Ledger;
use tick_schedule::{Schedule, Steps, TimeClock, plain};

/// A Clock has ticked at its next point.
pub fn go_on(schedule: &mut Schedule, clock: usize)
    requires { HasNext schedule.old clock }
    ensures { (state : ClockState) → slice_get schedule.old.clocks clock ≡ Some state
        → schedule.new ≡ with_clock schedule.old clock (after_tick state) }
{
    plain::ticked(schedule, clock);
}

/// Gives a component another event time, or none.
pub fn set_event(schedule: &mut Schedule, component: usize, point: Option<u64>)
    requires { component < length schedule.old.events }
    ensures { schedule.new ≡ with_event schedule.old component point }
{
    plain::event_at(schedule, component, point);
}

/// The schedule of a run that goes on from a point: each periodic Clock stands before its least tick above it.
pub fn resume_at(
    alloc: Global,
    clocks: &[TimeClock],
    components: usize,
    start: u64,
    stop: u64,
    t: u64,
) -> Result<Schedule, AllocError>
    requires run { start ≤ stop }
    requires stop { stop ≤ 2 ^ 62 }
    requires point { t ≤ stop }
    requires clocks { All IsSoundClock clocks.now }
    ensures { IfOk result (λ schedule.
        schedule ≡ record {
          start = start;
          stop = stop;
          clocks = map (resumed_state start t) clocks.now;
          events = replicate components None;
        }) }
{
    Schedule::resume(alloc, clocks, components, start, stop, t)
}

/// Whether a Clock ticks at `t`, by one counted step at most.
pub fn ticks_at<L: Ledger>(schedule: &Schedule, clock: usize, t: u64, steps: &mut Steps<L>) -> bool
    requires clock { clock < length schedule.now.clocks }
    requires none_below { (other point : ℕ) → TicksAt schedule.now other point → t ≤ point }
    ensures due { IsTrue result ↔ TicksAt schedule.now clock t }
    ensures cost { steps.new ≤ steps.old + 1 }
{
    schedule.due(clock, t, steps)
}
