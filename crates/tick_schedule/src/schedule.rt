ghost use Rattle.std.specs.Prelude.{◌≡◌, ◌↔◌, ◌⊎◌, ℕ, ◌<◌, ◌≤◌, ◌+◌, ◌^◌, All, IfNone, IfOk, IfSome, IsTrue, Some, None, if◌then◌else◌, length, map, min, nat_le, replicate, slice_index};
ghost use Rattle.std.specs.List.{slice_get};
ghost use Rattle.tick_schedule.specs.Cost.{IsLogarithmic};
ghost use Rattle.tick_schedule.specs.Points.{IsNear, IsSoundState, event_state, past, point_of};
ghost use Rattle.tick_schedule.specs.Timetable.{EventAt, HasNext, IsCountdown, IsSoundClock, IsUnasked, TicksAt, after_tick, first_state, resumed_state, size_of, timing_in, with_clock, with_event};
ghost use Rattle.tick_schedule.specs.declared.clock.ClockState.{ClockState};
ghost use Rattle.tick_schedule.specs.declared.clock.ClockState.TheVariants.{Countdown, Periodic};

use crate::clock::{ClockState, PAST, TimeClock};
use crate::heap::Heap;
use crate::steps::Steps;
use std::alloc::{AllocError, Global};
use std::marker::{Brand, Model};
use std::sync::ledger::{Blank, Ledger};

/// When the time-based Clocks of a run tick, from its start to its stop. A Clock goes by its place in the list that
/// `new` was given.
#[derive(Drop)]
pub struct Schedule {
    start: u64,
    stop: u64,
    clocks: Vec<ClockState>,
    /// the event time of each component
    events: Vec<Option<u64>>,
    /// the next point of each Clock, and after them of each component
    points: Heap,
}

impl Model for Schedule {
    ghost use Rattle.tick_schedule.specs.Timetable.{Timetable};
    ghost use Rattle.tick_schedule.specs.Points.{IsKept, entries};

    ghost Value = { Timetable };

    ghost view = { λ s. record {
      start = s.start;
      stop = s.stop;
      clocks = s.clocks.items;
      events = s.events.items;
    } };

    ghost invariant = { λ s.
        IsKept s.start s.stop (entries s.clocks.items s.events.items) s.points };
}

impl Schedule {
    /// Each Clock before its first tick, no countdown or changing Clock armed, and no component with an event time. Nothing
    /// else of a schedule allocates memory.
    pub fn new(
        alloc: Global,
        clocks: &[TimeClock],
        components: usize,
        start: u64,
        stop: u64,
    ) -> Result<Schedule, AllocError>
        requires run { start ≤ stop }
        requires stop { stop ≤ 2 ^ 62 }
        requires clocks { All IsSoundClock clocks.now }
        ensures { IfOk result (λ schedule.
            schedule ≡ record {
              start = start;
              stop = stop;
              clocks = map first_state clocks.now;
              events = replicate components None;
            }) }
    {
        let states = first_states(alloc, clocks)?;
        Schedule::of(alloc, states, components, start, stop)
    }

    /// As `new`, but each Clock stands before its least tick above `t`.
    pub fn resume(
        alloc: Global,
        clocks: &[TimeClock],
        components: usize,
        start: u64,
        stop: u64,
        t: u64,
    ) -> Result<Schedule, AllocError>
        requires run { start ≤ stop }
        requires stop { stop ≤ 2 ^ 62 }
        requires point { t ≤ stop }
        requires clocks { All IsSoundClock clocks.now }
        ensures { IfOk result (λ schedule.
            schedule ≡ record {
              start = start;
              stop = stop;
              clocks = map (resumed_state start t) clocks.now;
              events = replicate components None;
            }) }
    {
        let states = resumed_states(alloc, clocks, start, t)?;
        Schedule::of(alloc, states, components, start, stop)
    }

    /// Clocks that stand so, and components without an event time.
    fn of(
        alloc: Global,
        states: Vec<ClockState>,
        components: usize,
        start: u64,
        stop: u64,
    ) -> Result<Schedule, AllocError>
        requires run { start ≤ stop }
        requires stop { stop ≤ 2 ^ 62 }
        requires sound { All IsSoundState states.items }
        requires near { All IsNear states.items }
        ensures { IfOk result (λ schedule.
            schedule ≡ record {
              start = start;
              stop = stop;
              clocks = states.items;
              events = replicate components None;
            }) }
    {
        let events = vec![in alloc; None; components]?;
        let count = sum(states.len(), components)?;
        let mut points = Heap::none(alloc, count)?;
        enter_points::<Brand>(&mut points, states.as_slice(), start, stop, Blank::new(1));
        Ok(Schedule {
            start,
            stop,
            clocks: states,
            events,
            points,
        })
    }

    /// The interval and the shift that it keeps of a periodic Clock.
    pub fn timing(&self, clock: usize) -> Option<(u128, u128)>
        requires { clock < length self.now.clocks }
        ensures timing { (state : ClockState) → slice_get self.now.clocks clock ≡ Some state →
            result ≡ timing_in state }
        ensures bounds { IfSome result (λ timing. (0 < timing.0) × (timing.0 ≤ 2 ^ 126) ×
            (timing.1 ≤ 2 ^ 126)) }
    {
        self.clocks[clock].timing()
    }

    /// The next point of a Clock, up to the stop.
    pub fn point<L: Ledger>(&self, clock: usize, steps: &mut Steps<L>) -> Option<u64>
        requires { clock < length self.now.clocks }
        ensures found { IfSome result (TicksAt self.now clock) }
        ensures least { IfSome result (λ point. (other : ℕ) → TicksAt self.now clock other →
            point ≤ other) }
        ensures none { IfNone result ((point : ℕ) → TicksAt self.now clock point → ⊥) }
        ensures cost { steps.new ≤ steps.old + 1 }
    {
        within(self.points.point(clock, steps), self.stop)
    }

    /// The event time of a component, up to the stop.
    pub fn event_point<L: Ledger>(&self, component: usize, steps: &mut Steps<L>) -> Option<u64>
        requires { component < length self.now.events }
        ensures found { IfSome result (EventAt self.now component) }
        ensures none { IfNone result ((point : ℕ) → EventAt self.now component point → ⊥) }
        ensures cost { steps.new ≤ steps.old + 1 }
    {
        within(
            self.points.point(self.clocks.len() + component, steps),
            self.stop,
        )
    }

    /// Gives a fixed Clock the interval and the shift, in counts, that it was asked for.
    pub fn fix<L: Ledger>(
        &mut self,
        clock: usize,
        interval: u128,
        shift: u128,
        steps: &mut Steps<L>,
    )
        requires unasked { IsUnasked self.old clock }
        requires moves { 0 < interval }
        requires interval { interval ≤ 2 ^ 126 }
        requires shift { shift ≤ 2 ^ 126 }
        ensures fixed { self.new ≡ with_clock self.old clock (Periodic interval shift 0) }
        ensures cost { IsLogarithmic (size_of self.old) steps.old steps.new }
    {
        self.set(
            clock,
            ClockState::Periodic {
                interval,
                shift,
                ticks: 0,
            },
            steps,
        );
    }

    /// Whether a Clock ticks at `t`. No Clock may have a tick below `t` that it still has to make.
    pub fn due<L: Ledger>(&self, clock: usize, t: u64, steps: &mut Steps<L>) -> bool
        requires clock { clock < length self.now.clocks }
        requires none_below { (other point : ℕ) → TicksAt self.now other point → t ≤ point }
        ensures due { IsTrue result ↔ TicksAt self.now clock t }
        ensures cost { steps.new ≤ steps.old + 1 }
    {
        is_at(self.points.point(clock, steps), t, self.stop)
    }

    /// The first point after `t`, up to the stop, at which a Clock ticks or a component has its event time. No Clock may have
    /// a tick up to `t` that it still has to make, and no component an event time up to `t`.
    pub fn next_after<L: Ledger>(&self, t: u64, steps: &mut Steps<L>) -> Option<u64>
        requires ticks_later { (clock point : ℕ) → TicksAt self.now clock point → t < point }
        requires events_later { (component point : ℕ) → EventAt self.now component point →
            t < point }
        ensures found { IfSome result (λ point. ((clock : ℕ) × TicksAt self.now clock point) ⊎
            ((component : ℕ) × EventAt self.now component point)) }
        ensures after { IfSome result (λ point. t < point) }
        ensures least_tick { IfSome result (λ point. (clock other : ℕ) →
            TicksAt self.now clock other → point ≤ other) }
        ensures least_event { IfSome result (λ point. (component other : ℕ) →
            EventAt self.now component other → point ≤ other) }
        ensures no_tick { IfNone result ((clock point : ℕ) → TicksAt self.now clock point → ⊥) }
        ensures no_event { IfNone result ((component point : ℕ) →
            EventAt self.now component point → ⊥) }
        ensures cost { steps.new ≤ steps.old + min 1 (size_of self.now) }
    {
        match self.points.least_point(steps) {
            Some(point) => if point <= self.stop {
                Some(point)
            } else {
                None
            },
            None => None,
        }
    }

    /// Arms a countdown or changing Clock for a point, in place of an earlier arming. Past the stop it is never due.
    pub fn arm<L: Ledger>(&mut self, clock: usize, point: u128, steps: &mut Steps<L>)
        requires { IsCountdown self.old clock }
        ensures armed { self.new ≡ with_clock self.old clock (Countdown (Some point)) }
        ensures cost { IsLogarithmic (size_of self.old) steps.old steps.new }
    {
        self.set(clock, ClockState::Countdown { armed: Some(point) }, steps);
    }

    /// Gives a component another event time, or none. Past the stop it is never due.
    pub fn event_at<L: Ledger>(
        &mut self,
        component: usize,
        point: Option<u64>,
        steps: &mut Steps<L>,
    )
        requires { component < length self.old.events }
        ensures event { self.new ≡ with_event self.old component point }
        ensures cost { IsLogarithmic (size_of self.old) steps.old steps.new }
    {
        let place = self.clocks.len() + component;
        let next = event_point(point, self.stop);
        self.events[component] = point;
        self.points.put(place, next, steps);
    }

    /// Disarms a countdown or changing Clock, if it is armed.
    pub fn disarm<L: Ledger>(&mut self, clock: usize, steps: &mut Steps<L>)
        requires { IsCountdown self.old clock }
        ensures disarmed { self.new ≡ with_clock self.old clock (Countdown None) }
        ensures cost { IsLogarithmic (size_of self.old) steps.old steps.new }
    {
        self.set(clock, ClockState::Countdown { armed: None }, steps);
    }

    /// A Clock has ticked at its next point: a periodic one goes on to the tick after it, and a countdown or changing one is
    /// no longer armed.
    pub fn ticked<L: Ledger>(&mut self, clock: usize, steps: &mut Steps<L>)
        requires { HasNext self.old clock }
        ensures ticked { (state : ClockState) → slice_get self.old.clocks clock ≡ Some state
            → self.new ≡ with_clock self.old clock (after_tick state) }
        ensures cost { IsLogarithmic (size_of self.old) steps.old steps.new }
    {
        let state = self.clocks[clock].after_tick();
        self.set(clock, state, steps);
    }

    /// A Clock stands elsewhere, and has the point of that.
    fn set<L: Ledger>(&mut self, clock: usize, state: ClockState, steps: &mut Steps<L>)
        requires clock { clock < length self.old.clocks }
        requires sound { IsSoundState state }
        requires near { IsNear state }
        ensures set { self.new ≡ with_clock self.old clock state }
        ensures cost { IsLogarithmic (size_of self.old) steps.old steps.new }
    {
        let point = state.next_point(self.start, self.stop);
        self.clocks[clock] = state;
        self.points.put(clock, point, steps);
    }
}

/// The next point of a component with this event time.
fn event_point(point: Option<u64>, stop: u64) -> u64
    ensures { (start : ℕ) → result ≡ point_of start stop (event_state point) }
{
    match point {
        Some(point) => if point <= stop { point } else { PAST },
        None => PAST,
    }
}

/// Whether a Clock with this next point ticks at `t`.
fn is_at(point: u64, t: u64, stop: u64) -> bool
    ensures { IsTrue result ↔ ((point ≡ t) × (t ≤ stop)) }
{
    point == t && t <= stop
}

/// A next point, where it isn't past the stop.
fn within(point: u64, stop: u64) -> Option<u64>
    ensures { result ≡ (if nat_le point stop then Some point else None) }
{
    if point <= stop { Some(point) } else { None }
}

/// Where each Clock stands after a point.
fn resumed_states(
    alloc: Global,
    clocks: &[TimeClock],
    start: u64,
    t: u64,
) -> Result<Vec<ClockState>, AllocError>
    requires start { start ≤ 2 ^ 62 }
    requires t { t ≤ 2 ^ 62 }
    requires clocks { All IsSoundClock clocks.now }
    ensures { IfOk result (λ states. states.items ≡ map (resumed_state start t) clocks.now) }
{
    let mut states = Vec::with_capacity(alloc, clocks.len())?;
    for clock in clocks {
        states.push(clock.first_state().resumed(start, t))?;
    }
    Ok(states)
}

/// How many places there are; it fails where a `usize` doesn't hold that.
fn sum(clocks: usize, components: usize) -> Result<usize, AllocError>
    ensures { IfOk result (λ count. count ≡ clocks + components) }
{
    match clocks.checked_add(components) {
        Some(count) => Ok(count),
        None => Err(AllocError),
    }
}

/// Where each Clock stands before the first instant.
fn first_states(alloc: Global, clocks: &[TimeClock]) -> Result<Vec<ClockState>, AllocError>
    ensures { IfOk result (λ states. states.items ≡ map first_state clocks.now) }
{
    clocks
        .iter()
        .map(|clock| clock.first_state())
        .collect(alloc)
}

/// Enters the first point of each Clock into a heap in which none ticks.
fn enter_points<L: Ledger>(
    points: &mut Heap,
    states: &[ClockState],
    start: u64,
    stop: u64,
    blank: Blank,
)
    requires name { blank.name ≡ L.name }
    requires parts { blank.parts ≡ L.parts }
    requires some { 0 < blank.parts }
    requires start { start ≤ 2 ^ 62 }
    requires near { All IsNear states.now }
    requires len { length states.now ≤ length points.old }
    requires past { (k : ℕ) → k < length points.old → slice_index points.old k ≡ past }
    ensures len { length points.new ≡ length points.old }
    ensures entered { (k : ℕ) → k < length states.now →
        slice_index points.new k ≡ slice_index (map (point_of start stop) states.now) k }
    ensures rest { (k : ℕ) → length states.now ≤ k → k < length points.old →
        slice_index points.new k ≡ past }
{
    let mut steps = Steps::<L>::new(blank);
    for (clock, state) in states.iter().enumerate() {
        points.put(clock, state.next_point(start, stop), &mut steps);
    }
}
