ghost use Rattle.std.specs.Prelude.{◌≡◌, ◌≤◌, ◌<◌, ◌^◌};
ghost use Rattle.tick_schedule.specs.Points.{HasCount, IsNear, IsSoundState, point_of, up_to};
ghost use Rattle.tick_schedule.specs.Timetable.{after_tick, first_state, resumed_in, ticks_up_to, timing_in};

use value_types::IntervalVariability;

/// What the point of a Clock is that doesn't tick up to the stop.
pub(crate) const PAST: u64 = u64::MAX;

/// A time-based Clock before a run (FMI 3.0, 2.2.8 and 2.2.9). Interval and shift are counts, where they are known: of a
/// constant Clock, and of a fixed one that isn't to be asked for them.
#[derive(Clone, Copy, Debug, PartialEq, Eq)]
pub struct TimeClock {
    pub variability: IntervalVariability,
    pub interval: Option<u128>,
    pub shift: Option<u128>,
}

/// Where a time-based Clock stands in a run. All is in counts.
#[derive(Clone, Copy, Debug, PartialEq, Eq)]
pub enum ClockState {
    /// fixed, and still to be asked for its interval and shift
    Unasked,
    /// constant or fixed, with the number of the tick that comes next
    Periodic {
        interval: u128,
        shift: u128,
        ticks: u64,
    },
    /// countdown or changing, and armed for a point or not
    Countdown {
        armed: Option<u128>,
    },
}

impl TimeClock {
    /// Where the Clock stands before the first instant.
    pub(crate) fn first_state(&self) -> ClockState
        ensures { result ≡ first_state self.now }
    {
        match (self.variability, self.interval, self.shift) {
            (IntervalVariability::Countdown | IntervalVariability::Changing, _, _) =>
                ClockState::Countdown { armed: None },
            (_, Some(interval), Some(shift)) => ClockState::Periodic {
                interval,
                shift,
                ticks: 0,
            },
            _ => ClockState::Unasked,
        }
    }
}

/// How many ticks a periodic Clock has made up to the point.
fn ticks_up_to(start: u64, shift: u128, interval: u128, t: u64) -> u64
    requires start { start ≤ 2 ^ 62 }
    requires t { t ≤ 2 ^ 62 }
    requires shift { shift ≤ 2 ^ 126 }
    requires moves { 0 < interval }
    ensures { result ≡ ticks_up_to start shift interval t }
{
    let first = u128::from(start) + shift;
    if u128::from(t) < first {
        0
    } else {
        ((u128::from(t) - first) / interval) as u64 + 1
    }
}

impl ClockState {
    /// The interval and the shift of a periodic Clock.
    pub(crate) fn timing(&self) -> Option<(u128, u128)>
        ensures { result ≡ timing_in self.now }
    {
        match *self {
            ClockState::Periodic {
                interval,
                shift,
                ..
            } => Some((interval, shift)),
            ClockState::Unasked | ClockState::Countdown { .. } => None,
        }
    }

    /// Where the Clock stands after a point.
    pub(crate) fn resumed(self, start: u64, t: u64) -> ClockState
        requires start { start ≤ 2 ^ 62 }
        requires t { t ≤ 2 ^ 62 }
        requires sound { IsSoundState self }
        ensures { result ≡ resumed_in start t self }
    {
        match self {
            ClockState::Unasked => ClockState::Unasked,
            ClockState::Periodic {
                interval,
                shift,
                ..
            } => ClockState::Periodic {
                interval,
                shift,
                ticks: ticks_up_to(start, shift, interval, t),
            },
            ClockState::Countdown { armed } => ClockState::Countdown { armed },
        }
    }

    /// Where the Clock stands once it has ticked.
    pub(crate) fn after_tick(&self) -> ClockState
        requires { HasCount self.now }
        ensures { result ≡ after_tick self.now }
    {
        match *self {
            ClockState::Unasked => ClockState::Unasked,
            ClockState::Periodic {
                interval,
                shift,
                ticks,
            } => ClockState::Periodic {
                interval,
                shift,
                ticks: ticks + 1,
            },
            ClockState::Countdown { .. } => ClockState::Countdown { armed: None },
        }
    }

    /// The point at which the Clock ticks next, or `PAST`.
    pub(crate) fn next_point(&self, start: u64, stop: u64) -> u64
        requires start { start ≤ 2 ^ 62 }
        requires near { IsNear self.now }
        ensures { result ≡ point_of start stop self.now }
    {
        match *self {
            ClockState::Unasked => PAST,
            ClockState::Periodic {
                interval,
                shift,
                ticks,
            } => point_up_to(
                stop,
                u128::from(start) + shift + u128::from(ticks) * interval,
            ),
            ClockState::Countdown { armed: Some(point) } => point_up_to(stop, point),
            ClockState::Countdown { armed: None } => PAST,
        }
    }
}

fn point_up_to(stop: u64, point: u128) -> u64
    ensures { result ≡ up_to stop point }
{
    if point <= u128::from(stop) {
        point as u64
    } else {
        PAST
    }
}
