ghost use Rattle.std.specs.Prelude.{◌≡◌, ℕ, Some, None};
ghost use Rattle.value_types.specs.declared.shape.IntervalVariability.TheVariants.{Constant};

use clock_fraction::{Fraction, to_counts};
use std::alloc::{AllocError, Global};
use std::process::Abort;
use tick_schedule::{Schedule, TimeClock, plain};
use value_types::IntervalVariability;

const FAR: u64 = 1 << 62;

fn periodic_clock(interval: u128, shift: u128) -> TimeClock
    ensures { result ≡ record { variability = Constant; interval = Some interval; shift = Some shift } }
{
    TimeClock {
        variability: IntervalVariability::Constant,
        interval: Some(interval),
        shift: Some(shift),
    }
}

// A second in thirds, of which each has 333 counts.
fn thirds<R: Abort>(rt: &R, alloc: Global) -> Result<(), AllocError> {
    let third = Fraction {
        counter: 1,
        resolution: 3,
    };
    assert_eq!(rt; to_counts(third, 999), Some(333));
    let mut schedule = Schedule::new(alloc, &[periodic_clock(333, 0)], 0, 0, FAR)?;
    for k in 0..1_000_000u64 {
        assert!(rt; plain::due(&schedule, 0, 333 * k), "tick {k}");
        plain::ticked(&mut schedule, 0);
        assert!(rt; !plain::due(&schedule, 0, 333 * k), "past tick {k}");
    }
    assert_eq!(rt;
        plain::next_after(&schedule, 332_999_999),
        Some(333_000_000)
    );
    Ok(())
}

#[test]
fn a_third_of_a_second_never_drifts(rt: HostRuntime) -> Result<(), AllocError> {
    thirds(&rt, rt.alloc())
}

fn nothing<R: Abort>(rt: &R, alloc: Global) -> Result<(), AllocError> {
    let schedule = Schedule::new(alloc, &[], 0, 3, FAR)?;
    assert_eq!(rt; plain::next_after(&schedule, 3), None);
    Ok(())
}

#[test]
fn no_clock_never_ticks(rt: HostRuntime) -> Result<(), AllocError> {
    nothing(&rt, rt.alloc())
}

// Of two components the first has its event time, until the second has an earlier one.
fn two_events<R: Abort>(rt: &R, alloc: Global) -> Result<(), AllocError> {
    let mut schedule = Schedule::new(alloc, &[], 2, 3, FAR)?;
    plain::event_at(&mut schedule, 0, Some(20));
    assert_eq!(rt; plain::next_after(&schedule, 3), Some(20));
    plain::event_at(&mut schedule, 1, Some(7));
    assert_eq!(rt; plain::next_after(&schedule, 3), Some(7));
    plain::event_at(&mut schedule, 1, None);
    assert_eq!(rt; plain::next_after(&schedule, 3), Some(20));
    Ok(())
}

#[test]
fn the_least_event_time_comes_first(rt: HostRuntime) -> Result<(), AllocError> {
    two_events(&rt, rt.alloc())
}

// After half a million thirds of a second the Clock goes on with the tick that comes next, and the event time is told.
fn resumed_thirds<R: Abort>(rt: &R, alloc: Global) -> Result<(), AllocError> {
    let clocks = [periodic_clock(333, 5)];
    let mut schedule = Schedule::resume(alloc, &clocks, 1, 0, FAR, 166_500_005)?;
    assert_eq!(rt; schedule.timing(0), Some((333, 5)));
    assert_eq!(rt; plain::point(&schedule, 0), Some(166_500_338));
    assert_eq!(rt; plain::event_point(&schedule, 0), None);
    plain::event_at(&mut schedule, 0, Some(166_500_010));
    assert_eq!(rt; plain::event_point(&schedule, 0), Some(166_500_010));
    Ok(())
}

#[test]
fn a_resumed_clock_ticks_after_the_point(rt: HostRuntime) -> Result<(), AllocError> {
    resumed_thirds(&rt, rt.alloc())
}
