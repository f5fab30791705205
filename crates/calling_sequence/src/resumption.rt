//! Where a run stands that is resumed: its values and its schedule.
ghost use Rattle.std.specs.Prelude.{◌≡◌, ◌<◌, IfOk, length};
ghost use Rattle.system_model.specs.Plans.{IsPlan};
ghost use Rattle.system_model.specs.Sound.{IsSound};
ghost use Rattle.system_checkpoint.specs.Spelling.{CanBeHeld};
ghost use Rattle.calling_sequence.specs.Holding.{AreArmable, armed_by, clock_by, clocks_by, resumed_table, value_by, values_by};
ghost use Rattle.calling_sequence.specs.Ready.{IsPlanOf};

use crate::Experiment;
use event_iteration::clock_of;
use port_values::PortValues;
use std::alloc::{AllocError, Global};
use system_checkpoint::{Arming, ClockTimes, Snapshot};
use system_model::{Port, Role};
use tick_schedule::{Schedule, TimeClock, plain};
use value_types::{IntervalVariability, PortType, from_word};

/// The value of each port.
pub(crate) fn values_of(
    alloc: Global,
    ports: &[Port],
    words: &[Option<u64>],
) -> Result<PortValues, AllocError>
    requires { length words.now ≡ length ports.now }
    ensures { IfOk result (λ values. values ≡ values_by ports.now words.now) }
{
    let mut values = PortValues::none(alloc, ports.len())?;
    for (place, port) in ports.iter().enumerate() {
        let word = words[place];
        values.put(place, value_of(port.kind, word));
    }
    Ok(values)
}

fn value_of(kind: PortType, word: Option<u64>) -> Option<i128>
    ensures { result ≡ value_by kind word }
{
    match word {
        Some(word) => from_word(kind, word),
        None => None,
    }
}

/// The schedule: each periodic Clock before its least tick above the point, and what was armed.
pub(crate) fn schedule_of(
    alloc: Global,
    experiment: &Experiment,
    held: &Snapshot,
) -> Result<Schedule, AllocError>
    requires sound { IsSound experiment.now.system }
    requires plan { IsPlan experiment.now.plan }
    requires can { CanBeHeld experiment.now.system held.now }
    requires plan_of { IsPlanOf experiment.now.plan held.now }
    ensures { IfOk result (λ schedule.
        schedule ≡ resumed_table experiment.now.system experiment.now.plan held.now) }
{
    let system = &experiment.system;
    let plan = &experiment.plan;
    let clocks = clocks_of(alloc, system.ports.as_slice(), held.times.as_slice())?;
    let mut schedule = Schedule::resume(
        alloc,
        clocks.as_slice(),
        system.components.len(),
        plan.start,
        plan.stop,
        held.point,
    )?;
    arm_each(&mut schedule, held.armings.as_slice());
    time_each(&mut schedule, held.events.as_slice());
    Ok(schedule)
}

// What each port is to the schedule.
fn clocks_of(
    alloc: Global,
    ports: &[Port],
    times: &[Option<ClockTimes>],
) -> Result<Vec<TimeClock>, AllocError>
    requires { length times.now ≡ length ports.now }
    ensures { IfOk result (λ clocks. clocks.items ≡ clocks_by ports.now times.now) }
{
    let mut clocks = Vec::with_capacity(alloc, ports.len())?;
    for (place, port) in ports.iter().enumerate() {
        let own = times[place];
        clocks.push(clock_with(&port.role, own))?;
    }
    Ok(clocks)
}

// A fixed Clock that was asked has its interval and its shift; any other is as before a run.
fn clock_with(role: &Role, times: Option<ClockTimes>) -> TimeClock
    ensures { result ≡ clock_by role.now times }
{
    match times {
        Some(times) => TimeClock {
            variability: IntervalVariability::Fixed,
            interval: Some(times.interval),
            shift: Some(times.shift),
        },
        None => clock_of(role),
    }
}

// Arms each Clock that was armed.
fn arm_each(schedule: &mut Schedule, armings: &[Arming])
    requires { AreArmable armings.now schedule.old.clocks }
    ensures { schedule.new ≡
        record schedule.old { clocks = armed_by armings.now schedule.old.clocks } }
{
    for (clock, arming) in armings.iter().enumerate() {
        if let Arming::At(point) = arming {
            plain::arm(schedule, clock, u128::from(*point));
        }
    }
}

// Gives each component its event time.
fn time_each(schedule: &mut Schedule, events: &[Option<u64>])
    requires { length events.now ≡ length schedule.old.events }
    ensures { schedule.new ≡ record schedule.old { events = events.now } }
{
    for (component, event) in events.iter().enumerate() {
        plain::event_at(schedule, component, *event);
    }
}
