ghost use Rattle.std.specs.Prelude.{◌≡◌, ℕ, ◌<◌, ◌≤◌, ◌^◌, [], ◌∷◌, Some, true, OnOk, IfOk, IsSome, All, length, map};
ghost use Rattle.std.specs.List.{slice_get};
ghost use Rattle.fmi_calls.specs.declared.phase.InstanceState.TheVariants as P;
ghost use Rattle.fmi_calls.specs.Worth.{has_counts, is_known_interval};
ghost use Rattle.system_model.specs.declared.system.Component.{Component};
ghost use Rattle.system_model.specs.declared.system.Port.{Port};
ghost use Rattle.system_model.specs.Sound.{IsSound};
ghost use Rattle.clock_fraction.specs.Counts.{counts_of};
ghost use Rattle.tick_schedule.specs.Timetable.{IsCountdown, IsUnasked};
ghost use Rattle.run_model.specs.Initial.{interval_in, shift_in};
ghost use Rattle.run_model.specs.Timers.{armed_after, fixed};
ghost use Rattle.slot_calls.specs.Carried.{with_some};
ghost use Rattle.slot_calls.specs.Slots.{LiveSlot, Stands, instances};
ghost use Rattle.slot_calls.specs.Stage.{Stage, shapes, shapes_of};
ghost use Rattle.event_iteration.specs.Clocks.{StandsAt, first_clock, first_place, first_table, timers_in, unasked};
ghost use Rattle.event_iteration.specs.Initialization.{IsInInitialization};
ghost use Rattle.event_iteration.specs.Intervals.{Fixes, FixesForMachines};
ghost use Rattle.event_iteration.specs.Questions.{FixesPort, InstanceMode, IsEntered, IsShifted, MayTell, counts_told, first_reply, is_asked, is_changing, modes};

use clock_fraction::{Fraction, to_counts};
use fmi_calls::{Call, Content, Interval, Reply};
use fmu_peer::{Peer, Slot};
use sim_base::CompId;
use slot_calls::{BadAnswer, send};
use std::alloc::{AllocError, Global};
use system_model::{Port, Role, System, Timing};
use tick_schedule::{Schedule, TimeClock, plain};
use value_types::IntervalVariability;

/// The schedule of a system's Clocks and components before a run from start to stop, which are counts. It has a place for
/// each port: that of a port that is no time-based Clock never ticks, and neither does that of a fixed or changing Clock
/// until its FMU was asked. No component has an event time.
pub fn schedule_of(
    alloc: Global,
    system: &System,
    start: u64,
    stop: u64,
) -> Result<Schedule, AllocError>
    requires sound { IsSound system.now }
    requires run { start ≤ stop }
    requires stop { stop ≤ 2 ^ 62 }
    ensures { IfOk result (λ schedule. schedule ≡ first_table system.now start stop) }
{
    let clocks = clocks_of(alloc, system.ports.as_slice())?;
    Schedule::new(
        alloc,
        clocks.as_slice(),
        system.components.len(),
        start,
        stop,
    )
}

// What each port is to the schedule.
fn clocks_of(alloc: Global, ports: &[Port]) -> Result<Vec<TimeClock>, AllocError>
    ensures { IfOk result (λ clocks. clocks.items ≡ map (λ (port : Port). first_clock port.role)
        ports.now) }
{
    let mut clocks = Vec::new(alloc);
    for port in ports {
        clocks.push(clock_of(&port.role))?;
    }
    Ok(clocks)
}

/// What a port is to the schedule before a run.
pub fn clock_of(role: &Role) -> TimeClock
    ensures { result ≡ first_clock role.now }
{
    match role {
        Role::TimeClock {
            timing: Timing::Periodic { interval, shift },
        } => TimeClock {
            variability: IntervalVariability::Constant,
            interval: Some(*interval),
            shift: Some(*shift),
        },
        Role::TimeClock {
            timing: Timing::Answered,
        } => unasked_clock(IntervalVariability::Fixed),
        Role::TimeClock {
            timing: Timing::Countdown,
        } => unasked_clock(IntervalVariability::Countdown),
        Role::TimeClock {
            timing: Timing::Changing,
        } => unasked_clock(IntervalVariability::Changing),
        Role::Input { .. } | Role::Output | Role::ClockInput { .. } | Role::ClockOutput => {
            unasked_clock(IntervalVariability::Triggered)
        }
    }
}

fn unasked_clock(variability: IntervalVariability) -> TimeClock
    ensures { result ≡ unasked variability }
{
    TimeClock {
        variability,
        interval: None,
        shift: None,
    }
}

/// Asks the FMU of each fixed Clock for its interval and its shift, and that of each changing Clock for its shift (FMI 3.0,
/// 2.2.9), in port order, up to the first answer that isn't good, and enters them into the schedule, in which the shift arms
/// a changing Clock. Each FMU is in Initialization Mode, and `start` is the schedule's.
pub fn fix_clocks<L: Peer>(
    slots: &mut [Slot<L>],
    system: &System,
    schedule: &mut Schedule,
    per_second: u64,
    start: u64,
) -> Result<(), BadAnswer>
    requires sound { IsSound system.now }
    requires counts { All (λ (c : Component). c.shape.resolution ≡ per_second)
        system.now.components }
    requires shapes { shapes (instances L.view slots.old) ≡ shapes_of system.now }
    requires live { All (LiveSlot L.view) slots.old }
    requires initializing { All (Stands IsInInitialization L.view) slots.old }
    requires first { schedule.old ≡ first_table system.now schedule.old.start schedule.old.stop }
    requires run { schedule.old.start ≤ schedule.old.stop }
    requires start { schedule.old.start ≡ start }
    ensures live { OnOk result (All (LiveSlot L.view) slots.new) }
    ensures run { (schedule.new.start ≡ schedule.old.start) ×
        (schedule.new.stop ≡ schedule.old.stop) }
    ensures events { schedule.new.events ≡ schedule.old.events }
    ensures stands { OnOk result (StandsAt system.now schedule.old.start true schedule.new) }
    ensures fixes { Fixes system.now per_second schedule.old.start (timers_in schedule.new)
        (instances L.view slots.old) (instances L.view slots.new) result }
    ensures machines { OnOk result (FixesForMachines system.now per_second schedule.old.start
        (timers_in schedule.new) (instances L.view slots.old) (instances L.view slots.new)) }
{
    for p in 0..system.ports.len() {
        match fix_clock(slots, system, schedule, per_second, start, p) {
            Ok(()) => {}
            Err(bad) => return Err(bad),
        }
    }
    Ok(())
}

// Asks for the interval and the shift of one port, if it is a fixed Clock, and for the shift if it is a changing one, and
// enters them.
fn fix_clock<L: Peer>(
    slots: &mut [Slot<L>],
    system: &System,
    schedule: &mut Schedule,
    per_second: u64,
    start: u64,
    p: usize,
) -> Result<(), BadAnswer>
    requires port { p < length system.now.ports }
    requires sound { IsSound system.now }
    requires counts { All (λ (c : Component). c.shape.resolution ≡ per_second)
        system.now.components }
    requires shapes { shapes (instances L.view slots.old) ≡ shapes_of system.now }
    requires live { All (LiveSlot L.view) slots.old }
    requires initializing { (i : ℕ) (mode : InstanceMode) →
        slice_get (modes (instances L.view slots.old)) i ≡ Some mode →
        mode.state ≡ P.Initialization }
    requires first { (port : Port) → slice_get system.now.ports p ≡ Some port →
        slice_get schedule.old.clocks p ≡ Some (first_place port.role) }
    requires start { schedule.old.start ≡ start }
    ensures live { OnOk result (All (LiveSlot L.view) slots.new) }
    ensures modes { OnOk result (modes (instances L.view slots.new) ≡
        modes (instances L.view slots.old)) }
    ensures run { (schedule.new.start ≡ schedule.old.start) ×
        (schedule.new.stop ≡ schedule.old.stop) }
    ensures events { schedule.new.events ≡ schedule.old.events }
    ensures fixes { (port : Port) → slice_get system.now.ports p ≡ Some port →
        FixesPort port per_second p schedule.old schedule.new (instances L.view slots.old)
        (instances L.view slots.new) result }
{
    let port = &system.ports.as_slice()[p];
    if is_changing(&port.role) {
        return shift_clock(slots, system, schedule, per_second, start, p);
    }
    if !is_asked(&port.role) {
        return Ok(());
    }
    let interval = match ask(
        slots,
        port.component,
        Call::GetInterval {
            reference: port.reference,
        },
    ) {
        Ok(reply) => interval_in(&reply),
        Err(bad) => return Err(bad),
    };
    let shift = match ask(
        slots,
        port.component,
        Call::GetShift {
            reference: port.reference,
        },
    ) {
        Ok(reply) => shift_in(&reply),
        Err(bad) => return Err(bad),
    };
    fix(schedule, p, interval, shift, per_second);
    Ok(())
}

// Asks for the shift of one port, which is a changing Clock, and enters it.
fn shift_clock<L: Peer>(
    slots: &mut [Slot<L>],
    system: &System,
    schedule: &mut Schedule,
    per_second: u64,
    start: u64,
    p: usize,
) -> Result<(), BadAnswer>
    requires port { p < length system.now.ports }
    requires sound { IsSound system.now }
    requires counts { All (λ (c : Component). c.shape.resolution ≡ per_second)
        system.now.components }
    requires shapes { shapes (instances L.view slots.old) ≡ shapes_of system.now }
    requires live { All (LiveSlot L.view) slots.old }
    requires initializing { (i : ℕ) (mode : InstanceMode) →
        slice_get (modes (instances L.view slots.old)) i ≡ Some mode →
        mode.state ≡ P.Initialization }
    requires first { (port : Port) → slice_get system.now.ports p ≡ Some port →
        slice_get schedule.old.clocks p ≡ Some (first_place port.role) }
    requires start { schedule.old.start ≡ start }
    requires changing { (port : Port) → slice_get system.now.ports p ≡ Some port →
        is_changing port.role ≡ true }
    ensures live { OnOk result (All (LiveSlot L.view) slots.new) }
    ensures modes { OnOk result (modes (instances L.view slots.new) ≡
        modes (instances L.view slots.old)) }
    ensures run { (schedule.new.start ≡ schedule.old.start) ×
        (schedule.new.stop ≡ schedule.old.stop) }
    ensures events { schedule.new.events ≡ schedule.old.events }
    ensures fixes { (port : Port) → slice_get system.now.ports p ≡ Some port →
        FixesPort port per_second p schedule.old schedule.new (instances L.view slots.old)
        (instances L.view slots.new) result }
{
    let port = &system.ports.as_slice()[p];
    let shift = match ask(
        slots,
        port.component,
        Call::GetShift {
            reference: port.reference,
        },
    ) {
        Ok(reply) => shift_in(&reply),
        Err(bad) => return Err(bad),
    };
    arm_first(schedule, p, shift, per_second, start);
    Ok(())
}

// Enters the interval and the shift of a fixed Clock, which are whole counts, the interval at least one.
fn fix(schedule: &mut Schedule, p: usize, interval: Interval, shift: Fraction, per_second: u64)
    requires unasked { IsUnasked schedule.old p }
    requires range { per_second ≤ 2 ^ 62 }
    requires interval { is_known_interval interval per_second ≡ true }
    requires shift { has_counts 0 shift per_second ≡ true }
    ensures { IsEntered p (fixed per_second interval shift) schedule.old schedule.new }
{
    let interval = interval_counts(interval, per_second);
    let shift = whole_counts(shift, per_second);
    plain::fix(schedule, p, interval, shift);
}

// Arms a changing Clock for the shift, which is whole counts, from the start.
fn arm_first(schedule: &mut Schedule, p: usize, shift: Fraction, per_second: u64, start: u64)
    requires unarmed { IsCountdown schedule.old p }
    requires range { per_second ≤ 2 ^ 62 }
    requires shift { has_counts 0 shift per_second ≡ true }
    requires start { schedule.old.start ≡ start }
    ensures { IsShifted p (armed_after start (counts_of shift per_second)) schedule.old
        schedule.new }
{
    let shift = whole_counts(shift, per_second);
    plain::arm(schedule, p, u128::from(start) + shift);
}

// The interval of a fixed Clock in counts.
fn interval_counts(interval: Interval, per_second: u64) -> u128
    requires range { per_second ≤ 2 ^ 62 }
    requires known { is_known_interval interval per_second ≡ true }
    ensures counts { counts_told per_second interval ≡ Some result }
    ensures above { 0 < result }
    ensures within { result ≤ 2 ^ 126 }
{
    match interval {
        Interval::Unchanged(fraction) => whole_counts(fraction, per_second),
        Interval::Changed(fraction) => whole_counts(fraction, per_second),
        Interval::NotYetKnown => unreachable!(),
    }
}

// The counts of a fraction that is a whole number of them.
fn whole_counts(fraction: Fraction, per_second: u64) -> u128
    requires range { per_second ≤ 2 ^ 62 }
    requires whole { IsSome (counts_of fraction per_second) }
    ensures counts { counts_of fraction per_second ≡ Some result }
    ensures within { result ≤ 2 ^ 126 }
{
    to_counts(fraction, per_second).unwrap()
}

// Whether a port is a fixed Clock whose FMU is asked.
fn is_asked(role: &Role) -> bool
    ensures { result ≡ is_asked role.now }
{
    match role {
        Role::TimeClock {
            timing: Timing::Answered,
        } => true,
        Role::TimeClock {
            timing: Timing::Periodic { .. },
        }
        | Role::TimeClock {
            timing: Timing::Countdown,
        }
        | Role::TimeClock {
            timing: Timing::Changing,
        }
        | Role::Input { .. }
        | Role::Output
        | Role::ClockInput { .. }
        | Role::ClockOutput => false,
    }
}

// Whether a port is a changing Clock.
fn is_changing(role: &Role) -> bool
    ensures { result ≡ is_changing role.now }
{
    match role {
        Role::TimeClock {
            timing: Timing::Changing,
        } => true,
        Role::TimeClock {
            timing: Timing::Periodic { .. },
        }
        | Role::TimeClock {
            timing: Timing::Countdown,
        }
        | Role::TimeClock {
            timing: Timing::Answered,
        }
        | Role::Input { .. }
        | Role::Output
        | Role::ClockInput { .. }
        | Role::ClockOutput => false,
    }
}

// Asks the FMU of a component for an interval or a shift.
pub(crate) fn ask<L: Peer>(
    slots: &mut [Slot<L>],
    component: CompId,
    call: Call,
) -> Result<Reply, BadAnswer>
    requires within { component.0 < length slots.old }
    requires live { All (LiveSlot L.view) slots.old }
    requires may { MayTell call component.0 (instances L.view slots.old) }
    ensures live { OnOk result (All (LiveSlot L.view) slots.new) }
    ensures modes { OnOk result (modes (instances L.view slots.new) ≡
        modes (instances L.view slots.old)) }
    ensures stage { Stage (record { component = component.0; call = call } ∷ []) first_reply
        (instances L.view slots.old) (instances L.view slots.new) (with_some result) }
{
    match send(&mut slots[component.0 as usize], call) {
        Ok(reply) => Ok(reply),
        Err(why) => Err(BadAnswer { component, why }),
    }
}

/// What a reply tells of an interval.
pub(crate) fn interval_in(reply: &Reply) -> Interval
    ensures { result ≡ interval_in reply.now }
{
    match reply {
        Reply::Done {
            content: Content::GetInterval { interval },
            ..
        } => *interval,
        _ => Interval::NotYetKnown,
    }
}

// What a reply tells of a shift.
fn shift_in(reply: &Reply) -> Fraction
    ensures { result ≡ shift_in reply.now }
{
    match reply {
        Reply::Done {
            content: Content::GetShift { shift },
            ..
        } => *shift,
        _ => Fraction {
            counter: 0,
            resolution: 0,
        },
    }
}
