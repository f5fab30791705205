ghost use Rattle.std.specs.Prelude.{◌≡◌, ◌+◌, ◌<◌, ◌==◌, Some, false, true, OnOk, All, length, option_map};
ghost use Rattle.std.specs.List.{slice_get};
ghost use Rattle.std.specs.Option.{option_map_or};
ghost use Rattle.clock_fraction.specs.Counts.{counts_of};
ghost use Rattle.system_model.specs.declared.system.Component.{Component};
ghost use Rattle.system_model.specs.Sound.{IsSound};
ghost use Rattle.tick_schedule.specs.declared.clock.ClockState.{ClockState};
ghost use Rattle.tick_schedule.specs.declared.clock.ClockState.TheVariants.{Countdown};
ghost use Rattle.tick_schedule.specs.Timetable.{HasNext, IsCountdown, with_clock};
ghost use Rattle.slot_calls.specs.Slots.{LiveSlot, Stands, instances};
ghost use Rattle.slot_calls.specs.Stage.{shapes, shapes_of};
ghost use Rattle.event_iteration.specs.Clocks.{StandsAt, timers_in};
ghost use Rattle.event_iteration.specs.Instants.{IsRunning};
ghost use Rattle.event_iteration.specs.Intervals.{AsksIntervals, RearmsForMachines, TellsTicks, interval_by, is_time_clock};
ghost use Rattle.event_iteration.specs.Participants.{AreParticipants};
ghost use Rattle.event_iteration.specs.Questions.{AreActive, AreRunning, AsksPort, GoesFrom, IsActive, IsAfter, IsArmed, armed_anew, arms_now, counts_down, has_no_count, is_asked_after, modes, rearmed, ticked_if};

use crate::Participants;
use crate::clocks::{ask, interval_in};
use crate::instants::is_active;
use clock_fraction::{Fraction, to_counts};
use fmi_calls::{Call, Interval, Reply};
use fmu_peer::{Peer, Slot};
use port_values::PortValues;
use slot_calls::BadAnswer;
use system_model::{Role, System, Timing};
use tick_schedule::{Schedule, plain};

/// Goes on after an instant at a point, with its values (FMI 3.0, 2.2.9): each Clock that ticked in it goes on to its next
/// tick, and each countdown Clock, whose arming a tick takes away, is asked for its interval, and so is each changing Clock
/// that ticked, in port order, up to the first answer that isn't good. A new interval arms a countdown Clock for that many
/// counts after the point, one that is unchanged leaves it, and where there is none yet it is armed no longer; any interval
/// arms a changing Clock. It is told whether a Clock is armed for the point itself.
pub fn ask_intervals<L: Peer>(
    slots: &mut [Slot<L>],
    system: &System,
    participants: &Participants,
    schedule: &mut Schedule,
    per_second: u64,
    is_first: bool,
    values: &PortValues,
    t: u64,
) -> Result<bool, BadAnswer>
    requires sound { IsSound system.now }
    requires participants { AreParticipants system.now participants.now }
    requires counts { All (λ (c : Component). c.shape.resolution ≡ per_second)
        system.now.components }
    requires shapes { shapes (instances L.view slots.old) ≡ shapes_of system.now }
    requires live { All (LiveSlot L.view) slots.old }
    requires running { All (Stands IsRunning L.view) slots.old }
    requires places { length values.now ≡ length system.now.ports }
    requires stands { StandsAt system.now t is_first schedule.old }
    requires ticks { TellsTicks system.now schedule.old t values.now }
    requires active { AreActive system.now values.now (modes (instances L.view slots.old)) }
    ensures live { OnOk result (All (LiveSlot L.view) slots.new) }
    ensures run { (schedule.new.start ≡ schedule.old.start) ×
        (schedule.new.stop ≡ schedule.old.stop) }
    ensures events { schedule.new.events ≡ schedule.old.events }
    ensures stands { OnOk result (StandsAt system.now t false schedule.new) }
    ensures asks { AsksIntervals system.now per_second t values.now (timers_in schedule.old)
        (timers_in schedule.new) (instances L.view slots.old) (instances L.view slots.new) result }
    ensures machines { OnOk result (RearmsForMachines system.now per_second t values.now
        (timers_in schedule.old) (timers_in schedule.new) (instances L.view slots.old)
        (instances L.view slots.new)) }
{
    let ports = system.ports.as_slice();
    let mut is_armed = false;
    let mut p = participants.time_clocks.from(0);
    while p < values.len() {
        let reply = match ask_interval(slots, system, p, values.at(p)) {
            Ok(reply) => reply,
            Err(bad) => return Err(bad),
        };
        let told = interval_by(&reply);
        is_armed |= go_on(
            schedule,
            &ports[p].role,
            per_second,
            values.at(p),
            t,
            p,
            told,
        );
        p = participants.time_clocks.from(p + 1);
    }
    Ok(is_armed)
}

// Asks for the interval of one port, which has this value, if it is a countdown Clock, or a changing one that ticks.
fn ask_interval<L: Peer>(
    slots: &mut [Slot<L>],
    system: &System,
    p: usize,
    value: Option<i128>,
) -> Result<Option<Reply>, BadAnswer>
    requires port { p < length system.now.ports }
    requires sound { IsSound system.now }
    requires shapes { shapes (instances L.view slots.old) ≡ shapes_of system.now }
    requires live { All (LiveSlot L.view) slots.old }
    requires running { AreRunning system.now (modes (instances L.view slots.old)) }
    requires active { IsActive system.now p value (modes (instances L.view slots.old)) }
    ensures live { OnOk result (All (LiveSlot L.view) slots.new) }
    ensures modes { OnOk result (modes (instances L.view slots.new) ≡
        modes (instances L.view slots.old)) }
    ensures asks { AsksPort system.now p value (instances L.view slots.old)
        (instances L.view slots.new) result }
{
    let port = &system.ports.as_slice()[p];
    if !is_asked_after(&port.role, value) {
        return Ok(None);
    }
    match ask(
        slots,
        port.component,
        Call::GetInterval {
            reference: port.reference,
        },
    ) {
        Ok(reply) => Ok(Some(reply)),
        Err(bad) => Err(bad),
    }
}

// What a reply tells of an interval, if there is one.
fn interval_by(reply: &Option<Reply>) -> Interval
    ensures { result ≡ interval_by reply.now }
{
    match reply {
        Some(reply) => interval_in(reply),
        None => Interval::NotYetKnown,
    }
}

// Goes on at one port with what was told of its interval, and tells whether it is a Clock that is armed for the point.
fn go_on(
    schedule: &mut Schedule,
    role: &Role,
    per_second: u64,
    value: Option<i128>,
    t: u64,
    p: usize,
    interval: Interval,
) -> bool
    requires place { GoesFrom schedule.old role.now t p value }
    ensures goes { IsAfter role.now per_second t p value interval schedule.old schedule.new }
    ensures armed { IsArmed t p schedule.new result }
{
    if !is_time_clock(role) {
        return false;
    }
    tick_if(schedule, p, is_active(value));
    if counts_down(role) {
        return rearm(schedule, p, interval, per_second, t);
    }
    if is_asked_after(role, value) {
        return arm_anew(schedule, p, interval, per_second, t);
    }
    false
}

// Whether a port is a time-based Clock.
pub(crate) fn is_time_clock(role: &Role) -> bool
    ensures { result ≡ is_time_clock role.now }
{
    match role {
        Role::TimeClock { .. } => true,
        Role::Input { .. } | Role::Output | Role::ClockInput { .. } | Role::ClockOutput => false,
    }
}

// Whether a port is a countdown Clock.
fn counts_down(role: &Role) -> bool
    ensures { result ≡ counts_down role.now }
{
    match role {
        Role::TimeClock {
            timing: Timing::Countdown,
        } => true,
        Role::TimeClock {
            timing: Timing::Periodic { .. },
        }
        | Role::TimeClock {
            timing: Timing::Answered,
        }
        | Role::TimeClock {
            timing: Timing::Changing,
        }
        | Role::Input { .. }
        | Role::Output
        | Role::ClockInput { .. }
        | Role::ClockOutput => false,
    }
}

// Whether a port that has this value is a countdown Clock, or a changing one that ticks.
fn is_asked_after(role: &Role, value: Option<i128>) -> bool
    ensures { result ≡ is_asked_after role.now value }
{
    match role {
        Role::TimeClock {
            timing: Timing::Countdown,
        } => true,
        Role::TimeClock {
            timing: Timing::Changing,
        } => is_active(value),
        Role::TimeClock {
            timing: Timing::Periodic { .. },
        }
        | Role::TimeClock {
            timing: Timing::Answered,
        }
        | Role::Input { .. }
        | Role::Output
        | Role::ClockInput { .. }
        | Role::ClockOutput => false,
    }
}

// The Clock has ticked, if it is so.
fn tick_if(schedule: &mut Schedule, p: usize, ticks: bool)
    requires { ticks ≡ true → HasNext schedule.old p }
    ensures { (place : ClockState) → slice_get schedule.old.clocks p ≡ Some place →
        schedule.new ≡ with_clock schedule.old p (ticked_if ticks place) }
{
    if ticks {
        plain::ticked(schedule, p);
    }
}

// Arms a countdown Clock by an interval that was answered at the point, and tells whether it is now armed for the point itself.
fn rearm(schedule: &mut Schedule, p: usize, interval: Interval, per_second: u64, t: u64) -> bool
    requires { IsCountdown schedule.old p }
    ensures rearmed { (place : ClockState) → slice_get schedule.old.clocks p ≡ Some place →
        schedule.new ≡ with_clock schedule.old p (rearmed per_second t interval place) }
    ensures now { result ≡ arms_now per_second interval }
{
    match interval {
        Interval::NotYetKnown => {
            plain::disarm(schedule, p);
            false
        }
        Interval::Unchanged(_) => false,
        Interval::Changed(interval) => arm_after(schedule, p, interval, per_second, t),
    }
}

// Arms a changing Clock by an interval that was answered at the point, and tells whether it is now armed for the point itself.
fn arm_anew(schedule: &mut Schedule, p: usize, interval: Interval, per_second: u64, t: u64) -> bool
    requires { IsCountdown schedule.old p }
    ensures anew { schedule.new ≡ with_clock schedule.old p (armed_anew per_second t interval) }
    ensures now { result ≡ has_no_count per_second interval }
{
    match interval {
        Interval::NotYetKnown => {
            plain::disarm(schedule, p);
            false
        }
        Interval::Unchanged(interval) | Interval::Changed(interval) => {
            arm_after(schedule, p, interval, per_second, t)
        }
    }
}

// Arms a Clock for an interval after the point, and tells whether it is now armed for the point itself. It is armed no longer
// where the interval is no whole number of counts.
fn arm_after(schedule: &mut Schedule, p: usize, interval: Fraction, per_second: u64, t: u64) -> bool
    requires { IsCountdown schedule.old p }
    ensures armed { schedule.new ≡ with_clock schedule.old p
        (Countdown (option_map (λ counts. t + counts) (counts_of interval per_second))) }
    ensures now { result ≡
        option_map_or (λ counts. counts == 0) (counts_of interval per_second) false }
{
    match to_counts(interval, per_second) {
        Some(counts) => {
            plain::arm(schedule, p, u128::from(t) + counts);
            counts == 0
        }
        None => {
            plain::disarm(schedule, p);
            false
        }
    }
}
