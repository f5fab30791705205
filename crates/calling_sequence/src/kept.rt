//! Where a run stands, as a checkpoint keeps it: the values of its ports, its Clocks and its event times.
ghost use Rattle.std.specs.Prelude.{◌≡◌, ◌≤◌, ◌<◌, ◌+◌, ◌*◌, ◌++◌, ℕ, All, Option, IfSome, Some, length, map, vec_capacity, vec_len};
ghost use Rattle.std.specs.List.{flat_map, slice_get};
ghost use Rattle.std.specs.Option.{option_map};
ghost use Rattle.value_types.specs.Values.{Fits, word_of};
ghost use Rattle.system_model.specs.declared.system.Role.TheVariants.{TimeClock};
ghost use Rattle.system_model.specs.declared.system.Timing.TheVariants.{Answered};
ghost use Rattle.run_model.specs.Machines.{AreFitting};
ghost use Rattle.run_rest.specs.Snapshot.{time_up_to};
ghost use Rattle.system_checkpoint.specs.Spelling.{AreTimes, arming_bytes, option_bytes, times_bytes};
ghost use Rattle.tick_schedule.specs.declared.clock.ClockState.{ClockState};
ghost use Rattle.tick_schedule.specs.declared.clock.ClockState.TheVariants.{Countdown};
ghost use Rattle.event_iteration.specs.Clocks.{IsPlaceOf, timer_in, timers_in};
ghost use Rattle.calling_sequence.specs.Holding.{AreOfRoles, FitPorts, armed_up_to, arming_of, by_port, rest_bytes, times_of};

use crate::Buffers;
use port_values::PortValues;
use system_checkpoint::{Arming, ClockTimes, put_arming, put_option, put_times};
use system_model::{Port, Role, System, Timing};
use tick_schedule::{Schedule, plain};
use value_types::{PortType, to_word};

/// Puts what a checkpoint has after the states: the values, the intervals and shifts of Clocks that were asked for them, the
/// armings, and the event times. There is room for it.
pub(crate) fn put_rest(system: &System, buffers: &Buffers, bytes: &mut Vec<u8>)
    requires places { length buffers.now.values ≡ length system.now.ports }
    requires fitting { AreFitting system.now buffers.now.values }
    requires clocks { length buffers.now.schedule.clocks ≡ length system.now.ports }
    requires events { length buffers.now.schedule.events ≡ length system.now.components }
    requires stand { AreOfRoles system.now.ports buffers.now.schedule.clocks }
    requires room { vec_len bytes.old + (length system.now.ports * 50 +
        length system.now.components * 9) ≤ vec_capacity bytes.old }
    ensures bounds { All (λ times. IfSome times AreTimes)
        (by_port times_of system.now.ports (timers_in buffers.now.schedule)) }
    ensures text { bytes.new.items ≡ bytes.old.items ++ rest_bytes system.now
        buffers.now.schedule.stop buffers.now.values (timers_in buffers.now.schedule)
        buffers.now.schedule.events }
{
    let ports = system.ports.as_slice();
    put_words(ports, &buffers.values, bytes);
    put_all_times(ports, &buffers.schedule, bytes);
    put_armings(ports, &buffers.schedule, bytes);
    put_events(system.components.len(), &buffers.schedule, bytes);
}

// Puts the word of each value.
fn put_words(ports: &[Port], values: &PortValues, bytes: &mut Vec<u8>)
    requires places { length values.now ≡ length ports.now }
    requires fitting { FitPorts ports.now values.now }
    requires room { vec_len bytes.old + length
        (flat_map option_bytes (map (option_map word_of) values.now)) ≤ vec_capacity bytes.old }
    ensures text { bytes.new.items ≡ bytes.old.items ++
        flat_map option_bytes (map (option_map word_of) values.now) }
    ensures room { vec_capacity bytes.old ≤ vec_capacity bytes.new }
{
    for (place, port) in ports.iter().enumerate() {
        let value = values.at(place);
        put_option(word_of(port.kind, value), bytes);
    }
}

fn word_of(kind: PortType, value: Option<i128>) -> Option<u64>
    requires { IfSome value (Fits kind) }
    ensures { result ≡ option_map word_of value }
{
    match value {
        Some(value) => Some(to_word(kind, value)),
        None => None,
    }
}

// Puts the interval and the shift of each Clock that was asked for them.
fn put_all_times(ports: &[Port], schedule: &Schedule, bytes: &mut Vec<u8>)
    requires clocks { length schedule.now.clocks ≡ length ports.now }
    requires stand { AreOfRoles ports.now schedule.now.clocks }
    requires room { vec_len bytes.old + length
        (flat_map times_bytes (by_port times_of ports.now (timers_in schedule.now))) ≤
        vec_capacity bytes.old }
    ensures text { bytes.new.items ≡ bytes.old.items ++
        flat_map times_bytes (by_port times_of ports.now (timers_in schedule.now)) }
    ensures bounds { All (λ times. IfSome times AreTimes)
        (by_port times_of ports.now (timers_in schedule.now)) }
    ensures room { vec_capacity bytes.old ≤ vec_capacity bytes.new }
{
    for (place, port) in ports.iter().enumerate() {
        put_times(times_at(&port.role, schedule, place), bytes);
    }
}

fn times_at(role: &Role, schedule: &Schedule, clock: usize) -> Option<ClockTimes>
    requires { clock < length schedule.now.clocks }
    ensures times { (state : ClockState) → slice_get schedule.now.clocks clock ≡ Some state →
        IsPlaceOf role.now state → result ≡ times_of role.now (timer_in state) }
    ensures bounds { IfSome result AreTimes }
{
    match role {
        Role::TimeClock {
            timing: Timing::Answered,
        } => asked_at(schedule, clock),
        _ => None,
    }
}

// The interval and the shift of a Clock that was asked for them.
fn asked_at(schedule: &Schedule, clock: usize) -> Option<ClockTimes>
    requires { clock < length schedule.now.clocks }
    ensures times { (state : ClockState) → slice_get schedule.now.clocks clock ≡ Some state →
        IsPlaceOf (TimeClock Answered) state →
        result ≡ times_of (TimeClock Answered) (timer_in state) }
    ensures bounds { IfSome result AreTimes }
{
    match schedule.timing(clock) {
        Some((interval, shift)) => Some(ClockTimes { interval, shift }),
        None => None,
    }
}

// Puts what each countdown or changing Clock is armed for.
fn put_armings(ports: &[Port], schedule: &Schedule, bytes: &mut Vec<u8>)
    requires clocks { length schedule.now.clocks ≡ length ports.now }
    requires stand { AreOfRoles ports.now schedule.now.clocks }
    requires room { vec_len bytes.old + length (flat_map arming_bytes
        (by_port (arming_of schedule.now.stop) ports.now (timers_in schedule.now))) ≤
        vec_capacity bytes.old }
    ensures text { bytes.new.items ≡ bytes.old.items ++ flat_map arming_bytes
        (by_port (arming_of schedule.now.stop) ports.now (timers_in schedule.now)) }
    ensures room { vec_capacity bytes.old ≤ vec_capacity bytes.new }
{
    for (place, port) in ports.iter().enumerate() {
        put_arming(arming_at(&port.role, schedule, place), bytes);
    }
}

fn arming_at(role: &Role, schedule: &Schedule, clock: usize) -> Arming
    requires { clock < length schedule.now.clocks }
    ensures { (state : ClockState) → slice_get schedule.now.clocks clock ≡ Some state →
        IsPlaceOf role.now state →
        result ≡ arming_of schedule.now.stop role.now (timer_in state) }
{
    match role {
        Role::TimeClock {
            timing: Timing::Countdown,
        } => armed_at(schedule, clock),
        Role::TimeClock {
            timing: Timing::Changing,
        } => armed_at(schedule, clock),
        _ => Arming::NoClock,
    }
}

// What a countdown or changing Clock is armed for.
fn armed_at(schedule: &Schedule, clock: usize) -> Arming
    requires { clock < length schedule.now.clocks }
    ensures { (armed : Option ℕ) → slice_get schedule.now.clocks clock ≡ Some (Countdown armed) →
        result ≡ armed_up_to schedule.now.stop (timer_in (Countdown armed)) }
{
    match plain::point(schedule, clock) {
        Some(point) => Arming::At(point),
        None => Arming::Unarmed,
    }
}

// Puts the event time of each component.
fn put_events(components: usize, schedule: &Schedule, bytes: &mut Vec<u8>)
    requires events { length schedule.now.events ≡ components }
    requires room { vec_len bytes.old + length (flat_map option_bytes
        (map (time_up_to schedule.now.stop) schedule.now.events)) ≤ vec_capacity bytes.old }
    ensures text { bytes.new.items ≡ bytes.old.items ++
        flat_map option_bytes (map (time_up_to schedule.now.stop) schedule.now.events) }
{
    for component in 0..components {
        put_option(plain::event_point(schedule, component), bytes);
    }
}
