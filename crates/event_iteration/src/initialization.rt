ghost use Rattle.std.specs.Prelude.{◌≡◌, ◌<◌, OnOk, All, length};
ghost use Rattle.std.specs.Option.{option_map};
ghost use Rattle.system_model.specs.declared.system.Port.{Port};
ghost use Rattle.system_model.specs.Needs.{is_unclocked};
ghost use Rattle.system_model.specs.Ports.{port_numbers};
ghost use Rattle.system_model.specs.Sound.{IsSound};
ghost use Rattle.run_model.specs.Equations.{fed};
ghost use Rattle.run_model.specs.Initial as I;
ghost use Rattle.run_model.specs.Machines.{AreFitting};
ghost use Rattle.slot_calls.specs.Slots.{LiveSlot, Stands, instances};
ghost use Rattle.slot_calls.specs.Stage.{shapes, shapes_of};
ghost use Rattle.event_iteration.specs.Explains.{Walks};
ghost use Rattle.event_iteration.specs.Initialization.{AreReads, IsInInitialization, IsPlaced, asks_initially, initially, is_set_from_feed, is_silent_initially, no_values, seen, takes_initially};
ghost use Rattle.event_iteration.specs.Machines.{SolvesForMachines};

use crate::InitialReads;
use crate::walk::{Turns, walk};
use fmi_calls::{Call, Reply};
use fmu_peer::{Peer, Slot};
use port_values::PortValues;
use slot_calls::{BadAnswer, value_in};
use system_model::{Feed, Port, Role, System, carried};
use value_types::PortType;

// Whether a port has no Clocks and is none.
pub(crate) fn is_unclocked(port: &Port) -> bool
    ensures { result ≡ is_unclocked port.now }
{
    match &port.role {
        Role::Input { .. } | Role::Output => port.clocks.len() == 0,
        Role::ClockInput { .. } | Role::ClockOutput | Role::TimeClock { .. } => false,
    }
}

// What comes to an input of a type from its source, along its path.
pub(crate) fn fed(kind: PortType, feed: &Feed, values: &PortValues) -> Option<i128>
    requires { feed.now.from.0 < length values.now }
    ensures { result ≡ fed kind feed.now values.now }
{
    match values.at(feed.from.0 as usize) {
        Some(value) => carried(feed.changes.as_slice(), kind, value),
        None => None,
    }
}

// Whether Initialization Mode sets an input from its source.
pub(crate) fn is_set_from(ports: &[Port], port: &Port, feed: &Feed) -> bool
    requires { feed.now.from.0 < length ports.now }
    ensures { result ≡ is_set_from_feed ports.now port.now feed.now }
{
    is_unclocked(port) && is_unclocked(&ports[feed.from.0 as usize])
}

// The call that a port's turn sends.
fn call_of(ports: &[Port], port: &Port, is_read: bool, values: &PortValues) -> Option<Call>
    requires placed { IsPlaced (length ports.now) port.now }
    requires values { length values.now ≡ length ports.now }
    ensures { result ≡ asks_initially port.now.role ports.now is_read port.now values.now }
{
    match &port.role {
        Role::Input { feed: Some(feed) } => {
            if is_set_from(ports, port, feed) {
                set_call(port, fed(port.kind, feed, values))
            } else {
                None
            }
        }
        Role::Output => {
            if is_read {
                Some(Call::Get {
                    kind: port.kind,
                    reference: port.reference,
                })
            } else {
                None
            }
        }
        Role::Input { feed: None }
        | Role::ClockInput { .. }
        | Role::ClockOutput
        | Role::TimeClock { .. } => None,
    }
}

// Whether an input sends nothing, whatever its source's value is.
fn is_silent(ports: &[Port], port: &Port) -> bool
    requires { IsPlaced (length ports.now) port.now }
    ensures { result ≡ is_silent_initially port.now.role ports.now port.now }
{
    match &port.role {
        Role::Input { feed: Some(feed) } => !is_set_from(ports, port, feed),
        Role::Input { feed: None }
        | Role::Output
        | Role::ClockInput { .. }
        | Role::ClockOutput
        | Role::TimeClock { .. } => false,
    }
}

// The value that a port takes with this reply.
fn value_of(ports: &[Port], port: &Port, values: &PortValues, reply: &Option<Reply>) -> Option<i128>
    requires placed { IsPlaced (length ports.now) port.now }
    requires values { length values.now ≡ length ports.now }
    ensures { result ≡ takes_initially port.now.role ports.now port.now values.now reply.now }
{
    match &port.role {
        Role::Input { feed: Some(feed) } => {
            if is_set_from(ports, port, feed) {
                fed(port.kind, feed, values)
            } else {
                None
            }
        }
        Role::Output => reply_value(port, reply),
        Role::Input { feed: None }
        | Role::ClockInput { .. }
        | Role::ClockOutput
        | Role::TimeClock { .. } => None,
    }
}

// The Set of a port to a value, if there is one.
pub(crate) fn set_call(port: &Port, value: Option<i128>) -> Option<Call>
    ensures { result ≡ option_map (λ x. Call.Set port.now.kind port.now.reference x) value }
{
    match value {
        Some(value) => Some(Call::Set {
            kind: port.kind,
            reference: port.reference,
            value,
        }),
        None => None,
    }
}

// The value that a reply carries, if there is one.
pub(crate) fn reply_value(port: &Port, reply: &Option<Reply>) -> Option<i128>
    ensures { result ≡ seen port.now reply.now }
{
    match reply {
        Some(reply) => value_in(port.kind, reply),
        None => None,
    }
}

// The turns of Initialization Mode.
#[derive(Drop)]
struct Initially<'a> {
    reads: &'a [bool],
}

impl<'a> Turns for Initially<'a> {
    ghost rules = { λ i system. initially system };

    ghost holds = { λ i system. AreReads system i.reads.now };

    fn call_of(&self, system: &System, p: usize, values: &PortValues) -> Option<Call> {
        let ports = system.ports.as_slice();
        call_of(ports, &ports[p], self.reads[p], values)
    }

    fn is_silent(&self, system: &System, p: usize, _values: &PortValues) -> bool {
        let ports = system.ports.as_slice();
        is_silent(ports, &ports[p])
    }

    fn value_of(
        &self,
        system: &System,
        p: usize,
        values: &PortValues,
        _last: Option<i128>,
        reply: &Option<Reply>,
    ) -> Option<i128> {
        let ports = system.ports.as_slice();
        value_of(ports, &ports[p], values, reply)
    }
}

/// Finds the values of Initialization Mode, in the stored order (FMI 3.0, 4.2.1): it reads each output without Clocks
/// that feeds an input without Clocks, and sets each such input to what its path makes of its source's value, up to the first
/// answer that isn't good. Calls that read outputs of one FMU, or set inputs of it, and follow one another are handed on
/// together, 64 at a time. What the values were before doesn't matter.
pub fn initialize<L: Peer>(
    slots: &mut [Slot<L>],
    system: &System,
    reads: &InitialReads,
    values: &mut PortValues,
) -> Result<(), BadAnswer>
    requires sound { IsSound system.now }
    requires shapes { shapes (instances L.view slots.old) ≡ shapes_of system.now }
    requires live { All (LiveSlot L.view) slots.old }
    requires initializing { All (Stands IsInInitialization L.view) slots.old }
    requires reads { AreReads system.now reads.now }
    requires values { length values.old ≡ length system.now.ports }
    ensures live { OnOk result (All (LiveSlot L.view) slots.new) }
    ensures walks { Walks system.now (initially system.now) (no_values system.now)
        (port_numbers system.now.initial_order) values.new (instances L.view slots.old)
        (instances L.view slots.new) result }
    ensures values { OnOk result (length values.new ≡ length system.now.ports) }
    ensures fitting { AreFitting system.now values.new }
    ensures solved { OnOk result (SolvesForMachines system.now values.new
        (instances L.view slots.old) (instances L.view slots.new)) }
{
    values.clear();
    walk_all(slots, system, reads.as_slice(), values)
}

// Takes the ports without Clocks in the stored order, up to the first answer that isn't good.
fn walk_all<L: Peer>(
    slots: &mut [Slot<L>],
    system: &System,
    reads: &[bool],
    values: &mut PortValues,
) -> Result<(), BadAnswer>
    requires sound { IsSound system.now }
    requires shapes { shapes (instances L.view slots.old) ≡ shapes_of system.now }
    requires live { All (LiveSlot L.view) slots.old }
    requires initializing { All (Stands IsInInitialization L.view) slots.old }
    requires reads { AreReads system.now reads.now }
    requires none { values.old ≡ no_values system.now }
    ensures live { OnOk result (All (LiveSlot L.view) slots.new) }
    ensures walks { Walks system.now (initially system.now) (no_values system.now)
        (port_numbers system.now.initial_order) values.new (instances L.view slots.old)
        (instances L.view slots.new) result }
    ensures values { OnOk result (length values.new ≡ length system.now.ports) }
    ensures fitting { AreFitting system.now values.new }
    ensures solved { OnOk result (SolvesForMachines system.now values.new
        (instances L.view slots.old) (instances L.view slots.new)) }
{
    let turns = Initially { reads };
    match walk(
        slots,
        system,
        &turns,
        system.initial_order.as_slice(),
        values,
    ) {
        Ok(()) => Ok(()),
        Err(bad) => Err(bad),
    }
}
