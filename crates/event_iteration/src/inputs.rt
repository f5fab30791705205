ghost use Rattle.std.specs.Prelude.{◌≡◌, ◌<◌, None, OnOk, All, if◌then◌else◌, length};
ghost use Rattle.system_model.specs.declared.system.Port.{Port};
ghost use Rattle.system_model.specs.Sound.{IsSound};
ghost use Rattle.run_model.specs.Machines.{AreFitting};
ghost use Rattle.slot_calls.specs.Slots.{LiveSlot, Stands, instances};
ghost use Rattle.slot_calls.specs.Stage.{shapes, shapes_of};
ghost use Rattle.event_iteration.specs.Explains.{Walks};
ghost use Rattle.event_iteration.specs.Participants.{AreParticipants};
ghost use Rattle.event_iteration.specs.Settings.{DepartsForMachines, IsUnset, before_step, port_order, sets_to};
ghost use Rattle.event_iteration.specs.Turns.{MayTurn, TakesTurn};

use crate::Participants;
use crate::initialization::set_call;
use crate::turn::{ask_if, has_event_mode};
use fmi_calls::Call;
use fmu_peer::{Peer, Slot};
use port_values::PortValues;
use slot_calls::BadAnswer;
use system_model::{Port, Role, System};

// The Set of a connected input to a value, if there is one, where its FMU has no event mode.
fn call_of(port: &Port, has_event_mode: bool, value: Option<i128>) -> Option<Call>
    ensures { result ≡ (if has_event_mode then None else sets_to port.now.role port.now value) }
{
    if has_event_mode {
        return None;
    }
    match &port.role {
        Role::Input { feed: Some(_) } => set_call(port, value),
        Role::Input { feed: None }
        | Role::Output
        | Role::ClockInput { .. }
        | Role::ClockOutput
        | Role::TimeClock { .. } => None,
    }
}

// Sets an input in its turn.
fn set_input<L: Peer>(
    slots: &mut [Slot<L>],
    system: &System,
    values: &PortValues,
    p: usize,
) -> Result<(), BadAnswer>
    requires port { p < length system.now.ports }
    requires shapes { shapes (instances L.view slots.old) ≡ shapes_of system.now }
    requires there { All (λ (port : Port). port.component.0 < length system.now.components)
        system.now.ports }
    requires values { length values.now ≡ length system.now.ports }
    requires live { All (LiveSlot L.view) slots.old }
    requires may { MayTurn system.now (before_step values.now) p values.now
        (instances L.view slots.old) }
    ensures live { OnOk result (All (LiveSlot L.view) slots.new) }
    ensures turn { TakesTurn system.now (before_step values.now) p values.now values.now
        (instances L.view slots.old) (instances L.view slots.new) result }
{
    let port = &system.ports.as_slice()[p];
    let has_event_mode = has_event_mode(system, port.component);
    let call = call_of(port, has_event_mode, values.at(p));
    match ask_if(&mut slots[port.component.0 as usize], call) {
        Ok(_) => Ok(()),
        Err(why) => Err(BadAnswer {
            component: port.component,
            why,
        }),
    }
}

/// Sets each connected input that has a value of the FMUs without event mode, before a step (FMI 3.0, 4.2.1: Step Mode), in
/// component and port order, up to the first answer that isn't good. Each FMU is in Step Mode.
pub fn set_inputs<L: Peer>(
    slots: &mut [Slot<L>],
    system: &System,
    participants: &Participants,
    values: &PortValues,
) -> Result<(), BadAnswer>
    requires sound { IsSound system.now }
    requires participants { AreParticipants system.now participants.now }
    requires shapes { shapes (instances L.view slots.old) ≡ shapes_of system.now }
    requires live { All (LiveSlot L.view) slots.old }
    requires unset { All (Stands IsUnset L.view) slots.old }
    requires values { length values.now ≡ length system.now.ports }
    requires fitting { AreFitting system.now values.now }
    ensures live { OnOk result (All (LiveSlot L.view) slots.new) }
    ensures walks { Walks system.now (before_step values.now) values.now
        (port_order system.now) values.now (instances L.view slots.old)
        (instances L.view slots.new) result }
    ensures departs { OnOk result (DepartsForMachines system.now values.now
        (instances L.view slots.old) (instances L.view slots.new)) }
{
    let mut p = participants.set_before_steps.from(0);
    while p < values.len() {
        match set_input(slots, system, values, p) {
            Ok(()) => {}
            Err(bad) => return Err(bad),
        }
        p = participants.set_before_steps.from(p + 1);
    }
    Ok(())
}
