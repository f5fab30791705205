ghost use Rattle.std.specs.Prelude.{◌≡◌, ◌<◌, OnOk, Some, length};
ghost use Rattle.std.specs.List.{slice_get};
ghost use Rattle.fmu_peer.specs.CloseAll.{instance_in, peer_in};
ghost use Rattle.system_model.specs.declared.system.Component.{Component};
ghost use Rattle.slot_calls.specs.Slots.{LiveSlot};
ghost use Rattle.event_iteration.specs.Turns.{AsksIf, MayAsk};

use fmi_calls::{Call, Reply};
use fmu_peer::{Peer, Slot, Why};
use sim_base::CompId;
use slot_calls::send;
use system_model::System;

// Whether the FMU of a component has event mode.
pub(crate) fn has_event_mode(system: &System, component: CompId) -> bool
    requires { component.0 < length system.now.components }
    ensures { (c : Component) → slice_get system.now.components component.0 ≡ Some c →
        result ≡ c.shape.has_event_mode }
{
    let components = system.components.as_slice();
    components[component.0 as usize].shape.has_event_mode
}

/// Sends a call to the FMU in a slot, if there is one.
pub(crate) fn ask_if<L: Peer>(slot: &mut Slot<L>, call: Option<Call>) -> Result<Option<Reply>, Why>
    requires live { LiveSlot L.view slot.old }
    requires may { MayAsk call (L.view (peer_in slot.old.held)) }
    ensures live { OnOk result (LiveSlot L.view slot.new) }
    ensures asks { AsksIf call (instance_in L.view slot.old) (instance_in L.view slot.new) result }
{
    match call {
        Some(call) => match &send(slot, call) {
            Ok(reply) => return Ok(Some(*reply)),
            Err(why) => return Err(*why),
        },
        None => return Ok(None),
    }
}
