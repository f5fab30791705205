ghost use Rattle.std.specs.Prelude.{◌≡◌, ◌≤◌, ◌^◌, [], None, OnOk, Some, is_some, length, true, vec_capacity};
ghost use Rattle.fmi_calls.specs.Permission.{Permitted};
ghost use Rattle.fmi_calls.specs.declared.call.Call.TheVariants as C;
ghost use Rattle.fmi_calls.specs.declared.phase.InstanceState.TheVariants as P;
ghost use Rattle.fmu_peer.specs.CloseAll.{instance_in, peer_in};
ghost use Rattle.fmu_peer.specs.declared.slot.Held.TheVariants as Held;
ghost use Rattle.slot_calls.specs.Keeping.{AnswersUntil, IsPackedOf, IsPackedSlot, MayBeKept, MayBeRestored, MayBeSent, Restores, WasSent, WasSentBytes, keeping_calls, no_value, restoring_calls, without_machine_in};
ghost use Rattle.slot_calls.specs.Slots.{IsLive, LiveSlot, Moves};

use crate::advancing::is_fatal;
use core::mem::replace_with;
use fmu_peer::{Fmu, Held, Instantiated, Peer, Saved, Slot, Why};

/// Saves the state of an FMU in Step Mode, puts its bytes into the room, and frees it, up to the first answer that isn't good
/// (FMI 3.0, 2.2.6: fmi3GetFMUState, fmi3SerializeFMUState, fmi3FreeFMUState). It allocates no memory.
pub fn keep<L: Peer>(slot: &mut Slot<L>, into: &mut Vec<u8>) -> Result<(), Why>
    requires live { LiveSlot L.view slot.old }
    requires may { MayBeKept (L.view (peer_in slot.old.held)) }
    requires empty { into.old.items ≡ [] }
    requires room { 2 ^ 20 ≤ vec_capacity into.old }
    ensures live { OnOk result (LiveSlot L.view slot.new) }
    ensures calls { AnswersUntil keeping_calls (instance_in L.view slot.old)
        (instance_in L.view slot.new) result }
    ensures packed { OnOk result (IsPackedOf (L.view (peer_in slot.old.held)) into.new.items) }
    ensures few { OnOk result (length into.new.items ≤ 2 ^ 20) }
    ensures room { vec_capacity into.old ≤ vec_capacity into.new }
{
    match save(slot) {
        Ok(()) => {}
        Err(why) => return Err(why),
    }
    match serialize(slot, into) {
        Ok(()) => {}
        Err(why) => return Err(why),
    }
    free(slot)
}

/// Takes in the state that these bytes stand for, that of a point in a run up to the stop, goes back to it, which leads to
/// Step Mode at the point, and frees it, up to the first answer that isn't good (FMI 3.0, 2.2.6: fmi3DeserializeFMUState,
/// fmi3SetFMUState, fmi3FreeFMUState). Point and stop are counts. It allocates no memory.
pub fn restore<L: Peer>(slot: &mut Slot<L>, point: u64, stop: u64, state: &[u8]) -> Result<(), Why>
    requires live { LiveSlot L.view slot.old }
    requires may { MayBeRestored (L.view (peer_in slot.old.held)) }
    requires ordered { point ≤ stop }
    requires few { length state.now ≤ 2 ^ 20 }
    ensures live { OnOk result (LiveSlot L.view slot.new) }
    ensures calls { AnswersUntil (restoring_calls (length state.now) point stop)
        (without_machine_in (instance_in L.view slot.old)) (without_machine_in (instance_in L.view slot.new)) result }
    ensures restores { Restores point stop state.now (L.view (peer_in slot.old.held))
        (L.view (peer_in slot.new.held)) result }
{
    match take_in(slot, point, stop, state) {
        Ok(()) => {}
        Err(why) => return Err(why),
    }
    match go_back(slot) {
        Ok(()) => {}
        Err(why) => return Err(why),
    }
    free(slot)
}

fn save<L: Peer>(slot: &mut Slot<L>) -> Result<(), Why>
    requires may { MayBeSent L.view C.Save slot.old }
    ensures { WasSent L.view C.Save slot.old slot.new result }
{
    let answer = match &mut slot.held {
        Held::Stepping(fmu) => fmu.save(),
        _ => unreachable!(),
    };
    slot.is_fatal |= is_fatal(&answer);
    match answer {
        Ok(saved) => {
            hold(&mut slot.saved, saved);
            Ok(())
        }
        Err(why) => Err(why),
    }
}

// Puts the token of a saved state where there is none.
fn hold(place: &mut Option<Saved>, saved: Saved)
    requires { place.old ≡ None }
    ensures { is_some place.new ≡ true }
{
    match place.replace(saved) {
        None => {}
        Some(_) => unreachable!(),
    }
}

fn serialize<L: Peer>(slot: &mut Slot<L>, into: &mut Vec<u8>) -> Result<(), Why>
    requires may { MayBeSent L.view C.Serialize slot.old }
    requires empty { into.old.items ≡ [] }
    requires room { 2 ^ 20 ≤ vec_capacity into.old }
    ensures sent { WasSent L.view C.Serialize slot.old slot.new result }
    ensures packed { OnOk result (IsPackedSlot (L.view (peer_in slot.old.held)).fixed.machine
        (L.view (peer_in slot.old.held)).state into.new.items) }
    ensures few { OnOk result (length into.new.items ≤ 2 ^ 20) }
    ensures room { vec_capacity into.old ≤ vec_capacity into.new }
{
    let answer = match (&mut slot.held, &slot.saved) {
        (Held::Stepping(fmu), Some(saved)) => fmu.serialize(saved, into),
        _ => unreachable!(),
    };
    slot.is_fatal |= is_fatal(&answer);
    match answer {
        Ok(_) => Ok(()),
        Err(why) => Err(why),
    }
}

fn free<L: Peer>(slot: &mut Slot<L>) -> Result<(), Why>
    requires may { MayBeSent L.view C.Free slot.old }
    ensures { WasSent L.view C.Free slot.old slot.new result }
{
    let saved = match slot.saved.take() {
        Some(saved) => saved,
        None => unreachable!(),
    };
    let answer = match &mut slot.held {
        Held::Stepping(fmu) => fmu.free(saved),
        _ => unreachable!(),
    };
    slot.is_fatal |= is_fatal(&answer);
    match answer {
        Ok(_) => Ok(()),
        Err(why) => Err(why),
    }
}

fn take_in<L: Peer>(slot: &mut Slot<L>, point: u64, stop: u64, state: &[u8]) -> Result<(), Why>
    requires live { LiveSlot L.view slot.old }
    requires may { MayBeRestored (L.view (peer_in slot.old.held)) }
    requires ordered { point ≤ stop }
    requires few { length state.now ≤ 2 ^ 20 }
    ensures { WasSentBytes L.view point stop state.now slot.old slot.new result }
{
    let answer = match &mut slot.held {
        Held::Instantiated(fmu) => fmu.deserialize(point, stop, state),
        _ => unreachable!(),
    };
    slot.is_fatal |= is_fatal(&answer);
    match answer {
        Ok(saved) => {
            hold(&mut slot.saved, saved);
            Ok(())
        }
        Err(why) => Err(why),
    }
}

fn go_back<L: Peer>(slot: &mut Slot<L>) -> Result<(), Why>
    requires live { LiveSlot L.view slot.old }
    requires made { (L.view (peer_in slot.old.held)).phase.state ≡ P.Instantiated }
    requires permitted { Permitted (L.view (peer_in slot.old.held)).fixed.shape
        (L.view (peer_in slot.old.held)).phase C.Restore }
    ensures { WasSent L.view C.Restore slot.old slot.new result }
{
    let answer = match &slot.saved {
        Some(saved) => resume_held(&mut slot.held, saved),
        None => unreachable!(),
    };
    slot.is_fatal |= is_fatal(&answer);
    answer
}

// A Restore takes the FMU out of its typed state.
fn resume_held<L: Peer>(held: &mut Held<L>, saved: &Saved) -> Result<(), Why>
    requires live { IsLive L.view held.old }
    requires made { (L.view (peer_in held.old)).phase.state ≡ P.Instantiated }
    requires permitted { Permitted (L.view (peer_in held.old)).fixed.shape
        (L.view (peer_in held.old)).phase C.Restore }
    ensures { Moves L.view held.old C.Restore no_value held.new result }
{
    replace_with(
        held,
        saved,
        |held, saved| -> (Held<L>, Result<(), Why>)
            requires { IsLive L.view held × ((L.view (peer_in held)).phase.state ≡ P.Instantiated)
                × Permitted (L.view (peer_in held)).fixed.shape (L.view (peer_in held)).phase
                C.Restore }
            ensures { Moves L.view held C.Restore no_value result.0 result.1 }
        { resume(held, saved) },
    )
}

fn resume<L: Peer>(held: Held<L>, saved: &Saved) -> (Held<L>, Result<(), Why>)
    requires live { IsLive L.view held }
    requires made { (L.view (peer_in held)).phase.state ≡ P.Instantiated }
    requires permitted { Permitted (L.view (peer_in held)).fixed.shape
        (L.view (peer_in held)).phase C.Restore }
    ensures { Moves L.view held C.Restore no_value result.0 result.1 }
{
    match held {
        Held::Instantiated(fmu) => resume_made(fmu, saved),
        _ => unreachable!(),
    }
}

fn resume_made<L: Peer>(fmu: Fmu<L, Instantiated>, saved: &Saved) -> (Held<L>, Result<(), Why>)
    requires made { (L.view fmu.peer).phase.state ≡ P.Instantiated }
    requires permitted { Permitted (L.view fmu.peer).fixed.shape (L.view fmu.peer).phase C.Restore }
    ensures { Moves L.view (Held.Instantiated fmu) C.Restore no_value result.0 result.1 }
{
    match fmu.resume(saved) {
        Ok(fmu) => (Held::Stepping(fmu), Ok(())),
        Err(ended) => {
            let why = ended.why;
            (Held::Ended(ended), Err(why))
        }
    }
}
