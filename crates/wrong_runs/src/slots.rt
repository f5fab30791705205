//! Calls to the FMUs of a run in their slots.
ghost use Rattle.std.specs.Prelude.{All, OnOk, [], length, vec_capacity, ◌^◌, ◌≡◌, ◌≤◌};
ghost use Rattle.fmu_peer.specs.CloseAll.{instance_in, peer_in};
ghost use Rattle.slot_calls.specs.Carried.{any_asks_to_end};
ghost use Rattle.slot_calls.specs.Keeping.{AnswersUntil, IsPackedOf, MayBeKept, keeping_calls};
ghost use Rattle.slot_calls.specs.Slots.{LiveSlot, MayTakePart, Stands, call_of, instances, is_asked};
ghost use Rattle.slot_calls.specs.Stage.{Round, Stage, nothing, shapes, to_those};

use fmu_peer::{Peer, Slot, Why};
use slot_calls::{Ask, BadAnswer, keep};

/// Sends the call to each FMU in turn, or to each with event mode, up to the first answer that isn't good.
pub fn send_each<L: Peer>(slots: &mut [Slot<L>], ask: Ask) -> Result<(), BadAnswer>
    requires few { length slots.old ≤ 2 ^ 32 }
    requires live { All (LiveSlot L.view) slots.old }
    requires permitted { All (Stands (MayTakePart ask) L.view) slots.old }
    ensures live { OnOk result (All (LiveSlot L.view) slots.new) }
    ensures stage { Stage (to_those (is_asked ask) (call_of ask)
        (shapes (instances L.view slots.old))) nothing (instances L.view slots.old)
        (instances L.view slots.new) result }
{
    slot_calls::each(slots, ask)
}

/// Sends the call to each FMU that it is for, whatever the others answer.
pub fn send_round<L: Peer>(slots: &mut [Slot<L>], ask: Ask) -> Result<bool, BadAnswer>
    requires few { length slots.old ≤ 2 ^ 32 }
    requires live { All (LiveSlot L.view) slots.old }
    requires permitted { All (Stands (MayTakePart ask) L.view) slots.old }
    ensures live { OnOk result (All (LiveSlot L.view) slots.new) }
    ensures round { Round (to_those (is_asked ask) (call_of ask)
        (shapes (instances L.view slots.old))) any_asks_to_end (instances L.view slots.old)
        (instances L.view slots.new) result }
{
    slot_calls::round(slots, ask)
}

/// Saves the state of an FMU in Step Mode, puts its bytes into the room, and frees it.
pub fn keep_state<L: Peer>(slot: &mut Slot<L>, into: &mut Vec<u8>) -> Result<(), Why>
    requires live { LiveSlot L.view slot.old }
    requires may { MayBeKept (L.view (peer_in slot.old.held)) }
    requires empty { into.old.items ≡ [] }
    requires room { 2 ^ 20 ≤ vec_capacity into.old }
    ensures live { OnOk result (LiveSlot L.view slot.new) }
    ensures calls { AnswersUntil keeping_calls (instance_in L.view slot.old)
        (instance_in L.view slot.new) result }
    ensures packed { OnOk result (IsPackedOf (L.view (peer_in slot.old.held)) into.new.items) }
    ensures few { OnOk result (length into.new.items ≤ 2 ^ 20) }
    ensures room { vec_capacity into.old ≤ vec_capacity into.new }
{
    keep(slot, into)
}
