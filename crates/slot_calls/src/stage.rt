ghost use Rattle.std.specs.Prelude.{◌≡◌, ◌≤◌, ◌^◌, OnOk, All, length};
ghost use Rattle.fmu_peer.specs.CloseAll.{instance_in, peer_in};
ghost use Rattle.slot_calls.specs.Carried.{any_asks_to_end};
ghost use Rattle.slot_calls.specs.Stage.{Round, Stage, nothing, shapes, to_those};
ghost use Rattle.slot_calls.specs.Rounds.{joined};
ghost use Rattle.slot_calls.specs.Slots.{LiveSlot, MayTakePart, Stands, call_of, instances, is_asked};

use crate::advancing::advance;
use crate::{Ask, BadAnswer};
use fmu_peer::{Peer, Slot, Why};
use sim_base::CompId;

/// Sends the call to each FMU in turn, or to each with event mode, up to the first answer that isn't good.
pub fn each<L: Peer>(slots: &mut [Slot<L>], ask: Ask) -> Result<(), BadAnswer>
    requires few { length slots.old ≤ 2 ^ 32 }
    requires live { All (LiveSlot L.view) slots.old }
    requires permitted { All (Stands (MayTakePart ask) L.view) slots.old }
    ensures live { OnOk result (All (LiveSlot L.view) slots.new) }
    ensures stage { Stage (to_those (is_asked ask) (call_of ask)
        (shapes (instances L.view slots.old))) nothing (instances L.view slots.old)
        (instances L.view slots.new) result }
{
    for place in 0..slots.len() {
        if !is_asked(&slots[place], ask) {
            continue;
        }
        match advance(&mut slots[place], ask) {
            Ok(_) => {}
            Err(why) => {
                return Err(BadAnswer {
                    component: CompId(place as u32),
                    why,
                });
            }
        }
    }
    Ok(())
}

// Whether the FMU in a slot is asked.
fn is_asked<L: Peer>(slot: &Slot<L>, ask: Ask) -> bool
    ensures { result ≡ is_asked ask (L.view (peer_in slot.now.held)).fixed.shape }
{
    match ask {
        Ask::EnterEvent | Ask::EnterStep => slot.held.peer().shape().has_event_mode,
        Ask::Instantiate { .. }
        | Ask::EnterInitialization { .. }
        | Ask::ExitInitialization
        | Ask::DoStep { .. } => true,
    }
}

/// Sends the call to each FMU that it is for, whatever the others answer, and says whether an answer asks for the end of the
/// run, or tells the first answer that isn't good.
pub fn round<L: Peer>(slots: &mut [Slot<L>], ask: Ask) -> Result<bool, BadAnswer>
    requires few { length slots.old ≤ 2 ^ 32 }
    requires live { All (LiveSlot L.view) slots.old }
    requires permitted { All (Stands (MayTakePart ask) L.view) slots.old }
    ensures live { OnOk result (All (LiveSlot L.view) slots.new) }
    ensures round { Round (to_those (is_asked ask) (call_of ask)
        (shapes (instances L.view slots.old))) any_asks_to_end (instances L.view slots.old)
        (instances L.view slots.new) result }
{
    let mut so_far = Ok(false);
    for place in 0..slots.len() {
        if !is_asked(&slots[place], ask) {
            continue;
        }
        let answer = advance(&mut slots[place], ask);
        so_far = with_answer(so_far, CompId(place as u32), answer);
    }
    so_far
}

// What a round gives once one more component has answered.
fn with_answer(
    so_far: Result<bool, BadAnswer>,
    component: CompId,
    answer: Result<bool, Why>,
) -> Result<bool, BadAnswer>
    ensures { result ≡ joined so_far component answer }
{
    match (so_far, answer) {
        (Ok(some_ask), Ok(asks)) => Ok(some_ask || asks),
        (Ok(_), Err(why)) => Err(BadAnswer { component, why }),
        (Err(bad), _) => Err(bad),
    }
}
