ghost use Rattle.std.specs.Prelude.{◌≡◌, ◌≤◌, ◌<◌, ◌^◌, All, None, OnOk, IfOk, IfSome, is_some, length, true};
ghost use Rattle.parallel_step.specs.Lifted.{bad_from};
ghost use Rattle.std.specs.List.{list_any};
ghost use Rattle.slot_calls.specs.Slots.{instances};
ghost use Rattle.slot_calls.specs.Stage.{shapes};
ghost use Rattle.system_model.specs.EarlyReturn.{early_count};
ghost use Rattle.rollback.specs.Asked.{IsBadStep, MayBeSaved, asks_in};
ghost use Rattle.rollback.specs.Standing.{HasStepped, IsReady};
ghost use Rattle.rollback.specs.StepsBy.{StepsOver, or_unmade};

use crate::agreeing::{agree, test_sizes};
use crate::asking::{Turn, bad_in, send, send_well};
use crate::places::{Who, early_count};
use crate::{Agreed, StepEnd};
use fmu_peer::{Peer, Slot};
use std::thread::Threads;

/// Steps all FMUs from t until they stand at one point, at most at the bound: each is asked for a step to it, and where one
/// returns early, those that pass the point that it reached go back and are asked for that, until all meet. Where one alone
/// might return early it is asked first, and the others then for a step to where it ended, so none goes back. Where two or
/// more might, the state of each is saved first, and freed at the end. Points and sizes are counts; `step` is the size of the
/// plan's steps. Where the step isn't made it tells no point, and why stands in `unmade`: so a step that is made moves little. It
/// allocates no memory.
pub fn agreed_step<R: Threads + Sync, L: Peer>(
    rt: &R,
    slots: &mut [Slot<L>],
    t: u64,
    bound: u64,
    step: u64,
    workers: u32,
    unmade: &mut StepEnd,
) -> Option<Agreed>
    requires few { length slots.old ≤ 2 ^ 32 }
    requires later { t < bound }
    requires ready { All (IsReady L.view t bound step) slots.old }
    requires saves { All (MayBeSaved L.view
        (early_count (shapes (instances L.view slots.old)))) slots.old }
    ensures later { IfSome result (λ agreed. t < agreed.point) }
    ensures within { IfSome result (λ agreed. agreed.point ≤ bound) }
    ensures stepped { IfSome result (λ agreed.
        All (HasStepped L.view agreed.point step) slots.new) }
    ensures steps { StepsOver L.view t step bound slots.old slots.new
        (or_unmade result unmade.new) }
{
    if bound - t != step || early_count(slots) > 0 {
        return step_slowly(rt, slots, t, bound, step, workers, unmade);
    }
    let turn = Turn::Step { t, end: bound };
    if send_well(rt, slots, Who::Everyone, turn, workers) {
        Some(Agreed {
            point: bound,
            asked: some_ask(slots),
        })
    } else {
        bad_step(slots, unmade)
    }
}

// The end of a step in which an answer isn't good.
#[cold]
#[inline(never)]
fn bad_step<L: Peer>(slots: &[Slot<L>], unmade: &mut StepEnd) -> Option<Agreed>
    requires few { length slots.now ≤ 2 ^ 32 }
    requires some { is_some (bad_from 0 slots.now) ≡ true }
    ensures none { result ≡ None }
    ensures bad { IsBadStep (bad_from 0 slots.now) unmade.new }
{
    *unmade = StepEnd::Bad(bad_in(slots));
    None
}

// Likewise, also where one might return early or isn't asked for a step of the plan's size.
#[inline(never)]
fn step_slowly<R: Threads + Sync, L: Peer>(
    rt: &R,
    slots: &mut [Slot<L>],
    t: u64,
    bound: u64,
    step: u64,
    workers: u32,
    unmade: &mut StepEnd,
) -> Option<Agreed>
    requires few { length slots.old ≤ 2 ^ 32 }
    requires later { t < bound }
    requires ready { All (IsReady L.view t bound step) slots.old }
    requires saves { All (MayBeSaved L.view
        (early_count (shapes (instances L.view slots.old)))) slots.old }
    ensures later { IfSome result (λ agreed. t < agreed.point) }
    ensures within { IfSome result (λ agreed. agreed.point ≤ bound) }
    ensures stepped { IfSome result (λ agreed.
        All (HasStepped L.view agreed.point step) slots.new) }
    ensures steps { StepsOver L.view t step bound slots.old slots.new
        (or_unmade result unmade.new) }
{
    match step_by_turns(rt, slots, t, bound, step, workers) {
        Ok(agreed) => Some(agreed),
        Err(end) => {
            *unmade = end;
            None
        }
    }
}

fn step_by_turns<R: Threads + Sync, L: Peer>(
    rt: &R,
    slots: &mut [Slot<L>],
    t: u64,
    bound: u64,
    step: u64,
    workers: u32,
) -> Result<Agreed, StepEnd>
    requires few { length slots.old ≤ 2 ^ 32 }
    requires later { t < bound }
    requires ready { All (IsReady L.view t bound step) slots.old }
    requires saves { All (MayBeSaved L.view
        (early_count (shapes (instances L.view slots.old)))) slots.old }
    ensures later { IfOk result (λ agreed. t < agreed.point) }
    ensures within { IfOk result (λ agreed. agreed.point ≤ bound) }
    ensures stepped { IfOk result (λ agreed.
        All (HasStepped L.view agreed.point step) slots.new) }
    ensures steps { StepsOver L.view t step bound slots.old slots.new result }
{
    match test_sizes(slots, Who::Everyone, t, bound, step) {
        Ok(()) => {}
        Err(unfit) => return Err(unfit),
    }
    let early = early_count(slots);
    let saved = Who::Saved { early };
    match send(rt, slots, saved, Turn::Save, workers) {
        Ok(()) => {}
        Err(bad) => return Err(StepEnd::Bad(bad)),
    }
    let point = match agree(rt, slots, early, t, bound, step, workers) {
        Ok(point) => point,
        Err(end) => return Err(end),
    };
    let asked = some_ask(slots);
    match send(rt, slots, saved, Turn::Free, workers) {
        Ok(()) => Ok(Agreed { point, asked }),
        Err(bad) => Err(StepEnd::Bad(bad)),
    }
}

// Whether one of the answers in the slots asks for the end of the run.
fn some_ask<L: Peer>(slots: &[Slot<L>]) -> bool
    ensures { result ≡ list_any (λ slot. asks_in slot.answer) slots.now }
{
    slots.iter().any(|slot| asks(slot))
}

fn asks<L: Peer>(slot: &Slot<L>) -> bool
    ensures { result ≡ asks_in slot.now.answer }
{
    matches!(slot.answer, Some(Ok(true)))
}
