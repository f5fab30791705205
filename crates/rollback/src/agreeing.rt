ghost use Rattle.std.specs.Prelude.{◌≡◌, ◌≢◌, ◌≤◌, ◌<◌, ◌-◌, ◌^◌, All, IfSome, length};
ghost use Rattle.system_model.specs.EarlyReturn.{early_count};
ghost use Rattle.run_model.specs.Stepping.{asked_first};
ghost use Rattle.slot_calls.specs.Slots.{instances};
ghost use Rattle.slot_calls.specs.Stage.{everyone, shapes};
ghost use Rattle.step_agreement.specs.Agreement.{unfit};
ghost use Rattle.rollback.specs.Asked.{AgreedOver, AskedOver, IsAt, IsFitting, IsHome, IsSavedBy, IsTested, MayGoBack, RoundsOver, SizesSay, StaysMeant, TurnOver, might_return_early};
ghost use Rattle.rollback.specs.Places.{passes, stands};
ghost use Rattle.rollback.specs.Standing.{Placed};

use crate::StepEnd;
use crate::asking::{Turn, send};
use crate::places::{Who, are_at, first_unvaried, reached};
use fmu_peer::{Peer, Slot};
use sim_base::CompId;
use slot_calls::BadAnswer;
use std::thread::Threads;

/// What a turn of an agreement comes to.
pub(crate) enum Turned {
    /// All stand at a point.
    Met { point: u64 },
    /// All begin anew, with this bound.
    Anew { bound: u64 },
}

/// Asks for steps from t to at most a bound until all stand at one point. Of `early` FMUs that might return early one alone is
/// asked first.
pub(crate) fn agree<R: Threads + Sync, L: Peer>(
    rt: &R,
    slots: &mut [Slot<L>],
    early: usize,
    t: u64,
    bound: u64,
    step: u64,
    workers: u32,
) -> Result<u64, StepEnd>
    requires few { length slots.old ≤ 2 ^ 32 }
    requires later { t < bound }
    requires counted { early ≡ early_count (shapes (instances L.view slots.old)) }
    requires placed { All (Placed L.view t bound step) slots.old }
    requires saved { All (IsSavedBy L.view early) slots.old }
    requires home { All (IsAt L.view t) slots.old }
    ensures { AgreedOver L.view (asked_first early) t step bound slots.old slots.new result }
{
    if early == 1 {
        follow_one(rt, slots, t, bound, step, workers)
    } else {
        agree_all(rt, slots, t, bound, step, workers)
    }
}

// Asks the one that might return early for a step to the bound, and then the others for one to where it ended.
#[inline(never)]
fn follow_one<R: Threads + Sync, L: Peer>(
    rt: &R,
    slots: &mut [Slot<L>],
    t: u64,
    bound: u64,
    step: u64,
    workers: u32,
) -> Result<u64, StepEnd>
    requires few { length slots.old ≤ 2 ^ 32 }
    requires later { t < bound }
    requires one { early_count (shapes (instances L.view slots.old)) ≡ 1 }
    requires placed { All (Placed L.view t bound step) slots.old }
    requires home { All (IsAt L.view t) slots.old }
    ensures { AgreedOver L.view might_return_early t step bound slots.old slots.new result }
{
    match ask_home(
        rt,
        slots,
        Who::Everyone,
        Who::Early,
        t,
        bound,
        step,
        workers,
    ) {
        Ok(()) => {}
        Err(unmade) => return Err(unmade),
    }
    let first_end = reached(slots, t, bound);
    if are_at(slots, first_end) {
        return Ok(first_end);
    }
    match ask_home(
        rt,
        slots,
        Who::EndElsewhere {
            t,
            bound,
            m: first_end,
        },
        Who::Elsewhere { m: first_end },
        t,
        first_end,
        step,
        workers,
    ) {
        Ok(()) => Ok(first_end),
        Err(end) => Err(end),
    }
}

// Asks all for a step from t to a bound, and those that pass the least end for that, turn after turn, until all stand at one
// point.
#[inline(never)]
fn agree_all<R: Threads + Sync, L: Peer>(
    rt: &R,
    slots: &mut [Slot<L>],
    t: u64,
    bound: u64,
    step: u64,
    workers: u32,
) -> Result<u64, StepEnd>
    requires few { length slots.old ≤ 2 ^ 32 }
    requires later { t < bound }
    requires several { early_count (shapes (instances L.view slots.old)) ≢ 1 }
    requires placed { All (Placed L.view t bound step) slots.old }
    requires saved { All (IsSavedBy L.view
        (early_count (shapes (instances L.view slots.old)))) slots.old }
    requires begin { All (MayGoBack L.view t Who.Everyone) slots.old }
    ensures { AgreedOver L.view everyone t step bound slots.old slots.new result }
{
    let mut bound = bound;
    loop {
        match take_turn(rt, slots, t, bound, step, workers) {
            Ok(Turned::Met { point }) => return Ok(point),
            Ok(Turned::Anew { bound: next }) => bound = next,
            Err(end) => return Err(end),
        }
    }
}

// Asks all for a step to the bound, and where they don't meet those that pass the least end for a step to that.
fn take_turn<R: Threads + Sync, L: Peer>(
    rt: &R,
    slots: &mut [Slot<L>],
    t: u64,
    bound: u64,
    step: u64,
    workers: u32,
) -> Result<Turned, StepEnd>
    requires few { length slots.old ≤ 2 ^ 32 }
    requires later { t < bound }
    requires several { early_count (shapes (instances L.view slots.old)) ≢ 1 }
    requires placed { All (Placed L.view t bound step) slots.old }
    requires saved { All (IsSavedBy L.view
        (early_count (shapes (instances L.view slots.old)))) slots.old }
    requires begin { All (MayGoBack L.view t Who.Everyone) slots.old }
    ensures { TurnOver L.view t step bound slots.old slots.new result }
{
    match ask(
        rt,
        slots,
        Who::Everyone,
        Who::Everyone,
        t,
        bound,
        step,
        workers,
    ) {
        Ok(()) => {}
        Err(end) => return Err(end),
    }
    let m = reached(slots, t, bound);
    if are_at(slots, m) {
        return Ok(Turned::Met { point: m });
    }
    match ask(
        rt,
        slots,
        Who::EndElsewhere { t, bound, m },
        Who::Elsewhere { m },
        t,
        m,
        step,
        workers,
    ) {
        Ok(()) => {}
        Err(end) => return Err(end),
    }
    if are_at(slots, m) {
        return Ok(Turned::Met { point: m });
    }
    Ok(Turned::Anew {
        bound: reached(slots, t, m),
    })
}

// Asks those that are selected for a step, once each that is tested takes one of that size; those of them that are past
// t go back first.
fn ask<R: Threads + Sync, L: Peer>(
    rt: &R,
    slots: &mut [Slot<L>],
    sized: Who,
    asked: Who,
    t: u64,
    end: u64,
    step: u64,
    workers: u32,
) -> Result<(), StepEnd>
    requires few { length slots.old ≤ 2 ^ 32 }
    requires later { t < end }
    requires meant { StaysMeant t asked }
    requires placed { All (Placed L.view t end step) slots.old }
    requires tested { All (IsTested L.view sized asked step (end - t)) slots.old }
    requires back { All (MayGoBack L.view t asked) slots.old }
    ensures { AskedOver L.view t step sized asked end slots.old slots.new result }
{
    match test_sizes(slots, sized, t, end, step) {
        Ok(()) => {}
        Err(unfit) => return Err(unfit),
    }
    match ask_all(rt, slots, asked, t, end, step, workers) {
        Ok(()) => Ok(()),
        Err(bad) => Err(StepEnd::Bad(bad)),
    }
}

// Likewise, where those that are selected stand at t, so that none goes back.
#[inline(always)]
fn ask_home<R: Threads + Sync, L: Peer>(
    rt: &R,
    slots: &mut [Slot<L>],
    sized: Who,
    asked: Who,
    t: u64,
    end: u64,
    step: u64,
    workers: u32,
) -> Result<(), StepEnd>
    requires few { length slots.old ≤ 2 ^ 32 }
    requires later { t < end }
    requires meant { StaysMeant t asked }
    requires placed { All (Placed L.view t end step) slots.old }
    requires tested { All (IsTested L.view sized asked step (end - t)) slots.old }
    requires home { All (IsHome L.view t asked) slots.old }
    ensures { AskedOver L.view t step sized asked end slots.old slots.new result }
{
    match test_sizes(slots, sized, t, end, step) {
        Ok(()) => {}
        Err(unfit) => return Err(unfit),
    }
    match send(rt, slots, asked, Turn::Step { t, end }, workers) {
        Ok(()) => Ok(()),
        Err(bad) => Err(StepEnd::Bad(bad)),
    }
}

/// Whether each of those that are selected takes a step from t to an end; where one doesn't, the least of them is named.
#[inline(always)]
pub(crate) fn test_sizes<L: Peer>(
    slots: &[Slot<L>],
    who: Who,
    t: u64,
    end: u64,
    step: u64,
) -> Result<(), StepEnd>
    requires few { length slots.now ≤ 2 ^ 32 }
    requires later { t < end }
    ensures { SizesSay L.view t step who end slots.now result }
{
    match first_unfit(slots, who, step, end - t) {
        None => Ok(()),
        Some(place) => Err(StepEnd::FixedStep {
            component: CompId(place as u32),
            at: t,
            end,
        }),
    }
}

/// Of those that are selected, the least that takes no step of this size.
#[inline(always)]
fn first_unfit<L: Peer>(slots: &[Slot<L>], who: Who, step: u64, size: u64) -> Option<usize>
    ensures first { result ≡ unfit step size (passes who) (stands L.view slots.now) }
    ensures within { IfSome result (λ place. place < length slots.now) }
{
    if size == step {
        None
    } else {
        first_unvaried(slots, who)
    }
}

// Puts those back that are selected and are past t, and then asks all that are selected for a step.
fn ask_all<R: Threads + Sync, L: Peer>(
    rt: &R,
    slots: &mut [Slot<L>],
    asked: Who,
    t: u64,
    end: u64,
    step: u64,
    workers: u32,
) -> Result<(), BadAnswer>
    requires few { length slots.old ≤ 2 ^ 32 }
    requires later { t < end }
    requires meant { StaysMeant t asked }
    requires placed { All (Placed L.view t end step) slots.old }
    requires fitting { All (IsFitting L.view asked step (end - t)) slots.old }
    requires back { All (MayGoBack L.view t asked) slots.old }
    ensures { RoundsOver L.view t step asked end slots.old slots.new result }
{
    match send(rt, slots, asked, Turn::Back { t }, workers) {
        Ok(()) => {}
        Err(bad) => return Err(bad),
    }
    send(rt, slots, asked, Turn::Step { t, end }, workers)
}
