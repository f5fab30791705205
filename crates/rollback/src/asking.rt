ghost use Rattle.std.specs.Prelude.{◌≡◌, ◌≤◌, ◌^◌, All, Some, is_some, length, not, true};
ghost use Rattle.parallel_step.specs.Lifted.{bad_from};
ghost use Rattle.parallel_step.specs.Round.{EachPair};
ghost use Rattle.std.specs.List.{list_any};
ghost use Rattle.rollback.specs.Places.{CanAsk, CanDo, Sends, WithJob, is_sent, job_of, stand_in, told_by};

use crate::places::{Who, passes, point_of};
use fmu_peer::{Job, Peer, Slot};
use parallel_step::{first_bad, has_bad, round};
use slot_calls::BadAnswer;
use std::thread::Threads;

/// What the selected FMUs are to do in a round.
#[derive(Clone, Copy, Debug, PartialEq, Eq)]
pub(crate) enum Turn {
    Save,
    /// to go back to the state that was saved at t, where they stand after it
    Back { t: u64 },
    /// to make a step
    Step { t: u64, end: u64 },
    Free,
}

fn job_of<L: Peer>(slot: &Slot<L>, who: Who, turn: Turn) -> Job
    requires { CanAsk turn }
    ensures { result ≡ job_of who turn (stand_in L.view slot.now) }
{
    if !passes(slot, who) {
        return Job::Nothing;
    }
    match turn {
        Turn::Save => Job::Save,
        Turn::Back { t } => {
            if point_of(slot) == t {
                Job::Nothing
            } else {
                Job::Restore
            }
        }
        Turn::Step { t, end } => Job::Step {
            at: t,
            size: end - t,
        },
        Turn::Free => Job::Free,
    }
}

fn set_jobs<L: Peer>(slots: &mut [Slot<L>], who: Who, turn: Turn)
    requires { CanAsk turn }
    ensures { EachPair (WithJob L.view who turn) slots.old slots.new }
{
    for slot in slots.iter_mut() {
        set_job(slot, who, turn);
    }
}

fn set_job<L: Peer>(slot: &mut Slot<L>, who: Who, turn: Turn)
    requires { CanAsk turn }
    ensures { WithJob L.view who turn slot.old slot.new }
{
    slot.job = job_of(slot, who, turn);
}

// Whether a turn's call is for any of them. Where no two might return early, none is saved.
#[inline(always)]
fn is_any_sent<L: Peer>(slots: &[Slot<L>], who: Who, turn: Turn) -> bool
    ensures { result ≡ list_any (λ slot. is_sent who turn (stand_in L.view slot)) slots.now }
{
    match who {
        Who::Saved { early: 0 } => false,
        Who::Saved { early: 1 } => false,
        _ => slots.iter().any(|slot| is_sent(slot, who, turn)),
    }
}

fn is_sent<L: Peer>(slot: &Slot<L>, who: Who, turn: Turn) -> bool
    ensures { result ≡ is_sent who turn (stand_in L.view slot.now) }
{
    match turn {
        Turn::Back { t } => passes(slot, who) && point_of(slot) != t,
        _ => passes(slot, who),
    }
}

/// Sends the call of a turn to those that are selected, whatever they answer, and tells the first answer that isn't good.
/// Where it is for none, no thread is begun.
#[inline(always)]
pub(crate) fn send<R: Threads + Sync, L: Peer>(
    rt: &R,
    slots: &mut [Slot<L>],
    who: Who,
    turn: Turn,
    workers: u32,
) -> Result<(), BadAnswer>
    requires few { length slots.old ≤ 2 ^ 32 }
    requires turn { CanAsk turn }
    requires can { All (CanDo L.view who turn) slots.old }
    ensures { Sends L.view who turn slots.old slots.new result }
{
    if !is_any_sent(slots, who, turn) {
        return Ok(());
    }
    send_meant(rt, slots, who, turn, workers)
}

// Likewise, where it is for some: on its own, so that a turn that is for none pays nothing for that.
#[inline(never)]
fn send_meant<R: Threads + Sync, L: Peer>(
    rt: &R,
    slots: &mut [Slot<L>],
    who: Who,
    turn: Turn,
    workers: u32,
) -> Result<(), BadAnswer>
    requires few { length slots.old ≤ 2 ^ 32 }
    requires turn { CanAsk turn }
    requires can { All (CanDo L.view who turn) slots.old }
    ensures { Sends L.view who turn slots.old slots.new result }
{
    if send_well(rt, slots, who, turn, workers) {
        Ok(())
    } else {
        Err(bad_in(slots))
    }
}

/// Sends the call of a turn to those that are selected, whatever they answer, and tells whether each answer is good.
#[inline(always)]
pub(crate) fn send_well<R: Threads + Sync, L: Peer>(
    rt: &R,
    slots: &mut [Slot<L>],
    who: Who,
    turn: Turn,
    workers: u32,
) -> bool
    requires turn { CanAsk turn }
    requires can { All (CanDo L.view who turn) slots.old }
    ensures sends { Sends L.view who turn slots.old slots.new
        (told_by (bad_from 0 slots.new)) }
    ensures well { result ≡ not (is_some (bad_from 0 slots.new)) }
{
    set_jobs(slots, who, turn);
    round(rt, slots, workers);
    !has_bad(slots)
}

/// The first answer that isn't good, where there is one.
#[cold]
#[inline(never)]
pub(crate) fn bad_in<L: Peer>(slots: &[Slot<L>]) -> BadAnswer
    requires few { length slots.now ≤ 2 ^ 32 }
    requires some { is_some (bad_from 0 slots.now) ≡ true }
    ensures { bad_from 0 slots.now ≡ Some result }
{
    match first_bad(slots) {
        Some(bad) => bad,
        None => unreachable!(),
    }
}
