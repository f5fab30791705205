ghost use Rattle.std.specs.Prelude.{◌≡◌, ◌<◌, ◌≤◌, ◌-◌, ◌*◌, ◌+◌, ◌/◌, All, length};
ghost use Rattle.std.specs.Thread.{IsSync};
ghost use Rattle.parallel_step.specs.Groups.{IsEvenShare};
ghost use Rattle.parallel_step.specs.Round.{CanWork, EachPair, Works};

use crate::working::work;
use fmu_peer::{Peer, Slot};
use std::thread::{Threads, join_mut};

/// Does the job of each slot: each FMU is sent the call of its own job alone, whatever the others answer, and its answer
/// stands in its slot. The slots are worked on in groups, one for each worker, each in a thread of its own; the sizes of
/// two groups differ by at most one.
pub fn round<R: Threads + Sync, L: Peer>(rt: &R, slots: &mut [Slot<L>], workers: u32)
    requires { All (CanWork L.view) slots.old }
    ensures { EachPair (Works L.view) slots.old slots.new }
{
    let groups = slots.len().min(workers as usize);
    work_in_groups(rt, slots, groups);
}

fn work_in_groups<R: Threads + Sync, L: Peer>(rt: &R, slots: &mut [Slot<L>], groups: usize)
    requires { All (CanWork L.view) slots.old }
    ensures { EachPair (Works L.view) slots.old slots.new }
{
    if groups < 2 {
        work_in_turn(slots);
        return;
    }
    let back_groups = groups / 2;
    let front_groups = groups - back_groups;
    let front_len = front_share(slots.len(), front_groups, groups);
    let (front, back) = slots.split_at_mut(front_len);
    join_mut(
        rt,
        &mut ||
            requires { IsSync R.row × All (CanWork L.view) front.now }
            ensures { EachPair (Works L.view) front.entry.now front.exit.now }
        { work_in_groups(rt, front, front_groups) },
        &mut ||
            requires { IsSync R.row × All (CanWork L.view) back.now }
            ensures { EachPair (Works L.view) back.entry.now back.exit.now }
        { work_in_groups(rt, back, back_groups) },
    );
}

// How many of the slots go to the first groups, where all groups share them evenly.
fn front_share(slots: usize, front: usize, groups: usize) -> usize
    requires { front < groups }
    ensures within { result ≤ slots }
    ensures front { IsEvenShare (slots / groups) front result }
    ensures back { IsEvenShare (slots / groups) (groups - front) (slots - result) }
{
    slots / groups * front + front.min(slots % groups)
}

fn work_in_turn<L: Peer>(slots: &mut [Slot<L>])
    requires { All (CanWork L.view) slots.old }
    ensures { EachPair (Works L.view) slots.old slots.new }
{
    for slot in slots.iter_mut() {
        work(slot);
    }
}
