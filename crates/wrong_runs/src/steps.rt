//! Rounds of calls, and steps on whose end all FMUs agree.
ghost use Rattle.std.specs.Prelude.{All, IfSome, length, ◌<◌, ◌^◌, ◌≤◌};
ghost use Rattle.parallel_step.specs.Round.{CanWork, EachPair, Works};
ghost use Rattle.rollback.specs.Asked.{MayBeSaved};
ghost use Rattle.rollback.specs.Standing.{HasStepped, IsReady};
ghost use Rattle.rollback.specs.StepsBy.{StepsOver, or_unmade};
ghost use Rattle.slot_calls.specs.Slots.{instances};
ghost use Rattle.slot_calls.specs.Stage.{shapes};
ghost use Rattle.system_model.specs.EarlyReturn.{early_count};

use fmu_peer::{Peer, Slot};
use parallel_step::round;
use rollback::{Agreed, StepEnd, agreed_step};
use std::thread::Threads;

/// Does the job of each slot by so many workers.
pub fn do_round<R: Threads + Sync, L: Peer>(rt: &R, slots: &mut [Slot<L>], workers: u32)
    requires { All (CanWork L.view) slots.old }
    ensures { EachPair (Works L.view) slots.old slots.new }
{
    round(rt, slots, workers);
}

/// Steps all FMUs from t until they stand at one point, at most at the bound; where none is told, why stands in `unmade`.
pub fn step_together<R: Threads + Sync, L: Peer>(
    rt: &R,
    slots: &mut [Slot<L>],
    t: u64,
    bound: u64,
    step: u64,
    workers: u32,
    unmade: &mut StepEnd,
) -> Option<Agreed>
    requires few { length slots.old ≤ 2 ^ 32 }
    requires later { t < bound }
    requires ready { All (IsReady L.view t bound step) slots.old }
    requires saves { All (MayBeSaved L.view
        (early_count (shapes (instances L.view slots.old)))) slots.old }
    ensures later { IfSome result (λ agreed. t < agreed.point) }
    ensures within { IfSome result (λ agreed. agreed.point ≤ bound) }
    ensures stepped { IfSome result (λ agreed.
        All (HasStepped L.view agreed.point step) slots.new) }
    ensures steps { StepsOver L.view t step bound slots.old slots.new
        (or_unmade result unmade.new) }
{
    agreed_step(rt, slots, t, bound, step, workers, unmade)
}
