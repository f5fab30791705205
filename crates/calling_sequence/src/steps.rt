ghost use Rattle.std.specs.Prelude.{◌≡◌, ◌≤◌, ◌<◌, ◌-◌, ◌+◌, ℕ, Bool, None, false, true, OnOk, IfSome, length};
ghost use Rattle.run_model.specs.Machines.{AreFitting};
ghost use Rattle.event_iteration.specs.Clocks.{timers_in};
ghost use Rattle.event_iteration.specs.Participants.{AreParticipants};
ghost use Rattle.slot_calls.specs.Slots.{instances};
ghost use Rattle.std.specs.List.{list_any};
ghost use Rattle.fmu_peer.specs.CloseAll.{peer_in};
ghost use Rattle.slot_calls.specs.Stage.{Stage, has_events, nothing};
ghost use Rattle.calling_sequence.specs.Calls.{IsStep, entering_step, first_unfit};
ghost use Rattle.calling_sequence.specs.Course.{Before, Begins, Departing, InstantDone, Leaving, Left, Restored, Spot, Stepped, Way};
ghost use Rattle.calling_sequence.specs.declared.run_end.RunEnd.TheVariants as End;
ghost use Rattle.calling_sequence.specs.Ends.{end_of_step};
ghost use Rattle.calling_sequence.specs.StageOutcomes.{Crosses, StageOutcome, StepsFrom, before_instant, or_ends, spot, stepped_to, way};
ghost use Rattle.calling_sequence.specs.Place.{IsAt, IsDeparting, IsSettled, IsStepping};
ghost use Rattle.calling_sequence.specs.Ready.{AreTimed, IsDone, Ready};

use crate::bounds::bound_from;
use crate::{BadAnswer, Buffers, Ending, Experiment, RunEnd};
use event_iteration::set_inputs;
use fmu_peer::{Peer, Slot};
use rollback::{Agreed, StepEnd, agreed_step};
use sim_base::CompId;
use slot_calls::{Ask, each};
use std::thread::Threads;

/// Steps all FMUs from a point before the stop that is done to the next, where those with event mode are in Event Mode. Where the
/// run ends on the way, it tells no point, and how it ends stands in `ending`: so a step that is made moves one word.
pub(crate) fn step_on<R: Threads + Sync, L: Peer>(
    rt: &R,
    slots: &mut [Slot<L>],
    experiment: &Experiment,
    buffers: &Buffers,
    t: u64,
    n: u64,
    ending: &mut Ending,
) -> Option<u64>
    requires ready { Ready L.view experiment.now (IsSettled t) slots.old }
    requires done { IsDone experiment.now t (n + 1) buffers.now }
    requires begun { experiment.now.plan.start ≤ t }
    requires before { t < experiment.now.plan.stop }
    ensures later { IfSome result (λ point. t < point) }
    ensures ready { IfSome result (λ point. Ready L.view experiment.now (IsAt point) slots.new) }
    ensures timed { IfSome result (λ point. AreTimed experiment.now point 0 true buffers.now) }
    ensures steps { (count : ℕ) →
        StepsFrom experiment.now t (InstantDone (spot t n buffers.now) false false)
        (λ point. before_instant point 0 buffers.now) (instances L.view slots.old)
        (instances L.view slots.new) count count
        (or_ends result ending.new) }
{
    let bound = match bound_from(experiment, &buffers.schedule, t, ending) {
        Some(bound) => bound,
        None => return None,
    };
    match cross(rt, slots, experiment, buffers, t, n, bound, ending) {
        Some(agreed) => land(slots, experiment, agreed, ending),
        None => None,
    }
}

/// The same where a run is resumed: each FMU is in Step Mode there.
pub(crate) fn first_step<R: Threads + Sync, L: Peer>(
    rt: &R,
    slots: &mut [Slot<L>],
    experiment: &Experiment,
    buffers: &Buffers,
    t: u64,
    ending: &mut Ending,
) -> Option<u64>
    requires ready { Ready L.view experiment.now (IsStepping t) slots.old }
    requires done { IsDone experiment.now t 0 buffers.now }
    requires begun { experiment.now.plan.start ≤ t }
    requires before { t < experiment.now.plan.stop }
    ensures later { IfSome result (λ point. t < point) }
    ensures ready { IfSome result (λ point. Ready L.view experiment.now (IsAt point) slots.new) }
    ensures timed { IfSome result (λ point. AreTimed experiment.now point 0 true buffers.now) }
    ensures steps { (count : ℕ) →
        StepsFrom experiment.now t (Restored (spot t 0 buffers.now))
        (λ point. before_instant point 0 buffers.now) (instances L.view slots.old)
        (instances L.view slots.new) count count
        (or_ends result ending.new) }
{
    let bound = match bound_from(experiment, &buffers.schedule, t, ending) {
        Some(bound) => bound,
        None => return None,
    };
    match leave(rt, slots, experiment, buffers, t, bound, ending) {
        Some(agreed) => land(slots, experiment, agreed, ending),
        None => None,
    }
}

// Steps all FMUs from a point that is done until they stand at one point, at most at the bound, up to the first answer that
// isn't good or a size that one doesn't take: those with event mode go into Step Mode, the connected inputs of the others are
// set, and all are stepped. It is told where they stand, and whether the answer to a last step asks for the end.
fn cross<R: Threads + Sync, L: Peer>(
    rt: &R,
    slots: &mut [Slot<L>],
    experiment: &Experiment,
    buffers: &Buffers,
    t: u64,
    n: u64,
    bound: u64,
    ending: &mut Ending,
) -> Option<Agreed>
    requires ready { Ready L.view experiment.now (IsSettled t) slots.old }
    requires timed { AreTimed experiment.now t (n + 1) false buffers.now }
    requires step { IsStep experiment.now.system experiment.now.plan
        (timers_in buffers.now.schedule) buffers.now.schedule.events t bound }
    ensures later { IfSome result (λ agreed. t < agreed.point) }
    ensures within { IfSome result (λ agreed. agreed.point ≤ bound) }
    ensures ready { IfSome result (λ agreed.
        Ready L.view experiment.now (IsStepping agreed.point) slots.new) }
    ensures steps { (count : ℕ) →
        StepsFrom experiment.now t (InstantDone (spot t n buffers.now) false false)
        (stepped_to (spot t n buffers.now)) (instances L.view slots.old)
        (instances L.view slots.new) count count
        (or_ends result ending.new) }
{
    if has_events(slots) {
        cross_from_events(rt, slots, experiment, buffers, t, n, bound, ending)
    } else {
        leave(rt, slots, experiment, buffers, t, bound, ending)
    }
}

// Likewise, where one has event mode: on its own, so that a step without any pays nothing for that.
#[inline(never)]
fn cross_from_events<R: Threads + Sync, L: Peer>(
    rt: &R,
    slots: &mut [Slot<L>],
    experiment: &Experiment,
    buffers: &Buffers,
    t: u64,
    n: u64,
    bound: u64,
    ending: &mut Ending,
) -> Option<Agreed>
    requires ready { Ready L.view experiment.now (IsSettled t) slots.old }
    requires timed { AreTimed experiment.now t (n + 1) false buffers.now }
    requires step { IsStep experiment.now.system experiment.now.plan
        (timers_in buffers.now.schedule) buffers.now.schedule.events t bound }
    ensures later { IfSome result (λ agreed. t < agreed.point) }
    ensures within { IfSome result (λ agreed. agreed.point ≤ bound) }
    ensures ready { IfSome result (λ agreed.
        Ready L.view experiment.now (IsStepping agreed.point) slots.new) }
    ensures steps { (count : ℕ) →
        StepsFrom experiment.now t (InstantDone (spot t n buffers.now) false false)
        (stepped_to (spot t n buffers.now)) (instances L.view slots.old)
        (instances L.view slots.new) count count
        (or_ends result ending.new) }
{
    match enter_step(slots, experiment, t) {
        Ok(()) => leave(rt, slots, experiment, buffers, t, bound, ending),
        Err(bad) => {
            end_badly(ending, &bad, t);
            None
        }
    }
}

// The same from Step Mode on.
fn leave<R: Threads + Sync, L: Peer>(
    rt: &R,
    slots: &mut [Slot<L>],
    experiment: &Experiment,
    buffers: &Buffers,
    t: u64,
    bound: u64,
    ending: &mut Ending,
) -> Option<Agreed>
    requires ready { Ready L.view experiment.now (IsStepping t) slots.old }
    requires participants { AreParticipants experiment.now.system buffers.now.participants }
    requires places { length buffers.now.values ≡ length experiment.now.system.ports }
    requires fitting { AreFitting experiment.now.system buffers.now.values }
    requires later { t < bound }
    requires within { bound ≤ experiment.now.plan.stop }
    requires fit { first_unfit experiment.now.system experiment.now.plan (bound - t) ≡ None }
    ensures later { IfSome result (λ agreed. t < agreed.point) }
    ensures within { IfSome result (λ agreed. agreed.point ≤ bound) }
    ensures ready { IfSome result (λ agreed.
        Ready L.view experiment.now (IsStepping agreed.point) slots.new) }
    ensures steps { (n count : ℕ) →
        StepsFrom experiment.now t (Left (way t n buffers.now bound))
        (stepped_to (spot t n buffers.now)) (instances L.view slots.old)
        (instances L.view slots.new) count count
        (or_ends result ending.new) }
{
    match set(slots, experiment, buffers, t) {
        Ok(()) => step(rt, slots, experiment, t, bound, ending),
        Err(bad) => {
            end_badly(ending, &bad, t);
            None
        }
    }
}

// Goes on at the point that a step reached: those with event mode go into Event Mode; or the run ends there.
fn land<L: Peer>(
    slots: &mut [Slot<L>],
    experiment: &Experiment,
    agreed: Agreed,
    ending: &mut Ending,
) -> Option<u64>
    requires { Ready L.view experiment.now (IsStepping agreed.point) slots.old }
    ensures point { IfSome result (λ point. point ≡ agreed.point) }
    ensures ready { IfSome result (λ point. Ready L.view experiment.now (IsAt point) slots.new) }
    ensures crosses { (s : Spot) (ticks : ℕ → ℕ → Bool) (count : ℕ) →
        Begins experiment.now.system experiment.now.plan
        (record s { t = agreed.point; n = 0 }) (ticks agreed.point) →
        Crosses experiment.now (stepped_to s agreed)
        (λ point. Before (record s { t = point; n = 0 }) (ticks point)) (instances L.view slots.old)
        (instances L.view slots.new) count count
        (or_ends result ending.new) }
{
    let point = agreed.point;
    if agreed.asked {
        end_asked(ending, point);
        return None;
    }
    if has_events(slots) {
        land_in_events(slots, experiment, point, ending)
    } else {
        Some(point)
    }
}

// Likewise, where one has event mode, and none asked for the end.
#[inline(never)]
fn land_in_events<L: Peer>(
    slots: &mut [Slot<L>],
    experiment: &Experiment,
    point: u64,
    ending: &mut Ending,
) -> Option<u64>
    requires { Ready L.view experiment.now (IsStepping point) slots.old }
    ensures point { IfSome result (λ reached. reached ≡ point) }
    ensures ready { IfSome result (λ point. Ready L.view experiment.now (IsAt point) slots.new) }
    ensures crosses { (s : Spot) (ticks : ℕ → ℕ → Bool) (count : ℕ) →
        Begins experiment.now.system experiment.now.plan
        (record s { t = point; n = 0 }) (ticks point) →
        Crosses experiment.now (Stepped (record s { t = point; n = 0 }) false)
        (λ point. Before (record s { t = point; n = 0 }) (ticks point)) (instances L.view slots.old)
        (instances L.view slots.new) count count
        (or_ends result ending.new) }
{
    match enter_event(slots, experiment, point) {
        Ok(()) => Some(point),
        Err(bad) => {
            end_badly(ending, &bad, point);
            None
        }
    }
}

/// Leads each FMU with event mode into Step Mode.
pub(crate) fn enter_step<L: Peer>(
    slots: &mut [Slot<L>],
    experiment: &Experiment,
    t: u64,
) -> Result<(), BadAnswer>
    requires { Ready L.view experiment.now (IsSettled t) slots.old }
    ensures ready { OnOk result (Ready L.view experiment.now (IsStepping t) slots.new) }
    ensures stage { Stage (entering_step experiment.now.system) nothing (instances L.view slots.old)
        (instances L.view slots.new) result }
    ensures goes { (w : Way) (count : ℕ) → StageOutcome experiment.now (Leaving w) (λ x. Left w)
        (instances L.view slots.old) (instances L.view slots.new) count count result }
{
    each(slots, Ask::EnterStep)
}

// Sets the connected inputs of the FMUs without event mode for the step.
fn set<L: Peer>(
    slots: &mut [Slot<L>],
    experiment: &Experiment,
    buffers: &Buffers,
    t: u64,
) -> Result<(), BadAnswer>
    requires ready { Ready L.view experiment.now (IsStepping t) slots.old }
    requires participants { AreParticipants experiment.now.system buffers.now.participants }
    requires places { length buffers.now.values ≡ length experiment.now.system.ports }
    requires fitting { AreFitting experiment.now.system buffers.now.values }
    ensures ready { OnOk result (Ready L.view experiment.now (IsDeparting t) slots.new) }
    ensures goes { (s : Spot) (to count : ℕ) →
        StageOutcome experiment.now (Left (record {
          s = record s { values = buffers.now.values };
          to = to;
        }))
        (λ x. Departing (record { s = record s { values = buffers.now.values }; to = to }))
        (instances L.view slots.old) (instances L.view slots.new) count count result }
{
    set_inputs(
        slots,
        &experiment.system,
        &buffers.participants,
        &buffers.values,
    )
}

// Steps all until they stand at one point, at most at the bound.
fn step<R: Threads + Sync, L: Peer>(
    rt: &R,
    slots: &mut [Slot<L>],
    experiment: &Experiment,
    t: u64,
    bound: u64,
    ending: &mut Ending,
) -> Option<Agreed>
    requires ready { Ready L.view experiment.now (IsDeparting t) slots.old }
    requires later { t < bound }
    requires within { bound ≤ experiment.now.plan.stop }
    requires fit { first_unfit experiment.now.system experiment.now.plan (bound - t) ≡ None }
    ensures later { IfSome result (λ agreed. t < agreed.point) }
    ensures within { IfSome result (λ agreed. agreed.point ≤ bound) }
    ensures ready { IfSome result (λ agreed.
        Ready L.view experiment.now (IsStepping agreed.point) slots.new) }
    ensures steps { (s : Spot) (count : ℕ) →
        StepsFrom experiment.now t (Departing (record { s = record s { t = t }; to = bound }))
        (stepped_to s) (instances L.view slots.old) (instances L.view slots.new) count count
        (or_ends result ending.new) }
{
    let mut unmade = StepEnd::FixedStep {
        component: CompId(0),
        at: t,
        end: bound,
    };
    match agreed_step(
        rt,
        slots,
        t,
        bound,
        experiment.plan.step,
        experiment.plan.workers,
        &mut unmade,
    ) {
        Some(agreed) => Some(agreed),
        None => {
            end_unmade(ending, &unmade, t);
            None
        }
    }
}

// Whether one of the FMUs has event mode.
fn has_events<L: Peer>(slots: &[Slot<L>]) -> bool
    ensures { result ≡ list_any (λ slot. has_events (L.view (peer_in slot.held)).fixed.shape)
        slots.now }
{
    slots
        .iter()
        .any(|slot| slot.held.peer().shape().has_event_mode)
}

// Puts how a run ends at a point whose step isn't made.
#[cold]
#[inline(never)]
fn end_unmade(ending: &mut Ending, unmade: &StepEnd, point: u64)
    ensures { ending.new ≡ record { end = end_of_step unmade.now; point = point } }
{
    *ending = Ending {
        end: end_of_step(*unmade),
        point,
    };
}

// Puts how a run ends at a point that a step reached in which an FMU asked for the end.
#[cold]
#[inline(never)]
fn end_asked(ending: &mut Ending, point: u64)
    ensures { ending.new ≡ record { end = End.Asked point; point = point } }
{
    *ending = Ending {
        end: RunEnd::Asked { point },
        point,
    };
}

// Puts how a run ends at a point by an answer that isn't good.
#[cold]
#[inline(never)]
fn end_badly(ending: &mut Ending, bad: &BadAnswer, point: u64)
    ensures { ending.new ≡ record { end = End.Bad bad.now; point = point } }
{
    *ending = Ending {
        end: RunEnd::Bad(*bad),
        point,
    };
}

// How a run ends whose step isn't made.
fn end_of_step(end: StepEnd) -> RunEnd
    ensures { result ≡ end_of_step end }
{
    match end {
        StepEnd::FixedStep { component, at, end } => RunEnd::FixedStep { component, at, end },
        StepEnd::Bad(bad) => RunEnd::Bad(bad),
    }
}

// Leads each FMU with event mode into Event Mode at the point that a step reached.
fn enter_event<L: Peer>(
    slots: &mut [Slot<L>],
    experiment: &Experiment,
    t: u64,
) -> Result<(), BadAnswer>
    requires { Ready L.view experiment.now (IsStepping t) slots.old }
    ensures ready { OnOk result (Ready L.view experiment.now (IsAt t) slots.new) }
    ensures goes { (s : Spot) (ticks : ℕ → Bool) (count : ℕ) →
        Begins experiment.now.system experiment.now.plan (record s { n = 0 }) ticks →
        StageOutcome experiment.now (Stepped s false) (λ x. Before (record s { n = 0 }) ticks)
        (instances L.view slots.old) (instances L.view slots.new) count count result }
{
    each(slots, Ask::EnterEvent)
}
