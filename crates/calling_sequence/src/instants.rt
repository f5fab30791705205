ghost use Rattle.std.specs.Prelude.{◌≡◌, ◌==◌, ◌<◌, ◌+◌, ◌||◌, false, OnOk, IfOk, IfSome, length};
ghost use Rattle.std.specs.List.{list_any};
ghost use Rattle.run_model.specs.Equations.{is_bad};
ghost use Rattle.event_iteration.specs.BadEnds.{or_bad};
ghost use Rattle.event_iteration.specs.Clocks.{timers_in};
ghost use Rattle.event_iteration.specs.Intervals.{TellsTicks, is_some_armed};
ghost use Rattle.event_iteration.specs.Questions.{AreActive, modes};
ghost use Rattle.event_iteration.specs.Updates.{AreLater};
ghost use Rattle.slot_calls.specs.Slots.{instances};
ghost use Rattle.slot_calls.specs.Stage.{shapes_of};
ghost use Rattle.calling_sequence.specs.Course.{Read, Rearmed};
ghost use Rattle.calling_sequence.specs.StageOutcomes.{Puts, StageOutcome, before_instant, instant_done, or_breaks, spot};
ghost use Rattle.calling_sequence.specs.declared.ending.Break.TheVariants as Break;
ghost use Rattle.calling_sequence.specs.declared.run_end.RunEnd.TheVariants as End;
ghost use Rattle.calling_sequence.specs.Place.{IsAt, IsSettled, IsTaking};
ghost use Rattle.calling_sequence.specs.Ready.{AreTimed, HaveModes, Ready};

use crate::text::put_values;
use crate::{BadAnswer, Break, Buffers, Ending, Experiment, RunEnd};
use event_iteration::{LostValue, Updated, ask_intervals, instant, lost_in_instant, update};
use fmu_peer::{Peer, Slot};
use sim_base::Sink;

/// Takes the n-th instant at a point, up to the first answer that isn't good: it finds the values from those of the instant
/// before, and where none is lost on its way to an input it asks each countdown Clock, and each changing one that ticked, for its
/// interval and each FMU with event mode for what follows, and puts the instant, or doesn't. It is told whether another follows at
/// the point, by an Update or by a Clock that is armed for it; the event times are those that the Updates ask for. Where the run
/// breaks off, it tells nothing, and what breaks it off stands in `broken`: so an instant that goes well moves one word.
pub(crate) fn take<L: Peer, O: Sink>(
    slots: &mut [Slot<L>],
    experiment: &Experiment,
    buffers: &mut Buffers,
    t: u64,
    n: u64,
    puts: bool,
    out: &mut O,
    bad: &mut BadAnswer,
    broken: &mut Break,
) -> Option<Updated>
    requires ready { Ready L.view experiment.now (IsAt t) slots.old }
    requires timed { AreTimed experiment.now t n (n == 0) buffers.old }
    requires below { n < experiment.now.plan.limit }
    ensures ready { IfSome result (λ u. Ready L.view experiment.now (IsAt t) slots.new) }
    ensures settled { IfSome result (λ u. u.again ≡ false →
        Ready L.view experiment.now (IsSettled t) slots.new) }
    ensures timed { IfSome result (λ u. AreTimed experiment.now t (n + 1) false buffers.new) }
    ensures unarmed { IfSome result (λ u. u.again ≡ false →
        is_some_armed t (timers_in buffers.new.schedule) ≡ false) }
    ensures later { IfSome result (λ u. AreLater t buffers.new.schedule.events) }
    ensures modes { IfSome result (λ u. HaveModes (shapes_of experiment.now.system)
        buffers.new.schedule.events) }
    ensures text { length buffers.new.text.items ≡ length buffers.old.text.items }
    ensures puts { Puts experiment.now puts (before_instant t n buffers.old)
        (λ u. instant_done t n buffers.new u) (instances L.view slots.old)
        (instances L.view slots.new)
        (O.view out.old) (O.view out.new) buffers.old.instants buffers.new.instants
        (or_breaks result broken.new) }
{
    match find(slots, experiment, buffers, t, n, bad) {
        Some(()) => {}
        None => {
            break_badly(broken, bad, t);
            return None;
        }
    }
    if let Some(lost) = lost_in_instant(
        &experiment.system,
        &buffers.participants,
        &buffers.values,
    ) {
        break_lost(broken, lost, t);
        return None;
    }
    let is_armed = match ask(slots, experiment, buffers, t, n) {
        Ok(is_armed) => is_armed,
        Err(bad) => {
            break_badly(broken, &bad, t);
            return None;
        }
    };
    show(
        slots, experiment, buffers, t, n, is_armed, puts, out, broken,
    )
}

// Finds the values of the instant.
fn find<L: Peer>(
    slots: &mut [Slot<L>],
    experiment: &Experiment,
    buffers: &mut Buffers,
    t: u64,
    n: u64,
    bad: &mut BadAnswer,
) -> Option<()>
    requires ready { Ready L.view experiment.now (IsAt t) slots.old }
    requires timed { AreTimed experiment.now t n (n == 0) buffers.old }
    ensures ready { OnOk (or_bad result bad.new)
        (Ready L.view experiment.now (IsTaking t) slots.new) }
    ensures timed { OnOk (or_bad result bad.new)
        (AreTimed experiment.now t n (n == 0) buffers.new) }
    ensures ticks { OnOk (or_bad result bad.new)
        (TellsTicks experiment.now.system buffers.new.schedule t buffers.new.values) }
    ensures active { OnOk (or_bad result bad.new)
        (AreActive experiment.now.system buffers.new.values (modes (instances L.view slots.new))) }
    ensures text { length buffers.new.text.items ≡ length buffers.old.text.items }
    ensures goes { StageOutcome experiment.now (before_instant t n buffers.old)
        (λ x. Read (spot t n buffers.new)) (instances L.view slots.old)
        (instances L.view slots.new) buffers.old.instants buffers.new.instants
        (or_bad result bad.new) }
{
    instant(
        slots,
        &experiment.system,
        &buffers.participants,
        &mut buffers.pending,
        &buffers.schedule,
        t,
        n == 0,
        &mut buffers.values,
        bad,
    )
}

// Asks each countdown Clock, and each changing one that ticked, for its interval, and tells whether a Clock is armed for the
// point.
fn ask<L: Peer>(
    slots: &mut [Slot<L>],
    experiment: &Experiment,
    buffers: &mut Buffers,
    t: u64,
    n: u64,
) -> Result<bool, BadAnswer>
    requires ready { Ready L.view experiment.now (IsTaking t) slots.old }
    requires timed { AreTimed experiment.now t n (n == 0) buffers.old }
    requires ticks { TellsTicks experiment.now.system buffers.old.schedule t
        buffers.old.values }
    requires active { AreActive experiment.now.system buffers.old.values
        (modes (instances L.view slots.old)) }
    requires kept { list_any (is_bad buffers.old.values) experiment.now.system.ports ≡
        false }
    ensures ready { OnOk result (Ready L.view experiment.now (IsTaking t) slots.new) }
    ensures timed { OnOk result (AreTimed experiment.now t n false buffers.new) }
    ensures armed { IfOk result (λ armed.
        armed ≡ is_some_armed t (timers_in buffers.new.schedule)) }
    ensures text { length buffers.new.text.items ≡ length buffers.old.text.items }
    ensures goes { StageOutcome experiment.now (Read (spot t n buffers.old))
        (λ armed. Rearmed (spot t n buffers.new)) (instances L.view slots.old)
        (instances L.view slots.new) buffers.old.instants buffers.new.instants result }
{
    ask_intervals(
        slots,
        &experiment.system,
        &buffers.participants,
        &mut buffers.schedule,
        experiment.plan.resolution,
        n == 0,
        &buffers.values,
        t,
    )
}

// Asks each FMU with event mode for what follows, which tells the event times, and puts the instant, or doesn't.
fn show<L: Peer, O: Sink>(
    slots: &mut [Slot<L>],
    experiment: &Experiment,
    buffers: &mut Buffers,
    t: u64,
    n: u64,
    is_armed: bool,
    puts: bool,
    out: &mut O,
    broken: &mut Break,
) -> Option<Updated>
    requires ready { Ready L.view experiment.now (IsTaking t) slots.old }
    requires timed { AreTimed experiment.now t n false buffers.old }
    requires armed { is_armed ≡ is_some_armed t (timers_in buffers.old.schedule) }
    requires below { n < experiment.now.plan.limit }
    ensures ready { IfSome result (λ u. Ready L.view experiment.now (IsAt t) slots.new) }
    ensures settled { IfSome result (λ u. u.again ≡ false →
        Ready L.view experiment.now (IsSettled t) slots.new) }
    ensures timed { IfSome result (λ u. AreTimed experiment.now t (n + 1) false buffers.new) }
    ensures unarmed { IfSome result (λ u. u.again ≡ false →
        is_some_armed t (timers_in buffers.new.schedule) ≡ false) }
    ensures later { IfSome result (λ u. AreLater t buffers.new.schedule.events) }
    ensures modes { IfSome result (λ u. HaveModes (shapes_of experiment.now.system)
        buffers.new.schedule.events) }
    ensures text { length buffers.new.text.items ≡ length buffers.old.text.items }
    ensures puts { Puts experiment.now puts (Rearmed (spot t n buffers.old))
        (λ u. instant_done t n buffers.new u) (instances L.view slots.old)
        (instances L.view slots.new)
        (O.view out.old) (O.view out.new) buffers.old.instants buffers.new.instants
        (or_breaks result broken.new) }
{
    let updated = match update(slots, &experiment.system, &mut buffers.schedule, t) {
        Ok(updated) => updated,
        Err(bad) => {
            break_badly(broken, &bad, t);
            return None;
        }
    };
    if !puts {
        return Some(with_armed(updated, is_armed));
    }
    match put_values(
        &experiment.system,
        t,
        n,
        &mut buffers.values,
        &mut buffers.text,
        &mut buffers.instants,
        out,
    ) {
        Ok(()) => Some(with_armed(updated, is_armed)),
        Err(_) => {
            break_by_put(broken);
            None
        }
    }
}

// Breaks the run off at a point by an answer that isn't good.
#[cold]
#[inline(never)]
fn break_badly(broken: &mut Break, bad: &BadAnswer, point: u64)
    ensures { broken.new ≡ Break.Ends (record { end = End.Bad bad.now; point = point }) }
{
    *broken = Break::Ends(Ending {
        end: RunEnd::Bad(*bad),
        point,
    });
}

// Breaks the run off at a point where the value of a source is lost on its way to an input.
#[cold]
#[inline(never)]
fn break_lost(broken: &mut Break, lost: LostValue, point: u64)
    ensures { broken.new ≡ Break.Ends (record { end = End.Range lost point; point = point }) }
{
    *broken = Break::Ends(Ending {
        end: RunEnd::Range { lost, point },
        point,
    });
}

// Breaks the run off by a put that failed.
#[cold]
#[inline(never)]
fn break_by_put(broken: &mut Break)
    ensures { broken.new ≡ Break.Write }
{
    *broken = Break::Write;
}

// What is told after an instant, with the Clocks that are armed for the point.
fn with_armed(updated: Updated, is_armed: bool) -> Updated
    ensures again { result.again ≡ (updated.again || is_armed) }
    ensures asked { result.asked ≡ updated.asked }
{
    Updated {
        again: updated.again || is_armed,
        asked: updated.asked,
    }
}
