ghost use Rattle.std.specs.Prelude.{◌≡◌, ℕ, OnOk, false, true, length};
ghost use Rattle.std.specs.List.{list_any};
ghost use Rattle.event_iteration.specs.Clocks.{no_events};
ghost use Rattle.run_model.specs.Initial.{is_bad_initially};
ghost use Rattle.run_model.specs.Machines.{AreFitting};
ghost use Rattle.slot_calls.specs.Slots.{instances};
ghost use Rattle.calling_sequence.specs.Course.{Configured, Entered, Found, Made};
ghost use Rattle.calling_sequence.specs.StageOutcomes.{Crosses, StageOutcome, before_instant, timed};
ghost use Rattle.calling_sequence.specs.Place.{IsAt, IsInitializing, IsMade};
ghost use Rattle.calling_sequence.specs.Ready.{AreFixed, AreFresh, AreTimed, Ready};

use crate::parameters::set_parameters;
use crate::{BadAnswer, Buffers, Ending, Experiment, RunEnd};
use event_iteration::{fix_clocks, lost_initially};
use fmu_peer::{Peer, Slot};
use slot_calls::{Ask, each};

/// Sets the bound parameters, leads each FMU through Initialization Mode, where it finds the values and asks each fixed Clock
/// for interval and shift and each changing Clock for its shift, and clears the values: before the first instant no port
/// has one. Where a value is lost on its way to an input, the run ends before the Clocks are asked.
pub(crate) fn initialize<L: Peer>(
    slots: &mut [Slot<L>],
    experiment: &Experiment,
    buffers: &mut Buffers,
) -> Result<(), Ending>
    requires ready { Ready L.view experiment.now (λ stop step. IsMade) slots.old }
    requires fresh { AreFresh experiment.now buffers.old }
    ensures ready { OnOk result
        (Ready L.view experiment.now (IsAt experiment.now.plan.start) slots.new) }
    ensures timed { OnOk result
        (AreTimed experiment.now experiment.now.plan.start 0 true buffers.new) }
    ensures text { length buffers.new.text.items ≡ length buffers.old.text.items }
    ensures crosses { Crosses experiment.now Made
        (λ x. before_instant experiment.now.plan.start 0 buffers.new) (instances L.view slots.old)
        (instances L.view slots.new) buffers.old.instants buffers.new.instants result }
{
    let start = experiment.plan.start;
    match find_values(slots, experiment, buffers) {
        Ok(()) => {}
        Err(bad) => {
            return Err(Ending {
                end: RunEnd::Bad(bad),
                point: start,
            });
        }
    }
    if let Some(lost) = lost_initially(&experiment.system, &buffers.values) {
        return Err(Ending {
            end: RunEnd::Range { lost, point: start },
            point: start,
        });
    }
    match leave(slots, experiment, buffers) {
        Ok(()) => Ok(()),
        Err(bad) => Err(Ending {
            end: RunEnd::Bad(bad),
            point: start,
        }),
    }
}

// Sets the bound parameters, and leads each FMU into Initialization Mode, where it finds the values.
fn find_values<L: Peer>(
    slots: &mut [Slot<L>],
    experiment: &Experiment,
    buffers: &mut Buffers,
) -> Result<(), BadAnswer>
    requires ready { Ready L.view experiment.now (λ stop step. IsMade) slots.old }
    requires fresh { AreFresh experiment.now buffers.old }
    ensures ready { OnOk result (Ready L.view experiment.now
        (λ stop step. IsInitializing experiment.now.plan.start stop) slots.new) }
    ensures fresh { OnOk result (AreFresh experiment.now buffers.new) }
    ensures fitting { OnOk result
        (AreFitting experiment.now.system buffers.new.values) }
    ensures text { length buffers.new.text.items ≡ length buffers.old.text.items }
    ensures goes { StageOutcome experiment.now Made (λ x. Found buffers.new.values)
        (instances L.view slots.old) (instances L.view slots.new) buffers.old.instants
        buffers.new.instants result }
{
    match configure(slots, experiment) {
        Ok(()) => {}
        Err(bad) => return Err(bad),
    }
    match enter(slots, experiment) {
        Ok(()) => {}
        Err(bad) => return Err(bad),
    }
    find(slots, experiment, buffers)
}

// Asks the Clocks, leads each FMU out of Initialization Mode, and clears the values.
fn leave<L: Peer>(
    slots: &mut [Slot<L>],
    experiment: &Experiment,
    buffers: &mut Buffers,
) -> Result<(), BadAnswer>
    requires ready { Ready L.view experiment.now
        (λ stop step. IsInitializing experiment.now.plan.start stop) slots.old }
    requires fresh { AreFresh experiment.now buffers.old }
    requires fitting { AreFitting experiment.now.system buffers.old.values }
    requires kept { list_any (is_bad_initially experiment.now.system buffers.old.values)
        experiment.now.system.ports ≡ false }
    ensures ready { OnOk result
        (Ready L.view experiment.now (IsAt experiment.now.plan.start) slots.new) }
    ensures timed { OnOk result
        (AreTimed experiment.now experiment.now.plan.start 0 true buffers.new) }
    ensures text { length buffers.new.text.items ≡ length buffers.old.text.items }
    ensures goes { StageOutcome experiment.now (Found buffers.old.values)
        (λ x. before_instant experiment.now.plan.start 0 buffers.new) (instances L.view slots.old)
        (instances L.view slots.new) buffers.old.instants buffers.new.instants result }
{
    match ask(slots, experiment, buffers) {
        Ok(()) => {}
        Err(bad) => return Err(bad),
    }
    exit(slots, experiment, buffers)
}

// Sets each bound parameter.
fn configure<L: Peer>(slots: &mut [Slot<L>], experiment: &Experiment) -> Result<(), BadAnswer>
    requires { Ready L.view experiment.now (λ stop step. IsMade) slots.old }
    ensures ready { OnOk result (Ready L.view experiment.now (λ stop step. IsMade) slots.new) }
    ensures goes { (count : ℕ) → StageOutcome experiment.now Made (λ x. Configured)
        (instances L.view slots.old) (instances L.view slots.new) count count result }
{
    set_parameters(slots, &experiment.bound)
}

// Leads each FMU into Initialization Mode.
fn enter<L: Peer>(slots: &mut [Slot<L>], experiment: &Experiment) -> Result<(), BadAnswer>
    requires { Ready L.view experiment.now (λ stop step. IsMade) slots.old }
    ensures ready { OnOk result (Ready L.view experiment.now
        (λ stop step. IsInitializing experiment.now.plan.start stop) slots.new) }
    ensures goes { (count : ℕ) → StageOutcome experiment.now Configured (λ x. Entered)
        (instances L.view slots.old) (instances L.view slots.new) count count result }
{
    each(
        slots,
        Ask::EnterInitialization {
            start: experiment.plan.start,
            stop: experiment.plan.stop,
        },
    )
}

// Finds the values of Initialization Mode.
fn find<L: Peer>(
    slots: &mut [Slot<L>],
    experiment: &Experiment,
    buffers: &mut Buffers,
) -> Result<(), BadAnswer>
    requires ready { Ready L.view experiment.now
        (λ stop step. IsInitializing experiment.now.plan.start stop) slots.old }
    requires fresh { AreFresh experiment.now buffers.old }
    ensures ready { OnOk result (Ready L.view experiment.now
        (λ stop step. IsInitializing experiment.now.plan.start stop) slots.new) }
    ensures fresh { OnOk result (AreFresh experiment.now buffers.new) }
    ensures fitting { AreFitting experiment.now.system buffers.new.values }
    ensures text { length buffers.new.text.items ≡ length buffers.old.text.items }
    ensures goes { StageOutcome experiment.now Entered (λ x. Found buffers.new.values)
        (instances L.view slots.old) (instances L.view slots.new) buffers.old.instants
        buffers.new.instants result }
{
    event_iteration::initialize(
        slots,
        &experiment.system,
        &buffers.reads,
        &mut buffers.values,
    )
}

// Asks each fixed Clock for its interval and its shift, and each changing Clock for its shift.
fn ask<L: Peer>(
    slots: &mut [Slot<L>],
    experiment: &Experiment,
    buffers: &mut Buffers,
) -> Result<(), BadAnswer>
    requires ready { Ready L.view experiment.now
        (λ stop step. IsInitializing experiment.now.plan.start stop) slots.old }
    requires fresh { AreFresh experiment.now buffers.old }
    requires fitting { AreFitting experiment.now.system buffers.old.values }
    requires kept { list_any (is_bad_initially experiment.now.system buffers.old.values)
        experiment.now.system.ports ≡ false }
    ensures ready { OnOk result (Ready L.view experiment.now
        (λ stop step. IsInitializing experiment.now.plan.start stop) slots.new) }
    ensures fixed { OnOk result (AreFixed experiment.now buffers.new) }
    ensures none { buffers.new.schedule.events ≡ no_events experiment.now.system }
    ensures text { length buffers.new.text.items ≡ length buffers.old.text.items }
    ensures goes { StageOutcome experiment.now (Found buffers.old.values) (λ x. timed buffers.new)
        (instances L.view slots.old) (instances L.view slots.new) buffers.old.instants
        buffers.new.instants result }
{
    fix_clocks(
        slots,
        &experiment.system,
        &mut buffers.schedule,
        experiment.plan.resolution,
        experiment.plan.start,
    )
}

// Leads each FMU out of Initialization Mode, and clears the values.
fn exit<L: Peer>(
    slots: &mut [Slot<L>],
    experiment: &Experiment,
    buffers: &mut Buffers,
) -> Result<(), BadAnswer>
    requires ready { Ready L.view experiment.now
        (λ stop step. IsInitializing experiment.now.plan.start stop) slots.old }
    requires fixed { AreFixed experiment.now buffers.old }
    requires none { buffers.old.schedule.events ≡ no_events experiment.now.system }
    ensures ready { OnOk result
        (Ready L.view experiment.now (IsAt experiment.now.plan.start) slots.new) }
    ensures timed { AreTimed experiment.now experiment.now.plan.start 0 true buffers.new }
    ensures text { length buffers.new.text.items ≡ length buffers.old.text.items }
    ensures goes { StageOutcome experiment.now (timed buffers.old)
        (λ x. before_instant experiment.now.plan.start 0 buffers.new) (instances L.view slots.old)
        (instances L.view slots.new) buffers.old.instants buffers.new.instants result }
{
    buffers.values.clear();
    each(slots, Ask::ExitInitialization)
}
