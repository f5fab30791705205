//! A run that is resumed from a checkpoint.
ghost use Rattle.std.specs.Prelude.{◌≡◌, ◌≤◌, ◌<◌, ◌^◌, All, OnOk, length, map, true};
ghost use Rattle.slot_calls.specs.Keeping.{RestoresEach, without_machines};
ghost use Rattle.slot_calls.specs.Slots.{instances};
ghost use Rattle.slot_calls.specs.Stage.{Stage, nothing};
ghost use Rattle.calling_sequence.specs.Calls.{restoring};
ghost use Rattle.calling_sequence.specs.Course.{Restored};
ghost use Rattle.calling_sequence.specs.StageOutcomes.{Breaks, spot};
ghost use Rattle.calling_sequence.specs.Holding.{ResumesSlots};
ghost use Rattle.calling_sequence.specs.Place.{IsMade, IsStepping};
ghost use Rattle.calling_sequence.specs.Ready.{CanKeep, IsDone, MayResume, Ready};

use crate::run::go_on;
use crate::steps::first_step;
use crate::text::conclude;
use crate::{BadAnswer, Break, Buffers, Ending, Experiment, RunEnd};
use fmu_peer::{Peer, Slot};
use sim_base::{CompId, SharedBytes, Sink};
use slot_calls::restore;
use std::thread::Threads;

/// Follows the calling sequence from instances that were made and what was held of a run to the end line of the trace. Each
/// FMU takes its state in and goes back to it, one after another; then the run goes on with the step from the point. Neither
/// the header nor an instant of the point is put.
///
/// The buffers were made for what was held (`Buffers::resume`), of which these are the states and the point. Nothing is
/// allocated.
pub fn resume_slots<R: Threads + Sync, L: Peer, O: Sink>(
    rt: &R,
    slots: &mut [Slot<L>],
    experiment: &Experiment,
    buffers: &mut Buffers,
    states: &[SharedBytes],
    point: u64,
    out: &mut O,
) -> RunEnd
    requires { MayResume L.view experiment.now point states.now slots.old buffers.old }
    ensures { ResumesSlots experiment.now (spot point 0 buffers.old) states.now
        (instances L.view slots.old) (instances L.view slots.new) (O.view out.old)
        (O.view out.new) buffers.new.instants result }
{
    match restore_each(slots, experiment, states, point) {
        Ok(()) => {
            let broken = follow(rt, slots, experiment, buffers, point, out);
            conclude(broken, &mut buffers.text, out)
        }
        Err(bad) => {
            let end = Ending {
                end: RunEnd::Bad(bad),
                point,
            };
            conclude(Break::Ends(end), &mut buffers.text, out)
        }
    }
}

// Runs instances that are in Step Mode at the point to the end of the run, and puts each instant.
fn follow<R: Threads + Sync, L: Peer, O: Sink>(
    rt: &R,
    slots: &mut [Slot<L>],
    experiment: &Experiment,
    buffers: &mut Buffers,
    point: u64,
    out: &mut O,
) -> Break
    requires ready { Ready L.view experiment.now (IsStepping point) slots.old }
    requires done { IsDone experiment.now point 0 buffers.old }
    requires begun { experiment.now.plan.start ≤ point }
    requires before { point < experiment.now.plan.stop }
    ensures text { length buffers.new.text.items ≡ length buffers.old.text.items }
    ensures breaks { Breaks experiment.now true experiment.now.plan.stop
        (Restored (spot point 0 buffers.old)) (instances L.view slots.old)
        (instances L.view slots.new) (O.view out.old) (O.view out.new) buffers.old.instants
        buffers.new.instants result }
{
    let mut ending = Ending {
        end: RunEnd::Stop,
        point: experiment.plan.stop,
    };
    match first_step(rt, slots, experiment, buffers, point, &mut ending) {
        Some(reached) => go_on(rt, slots, experiment, buffers, reached, out),
        None => Break::Ends(ending),
    }
}

// Leads each FMU back to its state, up to the first answer that isn't good.
fn restore_each<L: Peer>(
    slots: &mut [Slot<L>],
    experiment: &Experiment,
    states: &[SharedBytes],
    point: u64,
) -> Result<(), BadAnswer>
    requires ready { Ready L.view experiment.now (λ stop step. IsMade) slots.old }
    requires can { CanKeep experiment.now.system experiment.now.plan }
    requires each { length states.now ≡ length slots.old }
    requires few { All (λ state. length state ≤ 2 ^ 20) states.now }
    requires before { point < experiment.now.plan.stop }
    ensures ready { OnOk result (Ready L.view experiment.now (IsStepping point) slots.new) }
    ensures stage { Stage (restoring point experiment.now.plan.stop (map length states.now)) nothing
        (without_machines (instances L.view slots.old))
        (without_machines (instances L.view slots.new)) result }
    ensures restores { RestoresEach point experiment.now.plan.stop states.now
        (instances L.view slots.old) (instances L.view slots.new) result }
{
    for place in 0..slots.len() {
        match restore(
            &mut slots[place],
            point,
            experiment.plan.stop,
            states[place].as_slice(),
        ) {
            Ok(()) => {}
            Err(why) => {
                return Err(BadAnswer {
                    component: CompId(place as u32),
                    why,
                });
            }
        }
    }
    Ok(())
}
