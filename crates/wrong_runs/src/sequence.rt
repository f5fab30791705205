//! The calling sequence of a run, whole, held and resumed.
ghost use Rattle.calling_sequence.specs.Holding.{HoldsSlots, ResumesSlots};
ghost use Rattle.calling_sequence.specs.Ready.{MayHold, MayResume};
ghost use Rattle.calling_sequence.specs.StageOutcomes.{spot};
ghost use Rattle.slot_calls.specs.Slots.{instances};
ghost use Rattle.step_master.specs.Holding.{RunsFrom};
ghost use Rattle.step_master.specs.Standing.{IsReady, standing};

use calling_sequence::{Buffers, Experiment, Keeping, RunEnd, hold_slots, resume_slots};
use fmu_peer::{Peer, Slot};
use sim_base::{SharedBytes, Sink};
use std::thread::Threads;
use step_master::Master;

/// Follows the calling sequence up to the first point from `at` on that is done, where a checkpoint is put.
pub fn hold_all<R: Threads + Sync, L: Peer, O: Sink>(
    rt: &R,
    slots: &mut [Slot<L>],
    experiment: &Experiment,
    buffers: &mut Buffers,
    keeping: &mut Keeping,
    at: u64,
    out: &mut O,
) -> RunEnd
    requires { MayHold L.view experiment.now at slots.old buffers.old keeping.old }
    ensures { HoldsSlots experiment.now at (instances L.view slots.old)
        (instances L.view slots.new) (O.view out.old) (O.view out.new) result }
{
    hold_slots(rt, slots, experiment, buffers, keeping, at, out)
}

/// Follows the calling sequence from what was held of a run.
pub fn resume_all<R: Threads + Sync, L: Peer, O: Sink>(
    rt: &R,
    slots: &mut [Slot<L>],
    experiment: &Experiment,
    buffers: &mut Buffers,
    states: &[SharedBytes],
    point: u64,
    out: &mut O,
) -> RunEnd
    requires { MayResume L.view experiment.now point states.now slots.old buffers.old }
    ensures { ResumesSlots experiment.now (spot point 0 buffers.old) states.now
        (instances L.view slots.old) (instances L.view slots.new) (O.view out.old)
        (O.view out.new) buffers.new.instants result }
{
    resume_slots(rt, slots, experiment, buffers, states, point, out)
}

/// Runs a system by its plan, and puts the trace.
pub fn run_master<L: Peer, R: Threads + Sync, O: Sink>(
    master: &mut Master<L>,
    rt: &R,
    out: &mut O,
) -> RunEnd
    requires { IsReady L.view master.old }
    ensures { RunsFrom master.old.held (standing L.view master.old) (standing L.view master.new)
        (O.view out.old) (O.view out.new) result }
{
    master.run(rt, out)
}
