ghost use Rattle.std.specs.Prelude.{IfOk};
ghost use Rattle.system_model.specs.Plans.{IsPlan};
ghost use Rattle.calling_sequence.specs.Ready.{AreFresh, AreResumed, IsPlanOf};
ghost use Rattle.system_checkpoint.specs.Spelling.{CanBeHeld};
ghost use Rattle.system_model.specs.Sound.{IsSound};

use crate::Experiment;
use crate::resumption::{self, values_of};
use event_iteration::{InitialReads, Participants, await_unfed, schedule_of};
use port_values::PortValues;
use std::alloc::{AllocError, Global};
use system_checkpoint::Snapshot;
use tick_schedule::{Pending, Schedule};
use trace_text::room_for;

/// Out of memory for the buffers of a run.
#[derive(Clone, Copy, Debug, PartialEq, Eq)]
pub struct NoMemory;

impl From<AllocError> for NoMemory {
    fn from(_error: AllocError) -> NoMemory {
        NoMemory
    }
}

/// All memory of a run: which outputs Initialization Mode reads, what takes part in instants, which places of their order are
/// still to be taken in one, when Clocks tick and components have their event times, a place for the value of each port, room
/// for the longest text of a trace, and the number of instants that were put.
#[derive(Drop)]
pub struct Buffers {
    pub reads: InitialReads,
    pub participants: Participants,
    pub pending: Pending,
    pub schedule: Schedule,
    pub values: PortValues,
    pub text: Vec<u8>,
    pub instants: u128,
}

impl Buffers {
    /// Those of a run that hasn't begun. It fails where memory runs out.
    pub fn new(alloc: Global, experiment: &Experiment) -> Result<Buffers, NoMemory>
        requires sound { IsSound experiment.now.system }
        requires plan { IsPlan experiment.now.plan }
        ensures { IfOk result (AreFresh experiment.now) }
    {
        let system = &experiment.system;
        let plan = &experiment.plan;
        let Some(bytes) = room_for(system) else {
            return Err(NoMemory);
        };
        Ok(Buffers {
            reads: InitialReads::of(alloc, system)?,
            participants: Participants::of(alloc, system)?,
            pending: Pending::none(alloc, system.instant_order.len())?,
            schedule: schedule_of(alloc, system, plan.start, plan.stop)?,
            values: PortValues::none(alloc, system.ports.len())?,
            text: vec![in alloc; 0u8; bytes]?,
            instants: 0,
        })
    }

    /// Those of a run that is resumed with what was held: the values and the Clocks stand where they did. An input that
    /// nothing feeds and that was held with a value loses it in the first instant. It fails where memory runs out.
    pub fn resume(
        alloc: Global,
        experiment: &Experiment,
        held: &Snapshot,
    ) -> Result<Buffers, NoMemory>
        requires sound { IsSound experiment.now.system }
        requires plan { IsPlan experiment.now.plan }
        requires can { CanBeHeld experiment.now.system held.now }
        requires plan_of { IsPlanOf experiment.now.plan held.now }
        ensures { IfOk result (AreResumed experiment.now held.now) }
    {
        let system = &experiment.system;
        let Some(bytes) = room_for(system) else {
            return Err(NoMemory);
        };
        let values = values_of(alloc, system.ports.as_slice(), held.words.as_slice())?;
        let mut pending = Pending::none(alloc, system.instant_order.len())?;
        await_unfed(system, &values, &mut pending);
        Ok(Buffers {
            reads: InitialReads::of(alloc, system)?,
            participants: Participants::of(alloc, system)?,
            pending,
            schedule: resumption::schedule_of(alloc, experiment, held)?,
            values,
            text: vec![in alloc; 0u8; bytes]?,
            instants: 0,
        })
    }
}
