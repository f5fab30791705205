ghost use Rattle.std.specs.Prelude.{◌≡◌, ◌≤◌, ◌<◌, ◌^◌, IfOk, IfErr, None, map};
ghost use Rattle.std.specs.List.{list_all};
ghost use Rattle.system_model.specs.Bounds.{BindsParameters};
ghost use Rattle.system_model.specs.Sound.{IsSound};
ghost use Rattle.calling_sequence.specs.Plans.{CountsBy};
ghost use Rattle.system_model.specs.Plans.{IsPlan};
ghost use Rattle.step_master.specs.System.{ArePeersOf};
ghost use Rattle.calling_sequence.specs.Place.{IsMade};
ghost use Rattle.calling_sequence.specs.Ready.{AreFresh, IsPlanOf, IsRoomy, MayBeRun, Ready};
ghost use Rattle.slot_calls.specs.Slots.{instances};
ghost use Rattle.step_master.specs.Master.{FailsToPrepare, Makes};
ghost use Rattle.system_checkpoint.specs.Spelling.{CanBeHeld};
ghost use Rattle.trace_text.specs.Holding.{IsHoldable};

use crate::slot_table::SlotTable;
use crate::taking::no_bound;
use crate::{PrepareEnd, PrepareFault, RunEnd};
use calling_sequence::{
    Buffers, Experiment, Keeping, NoMemory, hold_slots, resume_slots, run_slots,
};
use fmu_peer::Peer;
use sim_base::Sink;
use std::alloc::Global;
use std::thread::Threads;
use system_checkpoint::Snapshot;
use system_model::{Bound, Component, Plan, System};
use trace_text::passing_component;

/// The FMUs of a system with all memory of their run. It can't be dropped: it is closed.
pub struct Master<L: Peer> {
    experiment: Experiment,
    // what the run goes on from where it is resumed
    held: Option<Snapshot>,
    slot_table: SlotTable<L>,
    buffers: Buffers,
    keeping: Keeping,
    was_run: bool,
}

impl<L: Peer> Master<L> {
    ghost use Rattle.step_master.specs.Holding.{Holds, PreparesRest, RunsFrom};
    ghost use Rattle.step_master.specs.Master.{Closes, Prepares};
    ghost use Rattle.step_master.specs.Standing.{IsReady, standing};

    /// Allocates all memory of a run, and instantiates each FMU in order. It closes the peers and gives them back where an
    /// answer isn't good or memory runs out.
    pub fn prepare(
        alloc: Global,
        system: System,
        bound: Bound,
        peers: Vec<L>,
        plan: Plan,
    ) -> Result<Master<L>, PrepareEnd<L>>
        requires sound { IsSound system }
        requires bound { BindsParameters system bound }
        requires peers { ArePeersOf system (map L.view peers.items) }
        requires plan { IsPlan plan }
        requires counts { CountsBy system plan }
        ensures ready { IfOk result (IsReady L.view) }
        ensures ok { IfOk result (λ master. Prepares system bound plan (map L.view peers.items)
            (standing L.view master)) }
        ensures err { IfErr result (λ end. FailsToPrepare system plan.link (map L.view peers.items) end.fault
            (map L.view end.peers.items)) }
    {
        let experiment = Experiment {
            system,
            bound,
            plan,
        };
        let Ok((buffers, keeping)) = room_of(alloc, &experiment) else {
            return Err(PrepareEnd {
                peers,
                fault: PrepareFault::Memory,
            });
        };
        let slot_table = make_slots(alloc, &experiment, peers)?;
        Ok(Master {
            experiment,
            held: None,
            slot_table,
            buffers,
            keeping,
            was_run: false,
        })
    }

    /// As `prepare`, for a run that goes on from a checkpoint: `run` begins by leading each instance back to its state. No
    /// parameter is bound.
    pub fn resume(
        alloc: Global,
        system: System,
        peers: Vec<L>,
        held: Snapshot,
        plan: Plan,
    ) -> Result<Master<L>, PrepareEnd<L>>
        requires sound { IsSound system }
        requires peers { ArePeersOf system (map L.view peers.items) }
        requires plan { IsPlan plan }
        requires counts { CountsBy system plan }
        requires can { CanBeHeld system held }
        requires plan_of { IsPlanOf plan held }
        requires holdable { IsHoldable system plan }
        ensures ready { IfOk result (IsReady L.view) }
        ensures ok { IfOk result (λ master. PreparesRest system plan held (map L.view peers.items)
            (standing L.view master)) }
        ensures err { IfErr result (λ end. FailsToPrepare system plan.link (map L.view peers.items) end.fault
            (map L.view end.peers.items)) }
    {
        let Ok(bound) = no_bound(alloc, system.components.as_slice()) else {
            return Err(PrepareEnd {
                peers,
                fault: PrepareFault::Memory,
            });
        };
        let experiment = Experiment {
            system,
            bound,
            plan,
        };
        let Ok(buffers) = Buffers::resume(alloc, &experiment, &held) else {
            return Err(PrepareEnd {
                peers,
                fault: PrepareFault::Memory,
            });
        };
        let slot_table = make_slots(alloc, &experiment, peers)?;
        Ok(Master {
            experiment,
            held: Some(held),
            slot_table,
            buffers,
            keeping: Keeping::none(alloc),
            was_run: false,
        })
    }

    /// Runs the system by its plan: the header, the Sets of the bound parameters, Initialization Mode, and then at each point
    /// one instant after the other until no Update asks for another and no Clock is armed for it, the Sets of the inputs of
    /// the FMUs without event mode and a step to the next point, until the run ends. It puts the trace, one piece for the
    /// header, one for each instant, and one for the end.
    ///
    /// A run that is resumed begins with the way back of each instance to its state, and goes on with the step from the point
    /// where it was held: it puts no header, and the instants after that point.
    /// It allocates no memory.
    pub fn run<R: Threads + Sync, O: Sink>(&mut self, rt: &R, out: &mut O) -> RunEnd
        requires { IsReady L.view self.old }
        ensures { RunsFrom self.old.held (standing L.view self.old) (standing L.view self.new)
            (O.view out.old) (O.view out.new) result }
    {
        self.was_run = true;
        let slots = &mut self.slot_table.slots;
        match &self.held {
            None => run_slots(rt, slots, &self.experiment, &mut self.buffers, out),
            Some(held) => resume_slots(
                rt,
                slots,
                &self.experiment,
                &mut self.buffers,
                held.states.as_slice(),
                held.point,
                out,
            ),
        }
    }

    /// Runs the system as `run` does, but puts no trace, up to the first point from `at` on that is done and before the stop.
    /// There each FMU puts its state as bytes, and the checkpoint is put, in one piece: the end is `Held`. Where the run ends
    /// before, or an answer there isn't good, it puts the end line alone.
    ///
    /// `prepare` made the master; each FMU can put its state as bytes, and the trace's header has at most 2^27 bytes. It
    /// allocates no memory.
    pub fn hold<R: Threads + Sync, O: Sink>(&mut self, rt: &R, at: u64, out: &mut O) -> RunEnd
        requires ready { IsReady L.view self.old }
        requires prepared { self.old.held ≡ None }
        requires holdable { IsHoldable self.old.experiment.system self.old.experiment.plan }
        requires resolution { (1 ≤ self.old.experiment.plan.resolution) ×
            (self.old.experiment.plan.resolution ≤ 2 ^ 62) }
        requires from { self.old.experiment.plan.start ≤ at }
        requires before { at < self.old.experiment.plan.stop }
        ensures { Holds at (standing L.view self.old) (standing L.view self.new) (O.view out.old)
            (O.view out.new) result }
    {
        self.was_run = true;
        hold_slots(
            rt,
            &mut self.slot_table.slots,
            &self.experiment,
            &mut self.buffers,
            &mut self.keeping,
            at,
            out,
        )
    }

    /// Closes the instances in order, each by the calls that it still may be sent, and gives the peers back. After a
    /// refusal with Fatal the instances of that source are sent nothing more. It allocates no memory.
    pub fn close(self) -> Vec<L>
        ensures { Closes (standing L.view self).instances (map L.view result.items) }
    {
        let Master {
            experiment: _,
            held: _,
            slot_table,
            buffers: _,
            keeping: _,
            was_run: _,
        } = self;
        slot_table.close()
    }

    /// The number of instants that were put.
    pub fn instants(&self) -> u128
        ensures { result ≡ self.now.buffers.instants }
    {
        self.buffers.instants
    }

    /// Whether it was run.
    pub fn was_run(&self) -> bool
        ensures { result ≡ self.now.was_run }
    {
        self.was_run
    }
}

// All memory of a whole run but its slots.
fn room_of(alloc: Global, experiment: &Experiment) -> Result<(Buffers, Keeping), NoMemory>
    requires sound { IsSound experiment.now.system }
    requires plan { IsPlan experiment.now.plan }
    ensures fresh { IfOk result (λ room. AreFresh experiment.now room.0) }
    ensures roomy { IfOk result (λ room. IsHoldable experiment.now.system experiment.now.plan →
        IsRoomy experiment.now.system experiment.now.plan room.1) }
{
    let buffers = Buffers::new(alloc, experiment)?;
    Ok((buffers, keeping_for(alloc, experiment)?))
}

// Room to be held, where the run can be.
fn keeping_for(alloc: Global, experiment: &Experiment) -> Result<Keeping, NoMemory>
    requires { IsSound experiment.now.system }
    ensures { IfOk result (λ keeping. IsHoldable experiment.now.system experiment.now.plan →
        IsRoomy experiment.now.system experiment.now.plan keeping) }
{
    let system = &experiment.system;
    if !can_serialize(system.components.as_slice()) {
        return Ok(Keeping::none(alloc));
    }
    match passing_component(system, experiment.plan) {
        Some(_) => Ok(Keeping::none(alloc)),
        None => Keeping::new(alloc, experiment),
    }
}

// Whether each FMU can put its state as bytes.
fn can_serialize(components: &[Component]) -> bool
    ensures { result ≡ list_all (λ component. component.shape.can_serialize_state) components.now }
{
    components
        .iter()
        .all(|component| component.shape.can_serialize_state)
}

// The peers in the slots of their components, with each instance made. Where an answer isn't good, or memory runs out, it
// closes the peers and gives them back.
fn make_slots<L: Peer>(
    alloc: Global,
    experiment: &Experiment,
    peers: Vec<L>,
) -> Result<SlotTable<L>, PrepareEnd<L>>
    requires may { MayBeRun experiment.now }
    requires peers { ArePeersOf experiment.now.system (map L.view peers.items) }
    ensures ready { IfOk result (λ slot_table. Ready L.view experiment.now (λ stop step. IsMade)
        slot_table.slots.items) }
    ensures makes { IfOk result (λ slot_table. Makes experiment.now.system experiment.now.plan.link
        (map L.view peers.items) (instances L.view slot_table.slots.items)) }
    ensures err { IfErr result (λ end. FailsToPrepare experiment.now.system experiment.now.plan.link
        (map L.view peers.items) end.fault (map L.view end.peers.items)) }
{
    match SlotTable::new(alloc, experiment.system.components.as_slice(), peers) {
        Ok(mut slot_table) => match slot_table.make(experiment.plan.link) {
            Ok(()) => Ok(slot_table),
            Err(bad) => Err(PrepareEnd {
                peers: slot_table.close(),
                fault: PrepareFault::Bad(bad),
            }),
        },
        Err(peers) => Err(PrepareEnd {
            peers,
            fault: PrepareFault::Memory,
        }),
    }
}
