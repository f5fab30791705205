//! A run that is held at a point, where its checkpoint is put.
ghost use Rattle.std.specs.Prelude.{◌≡◌, ◌≤◌, ◌<◌, ◌+◌, ◌*◌, ◌^◌, ◌++◌, ℕ, [], OnOk, IfOk, IfSome, All, length, vec_capacity, vec_len, false};
ghost use Rattle.trace_text.specs.Room.{HoldsEach};
ghost use Rattle.exact_parts.specs.Field.{AreBytes};
ghost use Rattle.system_checkpoint.specs.Spelling.{first_bytes, sized};
ghost use Rattle.slot_calls.specs.Keeping.{MayBeKept};
ghost use Rattle.slot_calls.specs.Slots.{LiveSlot, Stands, instances};
ghost use Rattle.slot_calls.specs.Stage.{Stage, nothing, shapes};
ghost use Rattle.calling_sequence.specs.Calls.{keeping_from};
ghost use Rattle.calling_sequence.specs.Course.{Made};
ghost use Rattle.calling_sequence.specs.Ends.{header_of};
ghost use Rattle.calling_sequence.specs.StageOutcomes.{ComesTo, spot};
ghost use Rattle.calling_sequence.specs.Holding.{HoldsSlots, KeepsAll, KeepsBytes, PutsPiece};
ghost use Rattle.calling_sequence.specs.Place.{IsSettled};
ghost use Rattle.calling_sequence.specs.Ready.{CanKeep, IsDone, IsRoomy, MayBegin, MayHold, Ready};
ghost use Rattle.calling_sequence.specs.declared.run_end.RunEnd.TheVariants as RunEnd;
ghost use Rattle.system_model.specs.Text.{header_text};

use crate::initialization::initialize;
use crate::kept::put_rest;
use crate::run::come_to;
use crate::steps::enter_step;
use crate::text::conclude;
use crate::{BadAnswer, Break, Buffers, Ending, Experiment, NoMemory, RunEnd};
use fmu_peer::{Peer, Slot};
use sim_base::{CompId, Sink};
use slot_calls::keep;
use std::alloc::Global;
use std::thread::Threads;
use system_checkpoint::{checkpoint_len, put_first, put_sized};
use system_model::System;
use trace_text::{put_header, room_for};

/// The most bytes of a state.
const STATE_MAX: usize = 1 << 20;

/// Room for a run that is held, beside its buffers: for one state as bytes, and for the checkpoint.
#[derive(Drop)]
pub struct Keeping {
    pub state: Vec<u8>,
    pub bytes: Vec<u8>,
}

impl Keeping {
    /// Room for the longest state and the longest checkpoint. It fails where memory runs out.
    pub fn new(alloc: Global, experiment: &Experiment) -> Result<Keeping, NoMemory>
        ensures { IfOk result (IsRoomy experiment.now.system experiment.now.plan) }
    {
        let system = &experiment.system;
        let plan = &experiment.plan;
        let Some(header) = header_room(system, plan.resolution, plan.start, plan.stop) else {
            return Err(NoMemory);
        };
        let Some(most) = checkpoint_len(system.components.len(), system.ports.len(), header) else {
            return Err(NoMemory);
        };
        Ok(Keeping {
            state: Vec::with_capacity(alloc, STATE_MAX)?,
            bytes: Vec::with_capacity(alloc, most)?,
        })
    }

    /// No room, where a run isn't held.
    pub fn none(alloc: Global) -> Keeping {
        Keeping {
            state: Vec::new(alloc),
            bytes: Vec::new(alloc),
        }
    }
}

// A number of bytes into which the trace's header fits, whatever the counts of the plan.
fn header_room(system: &System, resolution: u64, start: u64, stop: u64) -> Option<usize>
    ensures { IfSome result (λ room. length (header_text system.now resolution start stop) ≤ room) }
{
    room_for(system)
}

/// Follows the calling sequence as `run_slots` does, but puts no instants, up to the first point from `at` on that is done and
/// before the stop. There those with event mode go into Step Mode, each FMU puts its state as bytes, and the checkpoint is put,
/// in one piece. Where the run ends before, or an answer there isn't good, the end line alone is put.
///
/// Each FMU can save its state and put it as bytes. Nothing is allocated.
pub fn hold_slots<R: Threads + Sync, L: Peer, O: Sink>(
    rt: &R,
    slots: &mut [Slot<L>],
    experiment: &Experiment,
    buffers: &mut Buffers,
    keeping: &mut Keeping,
    at: u64,
    out: &mut O,
) -> RunEnd
    requires { MayHold L.view experiment.now at slots.old buffers.old keeping.old }
    ensures { HoldsSlots experiment.now at (instances L.view slots.old)
        (instances L.view slots.new) (O.view out.old) (O.view out.new) result }
{
    let point = match come(rt, slots, experiment, buffers, at, out) {
        Ok(point) => point,
        Err(broken) => return conclude(broken, &mut buffers.text, out),
    };
    match keep_all(slots, experiment, buffers, keeping, point) {
        Ok(()) => put_kept(point, &keeping.bytes, out),
        Err(bad) => conclude(
            Break::Ends(Ending {
                end: RunEnd::Bad(bad),
                point,
            }),
            &mut buffers.text,
            out,
        ),
    }
}

// Comes from instances that were made to the point where the run is held.
fn come<R: Threads + Sync, L: Peer, O: Sink>(
    rt: &R,
    slots: &mut [Slot<L>],
    experiment: &Experiment,
    buffers: &mut Buffers,
    at: u64,
    out: &mut O,
) -> Result<u64, Break>
    requires { MayBegin L.view experiment.now slots.old buffers.old }
    ensures text { length buffers.new.text.items ≡ length buffers.old.text.items }
    ensures ready { IfOk result (λ t. Ready L.view experiment.now (IsSettled t) slots.new) }
    ensures done { IfOk result (λ t. (n : ℕ) × IsDone experiment.now t n buffers.new) }
    ensures reached { IfOk result (λ t. at ≤ t) }
    ensures early { IfOk result (λ t. t < experiment.now.plan.stop) }
    ensures comes { ComesTo experiment.now false at Made buffers.new (instances L.view slots.old)
        (instances L.view slots.new) (O.view out.old) (O.view out.new) buffers.old.instants
        buffers.new.instants result }
{
    let start = experiment.plan.start;
    match initialize(slots, experiment, buffers) {
        Ok(()) => come_to(rt, slots, experiment, buffers, start, at, false, out),
        Err(ending) => Err(Break::Ends(ending)),
    }
}

// Leads those with event mode into Step Mode, keeps each state, and makes the checkpoint of all.
fn keep_all<L: Peer>(
    slots: &mut [Slot<L>],
    experiment: &Experiment,
    buffers: &mut Buffers,
    keeping: &mut Keeping,
    point: u64,
) -> Result<(), BadAnswer>
    requires ready { Ready L.view experiment.now (IsSettled point) slots.old }
    requires done { (n : ℕ) × IsDone experiment.now point n buffers.old }
    requires can { CanKeep experiment.now.system experiment.now.plan }
    requires roomy { IsRoomy experiment.now.system experiment.now.plan keeping.old }
    requires resolution { (1 ≤ experiment.now.plan.resolution) ×
        (experiment.now.plan.resolution ≤ 2 ^ 62) }
    requires begun { experiment.now.plan.start ≤ point }
    requires early { point < experiment.now.plan.stop }
    ensures text { length buffers.new.text.items ≡ length buffers.old.text.items }
    ensures keeps { KeepsAll experiment.now (spot point 0 buffers.old) (instances L.view slots.old)
        (instances L.view slots.new) keeping.new.bytes.items result }
{
    match enter_step(slots, experiment, point) {
        Ok(()) => {}
        Err(bad) => return Err(bad),
    }
    put_beginning(experiment, point, &mut buffers.text, &mut keeping.bytes);
    match keep_each(slots, keeping) {
        Ok(()) => {}
        Err(bad) => return Err(bad),
    }
    put_rest(&experiment.system, buffers, &mut keeping.bytes);
    Ok(())
}

// Puts what a checkpoint begins with: the plan, the point, and the trace's header.
fn put_beginning(experiment: &Experiment, point: u64, text: &mut [u8], bytes: &mut Vec<u8>)
    requires holds { HoldsEach experiment.now.system (length text.old) }
    requires few { length (header_of experiment.now.system experiment.now.plan) < 2 ^ 32 }
    requires room { vec_len bytes.old + (60 + length
        (header_of experiment.now.system experiment.now.plan)) ≤ vec_capacity bytes.old }
    ensures text { bytes.new.items ≡ bytes.old.items ++ (first_bytes experiment.now.plan point ++
        sized (header_of experiment.now.system experiment.now.plan)) }
    ensures len { vec_len bytes.new ≡ vec_len bytes.old + (60 + length
        (header_of experiment.now.system experiment.now.plan)) }
    ensures room { vec_capacity bytes.old ≤ vec_capacity bytes.new }
{
    let plan = &experiment.plan;
    let length = put_header(
        &experiment.system,
        plan.resolution,
        plan.start,
        plan.stop,
        text,
    );
    put_first(*plan, point, bytes);
    put_sized(&text[..length], bytes);
}

// Keeps the state of each FMU, one after another, up to the first answer that isn't good.
fn keep_each<L: Peer>(slots: &mut [Slot<L>], keeping: &mut Keeping) -> Result<(), BadAnswer>
    requires few { length slots.old ≤ 2 ^ 32 }
    requires live { All (LiveSlot L.view) slots.old }
    requires may { All (Stands MayBeKept L.view) slots.old }
    requires state { 2 ^ 20 ≤ vec_capacity keeping.old.state }
    requires none { keeping.old.state.items ≡ [] }
    requires room { vec_len keeping.old.bytes + length slots.old * (4 + 2 ^ 20) ≤
        vec_capacity keeping.old.bytes }
    ensures stage { Stage (keeping_from 0 (shapes (instances L.view slots.old))) nothing
        (instances L.view slots.old) (instances L.view slots.new) result }
    ensures kept { OnOk result (KeepsBytes (instances L.view slots.old)
        keeping.old.bytes.items keeping.new.bytes.items) }
    ensures len { OnOk result (vec_len keeping.new.bytes ≤
        vec_len keeping.old.bytes + length slots.old * (4 + 2 ^ 20)) }
    ensures room { vec_capacity keeping.old.bytes ≤ vec_capacity keeping.new.bytes }
{
    for place in 0..slots.len() {
        match keep(&mut slots[place], &mut keeping.state) {
            Ok(()) => {}
            Err(why) => {
                return Err(BadAnswer {
                    component: CompId(place as u32),
                    why,
                });
            }
        }
        put_state(&keeping.state, &mut keeping.bytes);
        keeping.state.clear();
    }
    Ok(())
}

// Puts the state of an FMU after its length.
fn put_state(state: &[u8], bytes: &mut Vec<u8>)
    requires few { length state.now ≤ 2 ^ 20 }
    requires room { vec_len bytes.old + (4 + length state.now) ≤ vec_capacity bytes.old }
    ensures text { bytes.new.items ≡ bytes.old.items ++ sized state.now }
    ensures room { vec_capacity bytes.old ≤ vec_capacity bytes.new }
    ensures are_bytes { AreBytes state.now }
{
    put_sized(state, bytes);
}

// Puts the checkpoint.
fn put_kept<O: Sink>(point: u64, bytes: &[u8], out: &mut O) -> RunEnd
    ensures { PutsPiece (RunEnd.Held point) bytes.now (O.view out.old) (O.view out.new) result }
{
    match out.put(bytes) {
        Ok(()) => RunEnd::Held { point },
        Err(_) => RunEnd::WriteFault,
    }
}
