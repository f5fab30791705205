//! Calls are served one after another.
ghost use Rattle.std.specs.Prelude.{◌≡◌, ◌≤◌, ◌+◌, ◌*◌, ◌↔◌, false, IfOk, IsTrue, List, OnErr, length, take};
ghost use Rattle.sim_base.specs.Causes.{Rose};
ghost use Rattle.sim_base.specs.Sink.{with_piece};
ghost use Rattle.sim_base.specs.Source.{SourceView};
ghost use Rattle.fmi_calls.specs.Permission.{Permitted};
ghost use Rattle.fmi_calls.specs.Kinds.{kind_of, kind_of_reply};
ghost use Rattle.fmi_calls.specs.declared.call.Call.{Call};
ghost use Rattle.fmu_peer.specs.View.{IsDeserialize, carries_bytes};
ghost use Rattle.link_frames.specs.Batch.{CanAnswer, IsCallBatch};
ghost use Rattle.link_frames.specs.Reply.{CanBeTold};
ghost use Rattle.host_serving.specs.Frames.{IsBatchOfCalls, TakesBatch, TakesCall};
ghost use Rattle.host_serving.specs.Serving.{AnswersItems, EndsAfter, HasServed, PutsReply, Steps, as_sent, scene, with_state};
ghost use Rattle.host_serving.specs.Told.{ServesAsTold};

use crate::reading::{MOST_BYTES, NextFrame, item, next_frame};
use crate::state::{NextState, next_state};
use fmi_calls::{BadStatus, Call, Content, Grade, Kind, Reply, grade, permitted};
use fmu_peer::Peer;
use link_frames::{MOST_ITEMS, put_batch_reply, put_reply};
use sim_base::{Sink, SinkFault, Source};
use std::alloc::Global;

// The bytes of the longest state.
const MOST_STATE: usize = 1 << 20;

/// Why serving ended.
#[derive(Clone, Copy, Debug, Drop, PartialEq, Eq)]
pub enum ServeEnd {
    /// The instance was freed.
    Freed,
    /// The input ends between two frames.
    Ended,
    /// The byte at this place of a frame, from 0, is the first that continues none; or the input ends inside a frame, which has
    /// so many bytes, with those of a state that follow it.
    BadFrame { at: u64 },
    /// FMI 3.0 doesn't permit this call in the state of the instance.
    NotPermitted { call: Call },
    /// A take, a put or a call failed, or the reply to a call of a batch isn't of the call's kind, or a reply tells of a state
    /// that no frame can tell of.
    Failed,
    /// As many calls were served as are counted: 2^64 - 1. A batch in which that is reached is served to its end.
    TooMany,
    /// Out of memory for the texts of a frame, or for the bytes of a state.
    Memory,
}

/// Serves the calls that come as frames, one after another: asks the machine each call that is permitted, and puts the frame
/// of its reply. The calls of a batch are answered up to the first whose reply isn't good, by one batch of replies; where one
/// of them isn't permitted nothing is put for them. The bytes of a state are taken after the frame of a Deserialize, once that
/// is permitted, and put after the reply to a Serialize. It ends after FreeInstance, or where a frame, a call, a count or the
/// input ends it.
pub fn serve<I: Source, O: Sink, M: Peer>(
    alloc: Global,
    input: &mut I,
    output: &mut O,
    machine: &mut M,
) -> ServeEnd
    ensures served { HasServed (scene (I.view input.old) (O.view output.old) (M.view machine.old))
        (scene (I.view input.new) (O.view output.new) (M.view machine.new)) result }
    ensures told { ServesAsTold (scene (I.view input.old) (O.view output.old) (M.view machine.old))
        (scene (I.view input.new) (O.view output.new) (M.view machine.new)) result }
{
    let mut room = [0; MOST_BYTES];
    let mut served: u64 = 0;
    'frames: while served < u64::MAX {
        match serve_next(alloc, input, output, machine, &mut room) {
            Next::Served(count) => served = served.saturating_add(count),
            Next::Ends(end) => return end,
        }
    }
    ServeEnd::TooMany
}

// What came of a frame: so many calls were served, or the serving ends.
#[derive(Drop)]
pub(crate) enum Next {
    Served(u64),
    Ends(ServeEnd),
}

// Serves the next frame.
fn serve_next<I: Source, O: Sink, M: Peer>(
    alloc: Global,
    input: &mut I,
    output: &mut O,
    machine: &mut M,
    room: &mut [u8; MOST_BYTES],
) -> Next
    ensures { Steps (scene (I.view input.old) (O.view output.old) (M.view machine.old))
        (scene (I.view input.new) (O.view output.new) (M.view machine.new)) result }
{
    match next_frame(alloc, input, room) {
        NextFrame::Came(call) => serve_call(alloc, call, input, output, machine),
        NextFrame::Batch(count) => serve_batch(room, count, output, machine),
        NextFrame::AtEnd => Next::Ends(ServeEnd::Ended),
        NextFrame::Bad { at } => Next::Ends(ServeEnd::BadFrame { at }),
        NextFrame::Failed => Next::Ends(ServeEnd::Failed),
        NextFrame::Memory => Next::Ends(ServeEnd::Memory),
    }
}

// Serves one call.
fn serve_call<I: Source, O: Sink, M: Peer>(
    alloc: Global,
    call: Call,
    input: &mut I,
    output: &mut O,
    machine: &mut M,
) -> Next
    ensures { (before : SourceView) → TakesCall before (I.view input.old) call →
        Steps (scene before (O.view output.old) (M.view machine.old))
        (scene (I.view input.new) (O.view output.new) (M.view machine.new)) result }
{
    if !permitted(machine.shape(), machine.phase(), &call) {
        return Next::Ends(ServeEnd::NotPermitted { call });
    }
    match call {
        Call::Serialize => serve_serialize(alloc, output, machine),
        Call::Deserialize { length, .. } => {
            serve_deserialize(alloc, &call, length, input, output, machine)
        }
        _ => serve_plain(&call, output, machine),
    }
}

// Asks the machine a call that isn't followed by bytes, and whose reply isn't, and puts the reply.
fn serve_plain<O: Sink, M: Peer>(call: &Call, output: &mut O, machine: &mut M) -> Next
    requires permitted { Permitted (M.view machine.old).fixed.shape (M.view machine.old).phase
        call.now }
    requires plain { carries_bytes call.now ≡ false }
    ensures { (before read : SourceView) → TakesCall before read call.now →
        Steps (scene before (O.view output.old) (M.view machine.old))
        (scene read (O.view output.new) (M.view machine.new)) result }
{
    match machine.call(call) {
        Ok(reply) => put_answer(call, reply, &[], output),
        Err(_) => Next::Ends(ServeEnd::Failed),
    }
}

// Asks the machine a Serialize, and puts its reply and the bytes of the state.
fn serve_serialize<O: Sink, M: Peer>(alloc: Global, output: &mut O, machine: &mut M) -> Next
    requires { Permitted (M.view machine.old).fixed.shape (M.view machine.old).phase Call.Serialize }
    ensures { (before read : SourceView) → TakesCall before read Call.Serialize →
        Steps (scene before (O.view output.old) (M.view machine.old))
        (scene read (O.view output.new) (M.view machine.new)) result }
{
    let Ok(mut state) = Vec::with_capacity(alloc, MOST_STATE) else {
        return Next::Ends(ServeEnd::Memory);
    };
    match machine.serialize(&mut state) {
        Ok(reply) => put_answer(&Call::Serialize, reply, state.as_slice(), output),
        Err(_) => Next::Ends(ServeEnd::Failed),
    }
}

// Takes the bytes that follow a Deserialize, asks the machine it with them, and puts the reply.
fn serve_deserialize<I: Source, O: Sink, M: Peer>(
    alloc: Global,
    call: &Call,
    length: u32,
    input: &mut I,
    output: &mut O,
    machine: &mut M,
) -> Next
    requires permitted { Permitted (M.view machine.old).fixed.shape (M.view machine.old).phase
        call.now }
    requires kind { IsDeserialize call.now length }
    ensures { (before : SourceView) → TakesCall before (I.view input.old) call.now →
        Steps (scene before (O.view output.old) (M.view machine.old))
        (scene (I.view input.new) (O.view output.new) (M.view machine.new)) result }
{
    let state = match next_state(alloc, input, length as usize) {
        NextState::Came(state) => state,
        NextState::Short { count } => return Next::Ends(ServeEnd::BadFrame { at: 24 + count }),
        NextState::Failed => return Next::Ends(ServeEnd::Failed),
        NextState::Memory => return Next::Ends(ServeEnd::Memory),
    };
    match machine.deserialize(call, state.as_slice()) {
        Ok(reply) => put_answer(call, reply, &[], output),
        Err(_) => Next::Ends(ServeEnd::Failed),
    }
}

// Puts the reply to a call, and the bytes that follow it.
fn put_answer<O: Sink>(call: &Call, reply: Reply, state: &[u8], output: &mut O) -> Next
    ensures { PutsReply (O.view output.old) (O.view output.new) call.now reply state.now result }
{
    if !can_be_told(&reply) {
        return Next::Ends(ServeEnd::Failed);
    }
    let mut frame = [0; 24];
    put_reply(&as_sent(call, reply), &mut frame);
    match put_both(&frame, state, output) {
        Ok(()) => end_after(*call),
        Err(_) => Next::Ends(ServeEnd::Failed),
    }
}

// Puts a frame, and the bytes that follow it, if any do.
fn put_both<O: Sink>(frame: &[u8], state: &[u8], output: &mut O) -> Result<(), SinkFault>
    ensures put { IfOk result (λ done. O.view output.new ≡
        with_state (with_piece (O.view output.old) frame.now) state.now) }
    ensures rose { OnErr result (Rose (O.view output.old).faults (O.view output.new).faults) }
{
    output.put(frame)?;
    if state.is_empty() {
        return Ok(());
    }
    output.put(state)
}

// Whether a reply has a frame: it tells of no state that is too long.
fn can_be_told(reply: &Reply) -> bool
    ensures { IsTrue result ↔ CanBeTold reply.now }
{
    match reply {
        Reply::Done {
            content: Content::Serialize { length },
            ..
        } => *length as usize <= MOST_STATE,
        _ => true,
    }
}

// The reply that is put: a good one to an Instantiate that asks for batches says that they are taken.
fn as_sent(call: &Call, reply: Reply) -> Reply
    ensures { result ≡ as_sent call.now reply }
{
    match (call, reply) {
        (
            Call::Instantiate { batches: true, .. },
            Reply::Done {
                is_warning,
                content: Content::Instantiate { .. },
            },
        ) => Reply::Done {
            is_warning,
            content: Content::Instantiate { batches: true },
        },
        (_, reply) => reply,
    }
}

// What has no reply.
const NO_REPLY: Reply = Reply::Refused {
    kind: Kind::FreeInstance,
    status: BadStatus::Fatal,
};

// Serves the calls of a batch.
fn serve_batch<O: Sink, M: Peer>(
    room: &[u8; MOST_BYTES],
    count: usize,
    output: &mut O,
    machine: &mut M,
) -> Next
    requires { IsCallBatch count (take (24 * (count + 1)) room.now) }
    ensures { (input read : SourceView) → TakesBatch input read room.now count →
        Steps (scene input (O.view output.old) (M.view machine.old))
        (scene read (O.view output.new) (M.view machine.new)) result }
{
    let mut places = [NO_REPLY; MOST_ITEMS];
    serve_items(room, &mut places[..count], output, machine)
}

// Asks the machine the calls of a batch, for whose replies there are places, and puts the batch of the replies.
fn serve_items<O: Sink, M: Peer>(
    room: &[u8; MOST_BYTES],
    places: &mut [Reply],
    output: &mut O,
    machine: &mut M,
) -> Next
    requires { IsCallBatch (length places.old) (take (24 * (length places.old + 1)) room.now) }
    ensures { (input read : SourceView) → TakesBatch input read room.now (length places.old) →
        Steps (scene input (O.view output.old) (M.view machine.old))
        (scene read (O.view output.new) (M.view machine.new)) result }
{
    let answered = match answer_items(room, places, machine) {
        Ok(answered) => answered,
        Err(end) => return Next::Ends(end),
    };
    let replies = &places[..answered];
    let mut frame = [0; MOST_BYTES];
    let length = put_batch_reply(replies, &mut frame);
    match output.put(&frame[..length]) {
        Ok(()) => Next::Served(answered as u64),
        Err(_) => Next::Ends(ServeEnd::Failed),
    }
}

// Asks the machine the calls of a batch in their order, up to the first answer that isn't good. Answers how many replies
// stand in their places, or what ends the serving.
fn answer_items<M: Peer>(
    room: &[u8; MOST_BYTES],
    places: &mut [Reply],
    machine: &mut M,
) -> Result<usize, ServeEnd>
    requires { IsCallBatch (length places.old) (take (24 * (length places.old + 1)) room.now) }
    ensures answered { (calls : List Call) →
        IsBatchOfCalls calls (take (24 * (length places.old + 1)) room.now) →
        AnswersItems (M.view machine.old) calls places.new result (M.view machine.new) }
    ensures can { IfOk result (λ n. CanAnswer (take n places.new)) }
    ensures within { IfOk result (λ n. n ≤ length places.new) }
{
    for i in 0..places.len() {
        let call = item(room, i);
        if !permitted(machine.shape(), machine.phase(), &call) {
            return Err(ServeEnd::NotPermitted { call });
        }
        let reply = match machine.call(&call) {
            Ok(reply) => reply,
            Err(_) => return Err(ServeEnd::Failed),
        };
        if !is_of_kind(&reply, &call) {
            return Err(ServeEnd::Failed);
        }
        places[i] = reply;
        match grade(machine.shape(), machine.phase(), &call, &reply) {
            Grade::Good => {}
            Grade::Refused | Grade::Misreply => return Ok(i + 1),
        }
    }
    Ok(places.len())
}

// Whether a reply is of the kind of a call.
fn is_of_kind(reply: &Reply, call: &Call) -> bool
    ensures { IsTrue result ↔ (kind_of_reply reply.now ≡ kind_of call.now) }
{
    reply.kind() == call.kind()
}

// What ends the serving after a call that was served.
fn end_after(call: Call) -> Next
    ensures { EndsAfter call result }
{
    match call {
        Call::FreeInstance => Next::Ends(ServeEnd::Freed),
        _ => Next::Served(1),
    }
}
