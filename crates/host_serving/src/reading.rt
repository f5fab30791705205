//! The next frame of a source of bytes.
ghost use Rattle.std.specs.Prelude.{◌≡◌, ℕ, ◌+◌, ◌-◌, ◌<◌, ◌≤◌, ◌*◌, ◌++◌, List, take, drop, length, slice_index, IfNone, IfOk, IfSome, OnErr};
ghost use Rattle.std.specs.Int.{w64, from_be_bytes};
ghost use Rattle.std.specs.Io.KnownBytes.{IsAtEnd};
ghost use Rattle.sim_base.specs.Causes.{Rose};
ghost use Rattle.sim_base.specs.Source.{SourceView};
ghost use Rattle.link_frames.specs.Batch.{IsHeadOf};
ghost use Rattle.link_frames.specs.Call.{IsCallFrame};
ghost use Rattle.exact_parts.specs.Taking.{IsPrefix};
ghost use Rattle.link_frames.specs.declared.call.CallFrame.{CallFrame as FrameSpec};
ghost use Rattle.host_serving.specs.Frames.{ComesTo, IsItem, IsRoom, Takes, eight_at};

use exact_parts::Taken;
use fmi_calls::Call;
use link_frames::{CallFrame, batch_count, batch_len, take_batch, take_call};
use sim_base::{Source, SourceFault};
use std::alloc::{AllocError, Global};

// The bytes that each frame begins with.
const HEAD: usize = 24;

/// The bytes of the longest batch.
pub(crate) const MOST_BYTES: usize = 24 * 65;

// The first byte of a batch.
const BATCH: u8 = 19;

/// What stands next in a source of frames of calls and of batches of calls.
#[derive(Debug, Drop)]
pub(crate) enum NextFrame {
    /// A whole frame of a call.
    Came(Call),
    /// A whole batch of so many calls, which stand in the room.
    Batch(usize),
    /// The bytes end between two frames.
    AtEnd,
    /// No frame: the byte at this place is the first that continues none, or the bytes end there, inside a frame.
    Bad { at: u64 },
    /// A take failed.
    Failed,
    /// Out of memory for the texts of a frame.
    Memory,
}

/// Takes the next frame from a source, and no byte after it. The calls of a batch go into the room, after its head.
pub(crate) fn next_frame<I: Source>(
    alloc: Global,
    input: &mut I,
    room: &mut [u8; MOST_BYTES],
) -> NextFrame
    ensures { ComesTo (I.view input.old) (I.view input.new) room.new result }
{
    let mut head = [0; HEAD];
    let Ok(count) = fill(input, &mut head) else {
        return NextFrame::Failed;
    };
    if count == 0 {
        return NextFrame::AtEnd;
    }
    if head[0] == BATCH {
        return next_batch(&head, count, input, room);
    }
    match take_call(prefix_of(&head, count)) {
        Taken::Got { value, .. } => next_of_frame(value),
        Taken::Bad { at } => NextFrame::Bad { at: at as u64 },
        Taken::NeedMore => {
            if count < HEAD {
                NextFrame::Bad { at: count as u64 }
            } else {
                next_with_texts(alloc, &head, input)
            }
        }
    }
}

// Takes the calls of a batch, of whose head so many bytes were taken.
fn next_batch<I: Source>(
    head: &[u8; HEAD],
    count: usize,
    input: &mut I,
    room: &mut [u8; MOST_BYTES],
) -> NextFrame
    requires some { 0 < count }
    requires within { count ≤ 24 }
    requires sort { slice_index head.now 0 ≡ 19 }
    ensures { (before : SourceView) → Takes before (I.view input.old) (take count head.now) →
        (count < 24 → IsAtEnd (I.view input.old).left) →
        ComesTo before (I.view input.new) room.new result }
{
    match calls_told(head, count) {
        Some(calls) => next_items(head, calls as usize, input, room),
        None => no_batch(head, count),
    }
}

// How many calls the head of a batch tells, of which so many bytes are there.
fn calls_told(head: &[u8; HEAD], count: usize) -> Option<u32>
    requires { count ≤ 24 }
    ensures some { IfSome result (λ calls. (count ≡ 24) × IsHeadOf calls head.now) }
    ensures none { IfNone result ((calls : ℕ) → IsHeadOf calls (take count head.now) → ⊥) }
{
    if count < HEAD {
        None
    } else {
        batch_count(head)
    }
}

// What bytes come to that begin as a batch, and aren't the head of one.
fn no_batch(head: &[u8; HEAD], count: usize) -> NextFrame
    requires some { 0 < count }
    requires within { count ≤ 24 }
    requires sort { slice_index head.now 0 ≡ 19 }
    requires none { (calls : ℕ) → IsHeadOf calls (take count head.now) → ⊥ }
    ensures { (before after : SourceView) (room : List ℕ) →
        Takes before after (take count head.now) → (count < 24 → IsAtEnd after.left) →
        ComesTo before after room result }
{
    match take_batch(prefix_of(head, count)) {
        Taken::Got { .. } => unreachable!(),
        Taken::Bad { at } => NextFrame::Bad { at: at as u64 },
        Taken::NeedMore => NextFrame::Bad { at: count as u64 },
    }
}

// Takes the calls of a batch after its head.
fn next_items<I: Source>(
    head: &[u8; HEAD],
    calls: usize,
    input: &mut I,
    room: &mut [u8; MOST_BYTES],
) -> NextFrame
    requires { IsHeadOf calls head.now }
    ensures { (before : SourceView) → Takes before (I.view input.old) head.now →
        ComesTo before (I.view input.new) room.new result }
{
    room[..HEAD].copy_from_slice(head);
    let Ok(more) = fill(input, &mut room[HEAD..batch_len(calls)]) else {
        return NextFrame::Failed;
    };
    let length = HEAD + more;
    match take_batch(prefix_of(room, length)) {
        Taken::Got { .. } => NextFrame::Batch(calls),
        Taken::Bad { at } => NextFrame::Bad { at: at as u64 },
        Taken::NeedMore => NextFrame::Bad { at: length as u64 },
    }
}

/// The call at a place of a batch.
pub(crate) fn item(room: &[u8; MOST_BYTES], i: usize) -> Call
    requires { IsItem room.now i }
    ensures { (f : FrameSpec) → IsCallFrame f (take 24 (drop (24 * (i + 1)) room.now)) →
        result ≡ f.call }
{
    let place = HEAD * (i + 1);
    match take_call(&room[place..place + HEAD]) {
        Taken::Got { value, .. } => call_of(value),
        Taken::NeedMore | Taken::Bad { .. } => unreachable!(),
    }
}

fn call_of(frame: CallFrame) -> Call
    ensures { result ≡ frame.call }
{
    frame.call
}

// A frame that came.
fn next_of_frame(frame: CallFrame) -> NextFrame
    ensures { result ≡ NextFrame.Came frame.call }
{
    NextFrame::Came(frame.call)
}

/// The first bytes, so many.
pub(crate) fn prefix_of(bytes: &[u8], count: usize) -> &[u8]
    requires { count ≤ length bytes.now }
    ensures { result.now ≡ take count bytes.now }
{
    &bytes[..count]
}

// Takes the texts of a frame whose beginning was taken.
fn next_with_texts<I: Source>(alloc: Global, head: &[u8; HEAD], input: &mut I) -> NextFrame
    requires { IsPrefix IsCallFrame head.now }
    ensures { (before : SourceView) (room : List ℕ) → Takes before (I.view input.old) head.now →
        ComesTo before (I.view input.new) room result }
{
    match with_room(alloc, head) {
        Ok(mut frame) => next_in(frame.as_mut_slice(), input),
        Err(_) => NextFrame::Memory,
    }
}

// Takes the texts of a frame after its beginning.
fn next_in<I: Source>(frame: &mut [u8], input: &mut I) -> NextFrame
    requires prefix { IsPrefix IsCallFrame (take 24 frame.old) }
    requires long { 24 ≤ length frame.old }
    requires room { IsRoom (take 24 frame.old) (length frame.old - 24) }
    ensures { (before : SourceView) (room : List ℕ) → Takes before (I.view input.old)
        (take 24 frame.old) → ComesTo before (I.view input.new) room result }
{
    let Ok(count) = fill(input, &mut frame[HEAD..]) else {
        return NextFrame::Failed;
    };
    let length = HEAD + count;
    match take_call(prefix_of(frame, length)) {
        Taken::Got { value, .. } => next_of_frame(value),
        Taken::Bad { at } => NextFrame::Bad { at: at as u64 },
        Taken::NeedMore => NextFrame::Bad { at: length as u64 },
    }
}

// The beginning of a frame, with room for its texts.
fn with_room(alloc: Global, head: &[u8; HEAD]) -> Result<Vec<u8>, AllocError>
    ensures prefix { IfOk result (λ frame. take 24 frame.items ≡ head.now) }
    ensures room { IfOk result (λ frame. (value : FrameSpec) (more : List ℕ) → 0 < length more →
        IsCallFrame value (head.now ++ more) → length frame.items ≡ 24 + length more) }
{
    let mut frame = Vec::from_slice(alloc, head)?;
    frame.resize(HEAD.saturating_add(texts_len(head)), 0)?;
    Ok(frame)
}

// The length of the texts that follow the beginning of a frame, if any do.
fn texts_len(head: &[u8; HEAD]) -> usize
    ensures { (value : FrameSpec) (more : List ℕ) → 0 < length more →
        IsCallFrame value (head.now ++ more) → result ≡ length more }
{
    let name = number_at(head, 8);
    let token = number_at(head, 16);
    name.saturating_add(token) as usize
}

// The number in the eight bytes from a place on, the most significant first.
fn number_at(bytes: &[u8], place: usize) -> u64
    requires { place + 8 ≤ length bytes.now }
    ensures { result ≡ from_be_bytes w64 (eight_at bytes.now place) }
{
    u64::from_be_bytes([
        bytes[place],
        bytes[place + 1],
        bytes[place + 2],
        bytes[place + 3],
        bytes[place + 4],
        bytes[place + 5],
        bytes[place + 6],
        bytes[place + 7],
    ])
}

/// Takes bytes from the source until the room is full or the source ends, and answers how many.
pub(crate) fn fill<I: Source>(input: &mut I, into: &mut [u8]) -> Result<usize, SourceFault>
    ensures bound { IfOk result (λ n. n ≤ length into.new) }
    ensures takes { IfOk result (λ n. Takes (I.view input.old) (I.view input.new)
        (take n into.new)) }
    ensures end { IfOk result (λ n. n < length into.new → IsAtEnd (I.view input.new).left) }
    ensures rose { OnErr result (Rose (I.view input.old).faults (I.view input.new).faults) }
{
    let mut count = 0;
    while count < into.len() {
        let taken = input.take(&mut into[count..])?;
        if taken == 0 {
            return Ok(count);
        }
        count += taken;
    }
    Ok(count)
}
