ghost use Rattle.std.specs.Prelude.{◌≡◌, ℕ, IfSome, IfNone, ◌≤◌, ◌⊎◌, ◌+◌, ◌*◌, [], length, take, drop, slice_index};
ghost use Rattle.fmi_calls.specs.Kinds.{kind_of, kind_of_reply};
ghost use Rattle.fmi_calls.specs.declared.call.Kind.TheVariants as K;
ghost use Rattle.link_frames.specs.Call.{CanBeSent, IsCallFrame, IsFrameOf};
ghost use Rattle.link_frames.specs.declared.call.CallFrame.{CallFrame as CallFrameSpec};
ghost use Rattle.link_frames.specs.Batch.{BatchParts, CanAnswer, CanBeBatched, CountOf, IsHeadOf, batch_head, IsBatch, frames_of, FirstOf, IsCallBatch, IsReplyBatch, ItemsOf, item_form, items_at};
ghost use Rattle.exact_parts.specs.Taking.{Takes};
ghost use Rattle.link_frames.specs.Head.{spelling};
ghost use Rattle.link_frames.specs.Reply.{CanBeTold, IsReplyFrame};
ghost use Rattle.exact_parts.specs.declared.taken.Taken.{Taken as TakenSpec};

use crate::call::{put_at, put_call};
use crate::head::{Head, spell};
use crate::layout::{Form, Items};
use crate::numbers::{Numbers, take_numbers};
use crate::reply::put_reply;
use exact_parts::{Taken, after};
use fmi_calls::{Call, Reply};

/// Whether a batch is one of calls or one of replies.
#[derive(Clone, Copy, Debug, PartialEq, Eq)]
pub(crate) enum Side {
    Calls,
    Replies,
}

fn item_form(side: Side, items: Items) -> Form
    ensures { result ≡ item_form side items }
{
    match side {
        Side::Calls => Form::CallItem(items),
        Side::Replies => Form::ReplyItem(items),
    }
}

fn items_at(number: u64) -> Items
    ensures { result ≡ items_at number }
{
    if number == 8 {
        Items::Gets
    } else {
        Items::Sets
    }
}

// Takes so many items.
fn take_items(side: Side, items: Items, left: usize, bytes: &[u8]) -> Taken<()>
    ensures { Takes (ItemsOf side items left) bytes.now result }
{
    if left == 0 {
        return Taken::Got {
            value: (),
            length: 0,
        };
    }
    match take_numbers(item_form(side, items), bytes) {
        Taken::Got { value: _, length } => {
            let rest = take_items(side, items, left - 1, &bytes[length..]);
            after(length, rest)
        }
        Taken::NeedMore => Taken::NeedMore,
        Taken::Bad { at } => Taken::Bad { at },
    }
}

// Takes the first item, and those after it, which are as it is.
fn take_first(side: Side, count: usize, bytes: &[u8]) -> Taken<()>
    requires { 1 ≤ count }
    ensures { Takes (FirstOf side count) bytes.now result }
{
    match take_numbers(item_form(side, Items::Either), bytes) {
        Taken::Got { value, length } => {
            let rest = take_items(side, items_at(value[0]), count - 1, &bytes[length..]);
            after(length, rest)
        }
        Taken::NeedMore => Taken::NeedMore,
        Taken::Bad { at } => Taken::Bad { at },
    }
}

// Takes as many items as the head tells.
fn take_counted(side: Side, numbers: &Numbers, bytes: &[u8]) -> Taken<u32>
    requires some { 1 ≤ slice_index numbers.now 4 }
    requires few { slice_index numbers.now 4 ≤ 64 }
    ensures { Takes (CountOf side numbers.now) bytes.now result }
{
    match take_first(side, numbers[4] as usize, bytes) {
        Taken::Got { value: (), length } => Taken::Got {
            value: numbers[4] as u32,
            length,
        },
        Taken::NeedMore => Taken::NeedMore,
        Taken::Bad { at } => Taken::Bad { at },
    }
}

fn take_parts(side: Side, bytes: &[u8]) -> Taken<u32>
    ensures { Takes (BatchParts side) bytes.now result }
{
    match take_numbers(Form::OfBatch, bytes) {
        Taken::Got { value, length } => {
            after(length, take_counted(side, &value, &bytes[length..]))
        }
        Taken::NeedMore => Taken::NeedMore,
        Taken::Bad { at } => Taken::Bad { at },
    }
}

/// Takes a batch of calls from the beginning of the bytes, and tells how many there are; others may follow.
pub fn take_batch(bytes: &[u8]) -> Taken<u32>
    // What stands there.
    ensures taken { Takes IsCallBatch bytes.now result }
    // Nothing else does.
    ensures only { (other : TakenSpec _) → Takes IsCallBatch bytes.now other → result ≡ other }
{
    take_parts(Side::Calls, bytes)
}

/// Takes a batch of replies from the beginning of the bytes, and tells how many there are; others may follow.
pub fn take_batch_reply(bytes: &[u8]) -> Taken<u32>
    // What stands there.
    ensures taken { Takes IsReplyBatch bytes.now result }
    // Nothing else does.
    ensures only { (other : TakenSpec _) → Takes IsReplyBatch bytes.now other → result ≡ other }
{
    take_parts(Side::Replies, bytes)
}

/// The most calls, and the most replies, that a batch has.
pub const MOST_ITEMS: usize = 64;

/// The length of a batch of so many calls or replies, in bytes.
pub fn batch_len(count: usize) -> usize
    requires { count ≤ 64 }
    ensures { result ≡ 24 * (count + 1) }
{
    24 * (count + 1)
}

// The bytes of the head of a batch of so many.
fn head_of(count: u32) -> [u8; 24]
    ensures { result ≡ spelling (batch_head count) }
{
    spell(Head {
        kind: 19,
        detail: 0,
        flags: 0,
        reference: count,
        first: 0,
        last: 0,
    })
}

// How many items the numbers of a head tell.
fn count_in(numbers: &Numbers) -> u32
    requires { slice_index numbers.now 4 ≤ 64 }
    ensures { result ≡ slice_index numbers.now 4 }
{
    numbers[4] as u32
}

/// How many calls or replies the batch has whose head these bytes are; none where they are the head of no batch.
pub fn batch_count(head: &[u8; 24]) -> Option<u32>
    ensures some { IfSome result (λ count. IsHeadOf count head.now) }
    ensures none { IfNone result ((count : ℕ) → IsHeadOf count head.now → ⊥) }
{
    match take_numbers(Form::OfBatch, head) {
        Taken::Got { value, .. } => Some(count_in(&value)),
        Taken::NeedMore | Taken::Bad { .. } => None,
    }
}

fn frame_of(call: &Call) -> [u8; 24]
    requires sent { CanBeSent call.now 0 0 }
    requires sort { (kind_of call.now ≡ K.Get) ⊎ (kind_of call.now ≡ K.Set) }
    ensures { IsFrameOf call.now [] [] result }
{
    let mut frame = [0; 24];
    put_call(call, "", "", &mut frame);
    frame
}

/// Puts the batch of these calls, and answers its length. What comes after it stays.
pub fn put_batch(calls: &[Call], out: &mut [u8]) -> usize
    requires has_frame { CanBeBatched calls.now }
    requires has_room { 24 * (length calls.now + 1) ≤ length out.old }
    ensures length { result ≡ 24 * (length calls.now + 1) }
    ensures batch { IsBatch IsCallFrame (λ (f : CallFrameSpec). kind_of f.call)
        (frames_of calls.now) (take result out.new) }
    ensures rest { drop result out.new ≡ drop result out.old }
{
    put_at(out, 0, &head_of(calls.len() as u32));
    for i in 0..calls.len() {
        put_at(out, 24 * (i + 1), &frame_of(&calls[i]));
    }
    batch_len(calls.len())
}

fn frame_of_reply(reply: &Reply) -> [u8; 24]
    requires { CanBeTold reply.now }
    ensures { IsReplyFrame reply.now result }
{
    let mut frame = [0; 24];
    put_reply(reply, &mut frame);
    frame
}

/// Puts the batch of these replies, and answers its length. What comes after it stays.
pub fn put_batch_reply(replies: &[Reply], out: &mut [u8]) -> usize
    requires has_frame { CanAnswer replies.now }
    requires has_room { 24 * (length replies.now + 1) ≤ length out.old }
    ensures length { result ≡ 24 * (length replies.now + 1) }
    ensures batch { IsBatch IsReplyFrame kind_of_reply replies.now (take result out.new) }
    ensures rest { drop result out.new ≡ drop result out.old }
{
    put_at(out, 0, &head_of(replies.len() as u32));
    for i in 0..replies.len() {
        put_at(out, 24 * (i + 1), &frame_of_reply(&replies[i]));
    }
    batch_len(replies.len())
}
