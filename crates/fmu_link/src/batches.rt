//! Several calls over a wire in one batch.
ghost use Rattle.std.specs.Prelude.{◌≡◌, ◌≢◌, ℕ, ◌<◌, ◌≤◌, true, false, None, Some, IfNone, IfOk, IfSome, MatchResult, length, take};
ghost use Rattle.sim_base.specs.Causes.{one_more};
ghost use Rattle.fmi_calls.specs.Kinds.{kind_of, kind_of_reply};
ghost use Rattle.fmi_calls.specs.Next.{next_of};
ghost use Rattle.fmi_calls.specs.Permission.{Permitted};
ghost use Rattle.fmu_peer.specs.Many.{AreOfOneSort, AskedMany, MayAskAll};
ghost use Rattle.link_frames.specs.Batch.{IsReplyBatch};
ghost use Rattle.fmu_link.specs.Batches.{ArrivesAll, BreaksOff, ExchangedMany, HasItem, IsAskedFor, IsItem, IsNoAnswer, IsSameInstance, MayAnswer, SaysMany, bad_with};
ghost use Rattle.fmu_link.specs.Exchange.{bad_after};
ghost use Rattle.fmu_link.specs.Piped.{line_of, view_of};
ghost use Rattle.fmu_link.specs.Wire.{WireView};

use crate::{Instance, Wire, WireFault};
use exact_parts::Taken;
use fmi_calls::{Call, Grade, Reply, grade, next_phase};
use fmu_peer::PeerFault;
use link_frames::{batch_count, batch_len, put_batch, take_batch_reply, take_reply};

// The bytes of the longest batch.
const MOST_BYTES: usize = 24 * 65;

/// Sends calls in one batch, and takes what answers them, up to the first reply that isn't good. What follows that is
/// dropped. Fewer replies, the last of them good, are garbled after those that came; more, or replies of another kind than
/// the calls, or no batch of replies, at the first.
pub(crate) fn call_batch<W: Wire>(
    wire: &mut W,
    instance: &mut Instance,
    calls: &[Call],
    replies: &mut [Reply],
) -> Result<usize, PeerFault>
    requires sort { AreOfOneSort calls.now }
    requires places { length replies.old ≡ length calls.now }
    requires may { MayAskAll instance.old.shape instance.old.phase calls.now }
    ensures places { length replies.new ≡ length calls.now }
    ensures asked { AskedMany (view_of (W.view wire.old) instance.old) calls.now replies.old
        replies.new result (view_of (W.view wire.new) instance.new) }
    ensures together { ExchangedMany calls.now (line_of (W.view wire.old) instance.old)
        (line_of (W.view wire.new) instance.new) replies.new result }
    ensures agreed { instance.new.takes_batches ≡ instance.old.takes_batches }
{
    let length = put_batch(calls, instance.frame.as_mut_slice());
    let mut bytes = [0; MOST_BYTES];
    match exchange(wire, &instance.frame.as_slice()[..length], &mut bytes) {
        Ok(end) => take_arrived(instance, &bytes[..end], calls, replies),
        Err(fault) => Err(broken_off(instance, fault, &calls[0])),
    }
}

// Notes that the wire failed or ended while a batch was on it: its first call has no reply.
fn broken_off(instance: &mut Instance, fault: WireFault, call: &Call) -> PeerFault
    requires { Permitted instance.old.shape instance.old.phase call.now }
    ensures fault { result ≡ PeerFault.Failed }
    ensures counted { instance.new.bad_replies ≡ bad_after instance.old.bad_replies fault }
    ensures phase { instance.new.phase ≡ next_of instance.old.shape instance.old.phase call.now None }
    ensures agreed { instance.new.takes_batches ≡ instance.old.takes_batches }
    ensures kept { IsSameInstance instance.old instance.new }
{
    match fault {
        WireFault::Failed => {}
        WireFault::Ended => instance.bad_replies = instance.bad_replies.saturating_add(1),
    }
    next_phase(&instance.shape, &mut instance.phase, call, None);
    PeerFault::Failed
}

// Takes what came as the answers to calls, where it answers them.
fn take_arrived(
    instance: &mut Instance,
    came: &[u8],
    calls: &[Call],
    replies: &mut [Reply],
) -> Result<usize, PeerFault>
    requires long { 24 ≤ length came.now }
    requires sort { AreOfOneSort calls.now }
    requires places { length replies.old ≡ length calls.now }
    requires may { MayAskAll instance.old.shape instance.old.phase calls.now }
    ensures places { length replies.new ≡ length calls.now }
    ensures asked { (wire : WireView) → AskedMany (view_of wire instance.old) calls.now
        replies.old replies.new result (view_of wire instance.new) }
    ensures says { SaysMany calls.now came.now replies.new result }
    ensures counted { instance.new.bad_replies ≡ bad_with instance.old.bad_replies result }
    ensures agreed { instance.new.takes_batches ≡ instance.old.takes_batches }
{
    match replies_in(came) {
        Some(count) => {
            if answers(came, count, calls) {
                take_items(instance, came, count, calls, replies)
            } else {
                Err(garbled(instance, came, &calls[0]))
            }
        }
        None => Err(garbled(instance, came, &calls[0])),
    }
}

// Whether the replies that came may answer these calls: there are no more, and they are of their kind.
fn answers(came: &[u8], count: usize, calls: &[Call]) -> bool
    requires batch { IsReplyBatch count came.now }
    requires some { 1 ≤ length calls.now }
    ensures few { result ≡ true → count ≤ length calls.now }
    ensures yes { result ≡ true → MayAnswer calls.now came.now }
    ensures no { result ≡ false → IsNoAnswer calls.now came.now }
{
    count <= calls.len() && is_of_kind(&item(came, 0), &calls[0])
}

// Whether a reply is of the kind of a call.
fn is_of_kind(reply: &Reply, call: &Call) -> bool
    ensures yes { result ≡ true → kind_of_reply reply.now ≡ kind_of call.now }
    ensures no { result ≡ false → kind_of_reply reply.now ≢ kind_of call.now }
{
    reply.kind() == call.kind()
}

// Takes the replies that came, one after another.
fn take_items(
    instance: &mut Instance,
    came: &[u8],
    count: usize,
    calls: &[Call],
    replies: &mut [Reply],
) -> Result<usize, PeerFault>
    requires sort { AreOfOneSort calls.now }
    requires places { length replies.old ≡ length calls.now }
    requires may { MayAskAll instance.old.shape instance.old.phase calls.now }
    requires long { 24 ≤ length came.now }
    requires batch { IsReplyBatch count came.now }
    requires few { count ≤ length calls.now }
    requires answers { MayAnswer calls.now came.now }
    ensures places { length replies.new ≡ length calls.now }
    ensures asked { (wire : WireView) → AskedMany (view_of wire instance.old) calls.now
        replies.old replies.new result (view_of wire instance.new) }
    ensures says { SaysMany calls.now came.now replies.new result }
    ensures counted { instance.new.bad_replies ≡ bad_with instance.old.bad_replies result }
    ensures agreed { instance.new.takes_batches ≡ instance.old.takes_batches }
{
    for i in 0..count {
        let reply = item(came, i);
        replies[i] = reply;
        note(instance, &calls[i], &reply);
        match grade(&instance.shape, &instance.phase, &calls[i], &reply) {
            Grade::Good => {}
            Grade::Refused | Grade::Misreply => return Ok(i + 1),
        }
    }
    if is_all(calls, count) {
        return Ok(count);
    }
    Err(garbled(instance, came, &calls[count]))
}

fn is_all(calls: &[Call], count: usize) -> bool
    ensures yes { result ≡ true → count ≡ length calls.now }
    ensures no { result ≡ false → count ≢ length calls.now }
{
    count == calls.len()
}

// The phase after a call with its reply.
fn note(instance: &mut Instance, call: &Call, reply: &Reply)
    requires { Permitted instance.old.shape instance.old.phase call.now }
    ensures phase { instance.new.phase ≡ next_of instance.old.shape instance.old.phase call.now
        (Some reply.now) }
    ensures counted { instance.new.bad_replies ≡ instance.old.bad_replies }
    ensures agreed { instance.new.takes_batches ≡ instance.old.takes_batches }
    ensures kept { IsSameInstance instance.old instance.new }
{
    next_phase(&instance.shape, &mut instance.phase, call, Some(reply));
}

// Counts what came as no reply to this call, and keeps its head.
fn garbled(instance: &mut Instance, came: &[u8], call: &Call) -> PeerFault
    requires long { 24 ≤ length came.now }
    requires permitted { Permitted instance.old.shape instance.old.phase call.now }
    ensures fault { result ≡ PeerFault.Garbled (take 24 came.now) }
    ensures counted { instance.new.bad_replies ≡ one_more instance.old.bad_replies }
    ensures phase { instance.new.phase ≡ next_of instance.old.shape instance.old.phase call.now None }
    ensures agreed { instance.new.takes_batches ≡ instance.old.takes_batches }
    ensures kept { IsSameInstance instance.old instance.new }
{
    instance.bad_replies = instance.bad_replies.saturating_add(1);
    next_phase(&instance.shape, &mut instance.phase, call, None);
    let mut bytes = [0; 24];
    bytes.copy_from_slice(&came[..24]);
    PeerFault::Garbled { bytes }
}

// Sends a batch, and receives the head that answers it, and the frames that the head counts. It answers where they end.
fn exchange<W: Wire>(wire: &mut W, batch: &[u8], bytes: &mut [u8]) -> Result<usize, WireFault>
    requires { length bytes.old ≡ 1560 }
    ensures came { MatchResult result
        (λ end. ArrivesAll (W.view wire.old) batch.now (take end bytes.new) (W.view wire.new))
        (λ fault. BreaksOff (W.view wire.old) batch.now fault (W.view wire.new)) }
    ensures asked_for { IfOk result (λ end. IsAskedFor (take end bytes.new)) }
    ensures within { IfOk result (λ end. (24 ≤ end) × (end ≤ 1560)) }
{
    wire.send(batch)?;
    let mut head = [0; 24];
    wire.receive(&mut head)?;
    bytes[..24].copy_from_slice(&head);
    let Some(count) = batch_count(&head) else {
        return Ok(24);
    };
    let end = batch_len(count as usize);
    wire.receive(&mut bytes[24..end])?;
    Ok(end)
}

// How many replies the batch has that these bytes are; none where they are none.
fn replies_in(bytes: &[u8]) -> Option<usize>
    ensures some { IfSome result (λ n. IsReplyBatch n bytes.now) }
    ensures none { IfNone result ((n : ℕ) → IsReplyBatch n bytes.now → ⊥) }
{
    match take_batch_reply(bytes) {
        Taken::Got { value, length } => {
            if length == bytes.len() {
                Some(value as usize)
            } else {
                None
            }
        }
        Taken::NeedMore | Taken::Bad { .. } => None,
    }
}

// The reply at a place of the batch that came.
fn item(came: &[u8], i: usize) -> Reply
    requires { HasItem came.now i }
    ensures { IsItem came.now i result }
{
    let place = 24 * (i + 1);
    match take_reply(&came[place..place + 24]) {
        Taken::Got { value, .. } => value,
        Taken::NeedMore | Taken::Bad { .. } => unreachable!(),
    }
}
