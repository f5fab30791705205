//! The frames of calls and replies.
ghost use Rattle.std.specs.Prelude.{◌≡◌, ◌≤◌, ◌+◌, ℕ, IfNone, IfSome, take, drop, length};
ghost use Rattle.fmi_calls.specs.declared.call.Reply.{Reply};
ghost use Rattle.link_frames.specs.Call.{CanBeSent, IsFrameOf, sent};
ghost use Rattle.link_frames.specs.Reply.{CanBeTold, IsReplyFrame, frame_of};
ghost use Rattle.link_frames.specs.Batch.{IsHeadOf};
ghost use Rattle.exact_parts.specs.Taking.{Takes};
ghost use Rattle.exact_parts.specs.declared.taken.Taken.{Taken as TakenSpec};

use exact_parts::Taken;
use fmi_calls::{Call, Reply};
use link_frames::{batch_count, put_call, put_reply, take_reply};

/// Puts the frame of a call, for Instantiate with the instance's name and its token.
pub fn put_frame(call: &Call, name: &str, token: &str, out: &mut [u8]) -> usize
    requires has_frame { CanBeSent call.now (length name.now) (length token.now) }
    requires has_room { 24 + length (sent call.now name.now) + length
        (sent call.now token.now) ≤ length out.old }
    ensures length { result ≡ 24 + length (sent call.now name.now) + length
        (sent call.now token.now) }
    ensures frame { IsFrameOf call.now name.now token.now (take result out.new) }
    ensures rest { drop result out.new ≡ drop result out.old }
{
    put_call(call, name, token, out)
}

/// Takes the frame of a reply from the beginning of the bytes.
pub fn take_answer(bytes: &[u8]) -> Taken<Reply>
    ensures taken { Takes IsReplyFrame bytes.now result }
    ensures only { (other : TakenSpec Reply) → Takes IsReplyFrame bytes.now other → result ≡ other }
{
    take_reply(bytes)
}

/// How many calls or replies the batch has whose head these bytes are.
pub fn items_in(head: &[u8; 24]) -> Option<u32>
    ensures some { IfSome result (λ count. IsHeadOf count head.now) }
    ensures none { IfNone result ((count : ℕ) → IsHeadOf count head.now → ⊥) }
{
    batch_count(head)
}

/// Puts the frame of a reply.
pub fn put_answer(reply: &Reply, out: &mut [u8; 24])
    ensures spelled { out.new ≡ frame_of reply.now }
    ensures frame { CanBeTold reply.now → IsReplyFrame reply.now out.new }
{
    put_reply(reply, out);
}
