ghost use Rattle.std.specs.Prelude.{◌≡◌, ◌+◌, ℕ, List, length};
ghost use Rattle.fmi_calls.specs.declared.call.Call.{Call};
ghost use Rattle.fmi_calls.specs.declared.call.Reply.{Reply};
ghost use Rattle.fmi_calls.specs.Kinds.{kind_of, kind_of_reply};
ghost use Rattle.link_frames.specs.Batch.{AreApart, IsCallBatch, IsReplyBatch, ItemsStand, OneBatch};
ghost use Rattle.link_frames.specs.declared.call.CallFrame.{CallFrame};
ghost use Rattle.link_frames.specs.Call.{IsCallFrame, IsFrameOf, frame_with, sent};
ghost use Rattle.link_frames.specs.Reply.{IsReplyFrame};
ghost use Rattle.exact_parts.specs.Taking.{AreSingle};

/// Laws of frames: no frame is a proper prefix of another and each is of one value, each value has one frame, these are
/// their lengths, and what is put for a call is what is taken.
pub fn frame_laws()
    ensures calls { AreSingle IsCallFrame }
    ensures replies { AreSingle IsReplyFrame }
    ensures one_of_call { (call : Call) (name token bytes others : List ℕ) →
        IsFrameOf call name token bytes → IsFrameOf call name token others → bytes ≡ others }
    ensures one_of_reply { (reply : Reply) (bytes others : List ℕ) → IsReplyFrame reply bytes →
        IsReplyFrame reply others → bytes ≡ others }
    ensures call_length { (call : Call) (name token bytes : List ℕ) →
        IsFrameOf call name token bytes → length bytes ≡ 24 + length (sent call name) + length
        (sent call token) }
    ensures reply_length { (reply : Reply) (bytes : List ℕ) → IsReplyFrame reply bytes →
        length bytes ≡ 24 }
    ensures taken { (call : Call) (name token bytes : List ℕ) → IsFrameOf call name token bytes →
        IsCallFrame (frame_with call name token) bytes }
{}

/// Laws of batches: none is a proper prefix of another, nor is a batch of a single frame or a single frame of a batch; the
/// bytes of a batch are those of one list of calls or replies, of which the i-th has the 24 bytes from `24 * (i + 1)` on.
pub fn batch_laws()
    ensures calls { AreSingle IsCallBatch }
    ensures replies { AreSingle IsReplyBatch }
    ensures apart_calls { AreApart IsCallFrame IsCallBatch }
    ensures apart_replies { AreApart IsReplyFrame IsReplyBatch }
    ensures one_of_calls { OneBatch IsCallFrame (λ (f : CallFrame). kind_of f.call) }
    ensures one_of_replies { OneBatch IsReplyFrame kind_of_reply }
    ensures items_of_calls { ItemsStand IsCallFrame (λ (f : CallFrame). kind_of f.call) }
    ensures items_of_replies { ItemsStand IsReplyFrame kind_of_reply }
{}
