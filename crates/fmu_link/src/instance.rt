ghost use Rattle.std.specs.Prelude.{◌≡◌, ◌≤◌, ◌+◌, ◌^◌, false, length, IfOk};
ghost use Rattle.fmi_calls.specs.Next.{HasMarks, fresh};
ghost use Rattle.fmu_link.specs.Instance.{HasFrames};

use fmi_calls::Phase;
use link_frames::{MOST_ITEMS, batch_len};
use sim_base::Text;
use std::alloc::{AllocError, Global};
use value_types::Shape;

/// An instance as this end of its wire keeps it: what it was started with, where it stands, and room for its frames.
#[derive(Debug, Drop)]
pub struct Instance {
    pub host: Text,
    pub name: Text,
    pub directory: Text,
    pub shape: Shape,
    pub phase: Phase,
    /// Room for each of its frames.
    pub frame: Vec<u8>,
    /// How many replies were garbled or cut; it stays at its last value.
    pub bad_replies: u64,
    /// Whether its host takes batches.
    pub takes_batches: bool,
    ghost has_marks: { HasMarks shape phase },
    ghost has_frames: { HasFrames name shape.token frame.items },
}

impl Instance {
    /// An instance before its first call, with all the memory that its calls need.
    pub fn new(
        alloc: Global,
        host: &str,
        name: &str,
        directory: &str,
        shape: &Shape,
    ) -> Result<Instance, AllocError>
        requires name { (1 ≤ length name.now) × (length name.now ≤ 2 ^ 24) }
        requires token { length shape.now.token ≤ 2 ^ 24 }
        ensures host { IfOk result (λ i. i.host ≡ host.now) }
        ensures name { IfOk result (λ i. i.name ≡ name.now) }
        ensures directory { IfOk result (λ i. i.directory ≡ directory.now) }
        ensures shape { IfOk result (λ i. i.shape ≡ shape.now) }
        ensures phase { IfOk result (λ i. i.phase ≡ fresh shape.now) }
        ensures quiet { IfOk result (λ i. i.bad_replies ≡ 0) }
        ensures single { IfOk result (λ i. i.takes_batches ≡ false) }
    {
        // What is expensive to drop is made last.
        Ok(Instance {
            bad_replies: 0,
            takes_batches: false,
            frame: vec![in alloc; 0; room_for(name.len(), shape.token.as_str().len())]?,
            host: Text::from_str(alloc, host)?,
            name: Text::from_str(alloc, name)?,
            directory: Text::from_str(alloc, directory)?,
            phase: Phase::fresh(alloc, shape)?,
            shape: shape.copy(alloc)?,
        })
    }
}

// The room for a frame of Instantiate with texts of these lengths, and for the longest batch.
fn room_for(name_len: usize, token_len: usize) -> usize
    requires name { name_len ≤ 2 ^ 24 }
    requires token { token_len ≤ 2 ^ 24 }
    ensures single { 24 + name_len + token_len ≤ result }
    ensures batch { 1560 ≤ result }
{
    batch_len(MOST_ITEMS).max(24 + name_len + token_len)
}
