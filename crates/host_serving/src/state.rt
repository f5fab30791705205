//! The bytes of a state, which follow the frame of a Deserialize.
ghost use Rattle.std.specs.Prelude.{◌≡◌, IfErr, IfOk, length};
ghost use Rattle.sim_base.specs.Causes.{Rose};
ghost use Rattle.host_serving.specs.Frames.{BringsState, Gains};

use crate::reading::{fill, prefix_of};
use sim_base::Source;
use std::alloc::Global;

// So many bytes are taken at once.
const PART: usize = 4096;

/// What follows the frame of a Deserialize.
#[derive(Debug, Drop)]
pub(crate) enum NextState {
    /// All bytes of the state.
    Came(Vec<u8>),
    /// The bytes end before: there are so many.
    Short { count: u64 },
    /// A take failed.
    Failed,
    /// Out of memory for them.
    Memory,
}

// Why a part of a state isn't there.
#[derive(Clone, Copy, Debug, Drop)]
enum PartFault {
    // A take failed.
    Failed,
    // Out of memory for it.
    Memory,
}

/// Takes so many bytes of a state from a source, and no byte after them. Memory is taken as they come.
pub(crate) fn next_state<I: Source>(alloc: Global, input: &mut I, wanted: usize) -> NextState
    ensures { BringsState (I.view input.old) (I.view input.new) wanted result }
{
    let mut part = [0; PART];
    let mut state = Vec::new(alloc);
    'parts: while state.len() < wanted {
        let room = PART.min(wanted - state.len());
        match take_part(input, &mut part[..room], &mut state) {
            Ok(count) => {
                if count < room {
                    return NextState::Short {
                        count: state.len() as u64,
                    };
                }
            }
            Err(PartFault::Failed) => return NextState::Failed,
            Err(PartFault::Memory) => return NextState::Memory,
        }
    }
    NextState::Came(state)
}

// Takes bytes of a state after those that came, as many as there is room for, or fewer where the source ends.
fn take_part<I: Source>(
    input: &mut I,
    room: &mut [u8],
    state: &mut Vec<u8>,
) -> Result<usize, PartFault>
    ensures came { IfOk result (λ count. Gains (I.view input.old) (I.view input.new) state.old.items
        state.new.items (length room.old) count) }
    ensures failed { IfErr result (λ fault. fault ≡ PartFault.Failed →
        Rose (I.view input.old).faults (I.view input.new).faults) }
{
    let Ok(count) = fill(input, room) else {
        return Err(PartFault::Failed);
    };
    match state.extend_from_slice(prefix_of(room, count)) {
        Ok(()) => Ok(count),
        Err(_) => Err(PartFault::Memory),
    }
}
