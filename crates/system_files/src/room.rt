ghost use Rattle.std.specs.Prelude.{◌≡◌, ◌+◌, ◌<◌, ◌^◌, IfOk, IfSome, IsSome, length};
ghost use Rattle.system_files.specs.Rooms.{room_for};

use std::alloc::{AllocError, Global};

/// Out of memory.
#[derive(Clone, Copy, Debug, PartialEq, Eq)]
pub struct NoMemory;

impl From<AllocError> for NoMemory {
    fn from(_error: AllocError) -> NoMemory {
        NoMemory
    }
}

/// Room for each line that names a component or a path of so many bytes, and for so many bytes more.
pub fn make_room(alloc: Global, bytes: usize, more: usize) -> Result<Vec<u8>, NoMemory>
    ensures { IfOk result (λ text. length text.items ≡ room_for bytes + more) }
{
    let Some(room) = room_for(bytes, more) else {
        return Err(NoMemory);
    };
    Ok(vec![in alloc; 0u8; room]?)
}

// How many bytes that are.
fn room_for(length: usize, more: usize) -> Option<usize>
    ensures fits { room_for length + more < 2 ^ 64 → IsSome result }
    ensures room { IfSome result (λ bytes. bytes ≡ room_for length + more) }
{
    length.checked_mul(3)?.checked_add(128)?.checked_add(more)
}
