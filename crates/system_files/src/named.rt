//! Files by their names, and why one isn't taken.
ghost use Rattle.std.specs.Prelude.{◌≡◌, ◌≤◌, IfOk, length};
ghost use Rattle.system_files.specs.Rooms.{room_for};

use crate::room::{NoMemory, make_room};
use doc_tree::{Place, Rule};
use sim_base::{Items, PortId, Text};
use std::alloc::Global;

/// A file that is to be read, and room for each line that names it, but for a place in it and the ports of a loop.
#[derive(Debug, Drop)]
pub struct NamedFile {
    pub path: Text,
    pub text: Vec<u8>,
    ghost holds: { room_for (length path) ≤ length text.items },
}

impl NamedFile {
    /// The file at a path, before it is read.
    pub fn new(alloc: Global, path: Text) -> Result<NamedFile, NoMemory>
        ensures { IfOk result (λ file. file.path ≡ path) }
    {
        let text = make_room(alloc, path.as_str().len(), 0)?;
        Ok(NamedFile { path, text })
    }
}

/// Why a file isn't taken.
#[derive(Debug, Drop)]
pub enum FileFault {
    /// Its read failed.
    Unread,
    /// There is none.
    Missing,
    /// It is longer than a file may be.
    TooBig,
    /// It breaks this rule first, at this place. `ports` are those of a loop.
    Broken {
        rule: Rule,
        place: Place,
        ports: Items<PortId>,
    },
}
