//! The report of files that aren't taken.
ghost use Rattle.std.specs.Prelude.{◌≡◌, ◌⊎◌, ◌+◌, ◌≤◌, IfSome, length};
ghost use Rattle.run_program.specs.Message.{loop_room, path_room, place_room};
ghost use Rattle.run_program.specs.declared.outcome.Outcome.TheVariants.{File, Memory};
ghost use Rattle.system_files.specs.Rooms.{room_for};
ghost use Rattle.run_program.specs.Refusing.{TellsEnd, TellsFile};

use crate::outcome::Outcome;
use crate::report::Report;
use doc_tree::{Place, Rule};
use sim_base::{Items, PortId, Text};
use std::alloc::Global;
use system_files::{FileFault, LoadError, NamedFile, make_room};

/// The report where nothing is loaded.
pub(crate) fn refuse(alloc: Global, end: LoadError) -> Report
    ensures { TellsEnd end result.outcome }
{
    match end {
        LoadError::File { file, fault } => refuse_file(alloc, file, fault),
        LoadError::Memory => Report::memory(alloc),
    }
}

// The report of a file that isn't taken.
fn refuse_file(alloc: Global, file: NamedFile, fault: FileFault) -> Report
    ensures { TellsFile file.path fault result.outcome }
{
    let NamedFile { path, text } = file;
    match fault {
        FileFault::Broken { rule, place, ports } => refuse_broken(alloc, path, rule, place, ports),
        FileFault::Unread => refuse_whole(path, FileFault::Unread, text),
        FileFault::Missing => refuse_whole(path, FileFault::Missing, text),
        FileFault::TooBig => refuse_whole(path, FileFault::TooBig, text),
    }
}

// The report of a file that says nothing.
fn refuse_whole(path: Text, fault: FileFault, text: Vec<u8>) -> Report
    requires room { room_for (length path) ≤ length text.items }
    requires bare { place_room fault ≡ 0 }
    ensures { result.outcome ≡ File path fault }
{
    Report {
        outcome: Outcome::File { path, fault },
        text,
    }
}

// The report of a file that breaks a rule, whose text has room for the place, and for the ports of a loop.
fn refuse_broken(
    alloc: Global,
    path: Text,
    rule: Rule,
    place: Place,
    ports: Items<PortId>,
) -> Report
    ensures { (result.outcome ≡ File path (FileFault.Broken rule place ports)) ⊎
        (result.outcome ≡ Memory) }
{
    let Some(more) = room_of(&place, ports.as_slice()) else {
        return Report::memory(alloc);
    };
    match make_room(alloc, path.as_str().len(), more) {
        Ok(text) => Report {
            outcome: Outcome::File {
                path,
                fault: FileFault::Broken { rule, place, ports },
            },
            text,
        },
        Err(_) => Report::memory(alloc),
    }
}

// How many bytes a place and the ports of a loop take.
fn room_of(place: &Place, ports: &[PortId]) -> Option<usize>
    ensures { IfSome result (λ room. room ≡ path_room place.now + loop_room ports.now) }
{
    ports.len().checked_mul(21)?.checked_add(path_room(place))
}

fn path_room(place: &Place) -> usize
    ensures { result ≡ path_room place.now }
{
    match place {
        Place::Byte { .. } => 0,
        Place::Element { path } => path.as_str().len(),
    }
}
