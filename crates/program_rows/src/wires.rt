//! FMUs behind wires in memory.
ghost use Rattle.std.specs.Prelude.{◌≡◌, ◌^◌, ◌<◌, ◌≤◌, ◌++◌, [], ◌∷◌, length, IfOk, true};
ghost use Rattle.fmu_link.specs.MemWire.{mem_view};
ghost use Rattle.fmu_link.specs.Piped.{piped_view};
ghost use Rattle.fmu_peer.specs.Start.{AnswersUnknown, IsStarted, NotesStart};
ghost use Rattle.program_rows.specs.Wires.{fewer_peers, wires_view};

use bench_fmus::Retired;
use fmu_link::{MemWire, Piped};
use fmu_peer::{Spawner, StartFault};
use std::alloc::{AllocError, Global};
use value_types::Shape;

/// How many bytes each wire takes.
const ROOM: usize = 10_000;

/// A spawner of FMUs behind wires. On each wire these bytes come, and its calls with these numbers fail. It knows every identifier.
#[derive(Drop)]
pub(crate) struct Wires {
    pub(crate) coming: Vec<u8>,
    pub(crate) failing: Vec<u64>,
    pub(crate) retired: Retired<Piped<MemWire>>,
}

impl Wires {
    pub(crate) fn new(alloc: Global, coming: Vec<u8>, failing: Vec<u64>) -> Wires {
        Wires {
            coming,
            failing,
            retired: Retired::new(alloc),
        }
    }

    /// The peers that were taken back.
    pub(crate) fn retired_peers(&self) -> &[Piped<MemWire>] {
        self.retired.peers.as_slice()
    }
}

fn make_wire(alloc: Global, coming: &[u8], failing: &[u64]) -> Result<MemWire, AllocError>
    ensures quiet { IfOk result (λ wire. wire.faults ≡ 0) }
{
    let coming = coming.to_vec(alloc)?;
    MemWire::with_room(alloc, ROOM, coming, failing.to_vec(alloc)?)
}

impl Spawner for Wires {
    type Link = Piped<MemWire>;

    ghost use Rattle.std.specs.Prelude.{map};

    ghost view = { wires_view };

    ghost fewer = { λ w. fewer_peers w.retired.peers.items w.retired.started w.retired.fewer };

    fn start(
        &mut self,
        alloc: Global,
        host: &str,
        name: &str,
        directory: &str,
        shape: &Shape,
    ) -> Result<Piped<MemWire>, StartFault>
        requires name { (1 ≤ length name.now) × (length name.now ≤ 2 ^ 24) }
        requires token { length shape.now.token ≤ 2 ^ 24 }
        ensures fresh { IfOk result (λ p. IsStarted host.now name.now directory.now shape.now
            (piped_view mem_view p)) }
        ensures unknown { AnswersUnknown true result }
        ensures noted { NotesStart (wires_view self.old) (wires_view self.new) result }
    {
        let Ok(wire) = make_wire(alloc, self.coming.as_slice(), self.failing.as_slice()) else {
            return Err(StartFault::Memory);
        };
        let Ok(peer) = Piped::start(alloc, wire, host, name, directory, shape) else {
            return Err(StartFault::Memory);
        };
        match self.retired.count(peer) {
            Ok(peer) => Ok(peer),
            Err(_) => Err(StartFault::Memory),
        }
    }

    fn retire(&mut self, link: Piped<MemWire>)
        requires { length self.old.retired.peers.items < self.old.retired.started }
        ensures retired { self.new.retired.peers.items ≡ self.old.retired.peers.items ++ link ∷ [] }
        ensures started { self.new.retired.started ≡ self.old.retired.started }
    {
        self.retired.push(link);
    }
}
