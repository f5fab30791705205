//! A built-in machine that never fails.
ghost use Rattle.std.specs.Prelude.{◌≡◌, ◌≤◌, ◌^◌, [], false, IfOk, IsTrue, is_none, length, vec_capacity};
ghost use Rattle.fmi_calls.specs.Permission.{Permitted};
ghost use Rattle.fmu_peer.specs.View.{Asked, AskedWith, IsDeserialize, Serializes, carries_bytes};
ghost use Rattle.bench_fmus.specs.BuiltInView.{built_in_view};
ghost use Rattle.fmu_host.specs.Facts.{first_view};

use bench_fmus::{BuiltIn, Model, Origin};
use fmi_calls::{Call, Phase, Reply};
use fmu_peer::{Peer, PeerFault};
use std::alloc::{AllocError, Global};
use value_types::Shape;

/// A built-in machine without a talk, so that no call of it fails.
#[derive(Debug, Drop)]
pub(crate) struct QuietMachine {
    pub machine: BuiltIn,
    ghost untalked: { IsTrue (is_none machine.book.talk) },
    ghost calm: { machine.book.faults ≡ 0 },
}

impl QuietMachine {
    /// A machine before its first call, which keeps no talk.
    pub fn new(alloc: Global, model: Model, shape: &Shape) -> Result<QuietMachine, AllocError>
        ensures { IfOk result (λ q. built_in_view q.machine ≡ first_view model shape.now) }
    {
        let origin = Origin::from_texts(alloc, "", "", "")?;
        let machine = BuiltIn::new(alloc, model, origin, shape, None)?;
        Ok(QuietMachine { machine })
    }
}

impl Peer for QuietMachine {
    ghost use Rattle.bench_fmus.specs.Laws.{answers_alike, is_lawful, is_machine, unpacks_well};

    ghost view = { λ q. built_in_view q.machine };

    ghost machine = { λ q. is_machine q.machine.model q.machine.book.shape };

    ghost in_phase = { λ q. q.machine.in_phase };

    ghost ignores_slot = { λ q. answers_alike q.machine.model q.machine.book.shape };

    ghost unpacks = { λ q. unpacks_well q.machine.model q.machine.book.shape };

    ghost lawful = { λ q. is_lawful q.machine.model q.machine.book.shape };

    fn shape(&self) -> &Shape {
        self.machine.shape()
    }

    fn phase(&self) -> &Phase {
        self.machine.phase()
    }

    fn call(&mut self, call: &Call) -> Result<Reply, PeerFault>
        requires permitted { Permitted self.old.machine.book.shape self.old.machine.book.phase
            call.now }
        requires plain { carries_bytes call.now ≡ false }
        ensures { Asked (built_in_view self.old.machine) call.now result
            (built_in_view self.new.machine) }
    {
        self.machine.call(call)
    }

    fn serialize(&mut self, into: &mut Vec<u8>) -> Result<Reply, PeerFault>
        requires permitted { Permitted self.old.machine.book.shape self.old.machine.book.phase
            Call.Serialize }
        requires empty { into.old.items ≡ [] }
        requires room { 2 ^ 20 ≤ vec_capacity into.old }
        ensures asked { Asked (built_in_view self.old.machine) Call.Serialize result
            (built_in_view self.new.machine) }
        ensures bytes { Serializes (built_in_view self.old.machine) result into.new.items }
        ensures room { vec_capacity into.old ≤ vec_capacity into.new }
    {
        self.machine.serialize(into)
    }

    fn deserialize(&mut self, call: &Call, bytes: &[u8]) -> Result<Reply, PeerFault>
        requires permitted { Permitted self.old.machine.book.shape self.old.machine.book.phase
            call.now }
        requires length { IsDeserialize call.now (length bytes.now) }
        ensures { AskedWith (built_in_view self.old.machine) call.now bytes.now result
            (built_in_view self.new.machine) }
    {
        self.machine.deserialize(call, bytes)
    }
}
