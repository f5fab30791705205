//! A machine of the tests' own, which counts, and lets nothing but its count be read.
ghost use Rattle.std.specs.Prelude.{◌≡◌, IfOk};
ghost use Rattle.bench_fmus.specs.BuiltIn.{listed};
ghost use Rattle.bench_fmus.specs.Told.{told};
ghost use Rattle.step_master.specs.System.{IsNew};
ghost use Rattle.worked_rows.specs.OwnCounter.{own_answer, own_view, shown};

use bench_fmus::{BuiltIn, Model, Numbers, Origin};
use fmi_calls::{BadStatus, Call, Content, Kind, Phase, Reply};
use fmu_peer::{Peer, PeerFault};
use std::alloc::{AllocError, Global};
use system_model::Component;
use value_types::{PortType, Shape, to_word};

/// The count, an output.
const OUTPUT: u32 = 3;

/// What counts as a built-in machine does, at each step what the parameter under reference 1 tells, and shows the count under
/// reference 3. It tells its machine.
#[derive(Debug, Drop)]
pub(crate) struct OwnCounter {
    pub(crate) inner: BuiltIn,
}

impl OwnCounter {
    /// A counter of a component before its first call.
    pub(crate) fn new(
        alloc: Global,
        component: &Component,
        model: Model,
    ) -> Result<OwnCounter, AllocError>
        ensures { IfOk result (λ peer. IsNew component.now.shape (own_view peer)) }
    {
        let name = component.name.text(alloc)?;
        let origin = Origin::from_texts(alloc, "host", name.as_str(), "fmus/c")?;
        let inner = BuiltIn::new(alloc, model, origin, &component.shape, None)?;
        Ok(OwnCounter { inner })
    }
}

// What it answers to a Get.
fn reply_to_get(numbers: &Numbers, reference: u32) -> Reply
    ensures { result ≡ shown (listed (told numbers.now)) reference }
{
    if reference == OUTPUT {
        Reply::Done {
            is_warning: false,
            content: Content::Get {
                word: to_word(PortType::Int64, i128::from(numbers.count)),
            },
        }
    } else {
        Reply::Refused {
            kind: Kind::Get,
            status: BadStatus::Error,
        }
    }
}

// What it answers otherwise than the built-in machine.
fn own_answer(numbers: &Numbers, call: &Call) -> Option<Reply>
    ensures { result ≡ own_answer (listed (told numbers.now)) call.now }
{
    match *call {
        Call::Get { reference, .. } => Some(reply_to_get(numbers, reference)),
        _ => None,
    }
}

impl Peer for OwnCounter {
    ghost use Rattle.fmu_peer.specs.View.{Asked};
    ghost use Rattle.worked_rows.specs.OwnCounterLaws.{own_alike, own_in_phase, own_is, own_lawful, own_unpacks};

    ghost view = { own_view };

    ghost machine = { own_is };

    ghost in_phase = { own_in_phase };

    ghost ignores_slot = { own_alike };

    ghost unpacks = { own_unpacks };

    ghost lawful = { own_lawful };

    fn shape(&self) -> &Shape {
        self.inner.shape()
    }

    fn phase(&self) -> &Phase {
        self.inner.phase()
    }

    fn call(&mut self, call: &Call) -> Result<Reply, PeerFault> {
        match own_answer(&self.inner.state.numbers, call) {
            Some(reply) => self.inner.book.keep(call, Ok(reply)),
            None => self.inner.call(call),
        }
    }

    fn serialize(&mut self, into: &mut Vec<u8>) -> Result<Reply, PeerFault> {
        self.inner.serialize(into)
    }

    fn deserialize(&mut self, call: &Call, bytes: &[u8]) -> Result<Reply, PeerFault> {
        self.inner.deserialize(call, bytes)
    }
}
