//! Machines of the tests' own as peers.
ghost use Rattle.std.specs.Prelude.{◌≡◌, None};
ghost use Rattle.fmu_peer.specs.Machine.{IsInPhase, IsMachineOf};
ghost use Rattle.worked_rows.specs.Ticker.{state_in, ticker};

use crate::counted::{Counted, Counts, answer, go_on, refusal};
use fmi_calls::{Call, Kind, Phase, Reply};
use fmu_peer::{Peer, PeerFault, TalkBook};
use std::alloc::{AllocError, Global};
use value_types::Shape;

/// An instance of such a machine. It keeps no talk.
#[derive(Debug, Drop)]
pub(crate) struct Ticker {
    pub(crate) counts: Counts,
    pub(crate) book: TalkBook,
    pub(crate) counted: Counted,
    pub(crate) saved: Option<Counted>,
    ghost is: { IsMachineOf book.shape (ticker counts) },
    ghost in_phase: { IsInPhase (ticker counts) book.phase (state_in counts counted saved) },
    ghost untold: { book.talk ≡ None },
}

impl Ticker {
    ghost use Rattle.std.specs.Prelude.{IfOk};
    ghost use Rattle.step_master.specs.System.{IsNew};
    ghost use Rattle.worked_rows.specs.TickerView.{ticker_view};

    /// An instance of a shape before its first call.
    pub(crate) fn new(alloc: Global, counts: Counts, shape: &Shape) -> Result<Ticker, AllocError>
        requires { IsMachineOf shape.now (ticker counts) }
        ensures { IfOk result (λ peer. IsNew shape.now (ticker_view peer)) }
    {
        let book = TalkBook::new(alloc, shape.copy(alloc)?, None)?;
        Ok(Ticker {
            counts,
            book,
            counted: Counted {
                is_initializing: false,
                count: 0,
                clock: 0,
                clocked: 0,
                output: 0,
            },
            saved: None,
        })
    }
}

impl Peer for Ticker {
    ghost use Rattle.fmu_peer.specs.View.{Asked};
    ghost use Rattle.worked_rows.specs.TickerView.{ticker_view};
    ghost use Rattle.worked_rows.specs.TickerLaws.{ticker_alike, ticker_lawful, ticker_unpacks};

    ghost view = { ticker_view };

    ghost machine = { λ p. p.is };

    ghost in_phase = { λ p. p.in_phase };

    ghost ignores_slot = { λ p. ticker_alike p.counts };

    ghost unpacks = { λ p. ticker_unpacks p.counts };

    ghost lawful = { λ p. ticker_lawful p.counts p.book.shape };

    fn shape(&self) -> &Shape {
        &self.book.shape
    }

    fn phase(&self) -> &Phase {
        &self.book.phase
    }

    fn call(&mut self, call: &Call) -> Result<Reply, PeerFault> {
        let reply = answer(
            self.counts,
            &self.counted,
            &self.book.shape,
            &self.book.phase,
            call,
        );
        go_on(self.counts, &mut self.counted, &mut self.saved, call);
        self.book.keep(call, Ok(reply))
    }

    // It can't tell its state in bytes.
    fn serialize(&mut self, _into: &mut Vec<u8>) -> Result<Reply, PeerFault> {
        self.book
            .keep(&Call::Serialize, Ok(refusal(Kind::Serialize)))
    }

    // Nor can it take one from them.
    fn deserialize(&mut self, call: &Call, _bytes: &[u8]) -> Result<Reply, PeerFault> {
        self.saved = None;
        self.book.keep(call, Ok(refusal(Kind::Deserialize)))
    }
}
