//! Peers that meet: one of them answers its step when the other was asked for one.
ghost use Rattle.std.specs.Prelude.{◌≡◌};
ghost use Rattle.fmu_peer.specs.View.{Asked};
ghost use Rattle.fmi_calls.specs.Permission.{Permitted};
ghost use Rattle.bench_fmus.specs.ScriptView.{script_view};

use bench_fmus::Script;
use fmi_calls::{Call, Phase, Reply};
use fmu_peer::{Peer, PeerFault};
use std::alloc::Global;
use std::sync::Arc;
use std::sync::atomic::{AtomicU64, Ordering};
use value_types::Shape;

/// A peer that gives the answers of a script, and shares a flag with others, which is 1 once one of them that doesn't wait
/// was asked for a step.
#[derive(Drop)]
pub(crate) struct Meeting {
    pub(crate) script: Script,
    pub(crate) flag: Arc<AtomicU64, Global>,
    /// for how many turns its steps wait for the flag
    pub(crate) turns: u32,
    /// whether the flag was seen
    pub(crate) met: bool,
}

impl Meeting {
    // Raises the flag, or waits for it.
    fn meet(&mut self)
        ensures { self.new.script ≡ self.old.script }
    {
        if self.turns == 0 {
            self.flag.store(1, Ordering::SeqCst);
        }
        self.met = is_raised(&self.flag, self.turns);
    }
}

// Whether the flag is raised within so many turns.
fn is_raised(flag: &AtomicU64, turns: u32) -> bool {
    for _ in 0..turns {
        if flag.load(Ordering::SeqCst) == 1 {
            return true;
        }
    }
    flag.load(Ordering::SeqCst) == 1
}

impl Peer for Meeting {
    ghost view = { λ m. script_view m.script };

    ghost machine = { λ m. tt };

    ghost in_phase = { λ m. tt };

    ghost ignores_slot = { λ m. tt };

    ghost unpacks = { λ m. tt };

    ghost lawful = { λ m. tt };

    fn shape(&self) -> &Shape {
        self.script.shape()
    }

    fn phase(&self) -> &Phase {
        self.script.phase()
    }

    fn call(&mut self, call: &Call) -> Result<Reply, PeerFault> {
        if matches!(call, Call::DoStep { .. }) {
            self.meet();
        }
        self.script.call(call)
    }

    fn serialize(&mut self, into: &mut Vec<u8>) -> Result<Reply, PeerFault> {
        self.script.serialize(into)
    }

    fn deserialize(&mut self, call: &Call, bytes: &[u8]) -> Result<Reply, PeerFault> {
        self.script.deserialize(call, bytes)
    }
}
