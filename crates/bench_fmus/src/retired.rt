ghost use Rattle.std.specs.Prelude.{◌≡◌, ◌+◌, ◌<◌, ◌≤◌, ◌++◌, [], ◌∷◌, length, vec_capacity, IfOk, OnErr, OnOk};

use std::alloc::{AllocError, Global};

/// The peers that a spawner took back, with room for all that it started.
#[derive(Debug, Drop)]
pub struct Retired<L> {
    pub peers: Vec<L>,
    pub started: usize,
    ghost reserved: { started ≤ vec_capacity peers },
    ghost fewer: { length peers.items ≤ started },
}

impl<L> Retired<L> {
    /// None, before the first start.
    pub fn new(alloc: Global) -> Retired<L>
        ensures peers { result.peers.items ≡ [] }
        ensures started { result.started ≡ 0 }
    {
        Retired {
            peers: Vec::new(alloc),
            started: 0,
        }
    }

    /// Counts the start of a peer, and makes the room to take it back.
    pub fn count(&mut self, peer: L) -> Result<L, AllocError>
    where
        L: Drop,
        ensures peer { IfOk result (λ same. same ≡ peer) }
        ensures ok { OnOk result (self.new.started ≡ self.old.started + 1) }
        ensures err { OnErr result (self.new.started ≡ self.old.started) }
        ensures peers { self.new.peers.items ≡ self.old.peers.items }
    {
        self.reserve()?;
        Ok(peer)
    }

    fn reserve(&mut self) -> Result<(), AllocError>
        ensures ok { OnOk result (self.new.started ≡ self.old.started + 1) }
        ensures err { OnErr result (self.new.started ≡ self.old.started) }
        ensures peers { self.new.peers.items ≡ self.old.peers.items }
    {
        let started = self.started + 1;
        self.peers.reserve(started - self.peers.len())?;
        self.started = started;
        Ok(())
    }

    /// Takes a peer back.
    pub fn push(&mut self, peer: L)
        requires { length self.old.peers.items < self.old.started }
        ensures peers { self.new.peers.items ≡ self.old.peers.items ++ peer ∷ [] }
        ensures started { self.new.started ≡ self.old.started }
    {
        self.peers.push_reserved(peer);
    }
}
