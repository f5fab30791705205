ghost use Rattle.std.specs.Prelude.{◌≡◌, IfErr, IfOk, IsTrue};
ghost use Rattle.fmi_calls.specs.Permission.{Permitted};
ghost use Rattle.fmu_peer.specs.Answer.{Answered, Failed};
ghost use Rattle.fmu_peer.specs.Close.{IsClosed, can_be_closed};

use crate::closing::close_unless;
use crate::fmu::ask;
use crate::{Peer, PeerFault, Saved};
use fmi_calls::{BadStatus, Call, Phase, Reply};

/// Why an answer isn't good.
#[derive(Clone, Copy, Debug, PartialEq, Eq)]
pub enum Why {
    /// The reply has a status that isn't good.
    Refused { call: Call, status: BadStatus },
    /// The reply is one that the call may not get.
    Misreply { call: Call, reply: Reply },
    /// There was no reply.
    Link { call: Call, fault: PeerFault },
}

/// A peer whose transition failed, and why. It can't be dropped.
pub struct Ended<L: Peer> {
    pub peer: L,
    pub why: Why,
}

impl<L: Peer> Ended<L> {
    /// Where the instance stands.
    pub fn phase(&self) -> &Phase
        ensures { result.now ≡ (L.view self.now.peer).phase }
    {
        self.peer.phase()
    }

    /// Ends the instance by the calls that it still may be sent, or silently by none, and gives the peer back.
    pub fn close(self, silent: bool) -> L
        requires { IsTrue (can_be_closed (L.view self.peer).phase silent) }
        ensures { IsClosed silent (L.view self.peer) (L.view result) }
    {
        let mut peer = self.into_peer();
        close_unless(&mut peer, silent);
        peer
    }

    /// Frees the state that fills the slot, where the transition that failed went on from it.
    pub fn free(&mut self, saved: Saved) -> Result<Reply, Why>
        requires { Permitted (L.view self.old.peer).fixed.shape
            (L.view self.old.peer).phase Call.Free }
        ensures ok { IfOk result (λ reply. Answered (L.view self.old.peer) Call.Free reply
            (L.view self.new.peer)) }
        ensures err { IfErr result (λ why. Failed (L.view self.old.peer) Call.Free why
            (L.view self.new.peer)) }
        ensures why { self.new.why ≡ self.old.why }
    {
        let Saved { kept: () } = saved;
        ask(&mut self.peer, &Call::Free)
    }

    /// Gives up the state that fills the slot without a call. The phase, its full slot too, stays as it is.
    pub fn abandon(&mut self, saved: Saved)
        ensures { self.new ≡ self.old }
    {
        let Saved { kept: _ } = saved;
    }

    pub(crate) fn into_peer(self) -> L
        ensures { result ≡ self.peer }
    {
        let Ended { peer, why: _ } = self;
        peer
    }
}
