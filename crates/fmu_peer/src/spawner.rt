ghost use Rattle.std.specs.Prelude.{◌≡◌, ◌^◌, ◌<◌, ◌≤◌, length, IfOk};
ghost use Rattle.fmu_peer.specs.Start.{AnswersUnknown, IsMade, IsStarted, NotesStart, with_retired};

use crate::Peer;
use std::alloc::Global;
use thiserror::Error;
use value_types::Shape;

/// Why a peer wasn't started.
#[derive(Clone, Copy, Debug, Drop, Error, PartialEq, Eq)]
pub enum StartFault {
    #[error("the start failed")]
    Failed,
    #[error("the model identifier isn't known")]
    Unknown,
    #[error("no memory is left")]
    Memory,
}

/// What starts peers, and takes them back.
pub trait Spawner {
    type Link: Peer;

    ghost use Rattle.fmu_peer.specs.Start.{SpawnerView};

    /// What it tells: how many peers it has started, those that were taken back, in order, which model identifiers
    /// it knows by which host, which machine it starts for one, and how often a start has failed.
    ghost view: { Self → SpawnerView };

    /// Starts a peer by the host's name, for an instance of this name whose FMU lies in this directory, and makes the
    /// room to take it back. The lengths of name and token are in bytes.
    fn start(
        &mut self,
        alloc: Global,
        host: &str,
        name: &str,
        directory: &str,
        shape: &Shape,
    ) -> Result<Self::Link, StartFault>
        requires name { (1 ≤ length name.now) × (length name.now ≤ 2 ^ 24) }
        requires token { length shape.now.token ≤ 2 ^ 24 }
        ensures fresh { IfOk result (λ link. IsStarted host.now name.now directory.now shape.now
            (Self.Link.view link)) }
        ensures made { IfOk result (λ link. IsMade (view self.old) host.now shape.now
            (Self.Link.view link)) }
        ensures unknown { AnswersUnknown ((view self.old).knows host.now shape.now.identifier)
            result }
        ensures noted { NotesStart (view self.old) (view self.new) result };

    /// Takes a peer back. It can't fail.
    fn retire(&mut self, link: Self::Link)
        requires { length (view self.old).retired < (view self.old).started }
        ensures { view self.new ≡ with_retired (view self.old) (Self.Link.view link) };

    /// No more peers are taken back than were started.
    ghost fewer: { (s : Self) → length (view s).retired ≤ (view s).started };
}
