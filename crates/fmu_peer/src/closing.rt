ghost use Rattle.std.specs.Prelude.{false, [], ◌∷◌, ◌≡◌};
ghost use Rattle.fmu_peer.specs.View.{carries_bytes};
ghost use Rattle.fmu_peer.specs.Close.{ClosesWith, IsClosed, closing_calls, is_fatal_answer};

use crate::{Peer, PeerFault};
use fmi_calls::{BadStatus, Call, Grade, Phase, Reply, grade, permitted};
use value_types::Shape;

/// Ends an instance by the calls that it still may be sent, or silently by none.
pub(crate) fn close_unless<L: Peer>(peer: &mut L, silent: bool)
    ensures { IsClosed silent (L.view peer.old) (L.view peer.new) }
{
    if !silent {
        end_peer(peer);
    }
}

/// Ends an instance by the calls that it still may be sent, and tells whether one was refused with Fatal. A state that
/// is still held saved is freed first.
pub(crate) fn close_peer<L: Peer>(peer: &mut L, has_saved: bool) -> bool
    ensures { ClosesWith (closing_calls has_saved) (L.view peer.old) result (L.view peer.new) }
{
    if has_saved {
        let freed = send(peer, Call::Free);
        let ended = end_peer(peer);
        freed || ended
    } else {
        end_peer(peer)
    }
}

// Whatever Terminate answers, FreeInstance follows where it is still permitted.
fn end_peer<L: Peer>(peer: &mut L) -> bool
    ensures { ClosesWith (closing_calls false) (L.view peer.old) result (L.view peer.new) }
{
    let terminated = send(peer, Call::Terminate);
    let freed = send(peer, Call::FreeInstance);
    terminated || freed
}

// Sends a call where it is permitted, and tells whether it was refused with Fatal.
fn send<L: Peer>(peer: &mut L, call: Call) -> bool
    requires { carries_bytes call ≡ false }
    ensures { ClosesWith (call ∷ []) (L.view peer.old) result (L.view peer.new) }
{
    if permitted(peer.shape(), peer.phase(), &call) {
        let answer = peer.call(&call);
        is_fatal(peer.shape(), peer.phase(), &call, answer)
    } else {
        false
    }
}

// Whether an answer is a refusal with Fatal.
fn is_fatal(shape: &Shape, phase: &Phase, call: &Call, answer: Result<Reply, PeerFault>) -> bool
    ensures { result ≡ is_fatal_answer shape.now call.now answer }
{
    match answer {
        Ok(reply) => match grade(shape, phase, call, &reply) {
            Grade::Refused => match reply.bad_status() {
                BadStatus::Fatal => true,
                BadStatus::Discard | BadStatus::Error => false,
            },
            Grade::Good | Grade::Misreply => false,
        },
        Err(_) => false,
    }
}
