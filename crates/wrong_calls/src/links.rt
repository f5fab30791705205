//! An FMU behind a wire.
ghost use Rattle.std.specs.Prelude.{false, length, ◌&&◌, ◌||◌, ◌≡◌};
ghost use Rattle.fmi_calls.specs.Permission.{Permitted};
ghost use Rattle.fmu_link.specs.Batches.{GoAsAgreed, agrees_to_batches, asks_for_batches};
ghost use Rattle.fmu_link.specs.Exchange.{Exchanged};
ghost use Rattle.fmu_link.specs.Piped.{line_view, piped_view};
ghost use Rattle.fmu_peer.specs.Many.{AreOfOneSort, AskedMany, MayAskAll};
ghost use Rattle.fmu_peer.specs.View.{Asked, carries_bytes};

use fmi_calls::{Call, Reply};
use fmu_link::{Piped, Wire};
use fmu_peer::{Peer, PeerFault};

/// What an FMU behind a wire answers to a call.
pub fn call_over_wire<W: Wire + Send>(peer: &mut Piped<W>, call: &Call) -> Result<Reply, PeerFault>
    requires permitted { Permitted peer.old.instance.shape peer.old.instance.phase call.now }
    requires plain { carries_bytes call.now ≡ false }
    ensures asked { Asked (piped_view W.view peer.old) call.now result
        (piped_view W.view peer.new) }
    ensures exchanged { Exchanged call.now peer.old.instance.name peer.old.instance.shape.token
        (line_view W.view peer.old) (line_view W.view peer.new) result }
    ensures agreed { peer.new.instance.takes_batches ≡ (peer.old.instance.takes_batches ||
        (asks_for_batches call.now && agrees_to_batches result)) }
{
    peer.call(call)
}

/// What it answers to several calls, and how many answers came.
pub fn call_many_over_wire<W: Wire + Send>(
    peer: &mut Piped<W>,
    calls: &[Call],
    replies: &mut [Reply],
) -> Result<usize, PeerFault>
    requires sort { AreOfOneSort calls.now }
    requires places { length replies.old ≡ length calls.now }
    requires may { MayAskAll peer.old.instance.shape peer.old.instance.phase calls.now }
    ensures places { length replies.new ≡ length calls.now }
    ensures asked { AskedMany (piped_view W.view peer.old) calls.now replies.old replies.new
        result (piped_view W.view peer.new) }
    ensures agreed { GoAsAgreed peer.old.instance.takes_batches calls.now
        (line_view W.view peer.old) (line_view W.view peer.new) replies.new result }
{
    peer.call_many(calls, replies)
}
