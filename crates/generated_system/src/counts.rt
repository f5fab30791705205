ghost use Rattle.std.specs.Prelude.{◌≡◌, ◌≤◌, length, sum_by};

use fmu_peer::Peer;

/// How many exchanges there were with some instances, and how many of them were calls of Restore.
#[derive(Clone, Copy, Debug, PartialEq, Eq)]
pub struct CallCounts {
    pub calls: u128,
    pub rollbacks: u128,
}

/// The counts of some peers together, as their phases have them.
pub fn call_counts<L: Peer>(peers: &[L]) -> CallCounts
    requires { length peers.now ≤ 256 }
    ensures calls { result.calls ≡ sum_by (λ p. (L.view p).phase.exchanges) peers.now }
    ensures rollbacks { result.rollbacks ≡ sum_by (λ p. (L.view p).phase.restores) peers.now }
{
    let mut calls = 0;
    let mut rollbacks = 0;
    for peer in peers {
        let phase = peer.phase();
        calls += u128::from(phase.exchanges());
        rollbacks += u128::from(phase.restores());
    }
    CallCounts { calls, rollbacks }
}
