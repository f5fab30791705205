//! Generated systems, and what is counted of their runs.
ghost use Rattle.std.specs.Prelude.{IfOk, length, sum_by, ◌≡◌, ◌≤◌};
ghost use Rattle.generated_system.specs.Generated.{generated_bound, generated_system};
ghost use Rattle.system_model.specs.Bounds.{BindsParameters};
ghost use Rattle.system_model.specs.Sound.{IsSound};

use fmu_peer::Peer;
use generated_system::{CallCounts, GeneratedSystem, bench_system, call_counts};
use std::alloc::{AllocError, Global};

/// The system of `n` components that a seed gives.
pub fn system_of_seed(alloc: Global, seed: u32, n: usize) -> Result<GeneratedSystem, AllocError>
    requires { n ≤ 256 }
    ensures system { IfOk result (λ made. made.system ≡ generated_system seed n) }
    ensures bound { IfOk result (λ made. made.bound ≡ generated_bound seed n) }
    ensures sound { IfOk result (λ made. IsSound made.system) }
    ensures binds { IfOk result (λ made. BindsParameters made.system made.bound) }
{
    bench_system(alloc, seed, n)
}

/// The counts of some peers together, as their phases have them.
pub fn counts_of<L: Peer>(peers: &[L]) -> CallCounts
    requires { length peers.now ≤ 256 }
    ensures calls { result.calls ≡ sum_by (λ p. (L.view p).phase.exchanges) peers.now }
    ensures rollbacks { result.rollbacks ≡ sum_by (λ p. (L.view p).phase.restores) peers.now }
{
    call_counts(peers)
}
