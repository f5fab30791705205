//! The two gains under the master.
ghost use Rattle.std.specs.Prelude.{◌≡◌, ◌∷◌, [], IfOk, map};
ghost use Rattle.step_master.specs.System.{ArePeersOf};
ghost use Rattle.worked_rows.specs.Chain.{chain};

use crate::chain::make_chain;
use crate::trio::{Ran, run_system, start};
use bench_fmus::Bench;
use fmu_peer::{Peer, Spawner, StartFault};
use sim_base::{Items, MemSink};
use std::alloc::{AllocError, Global};
use std::process::Abort;
use std::test::Fail;
use std::thread::Threads;
use step_master::RunEnd;
use system_model::{Bound, System};

// A peer for each gain.
#[tactic(auto, using(crate::proofs::ChainSound::chain_peers))]
fn start_chain<S: Spawner>(
    rt: &impl Abort,
    alloc: Global,
    spawner: &mut S,
    system: &System,
) -> Result<Vec<S::Link>, StartFault>
where
    S::Link: Drop,
    requires { system.now ≡ chain }
    ensures { IfOk result (λ peers. ArePeersOf chain (map S.Link.view peers.items)) }
{
    let Ok(mut peers) = Vec::with_capacity(alloc, 2) else {
        return Err(StartFault::Memory);
    };
    let components = system.components.as_slice();
    peers.push_reserved(start(rt, alloc, spawner, &components[0])?);
    peers.push_reserved(start(rt, alloc, spawner, &components[1])?);
    Ok(peers)
}

// No value for any parameter.
pub(crate) fn make_unbound(alloc: Global) -> Result<Bound, AllocError>
    ensures { IfOk result (λ bound. bound.components ≡ [] ∷ [] ∷ []) }
{
    let components = vec![in alloc;
        Items::from_vec(Vec::new(alloc)),
        Items::from_vec(Vec::new(alloc)),
    ]?;
    Ok(Bound {
        components: Items::from_vec(components),
        unreached: 0,
    })
}

#[tactic(auto, using(crate::proofs::ChainSound::chain_sound, crate::proofs::ChainSound::chain_counts))]
fn run_chain<R: Abort + Threads + Sync, S: Spawner>(
    rt: &R,
    alloc: Global,
    spawner: &mut S,
    out: &mut MemSink,
) -> Result<Ran<S::Link>, StartFault>
where
    S::Link: Drop,
{
    let Ok(system) = make_chain(alloc) else {
        return Err(StartFault::Memory);
    };
    let Ok(bound) = make_unbound(alloc) else {
        return Err(StartFault::Memory);
    };
    let peers = start_chain(rt, alloc, spawner, &system)?;
    Ok(run_system(rt, alloc, system, bound, peers, 20, out))
}

// Worked out by hand, where k is 3 and the first input starts at 5: the first shows the 15 that it holds from the end of
// Initialization Mode on, and the second what it has of its input, which is set before a step.
const TEXT: &str =
    "trace 1 1000 0 20\nport 0 Int32 first u\nport 1 Int32 first y\nport 2 Int32 second u\nport 3 Int32 second y\nat 0 0\n1 15\n2 15\n3 0\nat 10 0\n1 15\n2 15\n3 45\nat 20 0\n1 15\n2 15\n3 45\nend stop 20\n";

#[test]
fn a_chain_of_gains_has_its_text(rt: HostRuntime) -> Result<(), Fail> {
    let alloc = rt.alloc();
    let mut bench = Bench::new(alloc, None, Vec::new(alloc));
    let mut out = MemSink::with_room(alloc, 400, 8, Vec::new(alloc))?;
    let Ran { end, .. } = run_chain(&rt, alloc, &mut bench, &mut out)?;
    assert_eq!(rt; out.bytes.as_slice(), TEXT.as_bytes());
    assert_eq!(rt; end, Ok(RunEnd::Stop));
    Ok(())
}
