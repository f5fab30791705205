//! Machines of the tests' own under the master.
ghost use Rattle.std.specs.Prelude.{◌≡◌, IfOk, map};
ghost use Rattle.step_master.specs.System.{ArePeersOf};
ghost use Rattle.worked_rows.specs.Chain.{chain};
ghost use Rattle.worked_rows.specs.OwnCounter.{own_view};
ghost use Rattle.worked_rows.specs.TickerView.{ticker_view};
ghost use Rattle.worked_rows.specs.Ticking.{ticking};

use crate::chain::make_chain;
use crate::chain_master_tests::make_unbound;
use crate::counted::Counts;
use crate::own_counter::OwnCounter;
use crate::ticker::Ticker;
use crate::ticking::make_ticking;
use crate::trio::{Ran, run_system};
use bench_fmus::Model;
use fmu_peer::StartFault;
use sim_base::MemSink;
use std::alloc::{AllocError, Global};
use std::test::Fail;
use std::thread::Threads;
use step_master::RunEnd;
use system_model::System;

// A counter in place of each gain.
#[tactic(auto, using(crate::proofs::ChainSound::chain_peers))]
fn make_counters(alloc: Global, system: &System) -> Result<Vec<OwnCounter>, AllocError>
    requires { system.now ≡ chain }
    ensures { IfOk result (λ peers. ArePeersOf chain (map own_view peers.items)) }
{
    let components = system.components.as_slice();
    let mut peers = Vec::with_capacity(alloc, 2)?;
    peers.push_reserved(OwnCounter::new(alloc, &components[0], Model::Counter)?);
    peers.push_reserved(OwnCounter::new(alloc, &components[1], Model::Counter)?);
    Ok(peers)
}

#[tactic(auto, using(crate::proofs::ChainSound::chain_sound, crate::proofs::ChainSound::chain_counts))]
fn run_counters<R: Threads + Sync>(
    rt: &R,
    alloc: Global,
    out: &mut MemSink,
) -> Result<Ran<OwnCounter>, StartFault> {
    let Ok(system) = make_chain(alloc) else {
        return Err(StartFault::Memory);
    };
    let Ok(bound) = make_unbound(alloc) else {
        return Err(StartFault::Memory);
    };
    let Ok(peers) = make_counters(alloc, &system) else {
        return Err(StartFault::Memory);
    };
    Ok(run_system(rt, alloc, system, bound, peers, 20, out))
}

// Worked out by hand, where each step counts by 3. The output of the second declares to depend on the input that the first
// feeds: it is read after that input, and shows its own count.
const TEXT: &str =
    "trace 1 1000 0 20\nport 0 Int32 first u\nport 1 Int32 first y\nport 2 Int32 second u\nport 3 Int32 second y\nat 0 0\n1 0\n2 0\n3 0\nat 10 0\n1 3\n2 3\n3 3\nat 20 0\n1 6\n2 6\n3 6\nend stop 20\n";

// It would refuse a Get of a parameter or of an input: the run sends none.
#[test]
fn a_machine_that_heeds_no_input_has_its_text(rt: HostRuntime) -> Result<(), Fail> {
    let alloc = rt.alloc();
    let mut out = MemSink::with_room(alloc, 400, 8, Vec::new(alloc))?;
    let Ran { end, .. } = run_counters(&rt, alloc, &mut out)?;
    assert_eq!(rt; out.bytes.as_slice(), TEXT.as_bytes());
    assert_eq!(rt; end, Ok(RunEnd::Stop));
    Ok(())
}

// One that settles, and one that counts its Updates with its Clock active.
#[tactic(auto, using(crate::proofs::TickingSound::ticking_peers, crate::proofs::TickingSound::settling_machine, crate::proofs::TickingSound::own_machine))]
fn make_tickers(alloc: Global, system: &System) -> Result<Vec<Ticker>, AllocError>
    requires { system.now ≡ ticking }
    ensures { IfOk result (λ peers. ArePeersOf ticking (map ticker_view peers.items)) }
{
    let components = system.components.as_slice();
    let mut peers = Vec::with_capacity(alloc, 2)?;
    peers.push_reserved(Ticker::new(alloc, Counts::Updates, &components[0].shape)?);
    peers.push_reserved(Ticker::new(alloc, Counts::Ticks, &components[1].shape)?);
    Ok(peers)
}

#[tactic(auto, using(crate::proofs::TickingSound::ticking_sound, crate::proofs::TickingSound::ticking_counts))]
fn run_tickers<R: Threads + Sync>(
    rt: &R,
    alloc: Global,
    out: &mut MemSink,
) -> Result<Ran<Ticker>, StartFault> {
    let Ok(system) = make_ticking(alloc) else {
        return Err(StartFault::Memory);
    };
    let Ok(bound) = make_unbound(alloc) else {
        return Err(StartFault::Memory);
    };
    let Ok(peers) = make_tickers(alloc, &system) else {
        return Err(StartFault::Memory);
    };
    Ok(run_system(rt, alloc, system, bound, peers, 20, out))
}

// Worked out by hand. The Clock ticks in the first instant of a point alone. In the second, its input is absent and keeps its
// value, and the Update of the first has made it inactive, so that the Update of the second isn't counted.
const TICKS: &str =
    "trace 1 1000 0 20\nport 0 Int32 settle y\nport 1 Clock own c\nport 2 Int32 own u\nport 3 Int32 own y\nat 0 0\n0 0\n1 1\n2 0\n3 0\nat 0 1\n0 1\n1 0\n2 0\n3 1\nat 10 0\n0 0\n1 1\n2 0\n3 1\nat 10 1\n0 1\n1 0\n2 0\n3 2\nat 20 0\n0 0\n1 1\n2 0\n3 2\nat 20 1\n0 1\n1 0\n2 0\n3 3\nend stop 20\n";

#[test]
fn a_constant_clock_ticks_once_at_a_point(rt: HostRuntime) -> Result<(), Fail> {
    let alloc = rt.alloc();
    let mut out = MemSink::with_room(alloc, 400, 8, Vec::new(alloc))?;
    let Ran { end, .. } = run_tickers(&rt, alloc, &mut out)?;
    assert_eq!(rt; out.bytes.as_slice(), TICKS.as_bytes());
    assert_eq!(rt; end, Ok(RunEnd::Stop));
    Ok(())
}
