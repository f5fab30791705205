//! Starts of peers that fail: those of a list, those of unknown machines, and scripts and rooms that come to their end.
use crate::driving::{INITIALIZE, INSTANTIATE, counter_shape, is_plain, shape};
use bench_fmus::{Bench, BuiltIn, Script, Scripts};
use fmi_calls::{Call, Content, Reply, permitted};
use fmu_peer::{Exchange, Peer, PeerFault, Spawner, StartFault};
use sim_base::Items;
use std::alloc::{AllocError, Global};
use std::process::Abort;
use std::test::Fail;
use value_types::{PortType, Shape};

fn length_of(talk: Option<&[Exchange]>) -> usize {
    match talk {
        Some(talk) => talk.len(),
        None => 0,
    }
}

fn start<S: Spawner>(
    rt: &impl Abort,
    alloc: Global,
    spawner: &mut S,
    shape: &Shape,
) -> Result<S::Link, StartFault> {
    assert!(rt; shape.token.as_str().len() <= 1 << 24);
    spawner.start(alloc, "host", "c", "fmus/c", shape)
}

fn fails<S: Spawner>(
    rt: &impl Abort,
    alloc: Global,
    spawner: &mut S,
    shape: &Shape,
    wanted: StartFault,
) -> bool
where
    S::Link: Drop,
{
    match start(rt, alloc, spawner, shape) {
        Ok(_) => false,
        Err(fault) => fault == wanted,
    }
}

fn ask<L: Peer>(rt: &impl Abort, peer: &mut L, call: Call) -> Result<Reply, PeerFault> {
    assert!(rt; is_plain(&call) && permitted(peer.shape(), peer.phase(), &call));
    peer.call(&call)
}

// Whether a peer answers its first call, and fails at the second, which fills its room.
fn fills_its_room<L: Peer>(rt: &impl Abort, peer: &mut L) -> bool {
    let is_instantiated = ask(rt, peer, INSTANTIATE).is_ok();
    let is_full = ask(rt, peer, INITIALIZE) == Err(PeerFault::Failed);
    is_instantiated && is_full
}

fn is_retired(rt: &impl Abort, bench: &mut Bench, counter: BuiltIn) -> bool {
    assert!(rt; bench.retired_peers().len() < bench.retired.started);
    let has_both = length_of(counter.talk()) == 2;
    bench.retire(counter);
    has_both && bench.retired_peers().len() == 1
}

// Whether a bench starts a counter, and then fails by its list and at another machine.
fn starts_one(
    rt: &impl Abort,
    alloc: Global,
    bench: &mut Bench,
    shape: &Shape,
    other: &Shape,
) -> Result<bool, StartFault> {
    let mut counter = start(rt, alloc, bench, shape)?;
    let is_listed = fails(rt, alloc, bench, shape, StartFault::Failed);
    let is_unknown = fails(rt, alloc, bench, other, StartFault::Unknown);
    let is_full = fills_its_room(rt, &mut counter);
    let is_retired = is_retired(rt, bench, counter);
    Ok(is_listed && is_unknown && is_full && is_retired)
}

fn gauge(alloc: Global) -> Result<Shape, AllocError> {
    shape(alloc, "gauge", Vec::new(alloc))
}

// The same of a bench whose peers have room for two exchanges.
fn starts_one_of(rt: &impl Abort, alloc: Global, other: &Shape) -> Result<bool, Fail> {
    let failing = vec![in alloc; 1, 9]?;
    let shape = counter_shape(alloc, PortType::Int32, 1, None)?;
    let mut bench = Bench::new(alloc, Some(2), failing);
    let is_so = starts_one(rt, alloc, &mut bench, &shape, other)?;
    Ok(is_so)
}

#[test]
fn a_full_room_fails_and_starts_fail_by_their_list(rt: HostRuntime) -> Result<(), Fail> {
    let alloc = rt.alloc();
    assert!(rt; starts_one_of(&rt, alloc, &gauge(alloc)?)?);
    Ok(())
}

const WARNED: Result<Reply, PeerFault> = Ok(Reply::Done {
    is_warning: true,
    content: Content::Instantiate { batches: false },
});

// Two scripts: one without answers, and one with one. The first start fails.
fn scripts(alloc: Global) -> Result<Scripts, AllocError> {
    let failing = vec![in alloc; 0]?;
    let mut lists = Vec::new(alloc);
    lists.push(Items::from_vec(Vec::new(alloc)))?;
    lists.push(Items::from_vec(vec![in alloc; WARNED]?))?;
    Ok(Scripts::new(alloc, lists, failing))
}

// Whether a peer gives its one answer, and fails at the next call.
fn comes_to_its_end<L: Peer>(rt: &impl Abort, peer: &mut L) -> bool {
    let is_given = ask(rt, peer, INSTANTIATE) == WARNED;
    let is_at_its_end = ask(rt, peer, INITIALIZE) == Err(PeerFault::Failed);
    is_given && is_at_its_end
}

fn is_script_retired(rt: &impl Abort, scripts: &mut Scripts, script: Script) -> bool {
    assert!(rt; scripts.retired_peers().len() < scripts.retired.started);
    let has_both = length_of(script.talk()) == 2;
    scripts.retire(script);
    has_both && scripts.retired_peers().len() == 1
}

fn starts_second(
    rt: &impl Abort,
    alloc: Global,
    scripts: &mut Scripts,
    shape: &Shape,
) -> Result<bool, StartFault> {
    let mut script = start(rt, alloc, scripts, shape)?;
    let is_listed = fails(rt, alloc, scripts, shape, StartFault::Failed);
    let is_at_its_end = comes_to_its_end(rt, &mut script);
    let is_retired = is_script_retired(rt, scripts, script);
    Ok(is_listed && is_at_its_end && is_retired)
}

// Whether the first start of a script fails, and the second gives one that comes to its end.
fn is_second_started(rt: &impl Abort, alloc: Global, shape: &Shape) -> Result<bool, Fail> {
    let mut scripts = scripts(alloc)?;
    let is_failed = fails(rt, alloc, &mut scripts, shape, StartFault::Failed);
    let is_started = starts_second(rt, alloc, &mut scripts, shape)?;
    Ok(is_failed && is_started)
}

#[test]
fn a_script_gives_its_answers_and_then_fails(rt: HostRuntime) -> Result<(), Fail> {
    let alloc = rt.alloc();
    assert!(rt; is_second_started(&rt, alloc, &gauge(alloc)?)?);
    Ok(())
}
