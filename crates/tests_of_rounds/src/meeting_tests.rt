//! Two peers, the first of which waits in its step until the second is asked for its own.
use crate::exchanges::GOOD;
use crate::meeting::Meeting;
use crate::scripts::make_script;
use crate::slots::{into_closed, slot_of, work};
use fmu_peer::{Job, Peer, Slot, close_all};
use std::alloc::Global;
use std::process::Abort;
use std::sync::Arc;
use std::sync::atomic::AtomicU64;
use std::thread::Threads;

fn start(
    rt: &impl Abort,
    alloc: Global,
    component: u32,
    flag: &Arc<AtomicU64, Global>,
    turns: u32,
) -> Slot<Meeting> {
    let script = make_script(rt, alloc, GOOD).expect(rt, "memory is left");
    let peer = Meeting {
        script,
        flag: Arc::try_clone(flag).expect(rt, "memory is left"),
        turns,
        met: false,
    };
    slot_of(rt, component, peer, Job::Step { at: 0, size: 10 })
}

// The peer had its whole talk. Tells whether it saw the flag.
fn saw_flag(rt: &impl Abort, peer: &Meeting) -> bool {
    assert!(rt; peer.script.talk() == Some(GOOD));
    peer.met
}

// Whether the peer of a closed slot saw the flag.
fn has_met(rt: &impl Abort, slot: Slot<Meeting>) -> bool {
    let peer = into_closed(rt, slot);
    let met = saw_flag(rt, &peer);
    let_go(peer);
    met
}

// Lets a peer go, of whatever type it is.
fn let_go<L: Peer + Drop>(_peer: L) {}

// Whether the first of two peers is asked for its step while the second is.
fn meet<R: Abort + Threads + Sync>(rt: &R, alloc: Global, turns: u32, workers: u32) -> bool {
    let flag = Arc::new(alloc, AtomicU64::new(0)).expect(rt, "memory is left");
    let mut slots = [
        start(rt, alloc, 0, &flag, turns),
        start(rt, alloc, 1, &flag, 0),
    ];
    assert!(rt; work(rt, &mut slots, workers).is_none());
    close_all(&mut slots);
    let [first, second] = slots;
    let met = has_met(rt, first);
    assert!(rt; has_met(rt, second));
    met
}

#[test]
fn two_workers_ask_two_peers_at_once(rt: HostRuntime) {
    assert!(rt; meet(&rt, rt.alloc(), 100_000_000, 2));
    assert!(rt; meet(&rt, rt.alloc(), 100_000_000, 64));
}

#[test]
fn one_worker_asks_one_peer_after_the_other(rt: HostRuntime) {
    assert!(rt; !meet(&rt, rt.alloc(), 1000, 1));
}
