//! FMUs in Step Mode, and rounds over them.
ghost use Rattle.std.specs.Prelude.{◌≡◌, ◌↔◌, ◌≤◌, ◌^◌, All, IsTrue, length};
ghost use Rattle.fmi_calls.specs.Permission.{Permitted};
ghost use Rattle.fmi_calls.specs.declared.phase.InstanceState.TheVariants as P;
ghost use Rattle.parallel_step.specs.Round.{CanBeSent, CanWork};

use fmi_calls::{Call, InstanceState, permitted};
use fmu_peer::{Fmu, Held, Initializing, Instantiated, Job, Peer, Running, Slot, Stepping};
use parallel_step::{first_bad, round};
use sim_base::SourceId;
use slot_calls::BadAnswer;
use std::process::Abort;
use std::thread::Threads;

fn is_permitted<L: Peer>(peer: &L, call: &Call) -> bool
    ensures { IsTrue result ↔ Permitted (L.view peer.now).fixed.shape
        (L.view peer.now).phase call.now }
{
    permitted(peer.shape(), peer.phase(), call)
}

fn assert_permitted<L: Peer>(rt: &impl Abort, peer: &L, call: &Call)
    ensures { Permitted (L.view peer.now).fixed.shape (L.view peer.now).phase call.now }
{
    assert!(rt; is_permitted(peer, call), "{call:?}");
}

fn give_up<L: Peer + Drop>(rt: &impl Abort, held: Held<L>, fault: &str) -> Fmu<L, Stepping> {
    let _ = held.into_peer();
    panic!(rt; "{fault}")
}

// An FMU in Step Mode at 0.
fn into_stepping<L: Peer + Drop>(rt: &impl Abort, peer: L) -> Fmu<L, Stepping>
    requires { (L.view peer).phase.state ≡ P.Fresh }
{
    match Fmu::new(peer).instantiate(1) {
        Ok(fmu) => initialize(rt, fmu),
        Err(ended) => give_up(rt, Held::Ended(ended), "it isn't made"),
    }
}

fn initialize<L: Peer + Drop>(rt: &impl Abort, fmu: Fmu<L, Instantiated>) -> Fmu<L, Stepping> {
    assert_permitted(
        rt,
        &fmu.peer,
        &Call::EnterInitialization { start: 0, stop: 20 },
    );
    match fmu.enter_initialization(0, 20) {
        Ok(fmu) => leave_initialization(rt, fmu),
        Err(ended) => give_up(
            rt,
            Held::Ended(ended),
            "it doesn't enter Initialization Mode",
        ),
    }
}

fn leave_initialization<L: Peer + Drop>(
    rt: &impl Abort,
    fmu: Fmu<L, Initializing>,
) -> Fmu<L, Stepping> {
    assert_permitted(rt, &fmu.peer, &Call::ExitInitialization);
    match fmu.exit_initialization() {
        Ok(Running::Step(fmu)) => fmu,
        Ok(Running::Event(fmu)) => give_up(rt, Held::Eventing(fmu), "it has event mode"),
        Err(ended) => give_up(
            rt,
            Held::Ended(ended),
            "it doesn't leave Initialization Mode",
        ),
    }
}

/// An FMU in Step Mode at 0, with a job.
pub(crate) fn slot_of<L: Peer + Drop>(rt: &impl Abort, source: u32, peer: L, job: Job) -> Slot<L>
    requires { (L.view peer).phase.state ≡ P.Fresh }
{
    let fmu = into_stepping(rt, peer);
    Slot {
        source: SourceId(source),
        held: Held::Stepping(fmu),
        saved: None,
        is_fatal: false,
        job,
        answer: None,
    }
}

/// The peer of an FMU that is closed.
pub(crate) fn into_closed<L: Peer>(rt: &impl Abort, slot: Slot<L>) -> L {
    let Slot {
        source: _,
        held,
        saved,
        is_fatal: _,
        job: _,
        answer: _,
    } = slot;
    match saved {
        Some(_saved) => panic!(rt; "a state is kept saved"),
        None => {}
    }
    assert!(rt; matches!(&held, Held::Closed(_)));
    held.into_peer()
}

fn can_be_sent<L: Peer>(slot: &Slot<L>, call: &Call) -> bool
    ensures { IsTrue result → CanBeSent L.view slot.now call.now }
{
    match &slot.held {
        Held::Stepping(fmu) => {
            is_permitted(&fmu.peer, call)
                && matches!(fmu.peer.phase().state, InstanceState::Step)
                && slot.saved.is_some() == fmu.peer.phase().slot.is_full
        }
        _ => false,
    }
}

fn can_work<L: Peer>(slot: &Slot<L>) -> bool
    ensures { IsTrue result → CanWork L.view slot.now }
{
    match slot.job {
        Job::Nothing => true,
        Job::Save => can_be_sent(slot, &Call::Save),
        Job::Restore => can_be_sent(slot, &Call::Restore),
        Job::Free => can_be_sent(slot, &Call::Free),
        Job::Step { at, size } => can_be_sent(slot, &Call::DoStep { at, size }),
    }
}

fn assert_can_work<L: Peer>(rt: &impl Abort, slots: &[Slot<L>])
    ensures { All (CanWork L.view) slots.now }
{
    match slots.split_first() {
        None => {}
        Some((first, rest)) => {
            assert!(rt; can_work(first));
            assert_can_work(rt, rest);
        }
    }
}

/// Makes a round by so many workers, and tells its first bad answer.
pub(crate) fn work<R: Abort + Threads + Sync, L: Peer>(
    rt: &R,
    slots: &mut [Slot<L>],
    workers: u32,
) -> Option<BadAnswer>
    requires { length slots.old ≤ 2 ^ 32 }
{
    assert_can_work(rt, slots);
    round(rt, slots, workers);
    first_bad(slots)
}
