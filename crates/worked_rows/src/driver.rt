//! An FMU led through typed states by a list of exchanges.
ghost use Rattle.std.specs.Prelude.{◌≡◌, ◌↔◌, IsTrue};
ghost use Rattle.fmi_calls.specs.Permission.{Permitted};
ghost use Rattle.fmi_calls.specs.declared.phase.InstanceState.TheVariants as P;

use fmi_calls::{Call, Reply, permitted};
use fmu_peer::{
    Ended, Exchange, Fmu, Held, Initializing, Instantiated, Mode, Peer, Running, Saved, Stepping,
    Why,
};
use std::process::Abort;

fn is_permitted<L: Peer>(peer: &L, call: &Call) -> bool
    ensures { IsTrue result ↔ Permitted (L.view peer.now).fixed.shape
        (L.view peer.now).phase call.now }
{
    permitted(peer.shape(), peer.phase(), call)
}

pub(crate) fn assert_permitted<L: Peer>(rt: &impl Abort, peer: &L, call: &Call)
    ensures { Permitted (L.view peer.now).fixed.shape (L.view peer.now).phase call.now }
{
    assert!(rt; is_permitted(peer, call), "{call:?}");
}

// The answer to a read or to a write, or none to any other call.
fn ask_value<L: Peer, M: Mode>(
    rt: &impl Abort,
    fmu: &mut Fmu<L, M>,
    call: Call,
) -> Option<Result<Reply, Why>> {
    match call {
        Call::Get { kind, reference } => {
            assert_permitted(rt, &fmu.peer, &Call::Get { kind, reference });
            Some(fmu.get(kind, reference))
        }
        Call::Set {
            kind,
            reference,
            value,
        } => {
            assert_permitted(
                rt,
                &fmu.peer,
                &Call::Set {
                    kind,
                    reference,
                    value,
                },
            );
            Some(fmu.set(kind, reference, value))
        }
        _ => None,
    }
}

// The same for the calls of Step Mode too, but Save and Free.
fn ask_stepping<L: Peer>(
    rt: &impl Abort,
    fmu: &mut Fmu<L, Stepping>,
    saved: Option<&Saved>,
    call: Call,
) -> Option<Result<Reply, Why>> {
    match (call, saved) {
        (Call::DoStep { at, size }, _) => {
            assert_permitted(rt, &fmu.peer, &Call::DoStep { at, size });
            Some(fmu.do_step(at, size))
        }
        (Call::Restore, Some(saved)) => {
            assert_permitted(rt, &fmu.peer, &Call::Restore);
            Some(fmu.restore(saved))
        }
        (_, _) => ask_value(rt, fmu, call),
    }
}

// How far a run came: the place of the first call that wasn't asked or had a bad answer, and why that was bad.
#[derive(Clone, Copy)]
struct Asked {
    place: usize,
    why: Option<Why>,
}

// The call that stands at that place, where no answer was bad.
fn next_call(talk: &[Exchange], asked: &Asked) -> Option<Call> {
    match (asked.why, talk.get(asked.place)) {
        (None, Some(exchange)) => Some(exchange.call),
        (_, _) => None,
    }
}

fn assert_reply(rt: &impl Abort, reply: Reply, exchange: &Exchange) {
    assert_eq!(rt; Ok(reply), exchange.result);
}

// Asks from a place on, up to the first bad answer or another call.
fn ask_values<L: Peer, M: Mode>(
    rt: &impl Abort,
    fmu: &mut Fmu<L, M>,
    talk: &[Exchange],
    from: usize,
) -> Asked {
    for place in from..talk.len() {
        let exchange = &talk[place];
        match ask_value(rt, fmu, exchange.call) {
            Some(Ok(reply)) => assert_reply(rt, reply, exchange),
            Some(Err(why)) => {
                return Asked {
                    place,
                    why: Some(why),
                };
            }
            None => return Asked { place, why: None },
        }
    }
    Asked {
        place: talk.len(),
        why: None,
    }
}

fn ask_all_stepping<L: Peer>(
    rt: &impl Abort,
    fmu: &mut Fmu<L, Stepping>,
    saved: Option<&Saved>,
    talk: &[Exchange],
    from: usize,
) -> Asked {
    for place in from..talk.len() {
        let exchange = &talk[place];
        match ask_stepping(rt, fmu, saved, exchange.call) {
            Some(Ok(reply)) => assert_reply(rt, reply, exchange),
            Some(Err(why)) => {
                return Asked {
                    place,
                    why: Some(why),
                };
            }
            None => return Asked { place, why: None },
        }
    }
    Asked {
        place: talk.len(),
        why: None,
    }
}

// Where a run has led an FMU: its state, what it keeps saved, and the bad answer that ended the run.
pub(crate) struct Reached<L: Peer> {
    pub(crate) held: Held<L>,
    pub(crate) saved: Option<Saved>,
    pub(crate) why: Option<Why>,
}

fn reach<L: Peer>(held: Held<L>, saved: Option<Saved>, why: Option<Why>) -> Reached<L> {
    Reached { held, saved, why }
}

fn reach_ended<L: Peer>(ended: Ended<L>) -> Reached<L> {
    let why = ended.why;
    reach(Held::Ended(ended), None, Some(why))
}

// Asks the calls of a talk in order, up to the first bad answer or the first call that closes.
pub(crate) fn run<L: Peer>(rt: &impl Abort, peer: L, talk: &[Exchange]) -> Reached<L>
    requires { (L.view peer).phase.state ≡ P.Fresh }
{
    let fmu = Fmu::new(peer);
    if talk.is_empty() {
        return reach(Held::Fresh(fmu), None, None);
    }
    match fmu.instantiate(1) {
        Ok(fmu) => run_instantiated(rt, fmu, talk),
        Err(ended) => reach_ended(ended),
    }
}

fn run_instantiated<L: Peer>(
    rt: &impl Abort,
    mut fmu: Fmu<L, Instantiated>,
    talk: &[Exchange],
) -> Reached<L> {
    let asked = ask_values(rt, &mut fmu, talk, 1);
    match next_call(talk, &asked) {
        Some(Call::EnterInitialization { start, stop }) => {
            assert_permitted(rt, &fmu.peer, &Call::EnterInitialization { start, stop });
            match fmu.enter_initialization(start, stop) {
                Ok(fmu) => run_initializing(rt, fmu, talk, asked.place.saturating_add(1)),
                Err(ended) => reach_ended(ended),
            }
        }
        _ => reach(Held::Instantiated(fmu), None, asked.why),
    }
}

fn run_initializing<L: Peer>(
    rt: &impl Abort,
    mut fmu: Fmu<L, Initializing>,
    talk: &[Exchange],
    from: usize,
) -> Reached<L> {
    let asked = ask_values(rt, &mut fmu, talk, from);
    match next_call(talk, &asked) {
        Some(Call::ExitInitialization) => {
            assert_permitted(rt, &fmu.peer, &Call::ExitInitialization);
            match fmu.exit_initialization() {
                Ok(Running::Event(fmu)) => reach(Held::Eventing(fmu), None, None),
                Ok(Running::Step(fmu)) => {
                    run_stepping(rt, fmu, talk, asked.place.saturating_add(1))
                }
                Err(ended) => reach_ended(ended),
            }
        }
        _ => reach(Held::Initializing(fmu), None, asked.why),
    }
}

fn run_stepping<L: Peer>(
    rt: &impl Abort,
    mut fmu: Fmu<L, Stepping>,
    talk: &[Exchange],
    from: usize,
) -> Reached<L> {
    let asked = ask_all_stepping(rt, &mut fmu, None, talk, from);
    match next_call(talk, &asked) {
        Some(Call::Save) => {
            assert_permitted(rt, &fmu.peer, &Call::Save);
            match fmu.save() {
                Ok(saved) => run_saved(rt, fmu, saved, talk, asked.place.saturating_add(1)),
                Err(why) => reach(Held::Stepping(fmu), None, Some(why)),
            }
        }
        _ => reach(Held::Stepping(fmu), None, asked.why),
    }
}

fn run_saved<L: Peer>(
    rt: &impl Abort,
    mut fmu: Fmu<L, Stepping>,
    saved: Saved,
    talk: &[Exchange],
    from: usize,
) -> Reached<L> {
    let asked = ask_all_stepping(rt, &mut fmu, Some(&saved), talk, from);
    match next_call(talk, &asked) {
        Some(Call::Free) => {
            assert_permitted(rt, &fmu.peer, &Call::Free);
            match fmu.free(saved) {
                Ok(_) => run_freed(rt, fmu, talk, asked.place.saturating_add(1)),
                Err(why) => reach(Held::Stepping(fmu), None, Some(why)),
            }
        }
        _ => reach(Held::Stepping(fmu), Some(saved), asked.why),
    }
}

fn run_freed<L: Peer>(
    rt: &impl Abort,
    mut fmu: Fmu<L, Stepping>,
    talk: &[Exchange],
    from: usize,
) -> Reached<L> {
    let asked = ask_all_stepping(rt, &mut fmu, None, talk, from);
    reach(Held::Stepping(fmu), None, asked.why)
}
