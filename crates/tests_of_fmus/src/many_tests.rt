//! Several calls to one peer at once: they are answered one after another, up to the first answer that isn't good.
use crate::driving::{INITIALIZE, INSTANTIATE, counter_shape, is_plain};
use bench_fmus::{Script, Scripts};
use fmi_calls::{BadStatus, Call, Content, Kind, Reply, permitted};
use fmu_peer::{Peer, PeerFault, Spawner, StartFault};
use sim_base::Items;
use std::alloc::{AllocError, Global};
use std::process::Abort;
use std::test::Fail;
use value_types::PortType;

fn done(content: Content) -> Reply {
    Reply::Done {
        is_warning: false,
        content,
    }
}

const SEVEN: Reply = Reply::Done {
    is_warning: false,
    content: Content::Get { word: 7 },
};

const EIGHT: Reply = Reply::Done {
    is_warning: false,
    content: Content::Get { word: 8 },
};

const DISCARDED: Reply = Reply::Refused {
    kind: Kind::Get,
    status: BadStatus::Discard,
};

const UNTOUCHED: Reply = Reply::Refused {
    kind: Kind::FreeInstance,
    status: BadStatus::Fatal,
};

// What a peer has for two Gets, what is told of them, and the places of their replies.
type Row = (
    [Result<Reply, PeerFault>; 2],
    Result<usize, PeerFault>,
    [Reply; 2],
);

static ROWS: [Row; 5] = [
    ([Ok(SEVEN), Ok(EIGHT)], Ok(2), [SEVEN, EIGHT]),
    ([Ok(SEVEN), Ok(DISCARDED)], Ok(2), [SEVEN, DISCARDED]),
    ([Ok(DISCARDED), Ok(EIGHT)], Ok(1), [DISCARDED, UNTOUCHED]),
    (
        [Ok(SEVEN), Err(PeerFault::Failed)],
        Err(PeerFault::Failed),
        [SEVEN, UNTOUCHED],
    ),
    (
        [Err(PeerFault::Failed), Ok(EIGHT)],
        Err(PeerFault::Failed),
        [UNTOUCHED, UNTOUCHED],
    ),
];

fn scripts(alloc: Global, answers: &[Result<Reply, PeerFault>; 2]) -> Result<Scripts, AllocError> {
    let made = done(Content::Instantiate { batches: false });
    let entered = done(Content::EnterInitialization);
    let list = vec![in alloc; Ok(made), Ok(entered), answers[0], answers[1]]?;
    let lists = vec![in alloc; Items::from_vec(list)]?;
    Ok(Scripts::new(alloc, lists, Vec::new(alloc)))
}

fn start_with(alloc: Global, scripts: &mut Scripts) -> Result<Script, StartFault> {
    let Ok(shape) = counter_shape(alloc, PortType::Int32, 1, None) else {
        return Err(StartFault::Memory);
    };
    if shape.token.as_str().len() > 1 << 24 {
        return Err(StartFault::Failed);
    }
    scripts.start(alloc, "host", "c", "fmus/c", &shape)
}

// A peer that has these answers behind those of two calls.
fn start(alloc: Global, answers: &[Result<Reply, PeerFault>; 2]) -> Result<Script, StartFault> {
    let Ok(mut scripts) = scripts(alloc, answers) else {
        return Err(StartFault::Memory);
    };
    start_with(alloc, &mut scripts)
}

// Whether it goes into Initialization Mode.
fn is_initializing<L: Peer>(peer: &mut L) -> bool {
    for call in &[INSTANTIATE, INITIALIZE] {
        if !is_plain(call) || !permitted(peer.shape(), peer.phase(), call) {
            return false;
        }
        if peer.call(call).is_err() {
            return false;
        }
    }
    true
}

// Asks for the same output twice, at once.
fn ask_twice<L: Peer>(
    rt: &impl Abort,
    peer: &mut L,
    replies: &mut [Reply; 2],
) -> Result<usize, PeerFault> {
    let get = Call::Get {
        kind: PortType::Int32,
        reference: 2,
    };
    assert!(rt; permitted(peer.shape(), peer.phase(), &get));
    peer.call_many(&[get, get], replies)
}

// Whether a peer that has these answers tells so, and leaves these replies.
fn tells_so<L: Peer>(rt: &impl Abort, peer: &mut L, row: &Row) -> bool {
    if !is_initializing(peer) {
        return false;
    }
    let mut replies = [UNTOUCHED; 2];
    let told = ask_twice(rt, peer, &mut replies);
    told == row.1 && replies == row.2
}

fn is_told_so(rt: &impl Abort, alloc: Global, row: &Row) -> Result<bool, StartFault> {
    let mut peer = start(alloc, &row.0)?;
    Ok(tells_so(rt, &mut peer, row))
}

#[test]
fn calls_are_answered_up_to_the_first_bad_answer(rt: HostRuntime) -> Result<(), Fail> {
    let rows = ROWS;
    for row in &rows {
        assert!(rt; is_told_so(&rt, rt.alloc(), row)?);
    }
    Ok(())
}
