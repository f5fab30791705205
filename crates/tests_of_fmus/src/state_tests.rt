ghost use Rattle.std.specs.Prelude.{◌≡◌, false, IfOk};
ghost use Rattle.fmu_peer.specs.View.{carries_bytes};

use fmi_calls::{BadStatus, Call, Content, Kind, Reply, permitted};
use fmu_link::{MemWire, Piped};
use fmu_peer::{Peer, PeerFault};
use sim_base::Text;
use std::alloc::{AllocError, Global};
use std::process::Abort;
use std::test::Fail;
use value_types::{ByReference, Shape};

// An FMU without variables, whose states can be had as bytes.
fn shape(alloc: Global) -> Result<Shape, AllocError> {
    Ok(Shape {
        identifier: Text::from_str(alloc, "m")?,
        token: Text::from_str(alloc, "{t}")?,
        resolution: 1000,
        has_event_mode: false,
        might_return_early: false,
        has_variable_steps: true,
        can_save_state: true,
        can_serialize_state: true,
        variables: ByReference::new(alloc, Vec::new(alloc))?,
        clocks: ByReference::new(alloc, Vec::new(alloc))?,
        dependencies: ByReference::new(alloc, Vec::new(alloc))?,
        initial_dependencies: ByReference::new(alloc, Vec::new(alloc))?,
    })
}

fn wire(alloc: Global, coming: Vec<u8>, failing: &[u64]) -> Result<MemWire, AllocError>
    ensures quiet { IfOk result (λ wire. wire.faults ≡ 0) }
{
    MemWire::with_room(alloc, 256, coming, failing.to_vec(alloc)?)
}

// Its peer, to which these bytes come, the one after the other.
fn peer_on(alloc: Global, first: &[u8], second: &[u8], failing: &[u64]) -> Option<Piped<MemWire>> {
    let mut coming = first.to_vec(alloc).ok()?;
    coming.extend_from_slice(second).ok()?;
    peer_of(
        alloc,
        &shape(alloc).ok()?,
        wire(alloc, coming, failing).ok()?,
    )
}

fn peer_of(alloc: Global, shape: &Shape, wire: MemWire) -> Option<Piped<MemWire>>
    requires { wire.faults ≡ 0 }
{
    if shape.token.as_str().len() > 1 << 24 {
        return None;
    }
    Piped::start(alloc, wire, "host", "c", "fmus/c", shape).ok()
}

fn ask(rt: &impl Abort, peer: &mut Piped<MemWire>, call: Call) -> bool
    requires { carries_bytes call ≡ false }
{
    assert!(rt; permitted(peer.shape(), peer.phase(), &call), "at {call:?}");
    match peer.call(&call) {
        Ok(Reply::Done { .. }) => true,
        _ => false,
    }
}

const INSTANTIATE: Call = Call::Instantiate {
    event_mode: false,
    early_return: false,
    batches: false,
};

// What answers Instantiate, and EnterInitialization, ExitInitialization and Save after it.
const INSTANTIATED: &[u8] = b"\x01\0\0\0\0\0\0\0\0\0\0\0\0\0\0\0\0\0\0\0\0\0\0\0";

const SAVED: &[u8] =
    b"\x01\0\0\0\0\0\0\0\0\0\0\0\0\0\0\0\0\0\0\0\0\0\0\0\x02\0\0\0\0\0\0\0\0\0\0\0\0\0\0\0\0\0\0\0\0\0\0\0\x03\0\0\0\0\0\0\0\0\0\0\0\0\0\0\0\0\0\0\0\0\0\0\0\x0e\0\0\0\0\0\0\0\0\0\0\0\0\0\0\0\0\0\0\0\0\0\0\0";

// A peer in Step Mode with a state that is saved, to which these bytes come.
fn saved_peer(
    rt: &impl Abort,
    alloc: Global,
    after: &[u8],
    failing: &[u64],
) -> Option<Piped<MemWire>> {
    let mut peer = peer_on(alloc, SAVED, after, failing)?;
    if is_saved(rt, &mut peer) {
        Some(peer)
    } else {
        None
    }
}

fn is_saved(rt: &impl Abort, peer: &mut Piped<MemWire>) -> bool {
    ask(rt, peer, INSTANTIATE)
        && ask(rt, peer, Call::EnterInitialization { start: 0, stop: 20 })
        && ask(rt, peer, Call::ExitInitialization)
        && ask(rt, peer, Call::Save)
}

const FAILED: Result<Reply, PeerFault> = Err(PeerFault::Failed);

const REFUSED: Result<Reply, PeerFault> = Ok(Reply::Refused {
    kind: Kind::Serialize,
    status: BadStatus::Error,
});

// A frame that tells of 2^20 + 1 bytes.
const TOO_LONG: [u8; 24] = *b"\x14\0\0\0\0\x10\0\x01\0\0\0\0\0\0\0\0\0\0\0\0\0\0\0\0";

const THREE_BYTES: Result<Reply, PeerFault> = Ok(Reply::Done {
    is_warning: false,
    content: Content::Serialize { length: 3 },
});

const NO_BYTES: Result<Reply, PeerFault> = Ok(Reply::Done {
    is_warning: false,
    content: Content::Serialize { length: 0 },
});

// At a Serialize after four calls: what comes, the calls of the wire that fail (8 sends, 9 and 10 receive); what is answered,
// the bytes of the state, how many bytes of what comes were taken, and the counts of the wire and of bad replies.
type Serialized = (
    &'static [u8],
    &'static [u64],
    Result<Reply, PeerFault>,
    &'static [u8],
    usize,
    [u64; 2],
);

static SERIALIZED: [Serialized; 7] = [
    (
        b"\x14\0\0\0\0\0\0\x03\0\0\0\0\0\0\0\0\0\0\0\0\0\0\0\0abcrest",
        &[],
        THREE_BYTES,
        b"abc",
        27,
        [0, 0],
    ),
    // Nothing more is received where nothing follows.
    (
        b"\x14\0\0\0\0\0\0\0\0\0\0\0\0\0\0\0\0\0\0\0\0\0\0\0rest",
        &[10],
        NO_BYTES,
        b"",
        24,
        [0, 0],
    ),
    (
        b"\x14\x03\0\0\0\0\0\0\0\0\0\0\0\0\0\0\0\0\0\0\0\0\0\0rest",
        &[10],
        REFUSED,
        b"",
        24,
        [0, 0],
    ),
    // A state that is cut counts as a reply that is cut.
    (
        b"\x14\0\0\0\0\0\0\x03\0\0\0\0\0\0\0\0\0\0\0\0\0\0\0\0ab",
        &[],
        FAILED,
        b"",
        26,
        [0, 1],
    ),
    (
        b"\x14\0\0\0\0\0\0\x03\0\0\0\0\0\0\0\0\0\0\0\0\0\0\0\0abc",
        &[10],
        FAILED,
        b"",
        24,
        [1, 0],
    ),
    (b"", &[8], FAILED, b"", 0, [1, 0]),
    (
        &TOO_LONG,
        &[],
        Err(PeerFault::Garbled { bytes: TOO_LONG }),
        b"",
        24,
        [0, 1],
    ),
];

// Whether the peer answers so.
fn serializes(
    rt: &impl Abort,
    alloc: Global,
    peer: &mut Piped<MemWire>,
    row: &Serialized,
) -> Option<bool> {
    let mut state = Vec::with_capacity(alloc, 1 << 20).ok()?;
    assert!(rt; permitted(peer.shape(), peer.phase(), &Call::Serialize));
    let answer = peer.serialize(&mut state);
    let is_given = answer.is_err() || state.as_slice() == row.3;
    Some(is_given && answer == row.2 && peer.instance.bad_replies == row.5[1])
}

fn has_taken(wire: &MemWire, row: &Serialized) -> bool {
    wire.taken == SAVED.len().saturating_add(row.4) && wire.faults == row.5[0]
}

fn is_serialized(rt: &impl Abort, alloc: Global, row: &Serialized) -> Option<bool> {
    let mut peer = saved_peer(rt, alloc, row.0, row.1)?;
    let serializes = serializes(rt, alloc, &mut peer, row) == Some(true);
    let wire = peer.into_wire();
    Some(serializes & has_taken(&wire, row))
}

#[test]
fn the_bytes_of_a_state_are_received_after_its_reply(rt: HostRuntime) -> Result<(), Fail> {
    for (i, row) in SERIALIZED.iter().enumerate() {
        assert!(rt;
            is_serialized(&rt, rt.alloc(), row) == Some(true),
            "row {i}"
        );
    }
    Ok(())
}

const DESERIALIZE: Call = Call::Deserialize {
    length: 3,
    point: 10,
    stop: 20,
};

// At a Deserialize after an Instantiate: what comes, the calls of the wire that fail (2 and 3 send, 4 receives); what is
// answered, what was sent, and the counts of the wire and of bad replies.
type Deserialized = (
    &'static [u8],
    &'static [u64],
    Result<Reply, PeerFault>,
    &'static [u8],
    [u64; 2],
);

const WITH_STATE: &[u8] = b"\x15\0\0\0\0\0\0\x03\0\0\0\0\0\0\0\x0a\0\0\0\0\0\0\0\x14abc";

const WITHOUT_STATE: &[u8] = b"\x15\0\0\0\0\0\0\x03\0\0\0\0\0\0\0\x0a\0\0\0\0\0\0\0\x14";

static DESERIALIZED: [Deserialized; 5] = [
    (
        b"\x15\x01\0\0\0\0\0\0\0\0\0\0\0\0\0\0\0\0\0\0\0\0\0\0rest",
        &[],
        Ok(Reply::Done {
            is_warning: true,
            content: Content::Deserialize,
        }),
        WITH_STATE,
        [0, 0],
    ),
    (b"\x15", &[], FAILED, WITH_STATE, [0, 1]),
    (b"", &[2], FAILED, b"", [1, 0]),
    (b"", &[3], FAILED, WITHOUT_STATE, [1, 0]),
    (b"", &[4], FAILED, WITH_STATE, [1, 0]),
];

// Whether the peer answers so.
fn deserializes(rt: &impl Abort, peer: &mut Piped<MemWire>, row: &Deserialized) -> bool {
    if !ask(rt, peer, INSTANTIATE) {
        return false;
    }
    assert!(rt; permitted(peer.shape(), peer.phase(), &DESERIALIZE));
    let answer = peer.deserialize(&DESERIALIZE, b"abc");
    answer == row.2 && peer.instance.bad_replies == row.4[1]
}

fn has_sent(wire: &MemWire, row: &Deserialized) -> bool {
    let is_sent = wire.sent.as_slice().ends_with(row.3) && wire.sent.len() == 28 + row.3.len();
    is_sent && wire.faults == row.4[0]
}

fn is_deserialized(rt: &impl Abort, alloc: Global, row: &Deserialized) -> Option<bool> {
    let mut peer = peer_on(alloc, INSTANTIATED, row.0, row.1)?;
    let deserializes = deserializes(rt, &mut peer, row);
    let wire = peer.into_wire();
    Some(deserializes & has_sent(&wire, row))
}

#[test]
fn the_bytes_of_a_state_are_sent_after_its_call(rt: HostRuntime) -> Result<(), Fail> {
    for (i, row) in DESERIALIZED.iter().enumerate() {
        assert!(rt;
            is_deserialized(&rt, rt.alloc(), row) == Some(true),
            "row {i}"
        );
    }
    Ok(())
}
