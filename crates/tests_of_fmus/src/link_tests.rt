ghost use Rattle.std.specs.Prelude.{◌≡◌, IfOk};

use crate::driving::is_plain;
use fmi_calls::{BadStatus, Call, Content, Kind, Reply, permitted};
use fmu_link::{MemWire, Piped, Wire, WireFault};
use fmu_peer::{Peer, PeerFault};
use sim_base::{Items, Text};
use std::alloc::{AllocError, Global};
use std::process::Abort;
use std::test::Fail;
use value_types::{ByReference, Causality, PortType, Shape, Variable};

fn parameter(alloc: Global, reference: u32) -> Result<Variable, AllocError> {
    Ok(Variable {
        name: Text::from_str(alloc, "p")?,
        aliases: Items::from_vec(Vec::new(alloc)),
        reference,
        kind: Some(PortType::Int32),
        causality: Causality::Parameter,
        clocks: Items::from_vec(Vec::new(alloc)),
        start: None,
        can_be_set_again: true,
    })
}

// An FMU that may return early from a step, with a parameter of type Int32 under reference 7.
fn shape(alloc: Global) -> Result<Shape, AllocError> {
    let identifier = Text::from_str(alloc, "m")?;
    let token = Text::from_str(alloc, "{t}")?;
    let clocks = ByReference::new(alloc, Vec::new(alloc))?;
    let dependencies = ByReference::new(alloc, Vec::new(alloc))?;
    let initial_dependencies = ByReference::new(alloc, Vec::new(alloc))?;
    let mut variables = Vec::new(alloc);
    variables.push(parameter(alloc, 7)?)?;
    Ok(Shape {
        identifier,
        token,
        resolution: 1000,
        has_event_mode: false,
        might_return_early: true,
        has_variable_steps: true,
        can_save_state: true,
        can_serialize_state: false,
        variables: ByReference::new(alloc, variables)?,
        clocks,
        dependencies,
        initial_dependencies,
    })
}

fn wire(alloc: Global, room: usize, coming: &[u8], failing: &[u64]) -> Result<MemWire, AllocError>
    ensures quiet { IfOk result (λ wire. wire.faults ≡ 0) }
{
    let coming = coming.to_vec(alloc)?;
    MemWire::with_room(alloc, room, coming, failing.to_vec(alloc)?)
}

// A peer on a wire with room for 256 bytes.
fn peer_on(alloc: Global, shape: &Shape, coming: &[u8], failing: &[u64]) -> Option<Piped<MemWire>> {
    if shape.token.as_str().len() > 1 << 24 {
        return None;
    }
    let wire = wire(alloc, 256, coming, failing).ok()?;
    Piped::start(alloc, wire, "host", "c", "fmus/c", shape).ok()
}

fn ask<W: Wire + Send>(
    rt: &impl Abort,
    peer: &mut Piped<W>,
    call: Call,
) -> Result<Reply, PeerFault> {
    assert!(rt;
        is_plain(&call) && permitted(peer.shape(), peer.phase(), &call),
        "at {call:?}"
    );
    peer.call(&call)
}

const INSTANTIATE: Call = Call::Instantiate {
    event_mode: false,
    early_return: true,
    batches: false,
};

// The calls of a run, with their frames, the frames that answer them, and the replies that these are.
static RUN: [(Call, &[u8], &[u8; 24], Content); 5] = [
    (
        INSTANTIATE,
        b"\x01\0\0\0\0\0\0\x02\0\0\0\0\0\0\0\x01\0\0\0\0\0\0\0\x03c{t}",
        b"\x01\0\0\0\0\0\0\0\0\0\0\0\0\0\0\0\0\0\0\0\0\0\0\0",
        Content::Instantiate { batches: false },
    ),
    (
        Call::Set {
            kind: PortType::Int32,
            reference: 7,
            value: -2,
        },
        b"\x09\x05\0\0\0\0\0\x07\xff\xff\xff\xff\xff\xff\xff\xfe\0\0\0\0\0\0\0\0",
        b"\x09\0\0\0\0\0\0\0\0\0\0\0\0\0\0\0\0\0\0\0\0\0\0\0",
        Content::Set,
    ),
    (
        Call::EnterInitialization {
            start: 10,
            stop: 258,
        },
        b"\x02\0\0\0\0\0\0\0\0\0\0\0\0\0\0\x0a\0\0\0\0\0\0\x01\x02",
        b"\x02\0\0\0\0\0\0\0\0\0\0\0\0\0\0\0\0\0\0\0\0\0\0\0",
        Content::EnterInitialization,
    ),
    (
        Call::ExitInitialization,
        b"\x03\0\0\0\0\0\0\0\0\0\0\0\0\0\0\0\0\0\0\0\0\0\0\0",
        b"\x03\0\0\0\0\0\0\0\0\0\0\0\0\0\0\0\0\0\0\0\0\0\0\0",
        Content::ExitInitialization,
    ),
    (
        Call::DoStep { at: 10, size: 10 },
        b"\x06\0\0\0\0\0\0\0\0\0\0\0\0\0\0\x0a\0\0\0\0\0\0\0\x0a",
        b"\x06\0\x05\0\0\0\0\0\0\0\0\0\0\0\0\x11\0\0\0\0\0\0\0\0",
        Content::DoStep {
            event_needed: true,
            terminate: false,
            early: true,
            end: 17,
        },
    ),
];

fn replies(alloc: Global) -> Result<Vec<u8>, AllocError> {
    let mut replies = Vec::new(alloc);
    for row in &RUN {
        let reply: &[u8; 24] = row.2;
        replies.extend_from_slice(reply)?;
    }
    Ok(replies)
}

fn frames(alloc: Global) -> Result<Vec<u8>, AllocError> {
    let mut frames = Vec::new(alloc);
    for row in &RUN {
        frames.extend_from_slice(row.1)?;
    }
    Ok(frames)
}

// Whether each call of the run gets its reply.
fn answers_each(rt: &impl Abort, peer: &mut Piped<MemWire>) -> bool {
    for row in &RUN {
        let wanted = Reply::Done {
            is_warning: false,
            content: row.3,
        };
        if ask(rt, peer, row.0) != Ok(wanted) {
            return false;
        }
    }
    true
}

fn has_sent(wire: &MemWire, frames: &[u8]) -> bool {
    wire.sent.as_slice() == frames && wire.taken == 120 && wire.calls == 10 && wire.faults == 0
}

fn sends_each(
    rt: &impl Abort,
    alloc: Global,
    shape: &Shape,
    coming: &[u8],
    frames: &[u8],
) -> Option<bool> {
    let mut peer = peer_on(alloc, shape, coming, &[])?;
    let is_answered = answers_each(rt, &mut peer);
    let wire = peer.into_wire();
    Some(is_answered & has_sent(&wire, frames))
}

#[test]
fn each_call_sends_its_frame_and_reads_the_reply(rt: HostRuntime) -> Result<(), Fail> {
    let alloc = rt.alloc();
    let frames = frames(alloc)?;
    let replies = replies(alloc)?;
    let shape = shape(alloc)?;
    let is_so = sends_each(&rt, alloc, &shape, replies.as_slice(), frames.as_slice());
    assert!(rt; is_so == Some(true));
    Ok(())
}

const REFUSAL: &[u8; 24] = b"\x01\x03\0\0\0\0\0\0\0\0\0\0\0\0\0\0\0\0\0\0\0\0\0\0";

// A reply frame but for its flags.
const NO_REPLY: [u8; 24] = *b"\x01\0\x02\0\0\0\0\0\0\0\0\0\0\0\0\0\0\0\0\0\0\0\0\0";

const FAILED: Result<Reply, PeerFault> = Err(PeerFault::Failed);

// At the first call, which sends 28 bytes: the bytes that come, the calls of the wire that fail, what is answered, how many
// bytes were sent and taken, and the counts of the wire and of bad replies.
type Answer = (
    &'static [u8],
    &'static [u64],
    Result<Reply, PeerFault>,
    [usize; 2],
    [u64; 2],
);

static ANSWERS: [Answer; 8] = [
    (
        REFUSAL,
        &[],
        Ok(Reply::Refused {
            kind: Kind::Instantiate,
            status: BadStatus::Error,
        }),
        [28, 24],
        [0, 0],
    ),
    (
        b"\x01\0\0\0\0\0\0\0\0\0\0\0\0\0\0\0\0\0\0\0\0\0\0\0rest",
        &[2],
        Ok(Reply::Done {
            is_warning: false,
            content: Content::Instantiate { batches: false },
        }),
        [28, 24],
        [0, 0],
    ),
    (
        b"\x01\0\0\0\0\0\0\0\0\0\0\0\0\0\0\0\0\0\0\0\0\0\0",
        &[],
        FAILED,
        [28, 23],
        [0, 1],
    ),
    (b"", &[], FAILED, [28, 0], [0, 1]),
    (
        &NO_REPLY,
        &[],
        Err(PeerFault::Garbled { bytes: NO_REPLY }),
        [28, 24],
        [0, 1],
    ),
    (
        &[0xff; 25],
        &[],
        Err(PeerFault::Garbled { bytes: [0xff; 24] }),
        [28, 24],
        [0, 1],
    ),
    (REFUSAL, &[0], FAILED, [0, 0], [1, 0]),
    (REFUSAL, &[1], FAILED, [28, 0], [1, 0]),
];

fn is_told(wire: &MemWire, row: &Answer) -> bool {
    wire.sent.len() == row.3[0] && wire.taken == row.3[1] && wire.faults == row.4[0]
}

fn is_answered(rt: &impl Abort, peer: &mut Piped<MemWire>, row: &Answer) -> bool {
    ask(rt, peer, INSTANTIATE) == row.2 && peer.instance.bad_replies == row.4[1]
}

fn is_answer(rt: &impl Abort, alloc: Global, shape: &Shape, row: &Answer) -> Option<bool> {
    let mut peer = peer_on(alloc, shape, row.0, row.1)?;
    let is_answered = is_answered(rt, &mut peer, row);
    let wire = peer.into_wire();
    Some(is_answered & is_told(&wire, row))
}

fn are_answers(rt: &impl Abort, alloc: Global, shape: &Shape) -> bool {
    for row in &ANSWERS {
        if is_answer(rt, alloc, shape, row) != Some(true) {
            return false;
        }
    }
    true
}

#[test]
fn replies_that_fail_or_are_garbled_are_told(rt: HostRuntime) -> Result<(), Fail> {
    let are_answers = are_answers(&rt, rt.alloc(), &shape(rt.alloc())?);
    assert!(rt; are_answers);
    Ok(())
}

// At each call of a wire with room for 4 bytes and 5 to come, whose call 1 fails: the bytes that are sent, or how many are
// asked for; what is answered; what was sent, or what came.
enum WireCall {
    Send(&'static [u8], Result<(), WireFault>, &'static [u8]),
    Receive(usize, Result<(), WireFault>, &'static [u8]),
}

static CALLS: [WireCall; 8] = [
    WireCall::Send(b"ab", Ok(()), b"ab"),
    WireCall::Send(b"c", Err(WireFault::Failed), b"ab"),
    WireCall::Receive(2, Ok(()), b"12"),
    WireCall::Send(b"cde", Err(WireFault::Failed), b"ab"),
    WireCall::Send(b"cd", Ok(()), b"abcd"),
    WireCall::Receive(4, Err(WireFault::Ended), b""),
    WireCall::Receive(0, Ok(()), b""),
    WireCall::Receive(1, Err(WireFault::Ended), b""),
];

fn is_received(
    wire: &mut MemWire,
    room: usize,
    wanted: &Result<(), WireFault>,
    bytes: &[u8],
) -> bool {
    let mut into = [b'-'; 4];
    let room = room.min(4);
    wire.receive(&mut into[..room]) == *wanted && into[..room].starts_with(bytes)
}

fn is_sent(wire: &mut MemWire, bytes: &[u8], wanted: &Result<(), WireFault>, sent: &[u8]) -> bool {
    wire.send(bytes) == *wanted && wire.sent.as_slice() == sent
}

fn is_called_as(wire: &mut MemWire, call: &WireCall) -> bool {
    match call {
        WireCall::Send(bytes, wanted, sent) => {
            let bytes: &[u8] = bytes;
            let sent: &[u8] = sent;
            is_sent(wire, bytes, wanted, sent)
        }
        WireCall::Receive(room, wanted, bytes) => {
            let bytes: &[u8] = bytes;
            is_received(wire, *room, wanted, bytes)
        }
    }
}

#[test]
fn a_wire_in_memory_fails_by_its_list_and_its_room(rt: HostRuntime) -> Result<(), Fail> {
    let mut wire = wire(rt.alloc(), 4, b"12345", &[1])?;
    for call in &CALLS {
        assert!(rt; is_called_as(&mut wire, call));
    }
    assert!(rt; wire.calls == 8 && wire.faults == 2 && wire.taken == 5);
    Ok(())
}
