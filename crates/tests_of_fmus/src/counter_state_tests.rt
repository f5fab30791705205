//! A counter's state as bytes: what they are, which bytes are refused, and how a counter goes on from them.
ghost use Rattle.std.specs.Prelude.{◌≡◌, ◌≤◌, ◌^◌, [], vec_capacity};

use crate::driving::{BEGIN, answers_each, counter_shape, shape, stepped, variable, variables};
use bench_fmus::Bench;
use fmi_calls::{BadStatus, Call, Content, Kind, Reply, permitted};
use fmu_peer::{Peer, Spawner};
use std::alloc::{AllocError, Global};
use value_types::{Causality, PortType, Shape};

// The state of a counter by 2 after a step from 0 to 20: the point, what is held, the count and whether it has fired;
// then the variables under 1, 2 and 3, each with its reference and its word.
static STATE: [u8; 68] = [
    0, 0, 0, 0, 0, 0, 0, 20, // the point
    0, 0, 0, 0, 0, 0, 0, 0, // what is held
    0, 0, 0, 0, 0, 0, 0, 2, // the count
    0, 0, 0, 0, 0, 0, 0, 0, // whether it has fired
    0, 0, 0, 1, 0, 0, 0, 0, 0, 0, 0, 2, // inc
    0, 0, 0, 2, 0, 0, 0, 0, 0, 0, 0, 0, // y
    0, 0, 0, 3, 255, 255, 255, 255, 255, 255, 255, 251, // long
];

// A byte of it at a place that makes it no state: the flag, a reference, and words that are wrong for their types.
static WRONG: [(usize, u8); 6] = [(31, 2), (24, 1), (35, 7), (44, 1), (51, 1), (52, 128)];

// One that makes it another state: any number, and words that are right for their types.
static OTHER: [(usize, u8); 6] = [(0, 255), (8, 128), (16, 255), (31, 1), (36, 128), (52, 127)];

const GET: Call = Call::Get {
    kind: PortType::Int32,
    reference: 2,
};

static SAVED: [(Call, Content); 3] = [
    (Call::ExitInitialization, Content::ExitInitialization),
    stepped!(0, 20),
    (Call::Save, Content::Save),
];

// What a counter answers that goes on from it.
static RESUMED: [(Call, Content); 6] = [
    (Call::Restore, Content::Restore),
    (GET, Content::Get { word: 2 }),
    stepped!(20, 40),
    (GET, Content::Get { word: 4 }),
    (Call::Free, Content::Free),
    stepped!(40, 60),
];

fn serializing(given: Shape) -> Shape {
    Shape {
        can_serialize_state: true,
        ..given
    }
}

// The counter, with its variables in another order.
fn mixed_shape(alloc: Global) -> Result<Shape, AllocError> {
    let rows = [
        (3, PortType::Int64, Causality::Parameter, Some(-5)),
        (1, PortType::Int64, Causality::Parameter, Some(2)),
        (2, PortType::Int32, Causality::Output, None),
    ];
    shape(alloc, "counter", variables(alloc, &rows)?)
}

fn start<S: Spawner>(alloc: Global, spawner: &mut S, shape: &Shape) -> Option<S::Link> {
    if shape.token.as_str().len() > 1 << 24 {
        return None;
    }
    spawner.start(alloc, "host", "c", "fmus/c", shape).ok()
}

fn serialized<L: Peer>(peer: &mut L, into: &mut Vec<u8>) -> Option<Reply>
    requires empty { into.old.items ≡ [] }
    requires room { 2 ^ 20 ≤ vec_capacity into.old }
{
    if !permitted(peer.shape(), peer.phase(), &Call::Serialize) {
        return None;
    }
    peer.serialize(into).ok()
}

fn deserialized<L: Peer>(peer: &mut L, bytes: &[u8]) -> Option<Reply> {
    if bytes.len() > 1 << 20 {
        return None;
    }
    let call = Call::Deserialize {
        length: bytes.len() as u32,
        point: 20,
        stop: 60,
    };
    if !permitted(peer.shape(), peer.phase(), &call) {
        return None;
    }
    peer.deserialize(&call, bytes).ok()
}

fn kept(alloc: Global, shape: &Shape) -> Option<(Reply, Vec<u8>)> {
    kept_of(alloc, &mut Bench::new(alloc, None, Vec::new(alloc)), shape)
}

// What a machine of the shape answers to Serialize after a Save, with the bytes.
fn kept_of<S: Spawner>(alloc: Global, spawner: &mut S, shape: &Shape) -> Option<(Reply, Vec<u8>)>
where
    S::Link: Drop,
{
    let mut peer = start(alloc, spawner, shape)?;
    if !answers_each(&mut peer, &BEGIN) || !answers_each(&mut peer, &SAVED) {
        return None;
    }
    let mut bytes = Vec::with_capacity(alloc, 1 << 20).ok()?;
    let reply = serialized(&mut peer, &mut bytes)?;
    Some((reply, bytes))
}

// Whether it is this state.
fn keeps(alloc: Global, shape: &Shape) -> bool {
    let wanted = Reply::Done {
        is_warning: false,
        content: Content::Serialize { length: 68 },
    };
    match kept(alloc, shape) {
        Some((reply, bytes)) => reply == wanted && bytes.as_slice() == STATE.as_slice(),
        None => false,
    }
}

fn counter(alloc: Global) -> Result<Shape, AllocError> {
    Ok(serializing(counter_shape(alloc, PortType::Int32, 2, Some(-5))?))
}

#[test]
fn a_counters_state_has_its_numbers_and_its_values_by_reference(
    rt: HostRuntime,
) -> Result<(), AllocError> {
    let alloc = rt.alloc();
    let in_order = keeps(alloc, &counter(alloc)?);
    assert!(rt; in_order);
    let mixed = keeps(alloc, &serializing(mixed_shape(alloc)?));
    assert!(rt; mixed);
    Ok(())
}

fn answer_to(alloc: Global, shape: &Shape, bytes: &[u8]) -> Option<Reply> {
    answer_of(
        alloc,
        &mut Bench::new(alloc, None, Vec::new(alloc)),
        shape,
        bytes,
    )
}

// What a counter answers to a Deserialize of these bytes, as its second call.
fn answer_of<S: Spawner>(
    alloc: Global,
    spawner: &mut S,
    shape: &Shape,
    bytes: &[u8],
) -> Option<Reply>
where
    S::Link: Drop,
{
    let mut peer = start(alloc, spawner, shape)?;
    if !answers_each(&mut peer, &BEGIN[..1]) {
        return None;
    }
    deserialized(&mut peer, bytes)
}

// The same of the state with one byte changed.
fn answer_to_changed(alloc: Global, shape: &Shape, change: &(usize, u8)) -> Option<Reply> {
    let (place, byte) = *change;
    let mut bytes = STATE.to_vec(alloc).ok()?;
    if place >= bytes.len() {
        return None;
    }
    bytes[place] = byte;
    answer_to(alloc, shape, bytes.as_slice())
}

// The same of the state with one byte more.
fn answer_to_longer(alloc: Global, shape: &Shape) -> Option<Reply> {
    let mut longer = STATE.to_vec(alloc).ok()?;
    longer.push(0).ok()?;
    answer_to(alloc, shape, longer.as_slice())
}

const TAKEN: Reply = Reply::Done {
    is_warning: false,
    content: Content::Deserialize,
};

const REFUSED: Reply = Reply::Refused {
    kind: Kind::Deserialize,
    status: BadStatus::Error,
};

// Whether it answers so to the state with each of these changes.
fn answers_changed(alloc: Global, shape: &Shape, changes: &[(usize, u8)], wanted: Reply) -> bool {
    for change in changes {
        if answer_to_changed(alloc, shape, change) != Some(wanted) {
            return false;
        }
    }
    true
}

// Whether it takes the states alone, of those and of bytes that are none, too few or too many.
fn tells_states(alloc: Global, shape: &Shape) -> bool {
    answers_changed(alloc, shape, &WRONG, REFUSED)
        && answers_changed(alloc, shape, &OTHER, TAKEN)
        && answer_to(alloc, shape, &STATE[..67]) == Some(REFUSED)
        && answer_to(alloc, shape, &STATE[..31]) == Some(REFUSED)
        && answer_to(alloc, shape, &[]) == Some(REFUSED)
        && answer_to_longer(alloc, shape) == Some(REFUSED)
}

#[test]
fn bytes_of_no_state_are_refused(rt: HostRuntime) -> Result<(), AllocError> {
    let alloc = rt.alloc();
    let tells_states = tells_states(alloc, &counter(alloc)?);
    assert!(rt; tells_states);
    Ok(())
}

fn resumes(alloc: Global, shape: &Shape) -> bool {
    goes_on(alloc, &mut Bench::new(alloc, None, Vec::new(alloc)), shape)
}

// Whether a counter of the shape goes on from the state.
fn goes_on<S: Spawner>(alloc: Global, spawner: &mut S, shape: &Shape) -> bool
where
    S::Link: Drop,
{
    let Some(mut peer) = start(alloc, spawner, shape) else {
        return false;
    };
    answers_each(&mut peer, &BEGIN[..1])
        && deserialized(&mut peer, &STATE) == Some(TAKEN)
        && answers_each(&mut peer, &RESUMED)
}

#[test]
fn a_counter_goes_on_from_its_bytes(rt: HostRuntime) -> Result<(), AllocError> {
    let alloc = rt.alloc();
    let in_order = resumes(alloc, &counter(alloc)?);
    assert!(rt; in_order);
    let mixed = resumes(alloc, &serializing(mixed_shape(alloc)?));
    assert!(rt; mixed);
    Ok(())
}

// A counter with so many variables.
fn wide_shape(alloc: Global, count: u32) -> Result<Shape, AllocError> {
    let mut variables = Vec::new(alloc);
    for reference in 0..count {
        variables.push(variable(alloc, reference, PortType::UInt8, Causality::Local, None)?)?;
    }
    Ok(serializing(shape(alloc, "counter", variables)?))
}

fn length_kept(alloc: Global, shape: &Shape) -> Option<usize> {
    match kept(alloc, shape)? {
        (Reply::Done { .. }, bytes) => Some(bytes.len()),
        (Reply::Refused { .. }, _) => None,
    }
}

fn length_of(alloc: Global, count: u32) -> Option<usize> {
    length_kept(alloc, &wide_shape(alloc, count).ok()?)
}

#[test]
fn a_state_of_more_than_2_to_the_20_bytes_is_refused(rt: HostRuntime) {
    let alloc = rt.alloc();
    assert_eq!(rt; length_of(alloc, 0), Some(32));
    assert_eq!(rt; length_of(alloc, 87_378), Some(1_048_568));
    assert_eq!(rt; length_of(alloc, 87_379), None);
}
