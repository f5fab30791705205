//! Shapes of built-in machines, and one that is driven through calls whose answers are wanted.
ghost use Rattle.std.specs.Prelude.{◌≡◌, ◌+◌, ◌<◌, ◌^◌, not};
ghost use Rattle.fmu_peer.specs.View.{carries_bytes};

use bench_fmus::Bench;
use fmi_calls::{Call, Content, Reply, permitted};
use fmu_peer::{Peer, Spawner, StartFault};
use sim_base::{Items, Text};
use std::alloc::{AllocError, Global};
use value_types::{ByReference, Causality, Dependency, Knowns, PortType, Shape, Variable};

pub(crate) const INSTANTIATE: Call = Call::Instantiate {
    event_mode: false,
    early_return: false,
    batches: false,
};

pub(crate) const INITIALIZE: Call = Call::EnterInitialization { start: 0, stop: 60 };

pub(crate) static BEGIN: [(Call, Content); 2] = [
    (INSTANTIATE, Content::Instantiate { batches: false }),
    (INITIALIZE, Content::EnterInitialization),
];

static END: [(Call, Content); 2] = [
    (Call::Terminate, Content::Terminate),
    (Call::FreeInstance, Content::FreeInstance),
];

macro_rules! stepped {
    ($at:expr, $end:expr) => {
        (
            Call::DoStep {
                at: $at,
                size: 20,
            },
            Content::DoStep {
                event_needed: false,
                terminate: false,
                early: false,
                end: $end,
            },
        )
    };
}

pub(crate) use stepped;

pub(crate) fn variable(
    alloc: Global,
    reference: u32,
    kind: PortType,
    causality: Causality,
    start: Option<i128>,
) -> Result<Variable, AllocError> {
    Ok(Variable {
        name: Text::from_str(alloc, "v")?,
        aliases: Items::from_vec(Vec::new(alloc)),
        reference,
        kind: Some(kind),
        causality,
        clocks: Items::from_vec(Vec::new(alloc)),
        start,
        can_be_set_again: true,
    })
}

/// One of each reference, type, causality and start.
pub(crate) fn variables(
    alloc: Global,
    rows: &[(u32, PortType, Causality, Option<i128>)],
) -> Result<Vec<Variable>, AllocError> {
    let mut made = Vec::new(alloc);
    for row in rows {
        let (reference, kind, causality, start) = *row;
        made.push(variable(alloc, reference, kind, causality, start)?)?;
    }
    Ok(made)
}

pub(crate) fn dependency(
    alloc: Global,
    output: u32,
    references: &[u32],
) -> Result<Dependency, AllocError> {
    let on = Items::from_vec(references.to_vec(alloc)?);
    Ok(Dependency {
        output,
        on: Knowns::Listed(on),
    })
}

pub(crate) fn shape(
    alloc: Global,
    identifier: &str,
    variables: Vec<Variable>,
) -> Result<Shape, AllocError> {
    let identifier = Text::from_str(alloc, identifier)?;
    let token = Text::from_str(alloc, "t")?;
    let clocks = ByReference::new(alloc, Vec::new(alloc))?;
    let dependencies = ByReference::new(alloc, Vec::new(alloc))?;
    let initial_dependencies = ByReference::new(alloc, Vec::new(alloc))?;
    Ok(Shape {
        identifier,
        token,
        resolution: 1000,
        has_event_mode: false,
        might_return_early: false,
        has_variable_steps: true,
        can_save_state: true,
        can_serialize_state: false,
        variables: ByReference::new(alloc, variables)?,
        clocks,
        dependencies,
        initial_dependencies,
    })
}

pub(crate) fn counter_shape(
    alloc: Global,
    kind: PortType,
    inc: i128,
    long: Option<i128>,
) -> Result<Shape, AllocError> {
    let rows = [
        (1, PortType::Int64, Causality::Parameter, Some(inc)),
        (2, kind, Causality::Output, None),
        (3, PortType::Int64, Causality::Parameter, long),
    ];
    shape(alloc, "counter", variables(alloc, &rows)?)
}

pub(crate) fn step(at: u64, size: u64, terminate: bool) -> (Call, Content)
    requires { at + size < 2 ^ 64 }
{
    let content = Content::DoStep {
        event_needed: false,
        terminate,
        early: false,
        end: at + size,
    };
    (Call::DoStep { at, size }, content)
}

/// Whether no bytes follow the call or its reply.
pub(crate) fn is_plain(call: &Call) -> bool
    ensures { result ≡ not (carries_bytes call.now) }
{
    !matches!(call, Call::Serialize | Call::Deserialize { .. })
}

fn answers<L: Peer>(peer: &mut L, call: &Call, content: &Content) -> bool {
    if !is_plain(call) || !permitted(peer.shape(), peer.phase(), call) {
        return false;
    }
    let wanted = Reply::Done {
        is_warning: false,
        content: *content,
    };
    peer.call(call) == Ok(wanted)
}

/// Whether a peer answers these calls so.
pub(crate) fn answers_each<L: Peer>(peer: &mut L, steps: &[(Call, Content)]) -> bool {
    for (call, content) in steps {
        if !answers(peer, call, content) {
            return false;
        }
    }
    true
}

// Whether a peer of the shape answers these calls so, and then those of its closing.
fn drive<S: Spawner>(
    alloc: Global,
    spawner: &mut S,
    shape: &Shape,
    first: &[(Call, Content)],
    then: &[(Call, Content)],
) -> Result<bool, StartFault>
where
    S::Link: Drop,
{
    if shape.token.as_str().len() > 1 << 24 {
        return Ok(false);
    }
    let mut peer = spawner.start(alloc, "host", "c", "fmus/c", shape)?;
    let goes = answers_each(&mut peer, first) && answers_each(&mut peer, then);
    Ok(goes && answers_each(&mut peer, &END))
}

// Whether a machine of the shape answers so.
pub(crate) fn goes(
    alloc: Global,
    shape: &Shape,
    first: &[(Call, Content)],
    then: &[(Call, Content)],
) -> bool {
    let mut bench = Bench::new(alloc, None, Vec::new(alloc));
    matches!(drive(alloc, &mut bench, shape, first, then), Ok(true))
}
