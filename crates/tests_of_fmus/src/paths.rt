//! Paths of calls with their replies, the shape of an FMU that takes them, and what is permitted after each.
use fmi_calls::{Call, Content, InstanceState, Phase, Reply, next_phase, permitted};
use sim_base::{Items, Text};
use std::alloc::{AllocError, Global};
use value_types::{
    ByReference, Causality, ClockTiming, IntervalVariability, PortType, Shape, Variable,
};

pub(crate) const INSTANTIATE: Call = Call::Instantiate {
    event_mode: false,
    early_return: true,
    batches: false,
};

pub(crate) const INSTANTIATE_EVENTS: Call = Call::Instantiate {
    event_mode: true,
    early_return: true,
    batches: false,
};

pub(crate) const ENTER: Call = Call::EnterInitialization {
    start: 10,
    stop: 100,
};

pub(crate) const EXIT: Call = Call::ExitInitialization;

pub(crate) const STEP: Call = Call::DoStep { at: 10, size: 30 };

pub(crate) const GET: Call = Call::Get {
    kind: PortType::Int32,
    reference: 2,
};

// An input and a parameter.
pub(crate) const SET: Call = Call::Set {
    kind: PortType::Int32,
    reference: 1,
    value: -2,
};

pub(crate) const SAVE: Call = Call::Save;

pub(crate) const RESTORE: Call = Call::Restore;

pub(crate) const EMPTY: Call = Call::Free;

pub(crate) const SERIALIZE: Call = Call::Serialize;

pub(crate) const DESERIALIZE: Call = Call::Deserialize {
    length: 7,
    point: 10,
    stop: 100,
};

pub(crate) const TERMINATE: Call = Call::Terminate;

pub(crate) const FREE: Call = Call::FreeInstance;

pub(crate) const ENTER_STEP: Call = Call::EnterStep;

pub(crate) const UPDATE: Call = Call::Update;

macro_rules! done {
    ($content:expr) => {
        Some(Reply::Done {
            is_warning: false,
            content: $content,
        })
    };
}

macro_rules! updated {
    ($again:expr) => {
        (
            UPDATE,
            done!(Content::Update {
                again: $again,
                terminate: false,
                event_time: None,
            }),
        )
    };
}

pub(crate) use done;
pub(crate) use updated;

pub(crate) const ENTERED: (Call, Option<Reply>) = (ENTER, done!(Content::EnterInitialization));

pub(crate) const EXITED: (Call, Option<Reply>) = (EXIT, done!(Content::ExitInitialization));

pub(crate) const STARTED_EVENTS: (Call, Option<Reply>) = (
    INSTANTIATE_EVENTS,
    done!(Content::Instantiate { batches: false }),
);

pub(crate) const SETTLED: (Call, Option<Reply>) = updated!(false);

pub(crate) const IN_STEP: (Call, Option<Reply>) = (ENTER_STEP, done!(Content::EnterStep));

// Calls with their replies, or none at a fault, then state and point, and what is permitted.
pub(crate) type Row = (
    &'static [(Call, Option<Reply>)],
    InstanceState,
    u64,
    &'static [Call],
);

pub(crate) fn variable(
    alloc: Global,
    reference: u32,
    causality: Causality,
) -> Result<Variable, AllocError> {
    Ok(Variable {
        name: Text::from_str(alloc, "v")?,
        aliases: Items::from_vec(Vec::new(alloc)),
        reference,
        kind: Some(PortType::Int32),
        causality,
        clocks: Items::from_vec(Vec::new(alloc)),
        start: None,
        can_be_set_again: true,
    })
}

pub(crate) fn clock(reference: u32, variability: IntervalVariability) -> ClockTiming {
    ClockTiming {
        reference,
        variability,
        supports_fraction: true,
        interval: None,
        shift: None,
    }
}

fn variables(alloc: Global) -> Result<ByReference<Variable>, AllocError> {
    let input = variable(alloc, 1, Causality::Input)?;
    let output = variable(alloc, 2, Causality::Output)?;
    let parameter = variable(alloc, 3, Causality::Parameter)?;
    ByReference::new(alloc, vec![in alloc; input, output, parameter]?)
}

fn clocks(alloc: Global) -> Result<ByReference<ClockTiming>, AllocError> {
    let fixed = clock(4, IntervalVariability::Fixed);
    let countdown = clock(5, IntervalVariability::Countdown);
    ByReference::new(alloc, vec![in alloc; fixed, countdown]?)
}

// An FMU without event mode and without variable steps.
pub(crate) fn shape_with(
    alloc: Global,
    variables: ByReference<Variable>,
    clocks: ByReference<ClockTiming>,
) -> Result<Shape, AllocError> {
    let identifier = Text::from_str(alloc, "model")?;
    let token = Text::from_str(alloc, "{1}")?;
    let dependencies = ByReference::new(alloc, Vec::new(alloc))?;
    Ok(Shape {
        identifier,
        token,
        resolution: 1000,
        has_event_mode: false,
        might_return_early: true,
        has_variable_steps: false,
        can_save_state: true,
        can_serialize_state: false,
        variables,
        clocks,
        dependencies,
        initial_dependencies: ByReference::new(alloc, Vec::new(alloc))?,
    })
}

pub(crate) fn shape_of(alloc: Global) -> Result<Shape, AllocError> {
    let clocks = clocks(alloc)?;
    shape_with(alloc, variables(alloc)?, clocks)
}

// The phase after the calls of a path, where each is permitted.
fn follow(alloc: Global, shape: &Shape, path: &[(Call, Option<Reply>)]) -> Option<Phase> {
    let mut phase = Phase::fresh(alloc, shape).ok()?;
    for (call, reply) in path {
        if !permitted(shape, &phase, call) {
            return None;
        }
        next_phase(shape, &mut phase, call, reply.as_ref());
    }
    Some(phase)
}

fn is_after(phase: &Phase, row: &Row) -> bool {
    let (path, state, point, permits) = row;
    let restores = path.iter().filter(|(call, _)| *call == RESTORE).count();
    phase.state == *state
        && phase.point == *point
        && phase.exchanges() == path.len() as u64
        && phase.restores() == restores as u64
        && state.can_be_freed(phase.slot.is_full) == permits.contains(&FREE)
}

// Whether of the probes the row's calls are permitted alone, and none of those that never are.
fn permits(shape: &Shape, phase: &Phase, row: &Row, probes: &[Call], never: &[Call]) -> bool {
    probes.iter().all(|call| permitted(shape, phase, call) == row.3.contains(call))
        && !never.iter().any(|call| permitted(shape, phase, call))
}

fn is_row(alloc: Global, shape: &Shape, row: &Row, probes: &[Call], never: &[Call]) -> bool {
    match follow(alloc, shape, row.0) {
        Some(phase) => is_after(&phase, row) && permits(shape, &phase, row, probes, never),
        None => false,
    }
}

// The place of the first row whose path leads elsewhere, or after which something else is permitted.
pub(crate) fn first_wrong(
    alloc: Global,
    shape: &Shape,
    rows: &[Row],
    probes: &[Call],
    never: &[Call],
) -> Option<usize> {
    rows.iter()
        .position(|row| !is_row(alloc, shape, row, probes, never))
}
