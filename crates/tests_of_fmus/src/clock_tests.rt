//! The calls of Clocks: when they are permitted, and what is present once a Clock is active.
use crate::paths::{
    ENTERED, EXITED, FREE, IN_STEP, Row, SETTLED, STARTED_EVENTS, clock, first_wrong, shape_with,
    variable,
};
use fmi_calls::{BadStatus, Call, Content, InstanceState, Kind, Reply};
use sim_base::Items;
use std::alloc::{AllocError, Global};
use std::test::Fail;
use value_types::{
    ByReference, Causality, ClockTiming, IntervalVariability, PortType, Shape, Variable,
};

const SET_FIXED: Call = Call::SetClock { reference: 4 };

const SET_COUNTDOWN: Call = Call::SetClock { reference: 5 };

const ASK: Call = Call::GetClock { reference: 6 };

const INTERVAL_OF_FIXED: Call = Call::GetInterval { reference: 4 };

const INTERVAL_OF_COUNTDOWN: Call = Call::GetInterval { reference: 5 };

const SHIFT_OF_FIXED: Call = Call::GetShift { reference: 4 };

const SET_CLOCKED: Call = Call::Set {
    kind: PortType::Int32,
    reference: 8,
    value: 3,
};

const GET_CLOCKED: Call = Call::Get {
    kind: PortType::Int32,
    reference: 9,
};

static PROBES: [Call; 8] = [
    SET_FIXED,
    SET_COUNTDOWN,
    ASK,
    INTERVAL_OF_FIXED,
    INTERVAL_OF_COUNTDOWN,
    SHIFT_OF_FIXED,
    SET_CLOCKED,
    GET_CLOCKED,
];

// An output Clock that is set, an input Clock that is asked, the shift of a countdown Clock, the interval and the shift of
// a fixed Clock without fractions, and a Clock that is read and set as a value is.
static NEVER: [Call; 7] = [
    Call::SetClock { reference: 6 },
    Call::GetClock { reference: 4 },
    Call::GetShift { reference: 5 },
    Call::GetInterval { reference: 7 },
    Call::GetShift { reference: 7 },
    Call::Get {
        kind: PortType::Clock,
        reference: 6,
    },
    Call::Set {
        kind: PortType::Clock,
        reference: 4,
        value: 1,
    },
];

const TICKED: (Call, Option<Reply>) = (
    SET_COUNTDOWN,
    Some(Reply::Done {
        is_warning: false,
        content: Content::SetClock,
    }),
);

const GIVEN: (Call, Option<Reply>) = (
    SET_CLOCKED,
    Some(Reply::Done {
        is_warning: false,
        content: Content::Set,
    }),
);

const IS_ACTIVE: (Call, Option<Reply>) = (
    ASK,
    Some(Reply::Done {
        is_warning: false,
        content: Content::GetClock { word: 1 },
    }),
);

const IS_INACTIVE: (Call, Option<Reply>) = (
    ASK,
    Some(Reply::Done {
        is_warning: false,
        content: Content::GetClock { word: 0 },
    }),
);

const IS_DISCARDED: (Call, Option<Reply>) = (
    ASK,
    Some(Reply::Refused {
        kind: Kind::GetClock,
        status: BadStatus::Discard,
    }),
);

static PATHS: [Row; 9] = [
    (
        &[STARTED_EVENTS, ENTERED],
        InstanceState::Initialization,
        10,
        &[INTERVAL_OF_FIXED, SHIFT_OF_FIXED, FREE],
    ),
    (
        &[STARTED_EVENTS, ENTERED, EXITED],
        InstanceState::Event,
        10,
        &[SET_FIXED, SET_COUNTDOWN, ASK, INTERVAL_OF_COUNTDOWN, FREE],
    ),
    // What a Clock is for is present once that Clock is active, and set once.
    (
        &[STARTED_EVENTS, ENTERED, EXITED, TICKED],
        InstanceState::Event,
        10,
        &[SET_FIXED, ASK, INTERVAL_OF_COUNTDOWN, SET_CLOCKED, FREE],
    ),
    (
        &[STARTED_EVENTS, ENTERED, EXITED, TICKED, GIVEN],
        InstanceState::Event,
        10,
        &[SET_FIXED, ASK, INTERVAL_OF_COUNTDOWN, FREE],
    ),
    (
        &[STARTED_EVENTS, ENTERED, EXITED, IS_ACTIVE],
        InstanceState::Event,
        10,
        &[
            SET_FIXED,
            SET_COUNTDOWN,
            INTERVAL_OF_COUNTDOWN,
            GET_CLOCKED,
            FREE,
        ],
    ),
    (
        &[STARTED_EVENTS, ENTERED, EXITED, IS_INACTIVE],
        InstanceState::Event,
        10,
        &[SET_FIXED, SET_COUNTDOWN, INTERVAL_OF_COUNTDOWN, FREE],
    ),
    (
        &[STARTED_EVENTS, ENTERED, EXITED, IS_DISCARDED],
        InstanceState::Event,
        10,
        &[SET_FIXED, SET_COUNTDOWN, ASK, INTERVAL_OF_COUNTDOWN, FREE],
    ),
    // An Update ends the instant.
    (
        &[
            STARTED_EVENTS,
            ENTERED,
            EXITED,
            TICKED,
            GIVEN,
            IS_ACTIVE,
            SETTLED,
        ],
        InstanceState::Event,
        10,
        &[SET_FIXED, SET_COUNTDOWN, ASK, INTERVAL_OF_COUNTDOWN, FREE],
    ),
    (
        &[STARTED_EVENTS, ENTERED, EXITED, SETTLED, IN_STEP],
        InstanceState::Step,
        10,
        &[FREE],
    ),
];

// The FMU's variables, each with the Clocks at whose ticks alone it has a value.
static VARIABLES: [(u32, Causality, PortType, &[u32]); 6] = [
    (4, Causality::Input, PortType::Clock, &[]),
    (5, Causality::Input, PortType::Clock, &[]),
    (6, Causality::Output, PortType::Clock, &[]),
    (7, Causality::Input, PortType::Clock, &[]),
    (8, Causality::Input, PortType::Int32, &[5]),
    (9, Causality::Output, PortType::Int32, &[6]),
];

fn port(alloc: Global, row: &(u32, Causality, PortType, &[u32])) -> Result<Variable, AllocError> {
    let clocks = Items::from_vec(row.3.to_vec(alloc)?);
    let mut variable = variable(alloc, row.0, row.1)?;
    variable.kind = Some(row.2);
    variable.clocks = clocks;
    Ok(variable)
}

fn ports(alloc: Global) -> Result<ByReference<Variable>, AllocError> {
    let mut variables = Vec::new(alloc);
    for row in &VARIABLES {
        variables.push(port(alloc, row)?)?;
    }
    ByReference::new(alloc, variables)
}

fn clocks(alloc: Global) -> Result<ByReference<ClockTiming>, AllocError> {
    let mut whole = clock(7, IntervalVariability::Fixed);
    whole.supports_fraction = false;
    let fixed = clock(4, IntervalVariability::Fixed);
    let countdown = clock(5, IntervalVariability::Countdown);
    let triggered = clock(6, IntervalVariability::Triggered);
    ByReference::new(alloc, vec![in alloc; fixed, countdown, triggered, whole]?)
}

// An FMU with event mode.
fn shape_with_clocks(alloc: Global) -> Result<Shape, AllocError> {
    let clocks = clocks(alloc)?;
    let mut shape = shape_with(alloc, ports(alloc)?, clocks)?;
    shape.has_event_mode = true;
    Ok(shape)
}

#[test]
fn clocks_tick_once_in_an_instant(rt: HostRuntime) -> Result<(), Fail> {
    let shape = shape_with_clocks(rt.alloc())?;
    assert_eq!(rt;
        first_wrong(rt.alloc(), &shape, &PATHS, &PROBES, &NEVER),
        None
    );
    Ok(())
}
