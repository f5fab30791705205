//! The state machine of an FMU with and without event mode: the state after each path of calls, and what is permitted there.
use crate::paths::{
    DESERIALIZE, EMPTY, ENTER, ENTER_STEP, ENTERED, EXIT, EXITED, FREE, GET, IN_STEP, INSTANTIATE,
    INSTANTIATE_EVENTS, RESTORE, Row, SAVE, SERIALIZE, SET, SETTLED, STARTED_EVENTS, STEP,
    TERMINATE, UPDATE, done, first_wrong, shape_of, updated,
};
use fmi_calls::{BadStatus, Call, Content, InstanceState, Kind, Reply};
use std::test::Fail;
use value_types::PortType;

const SET_PARAMETER: Call = Call::Set {
    kind: PortType::Int32,
    reference: 3,
    value: 7,
};

// Steps after the first: one like it, from where it ended or ended early, a shorter one, and one past the stop.
const SECOND: Call = Call::DoStep { at: 40, size: 30 };

const AFTER_EARLY: Call = Call::DoStep { at: 25, size: 30 };

const SHORTER: Call = Call::DoStep { at: 40, size: 20 };

const LONG: Call = Call::DoStep { at: 10, size: 91 };

// Others that no phase permits: another flag, a stop before the start, no size, an input that is read, another type, a
// value out of range, an output that is set, the calls of event mode where there is none, those of a Clock that is no
// variable, and states as bytes where there are none.
static NEVER: [Call; 16] = [
    Call::Instantiate {
        event_mode: true,
        early_return: true,
        batches: false,
    },
    Call::EnterInitialization {
        start: 11,
        stop: 10,
    },
    Call::DoStep { at: 10, size: 0 },
    Call::Get {
        kind: PortType::Int32,
        reference: 1,
    },
    Call::Get {
        kind: PortType::Int64,
        reference: 2,
    },
    Call::Set {
        kind: PortType::Int32,
        reference: 1,
        value: 2_147_483_648,
    },
    Call::Set {
        kind: PortType::Int32,
        reference: 2,
        value: 0,
    },
    Call::EnterEvent,
    Call::EnterStep,
    Call::Update,
    Call::GetClock { reference: 4 },
    Call::SetClock { reference: 4 },
    Call::GetInterval { reference: 4 },
    Call::GetShift { reference: 4 },
    SERIALIZE,
    DESERIALIZE,
];

static PROBES: [Call; 16] = [
    INSTANTIATE,
    ENTER,
    EXIT,
    STEP,
    GET,
    SET,
    SET_PARAMETER,
    SAVE,
    RESTORE,
    EMPTY,
    TERMINATE,
    FREE,
    SECOND,
    AFTER_EARLY,
    SHORTER,
    LONG,
];

macro_rules! ended {
    ($early:expr, $end:expr) => {
        done!(Content::DoStep {
            event_needed: false,
            terminate: false,
            early: $early,
            end: $end,
        })
    };
}

macro_rules! refused {
    ($kind:expr, $status:expr) => {
        Some(Reply::Refused {
            kind: $kind,
            status: $status,
        })
    };
}

const STARTED: (Call, Option<Reply>) = (
    INSTANTIATE,
    done!(Content::Instantiate { batches: false }),
);

const STEPPED: (Call, Option<Reply>) = (STEP, ended!(false, 40));

const ENDED_EARLY: (Call, Option<Reply>) = (STEP, ended!(true, 25));

const GIVEN: (Call, Option<Reply>) = (SET, done!(Content::Set));

const SAVED: (Call, Option<Reply>) = (SAVE, done!(Content::Save));

const RESTORED: (Call, Option<Reply>) = (RESTORE, done!(Content::Restore));

const EMPTIED: (Call, Option<Reply>) = (EMPTY, done!(Content::Free));

const TERMINATED: (Call, Option<Reply>) = (TERMINATE, done!(Content::Terminate));

static PATHS: [Row; 28] = [
    (&[], InstanceState::Fresh, 0, &[INSTANTIATE]),
    (
        &[STARTED],
        InstanceState::Instantiated,
        0,
        &[ENTER, SET_PARAMETER, FREE],
    ),
    (
        &[(INSTANTIATE, refused!(Kind::Instantiate, BadStatus::Error))],
        InstanceState::Gone,
        0,
        &[],
    ),
    (
        &[(INSTANTIATE, refused!(Kind::Instantiate, BadStatus::Fatal))],
        InstanceState::Lost,
        0,
        &[],
    ),
    (
        &[STARTED, ENTERED],
        InstanceState::Initialization,
        10,
        &[EXIT, GET, SET, FREE],
    ),
    (
        &[
            STARTED,
            (ENTER, refused!(Kind::EnterInitialization, BadStatus::Error)),
        ],
        InstanceState::Dead,
        0,
        &[FREE],
    ),
    (
        &[STARTED, ENTERED, (GET, done!(Content::Get { word: 7 }))],
        InstanceState::Initialization,
        10,
        &[EXIT, GET, SET, FREE],
    ),
    (
        &[
            STARTED,
            ENTERED,
            (GET, refused!(Kind::Get, BadStatus::Discard)),
        ],
        InstanceState::Initialization,
        10,
        &[EXIT, GET, SET, FREE],
    ),
    (
        &[STARTED, ENTERED, EXITED],
        InstanceState::Step,
        10,
        &[STEP, GET, SET, SAVE, TERMINATE, FREE],
    ),
    (
        &[STARTED, ENTERED, EXITED, STEPPED],
        InstanceState::Step,
        40,
        &[SECOND, GET, SET, SAVE, TERMINATE, FREE],
    ),
    (
        &[STARTED, ENTERED, EXITED, (STEP, ended!(true, 25))],
        InstanceState::Step,
        25,
        &[AFTER_EARLY, GET, SET, SAVE, TERMINATE, FREE],
    ),
    (
        &[
            STARTED,
            ENTERED,
            EXITED,
            (STEP, refused!(Kind::DoStep, BadStatus::Discard)),
        ],
        InstanceState::Step,
        10,
        &[STEP, GET, SET, SAVE, TERMINATE, FREE],
    ),
    (
        &[
            STARTED,
            ENTERED,
            EXITED,
            (STEP, refused!(Kind::DoStep, BadStatus::Fatal)),
        ],
        InstanceState::Lost,
        10,
        &[],
    ),
    (
        &[STARTED, ENTERED, EXITED, (STEP, None)],
        InstanceState::Lost,
        10,
        &[],
    ),
    (
        &[STARTED, ENTERED, EXITED, (STEP, ended!(false, 41))],
        InstanceState::Dead,
        10,
        &[FREE],
    ),
    (
        &[STARTED, ENTERED, EXITED, STEPPED, TERMINATED],
        InstanceState::Terminated,
        40,
        &[FREE],
    ),
    (
        &[
            STARTED,
            ENTERED,
            EXITED,
            STEPPED,
            TERMINATED,
            (FREE, done!(Content::FreeInstance)),
        ],
        InstanceState::Gone,
        40,
        &[],
    ),
    (
        &[
            STARTED,
            ENTERED,
            (FREE, refused!(Kind::FreeInstance, BadStatus::Error)),
        ],
        InstanceState::Gone,
        10,
        &[],
    ),
    (
        &[STARTED, (FREE, done!(Content::Terminate))],
        InstanceState::Gone,
        0,
        &[],
    ),
    (
        &[
            STARTED,
            (SET_PARAMETER, done!(Content::Set)),
            ENTERED,
            GIVEN,
        ],
        InstanceState::Initialization,
        10,
        &[EXIT, GET, SET, FREE],
    ),
    (
        &[STARTED, ENTERED, EXITED, GIVEN],
        InstanceState::Step,
        10,
        &[STEP, SAVE, TERMINATE, FREE],
    ),
    (
        &[STARTED, ENTERED, EXITED, GIVEN, STEPPED],
        InstanceState::Step,
        40,
        &[SECOND, GET, SET, SAVE, TERMINATE, FREE],
    ),
    (
        &[STARTED, ENTERED, EXITED, SAVED],
        InstanceState::Step,
        10,
        &[STEP, GET, SET, RESTORE, EMPTY],
    ),
    (
        &[STARTED, ENTERED, EXITED, SAVED, ENDED_EARLY],
        InstanceState::Step,
        25,
        &[GET, SET, RESTORE, EMPTY],
    ),
    (
        &[STARTED, ENTERED, EXITED, GIVEN, SAVED, STEPPED, RESTORED],
        InstanceState::Step,
        10,
        &[STEP, RESTORE, EMPTY],
    ),
    (
        &[STARTED, ENTERED, EXITED, SAVED, STEPPED, EMPTIED],
        InstanceState::Step,
        40,
        &[SECOND, GET, SET, SAVE, TERMINATE, FREE],
    ),
    (
        &[
            STARTED,
            ENTERED,
            EXITED,
            SAVED,
            (EMPTY, refused!(Kind::Free, BadStatus::Discard)),
        ],
        InstanceState::Step,
        10,
        &[STEP, GET, SET, RESTORE, EMPTY],
    ),
    (
        &[
            STARTED,
            ENTERED,
            EXITED,
            SAVED,
            (STEP, done!(Content::Get { word: 0 })),
        ],
        InstanceState::Dead,
        10,
        &[FREE],
    ),
];

const ENTER_EVENT: Call = Call::EnterEvent;

const AGAIN: (Call, Option<Reply>) = updated!(true);

const IN_EVENT: (Call, Option<Reply>) = (ENTER_EVENT, done!(Content::EnterEvent));

// The same of an FMU with event mode.
static EVENT_PROBES: [Call; 16] = [
    INSTANTIATE_EVENTS,
    ENTER,
    EXIT,
    ENTER_EVENT,
    ENTER_STEP,
    UPDATE,
    STEP,
    SECOND,
    GET,
    SET,
    SET_PARAMETER,
    SAVE,
    RESTORE,
    EMPTY,
    TERMINATE,
    FREE,
];

static EVENT_PATHS: [Row; 15] = [
    (
        &[STARTED_EVENTS, ENTERED],
        InstanceState::Initialization,
        10,
        &[EXIT, GET, SET, FREE],
    ),
    // Event Mode isn't left before an Update.
    (
        &[STARTED_EVENTS, ENTERED, EXITED],
        InstanceState::Event,
        10,
        &[UPDATE, GET, SET, TERMINATE, FREE],
    ),
    // An input is set once in an instant, which an Update ends.
    (
        &[STARTED_EVENTS, ENTERED, EXITED, GIVEN],
        InstanceState::Event,
        10,
        &[UPDATE, GET, TERMINATE, FREE],
    ),
    (
        &[STARTED_EVENTS, ENTERED, EXITED, GIVEN, AGAIN],
        InstanceState::Event,
        10,
        &[UPDATE, GET, SET, TERMINATE, FREE],
    ),
    (
        &[STARTED_EVENTS, ENTERED, EXITED, AGAIN, SETTLED],
        InstanceState::Event,
        10,
        &[ENTER_STEP, UPDATE, GET, SET, TERMINATE, FREE],
    ),
    (
        &[STARTED_EVENTS, ENTERED, EXITED, SETTLED, AGAIN],
        InstanceState::Event,
        10,
        &[UPDATE, GET, SET, TERMINATE, FREE],
    ),
    // In Step Mode nothing is read or set.
    (
        &[STARTED_EVENTS, ENTERED, EXITED, SETTLED, IN_STEP],
        InstanceState::Step,
        10,
        &[ENTER_EVENT, STEP, SAVE, TERMINATE, FREE],
    ),
    (
        &[STARTED_EVENTS, ENTERED, EXITED, SETTLED, IN_STEP, SAVED],
        InstanceState::Step,
        10,
        &[STEP, RESTORE, EMPTY],
    ),
    (
        &[STARTED_EVENTS, ENTERED, EXITED, SETTLED, IN_STEP, STEPPED],
        InstanceState::Step,
        40,
        &[ENTER_EVENT, SECOND, SAVE, TERMINATE, FREE],
    ),
    (
        &[
            STARTED_EVENTS,
            ENTERED,
            EXITED,
            SETTLED,
            IN_STEP,
            STEPPED,
            IN_EVENT,
        ],
        InstanceState::Event,
        40,
        &[UPDATE, GET, SET, TERMINATE, FREE],
    ),
    // What was set after the last Update may be set in the next stay in Event Mode, with a step between and without one.
    (
        &[
            STARTED_EVENTS,
            ENTERED,
            EXITED,
            SETTLED,
            GIVEN,
            IN_STEP,
            IN_EVENT,
        ],
        InstanceState::Event,
        10,
        &[UPDATE, GET, SET, TERMINATE, FREE],
    ),
    (
        &[
            STARTED_EVENTS,
            ENTERED,
            EXITED,
            SETTLED,
            GIVEN,
            IN_STEP,
            STEPPED,
            IN_EVENT,
        ],
        InstanceState::Event,
        40,
        &[UPDATE, GET, SET, TERMINATE, FREE],
    ),
    (
        &[
            STARTED_EVENTS,
            ENTERED,
            EXITED,
            (UPDATE, refused!(Kind::Update, BadStatus::Discard)),
        ],
        InstanceState::Event,
        10,
        &[UPDATE, GET, SET, TERMINATE, FREE],
    ),
    (
        &[
            STARTED_EVENTS,
            ENTERED,
            EXITED,
            SETTLED,
            (ENTER_STEP, refused!(Kind::EnterStep, BadStatus::Error)),
        ],
        InstanceState::Dead,
        10,
        &[FREE],
    ),
    (
        &[STARTED_EVENTS, ENTERED, EXITED, SETTLED, TERMINATED],
        InstanceState::Terminated,
        10,
        &[FREE],
    ),
];

const SERIALIZED: (Call, Option<Reply>) = (SERIALIZE, done!(Content::Serialize { length: 7 }));

const FILLED: (Call, Option<Reply>) = (DESERIALIZE, done!(Content::Deserialize));

// The same of an FMU whose states are moved as bytes, without event mode and with it.
static BYTE_PROBES: [Call; 15] = [
    INSTANTIATE,
    ENTER,
    STEP,
    GET,
    SET,
    SET_PARAMETER,
    SAVE,
    RESTORE,
    EMPTY,
    SERIALIZE,
    DESERIALIZE,
    TERMINATE,
    FREE,
    SECOND,
    ENTER_EVENT,
];

// A point past the stop, and a step past the stop that was told.
static NO_BYTES: [Call; 2] = [
    Call::Deserialize {
        length: 7,
        point: 101,
        stop: 100,
    },
    LONG,
];

static BYTE_PATHS: [Row; 11] = [
    (
        &[STARTED],
        InstanceState::Instantiated,
        0,
        &[ENTER, SET_PARAMETER, DESERIALIZE, FREE],
    ),
    // A state that came as bytes is gone back to or freed at once.
    (
        &[STARTED, FILLED],
        InstanceState::Instantiated,
        0,
        &[ENTER, SET_PARAMETER, RESTORE, EMPTY],
    ),
    (
        &[STARTED, FILLED, EMPTIED],
        InstanceState::Instantiated,
        0,
        &[ENTER, SET_PARAMETER, DESERIALIZE, FREE],
    ),
    (
        &[
            STARTED,
            (DESERIALIZE, refused!(Kind::Deserialize, BadStatus::Discard)),
        ],
        InstanceState::Instantiated,
        0,
        &[ENTER, SET_PARAMETER, DESERIALIZE, FREE],
    ),
    (
        &[
            STARTED,
            FILLED,
            (RESTORE, refused!(Kind::Restore, BadStatus::Error)),
        ],
        InstanceState::Dead,
        0,
        &[FREE],
    ),
    (
        &[STARTED, FILLED, RESTORED],
        InstanceState::Step,
        10,
        &[STEP, GET, SET, RESTORE, EMPTY, SERIALIZE],
    ),
    (
        &[STARTED, FILLED, RESTORED, EMPTIED],
        InstanceState::Step,
        10,
        &[STEP, GET, SET, SAVE, TERMINATE, FREE],
    ),
    (
        &[STARTED, FILLED, RESTORED, EMPTIED, STEPPED],
        InstanceState::Step,
        40,
        &[SECOND, GET, SET, SAVE, TERMINATE, FREE],
    ),
    (
        &[STARTED, ENTERED, EXITED, SAVED, STEPPED, SERIALIZED],
        InstanceState::Step,
        40,
        &[GET, SET, RESTORE, EMPTY, SERIALIZE],
    ),
    (
        &[STARTED, ENTERED, EXITED, SAVED, SERIALIZED, EMPTIED],
        InstanceState::Step,
        10,
        &[STEP, GET, SET, SAVE, TERMINATE, FREE],
    ),
    (
        &[
            STARTED,
            ENTERED,
            EXITED,
            SAVED,
            (SERIALIZE, refused!(Kind::Serialize, BadStatus::Discard)),
        ],
        InstanceState::Step,
        10,
        &[STEP, GET, SET, RESTORE, EMPTY, SERIALIZE],
    ),
];

static BYTE_EVENT_PATHS: [Row; 2] = [
    (
        &[STARTED_EVENTS, FILLED, RESTORED],
        InstanceState::Step,
        10,
        &[STEP, RESTORE, EMPTY, SERIALIZE],
    ),
    (
        &[STARTED_EVENTS, FILLED, RESTORED, EMPTIED],
        InstanceState::Step,
        10,
        &[STEP, SAVE, TERMINATE, FREE, ENTER_EVENT],
    ),
];

#[test]
fn phases_are_those_of_the_state_machine(rt: HostRuntime) -> Result<(), Fail> {
    let alloc = rt.alloc();
    let mut shape = shape_of(alloc)?;
    let wrong = first_wrong(alloc, &shape, &PATHS, &PROBES, &NEVER);
    shape.has_event_mode = true;
    let wrong_event = first_wrong(alloc, &shape, &EVENT_PATHS, &EVENT_PROBES, &[INSTANTIATE]);
    assert_eq!(rt; (wrong, wrong_event), (None, None));
    shape.can_serialize_state = true;
    let wrong_event = first_wrong(alloc, &shape, &BYTE_EVENT_PATHS, &BYTE_PROBES, &NO_BYTES);
    shape.has_event_mode = false;
    let wrong = first_wrong(alloc, &shape, &BYTE_PATHS, &BYTE_PROBES, &NO_BYTES);
    assert_eq!(rt; (wrong, wrong_event), (None, None));
    Ok(())
}
