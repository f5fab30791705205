//! What replies are worth: ends of steps, words, kinds of calls, refusals, intervals and shifts.
use crate::paths::{
    DESERIALIZE, EMPTY, ENTER, EXIT, FREE, GET, INSTANTIATE, RESTORE, SAVE, SERIALIZE, SET, STEP,
    TERMINATE, shape_of,
};
use fmi_calls::{
    BadStatus, Call, Content, Grade, Interval, Kind, Phase, Reply, Status, grade, valid,
};
use std::alloc::{AllocError, Global};
use std::test::Fail;
use value_types::{Fraction, PortType, Shape};

// Whether a step from 10 to 40 may end early, its early flag and end, and what that is worth.
static STEP_ENDS: [(bool, bool, u64, Grade); 8] = [
    (true, false, 40, Grade::Good),
    (true, true, 39, Grade::Good),
    (true, true, 11, Grade::Good),
    (true, true, 40, Grade::Misreply),
    (true, false, 39, Grade::Misreply),
    (true, true, 10, Grade::Misreply),
    (true, false, 41, Grade::Misreply),
    (false, true, 39, Grade::Misreply),
];

static WORDS: [(PortType, u64, Grade); 7] = [
    (PortType::Int8, 127, Grade::Good),
    (PortType::Int8, 128, Grade::Misreply),
    (PortType::Int8, 18_446_744_073_709_551_488, Grade::Good),
    (PortType::UInt8, 256, Grade::Misreply),
    (PortType::UInt64, 18_446_744_073_709_551_615, Grade::Good),
    (PortType::Boolean, 1, Grade::Good),
    (PortType::Boolean, 2, Grade::Misreply),
];

static STATUSES: [(BadStatus, Status); 3] = [
    (BadStatus::Discard, Status::Discard),
    (BadStatus::Error, Status::Error),
    (BadStatus::Fatal, Status::Fatal),
];

// A call, what its reply carries, and the kind of both with its number and name.
static KINDS: [(Call, Content, Kind, u8, &str); 20] = [
    (
        INSTANTIATE,
        Content::Instantiate { batches: false },
        Kind::Instantiate,
        1,
        "Instantiate",
    ),
    (
        ENTER,
        Content::EnterInitialization,
        Kind::EnterInitialization,
        2,
        "EnterInitialization",
    ),
    (
        EXIT,
        Content::ExitInitialization,
        Kind::ExitInitialization,
        3,
        "ExitInitialization",
    ),
    (
        Call::EnterEvent,
        Content::EnterEvent,
        Kind::EnterEvent,
        4,
        "EnterEvent",
    ),
    (
        Call::EnterStep,
        Content::EnterStep,
        Kind::EnterStep,
        5,
        "EnterStep",
    ),
    (
        STEP,
        Content::DoStep {
            event_needed: true,
            terminate: false,
            early: false,
            end: 40,
        },
        Kind::DoStep,
        6,
        "DoStep",
    ),
    (
        Call::Update,
        Content::Update {
            again: true,
            terminate: false,
            event_time: Some(7),
        },
        Kind::Update,
        7,
        "Update",
    ),
    (GET, Content::Get { word: 0 }, Kind::Get, 8, "Get"),
    (SET, Content::Set, Kind::Set, 9, "Set"),
    (
        Call::GetClock { reference: 4 },
        Content::GetClock { word: 1 },
        Kind::GetClock,
        10,
        "GetClock",
    ),
    (
        Call::SetClock { reference: 4 },
        Content::SetClock,
        Kind::SetClock,
        11,
        "SetClock",
    ),
    (
        Call::GetInterval { reference: 4 },
        Content::GetInterval {
            interval: Interval::Changed(EIGHTH),
        },
        Kind::GetInterval,
        12,
        "GetInterval",
    ),
    (
        Call::GetShift { reference: 4 },
        Content::GetShift { shift: EIGHTH },
        Kind::GetShift,
        13,
        "GetShift",
    ),
    (SAVE, Content::Save, Kind::Save, 14, "Save"),
    (RESTORE, Content::Restore, Kind::Restore, 15, "Restore"),
    (EMPTY, Content::Free, Kind::Free, 16, "Free"),
    (
        TERMINATE,
        Content::Terminate,
        Kind::Terminate,
        17,
        "Terminate",
    ),
    (
        FREE,
        Content::FreeInstance,
        Kind::FreeInstance,
        18,
        "FreeInstance",
    ),
    (
        SERIALIZE,
        Content::Serialize { length: 7 },
        Kind::Serialize,
        20,
        "Serialize",
    ),
    (
        DESERIALIZE,
        Content::Deserialize,
        Kind::Deserialize,
        21,
        "Deserialize",
    ),
];

// Fractions of a second, which has 1,000 counts.
const EIGHTH: Fraction = Fraction {
    counter: 1,
    resolution: 8,
};

const THIRD: Fraction = Fraction {
    counter: 1,
    resolution: 3,
};

const NOTHING: Fraction = Fraction {
    counter: 0,
    resolution: 3,
};

const UNKNOWN: Fraction = Fraction {
    counter: 1,
    resolution: 0,
};

// The intervals of a fixed Clock and of a countdown Clock, and whether they are valid.
static INTERVALS: [(u32, Interval, bool); 16] = [
    (4, Interval::NotYetKnown, false),
    (4, Interval::Unchanged(EIGHTH), true),
    (4, Interval::Changed(EIGHTH), true),
    (4, Interval::Unchanged(THIRD), false),
    (4, Interval::Changed(THIRD), false),
    (4, Interval::Unchanged(NOTHING), false),
    (4, Interval::Changed(NOTHING), false),
    (4, Interval::Changed(UNKNOWN), false),
    (5, Interval::NotYetKnown, true),
    (5, Interval::Unchanged(EIGHTH), true),
    (5, Interval::Unchanged(THIRD), true),
    (5, Interval::Unchanged(UNKNOWN), true),
    (5, Interval::Changed(EIGHTH), true),
    (5, Interval::Changed(NOTHING), true),
    (5, Interval::Changed(THIRD), false),
    (5, Interval::Changed(UNKNOWN), false),
];

static SHIFTS: [(Fraction, bool); 4] = [
    (EIGHTH, true),
    (NOTHING, true),
    (THIRD, false),
    (UNKNOWN, false),
];

// What a step's end is worth. The shape may return early where the row allows it.
fn is_step_end(shape: &Shape, phase: &Phase, row: &(bool, bool, u64, Grade)) -> bool {
    let content = Content::DoStep {
        event_needed: false,
        terminate: false,
        early: row.1,
        end: row.2,
    };
    let reply = Reply::Done {
        is_warning: true,
        content,
    };
    grade(shape, phase, &STEP, &reply) == row.3
        && valid(shape, phase, &STEP, &content) == (row.3 == Grade::Good)
}

fn first_wrong_end(shape: &Shape, phase: &Phase) -> Option<usize> {
    let allowed = shape.might_return_early;
    STEP_ENDS
        .iter()
        .position(|row| row.0 == allowed && !is_step_end(shape, phase, row))
}

fn is_word(shape: &Shape, phase: &Phase, row: &(PortType, u64, Grade)) -> bool {
    let call = Call::Get {
        kind: row.0,
        reference: 2,
    };
    let reply = Reply::Done {
        is_warning: false,
        content: Content::Get { word: row.1 },
    };
    grade(shape, phase, &call, &reply) == row.2
}

fn first_wrong_word(shape: &Shape, phase: &Phase) -> Option<usize> {
    WORDS.iter().position(|row| !is_word(shape, phase, row))
}

type KindRow = (Call, Content, Kind, u8, &'static str);

// Whether a good reply is one to the calls of its kind alone.
fn is_good_for(shape: &Shape, phase: &Phase, reply: &Reply, kind: Kind) -> bool {
    KINDS.iter().all(|other| (grade(shape, phase, &other.0, reply) == Grade::Good)
        == (kind == other.2))
}

fn is_of_kind(
    shape: &Shape,
    phase: &Phase,
    row: &KindRow,
    is_warning: bool,
    status: Status,
) -> bool {
    let reply = Reply::Done {
        is_warning,
        content: row.1,
    };
    reply.kind() == row.2 && reply.status() == status && is_good_for(shape, phase, &reply, row.2)
}

fn is_kind(shape: &Shape, phase: &Phase, row: &KindRow) -> bool {
    row.0.kind() == row.2
        && row.1.kind() == row.2
        && row.2.facts().number == row.3
        && row.2.facts().name == row.4
        && is_of_kind(shape, phase, row, false, Status::Ok)
        && is_of_kind(shape, phase, row, true, Status::Warning)
}

fn first_wrong_kind(shape: &Shape, phase: &Phase) -> Option<usize> {
    KINDS.iter().position(|row| !is_kind(shape, phase, row))
}

fn is_refusal(shape: &Shape, phase: &Phase, kind: Kind, row: &(BadStatus, Status)) -> bool {
    let reply = Reply::Refused {
        kind,
        status: row.0,
    };
    let worth = if kind == Kind::DoStep {
        Grade::Refused
    } else {
        Grade::Misreply
    };
    reply.kind() == kind
        && reply.status() == row.1
        && reply.bad_status() == row.0
        && grade(shape, phase, &STEP, &reply) == worth
}

fn first_wrong_refusal(shape: &Shape, phase: &Phase) -> Option<usize> {
    STATUSES.iter().position(|row| {
        Status::from_bad(row.0) != row.1
            || !KINDS
                .iter()
                .all(|kind| is_refusal(shape, phase, kind.2, row))
    })
}

fn is_interval(shape: &Shape, phase: &Phase, row: &(u32, Interval, bool)) -> bool {
    let call = Call::GetInterval { reference: row.0 };
    let content = Content::GetInterval { interval: row.1 };
    valid(shape, phase, &call, &content) == row.2
}

fn is_shift(shape: &Shape, phase: &Phase, row: &(Fraction, bool)) -> bool {
    let call = Call::GetShift { reference: 4 };
    valid(shape, phase, &call, &Content::GetShift { shift: row.0 }) == row.1
}

fn is_activity(shape: &Shape, phase: &Phase, word: u64) -> bool {
    let call = Call::GetClock { reference: 4 };
    valid(shape, phase, &call, &Content::GetClock { word }) == (word < 2)
}

fn first_wrong_timing(shape: &Shape, phase: &Phase) -> (Option<usize>, Option<usize>) {
    (
        INTERVALS
            .iter()
            .position(|row| !is_interval(shape, phase, row)),
        SHIFTS.iter().position(|row| !is_shift(shape, phase, row)),
    )
}

// The ends of steps, kinds of calls and refusals of an FMU that might return early.
fn is_worth_with_early_return(shape: &Shape, phase: &Phase) -> bool {
    first_wrong_end(shape, phase) == None
        && first_wrong_kind(shape, phase) == None
        && first_wrong_refusal(shape, phase) == None
}

// The ends of steps, words, and what is told of Clocks, of one that doesn't.
fn is_worth_without(shape: &Shape, phase: &Phase) -> bool {
    first_wrong_end(shape, phase) == None
        && first_wrong_word(shape, phase) == None
        && first_wrong_timing(shape, phase) == (None, None)
        && (0..3).all(|word| is_activity(shape, phase, word))
}

// What a reply is worth is asked of one shape, and told outside, since what makes one is proved to let all of it go.
fn worth(alloc: Global) -> Result<(bool, bool), AllocError> {
    let mut shape = shape_of(alloc)?;
    let phase = Phase::fresh(alloc, &shape)?;
    let with_early_return = is_worth_with_early_return(&shape, &phase);
    shape.might_return_early = false;
    Ok((with_early_return, is_worth_without(&shape, &phase)))
}

#[test]
fn replies_are_worth_what_they_are_to_their_calls(rt: HostRuntime) -> Result<(), Fail> {
    assert!(rt; worth(rt.alloc())? == (true, true));
    Ok(())
}
