//! Talks with FMUs that make one step.
use fmi_calls::{BadStatus, Call, Content, Kind, Reply};
use fmu_peer::Exchange;

macro_rules! good {
    ($call:expr, $content:expr $(,)?) => {
        Exchange {
            call: $call,
            result: Ok(Reply::Done {
                is_warning: false,
                content: $content,
            }),
        }
    };
}

// A step from 0 to an end, which is reached at another point where that is given.
macro_rules! stepped {
    ($end:expr) => {
        good!(
            Call::DoStep { at: 0, size: $end },
            Content::DoStep {
                event_needed: false,
                terminate: false,
                early: false,
                end: $end,
            },
        )
    };
    ($end:expr, $early:expr) => {
        good!(
            Call::DoStep { at: 0, size: $end },
            Content::DoStep {
                event_needed: false,
                terminate: false,
                early: true,
                end: $early,
            },
        )
    };
}

macro_rules! refused {
    ($end:expr, $status:expr) => {
        Exchange {
            call: Call::DoStep { at: 0, size: $end },
            result: Ok(Reply::Refused {
                kind: Kind::DoStep,
                status: $status,
            }),
        }
    };
}

const MADE: Exchange = good!(
    Call::Instantiate {
        event_mode: false,
        early_return: false,
        batches: false,
    },
    Content::Instantiate { batches: false },
);

// Of an FMU that might return early.
const MADE_EARLY: Exchange = good!(
    Call::Instantiate {
        event_mode: false,
        early_return: true,
        batches: false,
    },
    Content::Instantiate { batches: false },
);

const ENTERED: Exchange = good!(
    Call::EnterInitialization { start: 0, stop: 20 },
    Content::EnterInitialization,
);

const EXITED: Exchange = good!(Call::ExitInitialization, Content::ExitInitialization);

const SAVED: Exchange = good!(Call::Save, Content::Save);

const RESTORED: Exchange = good!(Call::Restore, Content::Restore);

const EMPTIED: Exchange = good!(Call::Free, Content::Free);

const TERMINATED: Exchange = good!(Call::Terminate, Content::Terminate);

const FREED: Exchange = good!(Call::FreeInstance, Content::FreeInstance);

/// A step from 0 to 10.
pub(crate) const STEP: Call = Call::DoStep { at: 0, size: 10 };

/// The whole talk of an FMU that makes a step to 10.
pub(crate) const GOOD: &[Exchange] = &[MADE, ENTERED, EXITED, stepped!(10), TERMINATED, FREED];

/// Likewise, where the step is answered with Error.
pub(crate) const ERROR: &[Exchange] = &[
    MADE,
    ENTERED,
    EXITED,
    refused!(10, BadStatus::Error),
    FREED,
];

/// Likewise with Fatal.
pub(crate) const FATAL: &[Exchange] = &[MADE, ENTERED, EXITED, refused!(10, BadStatus::Fatal)];

/// Of one that returns early at 7, and isn't put back.
pub(crate) const FIRST_AT_7: &[Exchange] = &[
    MADE_EARLY,
    ENTERED,
    EXITED,
    stepped!(10, 7),
    TERMINATED,
    FREED,
];

/// Of one that might return early, and doesn't.
pub(crate) const NOT_EARLY: &[Exchange] = &[
    MADE_EARLY,
    ENTERED,
    EXITED,
    stepped!(10),
    TERMINATED,
    FREED,
];

/// Of one that might return early, whose step is answered with Error.
pub(crate) const FIRST_ERROR: &[Exchange] = &[
    MADE_EARLY,
    ENTERED,
    EXITED,
    refused!(10, BadStatus::Error),
    FREED,
];

/// Of one that isn't asked for a step.
pub(crate) const UNASKED: &[Exchange] = &[MADE, ENTERED, EXITED, TERMINATED, FREED];

/// Of one that is asked for a step to 7 alone.
pub(crate) const TO_7: &[Exchange] = &[MADE, ENTERED, EXITED, stepped!(7), TERMINATED, FREED];

/// Likewise, where that is answered with Error.
pub(crate) const TO_ERROR: &[Exchange] = &[
    MADE,
    ENTERED,
    EXITED,
    refused!(7, BadStatus::Error),
    FREED,
];

/// Of one of two that return early, the one that does so first, at 4.
pub(crate) const FIRST_AT_4: &[Exchange] = &[
    MADE_EARLY,
    ENTERED,
    EXITED,
    SAVED,
    stepped!(10, 4),
    EMPTIED,
    TERMINATED,
    FREED,
];

/// Of the other, which goes back from 7.
pub(crate) const BACK_FROM_7: &[Exchange] = &[
    MADE_EARLY,
    ENTERED,
    EXITED,
    SAVED,
    stepped!(10, 7),
    RESTORED,
    stepped!(4),
    EMPTIED,
    TERMINATED,
    FREED,
];

/// Of one beside them that goes back from 10.
pub(crate) const BACK_TO_4: &[Exchange] = &[
    MADE,
    ENTERED,
    EXITED,
    SAVED,
    stepped!(10),
    RESTORED,
    stepped!(4),
    EMPTIED,
    TERMINATED,
    FREED,
];

/// Likewise, where the second step is answered with Error.
pub(crate) const BACK_TO_ERROR: &[Exchange] = &[
    MADE,
    ENTERED,
    EXITED,
    SAVED,
    stepped!(10),
    RESTORED,
    refused!(4, BadStatus::Error),
    FREED,
];

/// Of three that meet at the second bound, the one that ends at 7, then at 4, and then at 3.
pub(crate) const BACK_TWICE_FROM_7: &[Exchange] = &[
    MADE_EARLY,
    ENTERED,
    EXITED,
    SAVED,
    stepped!(10, 7),
    RESTORED,
    stepped!(4),
    RESTORED,
    stepped!(3),
    EMPTIED,
    TERMINATED,
    FREED,
];

/// Of the one whose end is the first that they are asked for.
pub(crate) const BACK_FROM_4: &[Exchange] = &[
    MADE_EARLY,
    ENTERED,
    EXITED,
    SAVED,
    stepped!(10, 4),
    RESTORED,
    stepped!(3),
    EMPTIED,
    TERMINATED,
    FREED,
];

/// Of the one that doesn't reach it, and ends at 3.
pub(crate) const SHORT_OF_4: &[Exchange] = &[
    MADE_EARLY,
    ENTERED,
    EXITED,
    SAVED,
    stepped!(10),
    RESTORED,
    stepped!(4, 3),
    RESTORED,
    stepped!(3),
    EMPTIED,
    TERMINATED,
    FREED,
];

/// Of three that meet at the third bound: the first that ends at 7, and then at 6 and at 4.
pub(crate) const FIRST_AT_7_AND_4: &[Exchange] = &[
    MADE_EARLY,
    ENTERED,
    EXITED,
    SAVED,
    stepped!(10, 7),
    RESTORED,
    stepped!(6),
    RESTORED,
    stepped!(5, 4),
    RESTORED,
    stepped!(4),
    EMPTIED,
    TERMINATED,
    FREED,
];

/// Of the one that ends at 8, at 6, and at 5.
pub(crate) const FIRST_AT_5: &[Exchange] = &[
    MADE_EARLY,
    ENTERED,
    EXITED,
    SAVED,
    stepped!(10, 8),
    RESTORED,
    stepped!(7, 6),
    RESTORED,
    stepped!(6, 5),
    RESTORED,
    stepped!(4),
    EMPTIED,
    TERMINATED,
    FREED,
];

/// Of the one that ends at 9, and then wherever it is asked to.
pub(crate) const BACK_FROM_9: &[Exchange] = &[
    MADE_EARLY,
    ENTERED,
    EXITED,
    SAVED,
    stepped!(10, 9),
    RESTORED,
    stepped!(7),
    RESTORED,
    stepped!(6),
    RESTORED,
    stepped!(5),
    RESTORED,
    stepped!(4),
    EMPTIED,
    TERMINATED,
    FREED,
];
