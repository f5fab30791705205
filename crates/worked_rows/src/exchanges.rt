//! Calls and exchanges with one FMU, whose input is 1, its output 2 and its parameter 3.
use fmi_calls::{Call, Content, Reply};
use fmu_peer::{Exchange, PeerFault};
use value_types::PortType;

pub(crate) const START: Call = Call::Instantiate {
    event_mode: false,
    early_return: true,
    batches: false,
};

pub(crate) const ENTER: Call = Call::EnterInitialization { start: 0, stop: 20 };

pub(crate) const GET: Call = Call::Get {
    kind: PortType::Int32,
    reference: 2,
};

// A parameter and an input.
pub(crate) const SET_PARAMETER: Call = Call::Set {
    kind: PortType::Int32,
    reference: 3,
    value: -5,
};

pub(crate) const SET: Call = Call::Set {
    kind: PortType::Int32,
    reference: 1,
    value: 4,
};

pub(crate) const STEP: Call = Call::DoStep { at: 0, size: 10 };

pub(crate) const WRONG: Reply = Reply::Done {
    is_warning: false,
    content: Content::ExitInitialization,
};

macro_rules! good {
    ($call:expr, $content:expr $(,)?) => {
        Exchange {
            call: $call,
            result: Ok(Reply::Done {
                is_warning: false,
                content: $content,
            }),
        }
    };
}

macro_rules! refused {
    ($call:expr, $kind:expr, $status:expr $(,)?) => {
        Exchange {
            call: $call,
            result: Ok(Reply::Refused {
                kind: $kind,
                status: $status,
            }),
        }
    };
}

macro_rules! wrong {
    ($call:expr) => {
        Exchange {
            call: $call,
            result: Ok(WRONG),
        }
    };
}

macro_rules! failed {
    ($call:expr) => {
        Exchange {
            call: $call,
            result: Err(PeerFault::Failed),
        }
    };
}

pub(crate) use failed;
pub(crate) use good;
pub(crate) use refused;
pub(crate) use wrong;

pub(crate) const STARTED: Exchange = good!(START, Content::Instantiate { batches: false });

pub(crate) const GIVEN_PARAMETER: Exchange = good!(SET_PARAMETER, Content::Set);

pub(crate) const ENTERED: Exchange = good!(ENTER, Content::EnterInitialization);

pub(crate) const EXITED: Exchange = good!(Call::ExitInitialization, Content::ExitInitialization);

pub(crate) const READ: Exchange = good!(GET, Content::Get { word: 7 });

pub(crate) const READ_ZERO: Exchange = good!(GET, Content::Get { word: 0 });

pub(crate) const GIVEN: Exchange = good!(SET, Content::Set);

pub(crate) const STEPPED: Exchange = Exchange {
    call: STEP,
    result: Ok(Reply::Done {
        is_warning: true,
        content: Content::DoStep {
            event_needed: false,
            terminate: false,
            early: true,
            end: 4,
        },
    }),
};

pub(crate) const SAVED: Exchange = good!(Call::Save, Content::Save);

pub(crate) const RESTORED: Exchange = good!(Call::Restore, Content::Restore);

pub(crate) const EMPTIED: Exchange = good!(Call::Free, Content::Free);

pub(crate) const TERMINATED: Exchange = good!(Call::Terminate, Content::Terminate);

pub(crate) const FREED: Exchange = good!(Call::FreeInstance, Content::FreeInstance);
