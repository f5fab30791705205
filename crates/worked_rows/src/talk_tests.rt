use crate::closing::{Ending, assert_talk, close};
use crate::driver::run;
use crate::exchanges::{
    EMPTIED, ENTER, ENTERED, EXITED, FREED, GET, GIVEN, GIVEN_PARAMETER, READ, READ_ZERO, RESTORED,
    SAVED, SET, START, STARTED, STEP, STEPPED, TERMINATED, WRONG, failed, refused, wrong,
};
use crate::scripts::{make_script, start};
use bench_fmus::Bench;
use fmi_calls::{BadStatus, Call, InstanceState, Kind, Reply};
use fmu_peer::{Exchange, PeerFault, Why};
use std::test::Fail;

macro_rules! why_refused {
    ($call:expr, $status:expr) => {
        Some(Why::Refused {
            call: $call,
            status: $status,
        })
    };
}

// A run: the whole talk, whose calls but the closing ones are asked in order, up to the first bad answer; how it ends,
// and how many faults there were.
#[derive(Drop)]
struct Case {
    talk: &'static [Exchange],
    ending: Ending,
    faults: u64,
}

macro_rules! case {
    ($state:expr, $why:expr, $talk:expr $(,)?) => {
        Case {
            talk: $talk,
            ending: Ending {
                state: $state,
                why: $why,
                silent: false,
            },
            faults: 0,
        }
    };
}

macro_rules! silent {
    ($state:expr, $why:expr, $talk:expr $(,)?) => {
        Case {
            talk: $talk,
            ending: Ending {
                state: $state,
                why: $why,
                silent: true,
            },
            faults: 0,
        }
    };
}

const ALL_GOOD: &[Exchange] = &[STARTED, ENTERED, EXITED, READ, STEPPED, TERMINATED, FREED];

const CASES: [Case; 23] = [
    // Where there is no instance nothing is sent.
    case!(InstanceState::Fresh, None, &[]),
    case!(
        InstanceState::Gone,
        why_refused!(START, BadStatus::Error),
        &[refused!(START, Kind::Instantiate, BadStatus::Error)],
    ),
    case!(
        InstanceState::Lost,
        why_refused!(START, BadStatus::Fatal),
        &[refused!(START, Kind::Instantiate, BadStatus::Fatal)],
    ),
    // Only from Step Mode the instance is terminated.
    case!(InstanceState::Instantiated, None, &[STARTED, FREED]),
    case!(
        InstanceState::Initialization,
        None,
        &[STARTED, GIVEN_PARAMETER, ENTERED, GIVEN, READ, FREED],
    ),
    case!(InstanceState::Step, None, ALL_GOOD),
    silent!(
        InstanceState::Step,
        None,
        &[STARTED, ENTERED, EXITED, READ, STEPPED]
    ),
    // After a Terminate whose answer is bad the instance is freed, but where it is lost.
    case!(
        InstanceState::Step,
        None,
        &[
            STARTED,
            ENTERED,
            EXITED,
            refused!(Call::Terminate, Kind::Terminate, BadStatus::Discard),
            FREED,
        ],
    ),
    case!(
        InstanceState::Step,
        None,
        &[
            STARTED,
            ENTERED,
            EXITED,
            refused!(Call::Terminate, Kind::Terminate, BadStatus::Error),
            FREED,
        ],
    ),
    case!(
        InstanceState::Step,
        None,
        &[STARTED, ENTERED, EXITED, wrong!(Call::Terminate), FREED],
    ),
    case!(
        InstanceState::Step,
        None,
        &[
            STARTED,
            ENTERED,
            EXITED,
            refused!(Call::Terminate, Kind::Terminate, BadStatus::Fatal),
        ],
    ),
    Case {
        talk: &[STARTED, ENTERED, EXITED, failed!(Call::Terminate)],
        ending: Ending {
            state: InstanceState::Step,
            why: None,
            silent: false,
        },
        faults: 1,
    },
    // A dead instance is freed alone, a lost one is sent nothing.
    case!(
        InstanceState::Dead,
        why_refused!(ENTER, BadStatus::Error),
        &[
            STARTED,
            refused!(ENTER, Kind::EnterInitialization, BadStatus::Error),
            FREED,
        ],
    ),
    case!(
        InstanceState::Dead,
        why_refused!(GET, BadStatus::Error),
        &[
            STARTED,
            ENTERED,
            EXITED,
            refused!(GET, Kind::Get, BadStatus::Error),
            FREED,
        ],
    ),
    case!(
        InstanceState::Dead,
        Some(Why::Misreply {
            call: GET,
            reply: WRONG,
        }),
        &[STARTED, ENTERED, EXITED, wrong!(GET), FREED],
    ),
    case!(
        InstanceState::Lost,
        why_refused!(GET, BadStatus::Fatal),
        &[
            STARTED,
            ENTERED,
            EXITED,
            refused!(GET, Kind::Get, BadStatus::Fatal),
        ],
    ),
    // After Discard the instance stands where it stood.
    case!(
        InstanceState::Step,
        why_refused!(SET, BadStatus::Discard),
        &[
            STARTED,
            ENTERED,
            EXITED,
            refused!(SET, Kind::Set, BadStatus::Discard),
            TERMINATED,
            FREED,
        ],
    ),
    // A saved state comes back twice, and is freed.
    case!(
        InstanceState::Step,
        None,
        &[
            STARTED, ENTERED, EXITED, GIVEN, SAVED, STEPPED, RESTORED, STEPPED, RESTORED, EMPTIED,
            STEPPED, TERMINATED, FREED,
        ],
    ),
    case!(
        InstanceState::Step,
        why_refused!(Call::Save, BadStatus::Discard),
        &[
            STARTED,
            ENTERED,
            EXITED,
            refused!(Call::Save, Kind::Save, BadStatus::Discard),
            TERMINATED,
            FREED,
        ],
    ),
    // With a saved state only an instance that is dead or lost can be closed by calls.
    silent!(
        InstanceState::Step,
        why_refused!(Call::Free, BadStatus::Discard),
        &[
            STARTED,
            ENTERED,
            EXITED,
            SAVED,
            refused!(Call::Free, Kind::Free, BadStatus::Discard),
        ],
    ),
    silent!(
        InstanceState::Step,
        None,
        &[STARTED, ENTERED, EXITED, SAVED, STEPPED]
    ),
    case!(
        InstanceState::Dead,
        why_refused!(Call::Restore, BadStatus::Error),
        &[
            STARTED,
            ENTERED,
            EXITED,
            SAVED,
            refused!(Call::Restore, Kind::Restore, BadStatus::Error),
            FREED,
        ],
    ),
    Case {
        talk: &[STARTED, ENTERED, EXITED, SAVED, failed!(STEP)],
        ending: Ending {
            state: InstanceState::Lost,
            why: Some(Why::Link {
                call: STEP,
                fault: PeerFault::Failed,
            }),
            silent: false,
        },
        faults: 1,
    },
];

// The answers are those of a counter, but the step fills the room, and leaves nothing to send.
const FULL: Case = Case {
    talk: &[STARTED, ENTERED, EXITED, READ_ZERO, failed!(STEP)],
    ending: Ending {
        state: InstanceState::Lost,
        why: Some(Why::Link {
            call: STEP,
            fault: PeerFault::Failed,
        }),
        silent: false,
    },
    faults: 1,
};

#[test]
fn a_talk_has_each_exchange(rt: HostRuntime) -> Result<(), Fail> {
    for case in &CASES {
        let script = make_script(&rt, rt.alloc(), case.talk)?;
        let script = close(&rt, run(&rt, script, case.talk), &case.ending);
        assert_talk(&rt, script.talk(), case.talk);
        assert_eq!(rt; script.book.faults, case.faults);
        drop(script);
    }
    Ok(())
}

#[test]
fn a_full_room_leaves_nothing_to_send(rt: HostRuntime) -> Result<(), Fail> {
    let mut bench = Bench::new(rt.alloc(), Some(5), Vec::new(rt.alloc()));
    let counter = start(&rt, rt.alloc(), &mut bench)?;
    let counter = close(&rt, run(&rt, counter, FULL.talk), &FULL.ending);
    assert_talk(&rt, counter.talk(), FULL.talk);
    assert_eq!(rt; counter.book.faults, FULL.faults);
    drop(counter);
    Ok(())
}
