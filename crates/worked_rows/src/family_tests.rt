use crate::closing::assert_unsaved;
use crate::driver::{Reached, run};
use crate::exchanges::{
    EMPTIED, ENTERED, EXITED, FREED, SAVED, START, STARTED, STEP, STEPPED, TERMINATED, WRONG,
    failed, refused, wrong,
};
use crate::scripts::make_script;
use bench_fmus::Script;
use fmi_calls::{BadStatus, Call, Kind, Reply};
use fmu_peer::{Exchange, Held, Job, PeerFault, Slot, Why, close_all};
use sim_base::SourceId;
use std::alloc::Global;
use std::process::Abort;

// One of several FMUs: its source, how many of its exchanges are the run's, and its whole talk.
struct Part {
    source: u32,
    run: usize,
    talk: &'static [Exchange],
}

macro_rules! part {
    ($source:expr, $run:expr, $talk:expr $(,)?) => {
        Part {
            source: $source,
            run: $run,
            talk: $talk,
        }
    };
}

const CLOSED: &[Exchange] = &[STARTED, ENTERED, EXITED, STEPPED, TERMINATED, FREED];

const LEFT: &[Exchange] = &[STARTED, ENTERED, EXITED, STEPPED];

const KEPT: &[Exchange] = &[STARTED, ENTERED, EXITED, SAVED, STEPPED];

const GIVEN_BACK: &[Exchange] = &[
    STARTED, ENTERED, EXITED, SAVED, STEPPED, EMPTIED, TERMINATED, FREED,
];

const FATAL_STEP: &[Exchange] = &[
    STARTED,
    ENTERED,
    EXITED,
    refused!(STEP, Kind::DoStep, BadStatus::Fatal),
];

const FATAL_TERMINATE: &[Exchange] = &[
    STARTED,
    ENTERED,
    EXITED,
    STEPPED,
    refused!(Call::Terminate, Kind::Terminate, BadStatus::Fatal),
];

const FAILED_TERMINATE: &[Exchange] = &[
    STARTED,
    ENTERED,
    EXITED,
    STEPPED,
    failed!(Call::Terminate),
];

static FAMILIES: [[Part; 3]; 12] = [
    // A state that was saved is freed first, and only from Step Mode the instance is terminated.
    [
        part!(7, 4, CLOSED),
        part!(7, 5, GIVEN_BACK),
        part!(8, 2, &[STARTED, ENTERED, FREED]),
    ],
    // Fatal in the run: the other one of that source is sent nothing.
    [
        part!(7, 4, LEFT),
        part!(7, 4, FATAL_STEP),
        part!(8, 4, CLOSED),
    ],
    [
        part!(7, 4, FATAL_STEP),
        part!(8, 4, CLOSED),
        part!(7, 5, KEPT),
    ],
    [
        part!(
            7,
            1,
            &[refused!(START, Kind::Instantiate, BadStatus::Fatal)]
        ),
        part!(7, 1, &[STARTED]),
        part!(8, 1, &[STARTED, FREED]),
    ],
    // Fatal at Terminate: only a later one of that source is sent nothing.
    [
        part!(7, 4, CLOSED),
        part!(7, 4, FATAL_TERMINATE),
        part!(7, 4, LEFT),
    ],
    [
        part!(7, 4, FATAL_TERMINATE),
        part!(8, 5, GIVEN_BACK),
        part!(7, 5, KEPT),
    ],
    // Fatal at Free, and at FreeInstance.
    [
        part!(
            7,
            5,
            &[
                STARTED,
                ENTERED,
                EXITED,
                SAVED,
                STEPPED,
                refused!(Call::Free, Kind::Free, BadStatus::Fatal),
            ],
        ),
        part!(7, 4, LEFT),
        part!(8, 4, CLOSED),
    ],
    [
        part!(
            7,
            4,
            &[
                STARTED,
                ENTERED,
                EXITED,
                STEPPED,
                TERMINATED,
                refused!(Call::FreeInstance, Kind::FreeInstance, BadStatus::Fatal),
            ],
        ),
        part!(7, 4, LEFT),
        part!(8, 4, CLOSED),
    ],
    // Discard at Free, in the closing and in the run: that instance alone is sent nothing more.
    [
        part!(
            7,
            5,
            &[
                STARTED,
                ENTERED,
                EXITED,
                SAVED,
                STEPPED,
                refused!(Call::Free, Kind::Free, BadStatus::Discard),
            ],
        ),
        part!(
            7,
            5,
            &[
                STARTED,
                ENTERED,
                EXITED,
                SAVED,
                refused!(Call::Free, Kind::Free, BadStatus::Discard),
            ],
        ),
        part!(7, 4, CLOSED),
    ],
    // After Error and an invalid reply FreeInstance alone, with a saved state too.
    [
        part!(
            7,
            4,
            &[
                STARTED,
                ENTERED,
                EXITED,
                refused!(STEP, Kind::DoStep, BadStatus::Error),
                FREED,
            ],
        ),
        part!(
            7,
            5,
            &[
                STARTED,
                ENTERED,
                EXITED,
                SAVED,
                refused!(STEP, Kind::DoStep, BadStatus::Error),
                FREED,
            ],
        ),
        part!(
            7,
            5,
            &[
                STARTED,
                ENTERED,
                EXITED,
                SAVED,
                STEPPED,
                wrong!(Call::Free),
                FREED,
            ],
        ),
    ],
    // Where no answer comes that instance is sent nothing more, and the closing goes on.
    [
        part!(7, 4, &[STARTED, ENTERED, EXITED, failed!(STEP)]),
        part!(7, 4, FAILED_TERMINATE),
        part!(7, 4, CLOSED),
    ],
    // Where there is no instance nothing is sent.
    [
        part!(7, 0, &[]),
        part!(
            7,
            1,
            &[refused!(START, Kind::Instantiate, BadStatus::Discard)],
        ),
        part!(7, 1, &[STARTED, FREED]),
    ],
];

fn is_fatal(why: Option<Why>) -> bool {
    matches!(
        why,
        Some(Why::Refused {
            status: BadStatus::Fatal,
            ..
        })
    )
}

// The FMU after its run.
fn run_part(rt: &impl Abort, alloc: Global, part: &Part) -> Slot<Script> {
    assert!(rt; part.run <= part.talk.len());
    let script = make_script(rt, alloc, part.talk).expect(rt, "memory is left");
    let Reached { held, saved, why } = run(rt, script, &part.talk[..part.run]);
    Slot {
        source: SourceId(part.source),
        held,
        saved,
        is_fatal: is_fatal(why),
        job: Job::Nothing,
        answer: None,
    }
}

// Whether the FMU is closed, its saved state given up, and it has had the part's talk.
fn is_closed(rt: &impl Abort, slot: Slot<Script>, part: &Part) -> bool {
    let Slot {
        source,
        held,
        saved,
        is_fatal: _,
        job: _,
        answer: _,
    } = slot;
    assert_unsaved(rt, saved);
    let is_closed = matches!(&held, Held::Closed(_));
    let script = held.into_peer();
    let has_talk = script.talk() == Some(part.talk);
    is_closed && has_talk && source == SourceId(part.source)
}

fn assert_send<T: Send>(_value: &T) {}

// Whether each of three is closed, once all are.
fn are_closed(rt: &impl Abort, alloc: Global, parts: &[Part; 3]) -> bool {
    let [first, second, third] = parts;
    let mut slots = [
        run_part(rt, alloc, first),
        run_part(rt, alloc, second),
        run_part(rt, alloc, third),
    ];
    assert_send(&slots);
    close_all(&mut slots);
    let [one, two, three] = slots;
    let is_first = is_closed(rt, one, first);
    let is_second = is_closed(rt, two, second);
    let is_third = is_closed(rt, three, third);
    is_first && is_second && is_third
}

#[test]
fn instances_of_one_source_are_lost_together(rt: HostRuntime) {
    for parts in &FAMILIES {
        assert!(rt; are_closed(&rt, rt.alloc(), parts));
    }
}
