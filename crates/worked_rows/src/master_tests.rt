use crate::exchanges::{
    ENTERED, EXITED, FREED, GET, STEP, TERMINATED, WRONG, failed, good, refused, wrong,
};
use crate::trio::{Ran, run_trio};
use bench_fmus::{Bench, Script, Scripts};
use fmi_calls::{BadStatus, Call, Content, Kind, Reply};
use fmu_peer::{Exchange, PeerFault, Why};
use sim_base::{CompId, Items, MemSink};
use std::alloc::{AllocError, Global};
use std::process::Abort;
use std::test::Fail;
use std::thread::Threads;
use step_master::{BadAnswer, PrepareFault, RunEnd};
use value_types::PortType;

const MAKE: Call = Call::Instantiate {
    event_mode: false,
    early_return: false,
    batches: false,
};

const MADE: Exchange = good!(MAKE, Content::Instantiate { batches: false });

macro_rules! read {
    ($word:expr) => {
        good!(GET, Content::Get { word: $word })
    };
}

macro_rules! stepped {
    ($at:expr, $end:expr, $terminate:expr) => {
        good!(
            Call::DoStep {
                at: $at,
                size: 10,
            },
            Content::DoStep {
                event_needed: false,
                terminate: $terminate,
                early: false,
                end: $end,
            },
        )
    };
}

macro_rules! inc {
    ($value:expr) => {
        Call::Set {
            kind: PortType::Int32,
            reference: 1,
            value: $value,
        }
    };
}

macro_rules! bound {
    ($value:expr) => {
        good!(inc!($value), Content::Set)
    };
}

const FIRST_STEP: Exchange = stepped!(0, 10, false);

const SECOND_STEP: Exchange = stepped!(10, 20, false);

// A run from 0 to 20 in two steps, in which the output shows these words.
macro_rules! whole {
    ($first:expr, $second:expr, $third:expr) => {
        &[
            MADE,
            ENTERED,
            EXITED,
            read!($first),
            FIRST_STEP,
            read!($second),
            SECOND_STEP,
            read!($third),
            TERMINATED,
            FREED,
        ]
    };
}

macro_rules! bad {
    ($component:expr, $why:expr) => {
        BadAnswer {
            component: CompId($component),
            why: $why,
        }
    };
}

const UNBOUND: [Option<i32>; 3] = [None; 3];

// Three talks, the second with the first of one source, what each counts by where that is bound, and the puts that fail; how the run ends or why it isn't
// prepared, how many instants and pieces are put or fail, and the text.
struct Case {
    talks: [&'static [Exchange]; 3],
    incs: [Option<i32>; 3],
    failing: &'static [u64],
    end: Result<RunEnd, PrepareFault>,
    instants: u128,
    puts: u64,
    text: &'static str,
}

static CASES: [Case; 14] = [
    Case {
        talks: [
            whole!(3, 4, 5),
            whole!(18_446_744_073_709_551_614, 0, 1),
            whole!(7, 2_147_483_647, 8),
        ],
        incs: UNBOUND,
        failing: &[],
        end: Ok(RunEnd::Stop),
        instants: 3,
        puts: 5,
        text: "trace 1 1000 0 20\nport 0 Int32 first y\nport 1 Int32 second y\nport 2 Int32 third y\nat 0 0\n0 3\n1 -2\n2 7\nat 10 0\n0 4\n1 0\n2 2147483647\nat 20 0\n0 5\n1 1\n2 8\nend stop 20\n",
    },
    // Each has stepped before the end that the second asks for.
    Case {
        talks: [
            &[
                MADE,
                ENTERED,
                EXITED,
                read!(3),
                FIRST_STEP,
                TERMINATED,
                FREED,
            ],
            &[
                MADE,
                ENTERED,
                EXITED,
                read!(4),
                stepped!(0, 10, true),
                TERMINATED,
                FREED,
            ],
            &[
                MADE,
                ENTERED,
                EXITED,
                read!(5),
                FIRST_STEP,
                TERMINATED,
                FREED,
            ],
        ],
        incs: UNBOUND,
        failing: &[],
        end: Ok(RunEnd::Asked { point: 10 }),
        instants: 1,
        puts: 3,
        text: "trace 1 1000 0 20\nport 0 Int32 first y\nport 1 Int32 second y\nport 2 Int32 third y\nat 0 0\n0 3\n1 4\n2 5\nend asked 10\n",
    },
    // Parameters are set before Initialization Mode, but not that of the second, which is unbound.
    Case {
        talks: [
            &[
                MADE,
                bound!(5),
                ENTERED,
                EXITED,
                read!(0),
                stepped!(0, 10, true),
                TERMINATED,
                FREED,
            ],
            &[
                MADE,
                ENTERED,
                EXITED,
                read!(1),
                FIRST_STEP,
                TERMINATED,
                FREED,
            ],
            &[
                MADE,
                bound!(-1),
                ENTERED,
                EXITED,
                read!(2),
                FIRST_STEP,
                TERMINATED,
                FREED,
            ],
        ],
        incs: [Some(5), None, Some(-1)],
        failing: &[],
        end: Ok(RunEnd::Asked { point: 10 }),
        instants: 1,
        puts: 3,
        text: "trace 1 1000 0 20\nport 0 Int32 first y\nport 1 Int32 second y\nport 2 Int32 third y\nat 0 0\n0 0\n1 1\n2 2\nend asked 10\n",
    },
    // The Set of the second: that of the third isn't sent, and each is freed.
    Case {
        talks: [
            &[MADE, bound!(5), FREED],
            &[MADE, refused!(inc!(7), Kind::Set, BadStatus::Error), FREED],
            &[MADE, FREED],
        ],
        incs: [Some(5), Some(7), Some(8)],
        failing: &[],
        end: Ok(RunEnd::Bad(bad!(
            1,
            Why::Refused {
                call: inc!(7),
                status: BadStatus::Error,
            }
        ))),
        instants: 0,
        puts: 2,
        text: "trace 1 1000 0 20\nport 0 Int32 first y\nport 1 Int32 second y\nport 2 Int32 third y\nend fault 0\n",
    },
    // A Get of the second: the third isn't read, and the point has no instant.
    Case {
        talks: [
            &[
                MADE,
                ENTERED,
                EXITED,
                read!(3),
                FIRST_STEP,
                read!(4),
                TERMINATED,
                FREED,
            ],
            &[
                MADE,
                ENTERED,
                EXITED,
                read!(3),
                FIRST_STEP,
                refused!(GET, Kind::Get, BadStatus::Error),
                FREED,
            ],
            &[
                MADE,
                ENTERED,
                EXITED,
                read!(5),
                FIRST_STEP,
                TERMINATED,
                FREED,
            ],
        ],
        incs: UNBOUND,
        failing: &[],
        end: Ok(RunEnd::Bad(bad!(
            1,
            Why::Refused {
                call: GET,
                status: BadStatus::Error,
            }
        ))),
        instants: 1,
        puts: 3,
        text: "trace 1 1000 0 20\nport 0 Int32 first y\nport 1 Int32 second y\nport 2 Int32 third y\nat 0 0\n0 3\n1 3\n2 5\nend fault 10\n",
    },
    // A step of the second and of the third: all were asked, and the second is told.
    Case {
        talks: [
            &[
                MADE,
                ENTERED,
                EXITED,
                read!(3),
                FIRST_STEP,
                TERMINATED,
                FREED,
            ],
            &[
                MADE,
                ENTERED,
                EXITED,
                read!(4),
                refused!(STEP, Kind::DoStep, BadStatus::Discard),
                TERMINATED,
                FREED,
            ],
            &[MADE, ENTERED, EXITED, read!(5), wrong!(STEP), FREED],
        ],
        incs: UNBOUND,
        failing: &[],
        end: Ok(RunEnd::Bad(bad!(
            1,
            Why::Refused {
                call: STEP,
                status: BadStatus::Discard,
            }
        ))),
        instants: 1,
        puts: 3,
        text: "trace 1 1000 0 20\nport 0 Int32 first y\nport 1 Int32 second y\nport 2 Int32 third y\nat 0 0\n0 3\n1 4\n2 5\nend fault 0\n",
    },
    // Fatal in a step of the first: its sibling is sent nothing more, the third is closed.
    Case {
        talks: [
            &[
                MADE,
                ENTERED,
                EXITED,
                read!(3),
                refused!(STEP, Kind::DoStep, BadStatus::Fatal),
            ],
            &[MADE, ENTERED, EXITED, read!(4), FIRST_STEP],
            &[
                MADE,
                ENTERED,
                EXITED,
                read!(5),
                FIRST_STEP,
                TERMINATED,
                FREED,
            ],
        ],
        incs: UNBOUND,
        failing: &[],
        end: Ok(RunEnd::Bad(bad!(
            0,
            Why::Refused {
                call: STEP,
                status: BadStatus::Fatal,
            }
        ))),
        instants: 1,
        puts: 3,
        text: "trace 1 1000 0 20\nport 0 Int32 first y\nport 1 Int32 second y\nport 2 Int32 third y\nat 0 0\n0 3\n1 4\n2 5\nend fault 0\n",
    },
    // No answer of the third: it is sent nothing more, the others are closed.
    Case {
        talks: [
            &[
                MADE,
                ENTERED,
                EXITED,
                read!(3),
                FIRST_STEP,
                TERMINATED,
                FREED,
            ],
            &[
                MADE,
                ENTERED,
                EXITED,
                read!(4),
                FIRST_STEP,
                TERMINATED,
                FREED,
            ],
            &[MADE, ENTERED, EXITED, read!(5), failed!(STEP)],
        ],
        incs: UNBOUND,
        failing: &[],
        end: Ok(RunEnd::Bad(bad!(
            2,
            Why::Link {
                call: STEP,
                fault: PeerFault::Failed,
            }
        ))),
        instants: 1,
        puts: 3,
        text: "trace 1 1000 0 20\nport 0 Int32 first y\nport 1 Int32 second y\nport 2 Int32 third y\nat 0 0\n0 3\n1 4\n2 5\nend fault 0\n",
    },
    // On the way into Step Mode: each has entered Initialization Mode before the first leaves it.
    Case {
        talks: [
            &[MADE, ENTERED, EXITED, TERMINATED, FREED],
            &[
                MADE,
                ENTERED,
                refused!(
                    Call::ExitInitialization,
                    Kind::ExitInitialization,
                    BadStatus::Error
                ),
                FREED,
            ],
            &[MADE, ENTERED, FREED],
        ],
        incs: UNBOUND,
        failing: &[],
        end: Ok(RunEnd::Bad(bad!(
            1,
            Why::Refused {
                call: Call::ExitInitialization,
                status: BadStatus::Error,
            }
        ))),
        instants: 0,
        puts: 2,
        text: "trace 1 1000 0 20\nport 0 Int32 first y\nport 1 Int32 second y\nport 2 Int32 third y\nend fault 0\n",
    },
    // An instance that isn't made: the third isn't asked, and nothing is put.
    Case {
        talks: [
            &[MADE, FREED],
            &[refused!(MAKE, Kind::Instantiate, BadStatus::Discard)],
            &[],
        ],
        incs: UNBOUND,
        failing: &[],
        end: Err(PrepareFault::Bad(bad!(
            1,
            Why::Refused {
                call: MAKE,
                status: BadStatus::Discard,
            }
        ))),
        instants: 0,
        puts: 0,
        text: "",
    },
    // The put of the header fails: no call follows but those of the closing.
    Case {
        talks: [&[MADE, FREED], &[MADE, FREED], &[MADE, FREED]],
        incs: [Some(5); 3],
        failing: &[0],
        end: Ok(RunEnd::WriteFault),
        instants: 0,
        puts: 1,
        text: "",
    },
    // The put of the second instant fails.
    Case {
        talks: [
            &[
                MADE,
                ENTERED,
                EXITED,
                read!(3),
                FIRST_STEP,
                read!(4),
                TERMINATED,
                FREED,
            ],
            &[
                MADE,
                ENTERED,
                EXITED,
                read!(5),
                FIRST_STEP,
                read!(6),
                TERMINATED,
                FREED,
            ],
            &[
                MADE,
                ENTERED,
                EXITED,
                read!(7),
                FIRST_STEP,
                read!(8),
                TERMINATED,
                FREED,
            ],
        ],
        incs: UNBOUND,
        failing: &[2],
        end: Ok(RunEnd::WriteFault),
        instants: 1,
        puts: 3,
        text: "trace 1 1000 0 20\nport 0 Int32 first y\nport 1 Int32 second y\nport 2 Int32 third y\nat 0 0\n0 3\n1 5\n2 7\n",
    },
    // The put of the end line fails.
    Case {
        talks: [whole!(1, 1, 1), whole!(2, 2, 2), whole!(3, 3, 3)],
        incs: UNBOUND,
        failing: &[4],
        end: Ok(RunEnd::WriteFault),
        instants: 3,
        puts: 5,
        text: "trace 1 1000 0 20\nport 0 Int32 first y\nport 1 Int32 second y\nport 2 Int32 third y\nat 0 0\n0 1\n1 2\n2 3\nat 10 0\n0 1\n1 2\n2 3\nat 20 0\n0 1\n1 2\n2 3\n",
    },
    // Fatal at a Get of the second and then a put that fails: the closing is that after Fatal.
    Case {
        talks: [
            &[MADE, ENTERED, EXITED, read!(3)],
            &[
                MADE,
                ENTERED,
                EXITED,
                refused!(GET, Kind::Get, BadStatus::Fatal),
            ],
            &[MADE, ENTERED, EXITED, TERMINATED, FREED],
        ],
        incs: UNBOUND,
        failing: &[1],
        end: Ok(RunEnd::WriteFault),
        instants: 0,
        puts: 2,
        text: "trace 1 1000 0 20\nport 0 Int32 first y\nport 1 Int32 second y\nport 2 Int32 third y\n",
    },
];

// The answers of the talks.
fn make_scripts(alloc: Global, talks: &[&'static [Exchange]; 3]) -> Result<Scripts, AllocError> {
    let mut lists = Vec::new(alloc);
    for talk in talks {
        let mut answers = Vec::new(alloc);
        for exchange in *talk {
            answers.push(exchange.result)?;
        }
        lists.push(Items::from_vec(answers))?;
    }
    Ok(Scripts::new(alloc, lists, Vec::new(alloc)))
}

fn have_talks(scripts: &[Script], talks: &[&'static [Exchange]; 3]) -> bool {
    for (script, talk) in scripts.iter().zip(talks) {
        if script.talk() != Some(*talk) {
            return false;
        }
    }
    scripts.len() == talks.len()
}

fn has_put(out: &MemSink, text: &str, puts: u64) -> bool {
    out.bytes.as_slice() == text.as_bytes() && out.puts == puts
}

fn has_run(ran: &Ran<Script>, case: &Case) -> bool {
    ran.end == case.end
        && ran.instants == case.instants
        && have_talks(ran.peers.as_slice(), &case.talks)
}

// Whether a run of three has the case's text, end, instants and talks.
fn runs_as(rt: &(impl Abort + Threads + Sync), alloc: Global, case: &Case) -> Result<bool, Fail> {
    let mut out = MemSink::with_room(alloc, 400, 8, case.failing.to_vec(alloc)?)?;
    let mut scripts = make_scripts(alloc, &case.talks)?;
    let ran = run_trio(rt, alloc, case.incs, 20, &mut scripts, &mut out)?;
    Ok(has_run(&ran, case) && has_put(&out, case.text, case.puts))
}

#[test]
fn a_run_by_scripts_has_its_text_its_end_and_its_talks(rt: HostRuntime) -> Result<(), Fail> {
    let alloc = rt.alloc();
    for case in &CASES {
        assert!(rt; runs_as(&rt, alloc, case)?, "{}", case.text);
    }
    Ok(())
}

// What each of three counters counts by where that is bound, the stop of their run, how it ends, and its text.
static COUNTS: [([Option<i32>; 3], u64, RunEnd, &str); 4] = [
    (
        UNBOUND,
        20,
        RunEnd::Stop,
        "trace 1 1000 0 20\nport 0 Int32 first y\nport 1 Int32 second y\nport 2 Int32 third y\nat 0 0\n0 0\n1 0\n2 0\nat 10 0\n0 2\n1 2\n2 5\nat 20 0\n0 4\n1 4\n2 10\nend stop 20\n",
    ),
    (
        UNBOUND,
        0,
        RunEnd::Stop,
        "trace 1 1000 0 0\nport 0 Int32 first y\nport 1 Int32 second y\nport 2 Int32 third y\nat 0 0\n0 0\n1 0\n2 0\nend stop 0\n",
    ),
    (
        [Some(5), None, Some(-1)],
        20,
        RunEnd::Stop,
        "trace 1 1000 0 20\nport 0 Int32 first y\nport 1 Int32 second y\nport 2 Int32 third y\nat 0 0\n0 0\n1 0\n2 0\nat 10 0\n0 5\n1 2\n2 -1\nat 20 0\n0 10\n1 4\n2 -2\nend stop 20\n",
    ),
    // The last step would be shorter, which the third doesn't take.
    (
        UNBOUND,
        15,
        RunEnd::FixedStep {
            component: CompId(2),
            at: 10,
            end: 15,
        },
        "trace 1 1000 0 15\nport 0 Int32 first y\nport 1 Int32 second y\nport 2 Int32 third y\nat 0 0\n0 0\n1 0\n2 0\nat 10 0\n0 2\n1 2\n2 5\nend fixed 10\n",
    ),
];

// Whether a run of three has the row's text and end.
fn counts_as(
    rt: &(impl Abort + Threads + Sync),
    alloc: Global,
    row: &([Option<i32>; 3], u64, RunEnd, &str),
) -> Result<bool, Fail> {
    let (incs, stop, wanted, text) = *row;
    if stop > 1 << 62 {
        return Ok(false);
    }
    let mut out = MemSink::with_room(alloc, 400, 8, Vec::new(alloc))?;
    let mut bench = Bench::new(alloc, None, Vec::new(alloc));
    let ran = run_trio(rt, alloc, incs, stop, &mut bench, &mut out)?;
    Ok(ran.end == Ok(wanted) && out.bytes.as_slice() == text.as_bytes())
}

#[test]
fn counters_side_by_side_have_their_text(rt: HostRuntime) -> Result<(), Fail> {
    let alloc = rt.alloc();
    for row in &COUNTS {
        assert!(rt; counts_as(&rt, alloc, row)?, "{}", row.3);
    }
    Ok(())
}
