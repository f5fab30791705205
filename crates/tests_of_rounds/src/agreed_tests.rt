//! An agreed step over FMUs from scripts, some of which return early.
ghost use Rattle.std.specs.Prelude.{◌≡◌, ◌<◌, ◌≤◌, ◌^◌, ℕ, All, IsTrue, length};
ghost use Rattle.rollback.specs.Asked.{MayBeSaved};
ghost use Rattle.rollback.specs.Standing.{IsReady};

use crate::exchanges::{
    BACK_FROM_4, BACK_FROM_7, BACK_FROM_9, BACK_TO_4, BACK_TO_ERROR, BACK_TWICE_FROM_7, FIRST_AT_4,
    FIRST_AT_5, FIRST_AT_7, FIRST_AT_7_AND_4, FIRST_ERROR, GOOD, NOT_EARLY, SHORT_OF_4, TO_7,
    TO_ERROR, UNASKED,
};
use crate::scripts::make_script;
use crate::slots::{into_closed, slot_of};
use bench_fmus::Script;
use fmi_calls::{BadStatus, Call, InstanceState};
use fmu_peer::{Exchange, Held, Job, Peer, Slot, Why, close_all};
use rollback::{Agreed, StepEnd, agreed_step};
use sim_base::CompId;
use slot_calls::BadAnswer;
use std::alloc::Global;
use std::process::Abort;
use std::thread::Threads;

const WORKERS: [u32; 5] = [1, 2, 3, 5, 64];

// The talks of three FMUs, and what their step from 0 to 10 comes to.
struct Case {
    talks: [&'static [Exchange]; 3],
    result: Result<Agreed, StepEnd>,
}

const CASES: [Case; 9] = [
    // None returns early: nothing is saved.
    Case {
        talks: [GOOD, GOOD, GOOD],
        result: Ok(Agreed {
            point: 10,
            asked: false,
        }),
    },
    // One does, and was asked first: the others are asked for its end alone, and nothing is saved.
    Case {
        talks: [TO_7, FIRST_AT_7, TO_7],
        result: Ok(Agreed {
            point: 7,
            asked: false,
        }),
    },
    // One might and doesn't.
    Case {
        talks: [GOOD, GOOD, NOT_EARLY],
        result: Ok(Agreed {
            point: 10,
            asked: false,
        }),
    },
    // The first answer isn't good: the others aren't asked.
    Case {
        talks: [UNASKED, FIRST_ERROR, UNASKED],
        result: Err(StepEnd::Bad(BadAnswer {
            component: CompId(1),
            why: Why::Refused {
                call: Call::DoStep { at: 0, size: 10 },
                status: BadStatus::Error,
            },
        })),
    },
    // An answer of the others isn't good.
    Case {
        talks: [TO_7, FIRST_AT_7, TO_ERROR],
        result: Err(StepEnd::Bad(BadAnswer {
            component: CompId(2),
            why: Why::Refused {
                call: Call::DoStep { at: 0, size: 7 },
                status: BadStatus::Error,
            },
        })),
    },
    // Two return early: all are saved, and the least end counts.
    Case {
        talks: [BACK_FROM_7, FIRST_AT_4, BACK_TO_4],
        result: Ok(Agreed {
            point: 4,
            asked: false,
        }),
    },
    // The third doesn't reach the least end, 4: all begin anew, with the bound 3.
    Case {
        talks: [BACK_TWICE_FROM_7, BACK_FROM_4, SHORT_OF_4],
        result: Ok(Agreed {
            point: 3,
            asked: false,
        }),
    },
    // The bounds are 10, 6 and 4.
    Case {
        talks: [FIRST_AT_7_AND_4, FIRST_AT_5, BACK_FROM_9],
        result: Ok(Agreed {
            point: 4,
            asked: false,
        }),
    },
    // An answer of the second asking isn't good.
    Case {
        talks: [BACK_FROM_7, FIRST_AT_4, BACK_TO_ERROR],
        result: Err(StepEnd::Bad(BadAnswer {
            component: CompId(2),
            why: Why::Refused {
                call: Call::DoStep { at: 0, size: 4 },
                status: BadStatus::Error,
            },
        })),
    },
];

fn is_ready<L: Peer>(slot: &Slot<L>, t: u64, bound: u64) -> bool
    ensures { IsTrue result → (step : ℕ) → IsReady L.view t bound step slot.now }
{
    let phase = slot.held.peer().phase();
    matches!(slot.held, Held::Stepping(_))
        && phase.state == InstanceState::Step
        && phase.first_size.is_none()
        && bound <= phase.stop
        && phase.point == t
        && !phase.slot.is_full
        && slot.saved.is_none()
}

fn assert_ready<L: Peer>(rt: &impl Abort, slots: &[Slot<L>], t: u64, bound: u64)
    ensures { (step : ℕ) → All (IsReady L.view t bound step) slots.now }
{
    match slots.split_first() {
        None => {}
        Some((first, rest)) => {
            assert!(rt; is_ready(first, t, bound));
            assert_ready(rt, rest, t, bound);
        }
    }
}

fn can_be_saved<L: Peer>(slot: &Slot<L>) -> bool
    ensures { IsTrue result → (early : ℕ) → MayBeSaved L.view early slot.now }
{
    slot.held.peer().shape().can_save_state
}

fn assert_savable<L: Peer>(rt: &impl Abort, slots: &[Slot<L>])
    ensures { (early : ℕ) → All (MayBeSaved L.view early) slots.now }
{
    match slots.split_first() {
        None => {}
        Some((first, rest)) => {
            assert!(rt; can_be_saved(first));
            assert_savable(rt, rest);
        }
    }
}

fn step_to<R: Abort + Threads + Sync, L: Peer>(
    rt: &R,
    slots: &mut [Slot<L>],
    bound: u64,
    workers: u32,
) -> Result<Agreed, StepEnd>
    requires few { length slots.old ≤ 2 ^ 32 }
    requires later { 0 < bound }
{
    assert_ready(rt, slots, 0, bound);
    assert_savable(rt, slots);
    let mut unmade = StepEnd::FixedStep {
        component: CompId(0),
        at: 0,
        end: bound,
    };
    match agreed_step(rt, slots, 0, bound, 10, workers, &mut unmade) {
        Some(agreed) => Ok(agreed),
        None => Err(unmade),
    }
}

fn make<R: Abort>(rt: &R, alloc: Global, component: u32, talk: &[Exchange]) -> Slot<Script> {
    let script = make_script(rt, alloc, talk).expect(rt, "memory is left");
    slot_of(rt, component, script, Job::Nothing)
}

// Whether the FMU is closed and had this talk.
fn had_talk(rt: &impl Abort, slot: Slot<Script>, talk: &[Exchange]) -> bool {
    let script = into_closed(rt, slot);
    script.talk() == Some(talk)
}

// Whether the case has its result and its talks by so many workers.
fn are_met<R: Abort + Threads + Sync>(rt: &R, alloc: Global, case: &Case, workers: u32) -> bool {
    let [first, second, third] = &case.talks;
    let mut slots = [
        make(rt, alloc, 0, first),
        make(rt, alloc, 1, second),
        make(rt, alloc, 2, third),
    ];
    let agreed = step_to(rt, &mut slots, 10, workers);
    close_all(&mut slots);
    let [one, two, three] = slots;
    let is_first = had_talk(rt, one, first);
    let is_second = had_talk(rt, two, second);
    let is_third = had_talk(rt, three, third);
    agreed == case.result && is_first && is_second && is_third
}

#[test]
fn fmus_that_return_early_are_met(rt: HostRuntime) {
    let alloc = rt.alloc();
    for case in &CASES {
        for workers in &WORKERS {
            assert!(rt; are_met(&rt, alloc, case, *workers), "by {workers} workers");
        }
    }
}
