use crate::exchanges::{ERROR, FATAL, GOOD, STEP};
use crate::scripts::make_script;
use crate::slots::{into_closed, slot_of, work};
use bench_fmus::Script;
use fmi_calls::BadStatus;
use fmu_peer::{Exchange, Job, Slot, Why, close_all};
use sim_base::CompId;
use slot_calls::BadAnswer;
use std::alloc::Global;
use std::process::Abort;

// Of seven FMUs the second answers Error, and the fifth Fatal.
const TALKS: [&[Exchange]; 7] = [GOOD, ERROR, GOOD, GOOD, FATAL, GOOD, GOOD];

const WORKERS: [u32; 6] = [0, 1, 2, 3, 5, 64];

fn start(rt: &impl Abort, alloc: Global, component: usize) -> Slot<Script> {
    assert!(rt; component < TALKS.len());
    let script = make_script(rt, alloc, TALKS[component]).expect(rt, "memory is left");
    slot_of(rt, component as u32, script, Job::Step { at: 0, size: 10 })
}

// The FMU is closed and had this talk.
fn assert_closed(rt: &impl Abort, slot: Slot<Script>, talk: &[Exchange]) {
    assert!(rt; into_closed(rt, slot).talk() == Some(talk));
}

#[test]
fn a_round_is_the_same_by_any_number_of_workers(rt: HostRuntime) {
    let alloc = rt.alloc();
    for workers in &WORKERS {
        let mut slots = [
            start(&rt, alloc, 0),
            start(&rt, alloc, 1),
            start(&rt, alloc, 2),
            start(&rt, alloc, 3),
            start(&rt, alloc, 4),
            start(&rt, alloc, 5),
            start(&rt, alloc, 6),
        ];
        let first = work(&rt, &mut slots, *workers);
        let refused = Why::Refused {
            call: STEP,
            status: BadStatus::Error,
        };
        assert!(rt;
            first
                == Some(BadAnswer {
                    component: CompId(1),
                    why: refused
                }),
            "by {workers} workers"
        );
        close_all(&mut slots);
        let [a, b, c, d, e, f, g] = slots;
        assert_closed(&rt, a, GOOD);
        assert_closed(&rt, b, ERROR);
        assert_closed(&rt, c, GOOD);
        assert_closed(&rt, d, GOOD);
        assert_closed(&rt, e, FATAL);
        assert_closed(&rt, f, GOOD);
        assert_closed(&rt, g, GOOD);
    }
}
