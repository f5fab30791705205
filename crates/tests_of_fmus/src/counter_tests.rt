//! A counter without event mode: its types, its parameters, values that are written, and a state that is saved and comes back.
use crate::driving::{
    BEGIN, INITIALIZE, INSTANTIATE, counter_shape, goes, shape, step, stepped, variables,
};
use fmi_calls::{Call, Content};
use std::alloc::{AllocError, Global};
use value_types::{Causality, PortType, Shape};

// The type of y, the parameter inc, and the words of y in Initialization Mode and after each of three steps.
static COUNTS: [(PortType, i128, [u64; 4]); 13] = [
    (PortType::Int32, 2, [0, 2, 4, 6]),
    (
        PortType::Int32,
        -3,
        [
            0,
            18_446_744_073_709_551_613,
            18_446_744_073_709_551_610,
            18_446_744_073_709_551_607,
        ],
    ),
    (
        PortType::Int32,
        2_147_483_647,
        [0, 2_147_483_647, 18_446_744_073_709_551_614, 2_147_483_645],
    ),
    (
        PortType::Int8,
        100,
        [0, 100, 18_446_744_073_709_551_560, 44],
    ),
    (PortType::UInt8, 100, [0, 100, 200, 44]),
    (PortType::UInt8, 300, [0, 44, 88, 132]),
    (
        PortType::Int16,
        20_000,
        [
            0,
            20_000,
            18_446_744_073_709_526_080,
            18_446_744_073_709_546_080,
        ],
    ),
    (PortType::UInt16, 40_000, [0, 40_000, 14_464, 54_464]),
    (
        PortType::UInt32,
        3_000_000_000,
        [0, 3_000_000_000, 1_705_032_704, 410_065_408],
    ),
    (
        PortType::UInt64,
        -1,
        [
            0,
            18_446_744_073_709_551_615,
            18_446_744_073_709_551_614,
            18_446_744_073_709_551_613,
        ],
    ),
    (PortType::Enumeration, 7, [0, 7, 14, 21]),
    (PortType::Boolean, 1, [0, 1, 0, 1]),
    (
        PortType::Int64,
        9_223_372_036_854_775_807,
        [
            0,
            9_223_372_036_854_775_807,
            18_446_744_073_709_551_614,
            9_223_372_036_854_775_805,
        ],
    ),
];

// The parameter long, the size of a step, and whether it asks to end the simulation.
static LONGS: [(Option<i128>, u64, bool); 5] = [
    (Some(10), 9, false),
    (Some(10), 10, true),
    (Some(10), 11, true),
    (Some(0), 10, false),
    (None, 10, false),
];

const GET: Call = Call::Get {
    kind: PortType::Int32,
    reference: 2,
};

const SET_INC: Call = Call::Set {
    kind: PortType::Int64,
    reference: 1,
    value: 5,
};

// Runs of a counter by 2 up to its closing: the increment is set, or the state is saved and comes back twice.
static RUNS: [&[(Call, Content)]; 2] = [
    &[
        (INSTANTIATE, Content::Instantiate { batches: false }),
        (SET_INC, Content::Set),
        (INITIALIZE, Content::EnterInitialization),
        (Call::ExitInitialization, Content::ExitInitialization),
        stepped!(0, 20),
        (GET, Content::Get { word: 5 }),
        stepped!(20, 40),
        (GET, Content::Get { word: 10 }),
    ],
    &[
        (INSTANTIATE, Content::Instantiate { batches: false }),
        (INITIALIZE, Content::EnterInitialization),
        (Call::ExitInitialization, Content::ExitInitialization),
        stepped!(0, 20),
        (Call::Save, Content::Save),
        stepped!(20, 40),
        (GET, Content::Get { word: 4 }),
        (Call::Restore, Content::Restore),
        (GET, Content::Get { word: 2 }),
        stepped!(20, 40),
        (GET, Content::Get { word: 4 }),
        (Call::Restore, Content::Restore),
        (GET, Content::Get { word: 2 }),
        (Call::Free, Content::Free),
        stepped!(20, 40),
        stepped!(40, 60),
        (GET, Content::Get { word: 6 }),
        (Call::Save, Content::Save),
        (Call::Free, Content::Free),
    ],
];

// What reads y after Initialization Mode and after each of three steps.
fn steps_of(kind: PortType, words: &[u64; 4]) -> [(Call, Content); 8] {
    let get = Call::Get { kind, reference: 2 };
    let [first, second, third, fourth] = *words;
    [
        (get, Content::Get { word: first }),
        (Call::ExitInitialization, Content::ExitInitialization),
        step(0, 20, false),
        (get, Content::Get { word: second }),
        step(20, 20, false),
        (get, Content::Get { word: third }),
        step(40, 20, false),
        (get, Content::Get { word: fourth }),
    ]
}

fn counts(alloc: Global, row: &(PortType, i128, [u64; 4])) -> bool {
    match counter_shape(alloc, row.0, row.1, None) {
        Ok(shape) => goes(alloc, &shape, &BEGIN, &steps_of(row.0, &row.2)),
        Err(_) => false,
    }
}

#[test]
fn a_counter_counts(rt: HostRuntime) {
    let alloc = rt.alloc();
    assert_eq!(rt; COUNTS.iter().position(|row| !counts(alloc, row)), None);
}

fn runs(alloc: Global, steps: &[(Call, Content)]) -> bool {
    match counter_shape(alloc, PortType::Int32, 2, None) {
        Ok(shape) => goes(alloc, &shape, steps, &[]),
        Err(_) => false,
    }
}

#[test]
fn a_value_is_written_and_a_state_comes_back(rt: HostRuntime) {
    let alloc = rt.alloc();
    assert_eq!(rt; RUNS.iter().position(|steps| !runs(alloc, steps)), None);
}

fn asks_to_end(alloc: Global, row: &(Option<i128>, u64, bool)) -> bool {
    let (long, size, terminate) = *row;
    if size >= 60 {
        return false;
    }
    let exit = (Call::ExitInitialization, Content::ExitInitialization);
    match counter_shape(alloc, PortType::Int32, 1, long) {
        Ok(shape) => goes(alloc, &shape, &BEGIN, &[exit, step(0, size, terminate)]),
        Err(_) => false,
    }
}

#[test]
fn a_long_step_asks_to_end(rt: HostRuntime) {
    let alloc = rt.alloc();
    assert_eq!(rt; LONGS.iter().position(|row| !asks_to_end(alloc, row)), None);
}

// The types of the parameter inc and of the outputs y and 7, and the words of both after a step by 300 from a start of
// 300: under another reference than its own the counter shows the value.
static OTHERS: [(PortType, PortType, [u64; 2]); 3] = [
    (PortType::UInt16, PortType::Int8, [44, 44]),
    (PortType::Int32, PortType::Enumeration, [300, 300]),
    (PortType::Enumeration, PortType::Boolean, [0, 0]),
];

fn other_shape(alloc: Global, inc: PortType, kind: PortType) -> Result<Shape, AllocError> {
    let rows = [
        (1, inc, Causality::Parameter, Some(300)),
        (2, kind, Causality::Output, None),
        (7, kind, Causality::Output, Some(300)),
    ];
    shape(alloc, "counter", variables(alloc, &rows)?)
}

fn shows_both(alloc: Global, row: &(PortType, PortType, [u64; 2])) -> bool {
    let (inc, kind, [y, other]) = *row;
    let steps = [
        (Call::ExitInitialization, Content::ExitInitialization),
        step(0, 20, false),
        (Call::Get { kind, reference: 2 }, Content::Get { word: y }),
        (
            Call::Get { kind, reference: 7 },
            Content::Get { word: other },
        ),
    ];
    match other_shape(alloc, inc, kind) {
        Ok(shape) => goes(alloc, &shape, &BEGIN, &steps),
        Err(_) => false,
    }
}

#[test]
fn inc_and_y_have_any_type_and_another_output_shows_its_value(rt: HostRuntime) {
    let alloc = rt.alloc();
    assert_eq!(rt; OTHERS.iter().position(|row| !shows_both(alloc, row)), None);
}

// One with two parameters inc.
fn shape_with_two(alloc: Global) -> Result<Shape, AllocError> {
    let rows = [
        (7, PortType::Int32, Causality::Output, Some(4)),
        (1, PortType::Int64, Causality::Parameter, Some(3)),
        (1, PortType::Int64, Causality::Parameter, Some(9)),
        (2, PortType::Int32, Causality::Output, None),
    ];
    shape(alloc, "counter", variables(alloc, &rows)?)
}

fn counts_by_the_first(alloc: Global) -> bool {
    match shape_with_two(alloc) {
        Ok(shape) => goes(
            alloc,
            &shape,
            &BEGIN,
            &steps_of(PortType::Int32, &[0, 3, 6, 9]),
        ),
        Err(_) => false,
    }
}

#[test]
fn variables_with_one_reference_have_one_value(rt: HostRuntime) {
    assert!(rt; counts_by_the_first(rt.alloc()));
}
