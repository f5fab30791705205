//! A gain without event mode: products in each kind of type, and when an input shows at the output.
use crate::driving::{BEGIN, dependency, goes, shape, step, variables};
use fmi_calls::{Call, Content};
use std::alloc::{AllocError, Global};
use value_types::{ByReference, Causality, Dependency, PortType, Shape, Variable};

struct Gain {
    // the type of its variables
    kind: PortType,
    // what the factor is, and its start
    factor: Causality,
    start: i128,
    // what the output depends on
    on: &'static [u32],
    // what the input is set to in Initialization Mode, and before the step
    set: [i128; 2],
    // the words of the output in Initialization Mode, after it, and after the step
    words: [u64; 3],
}

macro_rules! gain {
    ($kind:ident, $factor:ident $start:expr, on $on:expr, $set:expr => $words:expr) => {
        Gain {
            kind: PortType::$kind,
            factor: Causality::$factor,
            start: $start,
            on: &$on,
            set: $set,
            words: $words,
        }
    };
}

const GREATEST: i128 = 18_446_744_073_709_551_615;

const LEAST: i128 = -9_223_372_036_854_775_808;

const MINUS_56: u64 = 18_446_744_073_709_551_560;

// Products worked out by hand. What the output doesn't depend on counts with its value when time last went on.
static GAINS: [Gain; 10] = [
    gain!(Int32, Parameter 3, on [2], [5, 7] => [15, 15, 21]),
    gain!(Int32, Parameter 3, on [], [5, 7] => [0, 15, 21]),
    gain!(Int32, Input 3, on [1, 2], [5, 7] => [15, 15, 21]),
    gain!(Int32, Input 3, on [1], [5, 7] => [0, 15, 21]),
    gain!(Int32, Input 3, on [2], [5, 7] => [0, 25, 49]),
    gain!(Int8, Parameter 100, on [2], [2, 3] => [MINUS_56, MINUS_56, 44]),
    gain!(Boolean, Parameter 1, on [], [1, 0] => [0, 1, 0]),
    gain!(Enumeration, Parameter -1, on [2], [1, 0] => [18_446_744_073_709_551_615, 18_446_744_073_709_551_615, 0]),
    gain!(UInt64, Parameter GREATEST, on [2], [GREATEST, 2] => [1, 1, 18_446_744_073_709_551_614]),
    gain!(Int64, Parameter LEAST, on [], [LEAST, 3] => [0, 0, 9_223_372_036_854_775_808]),
];

fn on(alloc: Global, references: &[u32]) -> Result<ByReference<Dependency>, AllocError> {
    ByReference::new(alloc, vec![in alloc; dependency(alloc, 3, references)?]?)
}

fn gain_variables(alloc: Global, gain: &Gain) -> Result<Vec<Variable>, AllocError> {
    let rows = [
        (1, gain.kind, gain.factor, Some(gain.start)),
        (2, gain.kind, Causality::Input, Some(0)),
        (3, gain.kind, Causality::Output, None),
    ];
    variables(alloc, &rows)
}

fn gain_shape(alloc: Global, gain: &Gain) -> Result<Shape, AllocError> {
    let dependencies = on(alloc, gain.on)?;
    let initial_dependencies = on(alloc, gain.on)?;
    let mut shape = shape(alloc, "gain", gain_variables(alloc, gain)?)?;
    shape.dependencies = dependencies;
    shape.initial_dependencies = initial_dependencies;
    Ok(shape)
}

// Sets the input, and reads the output.
fn set_input(gain: &Gain, value: i128) -> (Call, Content) {
    let kind = gain.kind;
    let reference = 2;
    (
        Call::Set {
            kind,
            reference,
            value,
        },
        Content::Set,
    )
}

fn read_output(gain: &Gain, word: u64) -> (Call, Content) {
    let kind = gain.kind;
    let reference = 3;
    (Call::Get { kind, reference }, Content::Get { word })
}

fn multiplies(alloc: Global, gain: &Gain) -> bool {
    let [initial, later] = gain.set;
    let [first, second, third] = gain.words;
    let steps = [
        set_input(gain, initial),
        read_output(gain, first),
        (Call::ExitInitialization, Content::ExitInitialization),
        read_output(gain, second),
        set_input(gain, later),
        step(0, 20, false),
        read_output(gain, third),
    ];
    match gain_shape(alloc, gain) {
        Ok(shape) => goes(alloc, &shape, &BEGIN, &steps),
        Err(_) => false,
    }
}

#[test]
fn a_gain_multiplies(rt: HostRuntime) {
    let alloc = rt.alloc();
    assert_eq!(rt;
        GAINS.iter().position(|gain| !multiplies(alloc, gain)),
        None
    );
}
