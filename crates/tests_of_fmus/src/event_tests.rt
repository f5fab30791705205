//! Machines with event mode and with Clocks: each goes through its modes, and samples, arms or ticks as it is to.
use crate::driving::{INITIALIZE, dependency, goes, shape, stepped, variable, variables};
use clock_fraction::Fraction;
use fmi_calls::{Call, Content, Interval};
use sim_base::Items;
use std::alloc::{AllocError, Global};
use value_types::{
    ByReference, Causality, ClockTiming, Dependency, IntervalVariability, PortType, Shape, Variable,
};

struct Modes {
    identifier: &'static str,
    event_mode: bool,
    early_return: bool,
    // the value of the parameter under reference 1, and what the variable under reference 2 is
    parameter: i128,
    second: Causality,
    // the calls after EnterInitialization
    steps: &'static [(Call, Content)],
}

macro_rules! modes {
    ($identifier:literal $parameter:expr, event $event:expr, early $early:expr, $second:ident, $steps:expr) => {
        Modes {
            identifier: $identifier,
            event_mode: $event,
            early_return: $early,
            parameter: $parameter,
            second: Causality::$second,
            steps: &$steps,
        }
    };
}

macro_rules! rung {
    ($at:expr, $end:expr, event $event:expr) => {
        (
            Call::DoStep {
                at: $at,
                size: 20,
            },
            Content::DoStep {
                event_needed: $event,
                terminate: false,
                early: true,
                end: $end,
            },
        )
    };
}

macro_rules! updated {
    ($again:expr) => {
        (
            Call::Update,
            Content::Update {
                again: $again,
                terminate: false,
                event_time: None,
            },
        )
    };
}

macro_rules! names_event {
    ($time:expr) => {
        (
            Call::Update,
            Content::Update {
                again: false,
                terminate: false,
                event_time: Some($time),
            },
        )
    };
}

macro_rules! shows {
    ($reference:expr, $word:expr) => {
        (
            Call::Get {
                kind: PortType::Int32,
                reference: $reference,
            },
            Content::Get { word: $word },
        )
    };
}

macro_rules! set {
    ($reference:expr, $value:expr) => {
        (
            Call::Set {
                kind: PortType::Int32,
                reference: $reference,
                value: $value,
            },
            Content::Set,
        )
    };
}

const EXIT: (Call, Content) = (Call::ExitInitialization, Content::ExitInitialization);

const ENTER_STEP: (Call, Content) = (Call::EnterStep, Content::EnterStep);

const ENTER_EVENT: (Call, Content) = (Call::EnterEvent, Content::EnterEvent);

// Each machine with event mode, and those that answer otherwise there without it too.
static MODES: [Modes; 10] = [
    modes!("counter" 2, event true, early false, Output, [
        EXIT, shows!(2, 0), updated!(false), ENTER_STEP, stepped!(0, 20),
        ENTER_EVENT, shows!(2, 2), updated!(false), shows!(2, 2), ENTER_STEP, stepped!(20, 40),
        ENTER_EVENT, shows!(2, 4),
    ]),
    modes!("gain" 3, event true, early false, Input, [
        set!(2, 5), shows!(3, 0), EXIT, shows!(3, 15), set!(2, 7), shows!(3, 15), updated!(false), shows!(3, 21), ENTER_STEP,
        stepped!(0, 20),
        ENTER_EVENT, set!(2, 1), shows!(3, 21), updated!(false), shows!(3, 3), ENTER_STEP, stepped!(20, 40),
    ]),
    modes!("alarm" 30, event true, early true, Output, [
        EXIT, shows!(2, 0), updated!(false), ENTER_STEP, stepped!(0, 20), rung!(20, 30, event true),
        ENTER_EVENT, shows!(2, 1), updated!(false), ENTER_STEP, stepped!(30, 50),
        ENTER_EVENT, shows!(2, 1),
    ]),
    modes!("alarm" 30, event false, early true, Output, [
        EXIT, stepped!(0, 20), shows!(2, 0), rung!(20, 30, event false), shows!(2, 1), stepped!(30, 50), shows!(2, 1),
    ]),
    modes!("alarm" 20, event false, early true, Output, [
        EXIT, stepped!(0, 20), stepped!(20, 40), shows!(2, 0),
    ]),
    modes!("alarm" 30, event false, early false, Output, [
        EXIT, stepped!(0, 20), stepped!(20, 40), shows!(2, 0),
    ]),
    modes!("settle" 2, event true, early false, Output, [
        EXIT, shows!(2, 0), updated!(true), updated!(true), updated!(false), shows!(2, 3), ENTER_STEP, stepped!(0, 20),
        ENTER_EVENT, shows!(2, 0), updated!(true), shows!(2, 1), updated!(true), updated!(false), ENTER_STEP,
        stepped!(20, 40),
    ]),
    modes!("settle" 2, event false, early false, Output, [
        EXIT, shows!(2, 0), stepped!(0, 20), shows!(2, 0),
    ]),
    modes!("waker" 20, event true, early false, Output, [
        EXIT, shows!(2, 0), names_event!(20), names_event!(20), shows!(2, 0), ENTER_STEP, stepped!(0, 20),
        ENTER_EVENT, shows!(2, 0), updated!(false), shows!(2, 1), ENTER_STEP, stepped!(20, 40),
        ENTER_EVENT, updated!(false), shows!(2, 1), ENTER_STEP,
    ]),
    modes!("waker" -1, event true, early false, Output, [
        EXIT, updated!(false), shows!(2, 0), ENTER_STEP, stepped!(0, 20),
    ]),
];

fn modes_variables(alloc: Global, modes: &Modes) -> Result<Vec<Variable>, AllocError> {
    let start = Some(modes.parameter);
    let rows = [
        (1, PortType::Int64, Causality::Parameter, start),
        (2, PortType::Int32, modes.second, Some(0)),
        (3, PortType::Int32, Causality::Output, None),
    ];
    variables(alloc, &rows)
}

fn modes_shape(alloc: Global, modes: &Modes) -> Result<Shape, AllocError> {
    let mut shape = shape(alloc, modes.identifier, modes_variables(alloc, modes)?)?;
    shape.has_event_mode = modes.event_mode;
    shape.might_return_early = modes.early_return;
    Ok(shape)
}

// The calls up to EnterInitialization.
fn begin(event_mode: bool, early_return: bool) -> [(Call, Content); 2] {
    let instantiate = Call::Instantiate {
        event_mode,
        early_return,
        batches: false,
    };
    [
        (instantiate, Content::Instantiate { batches: false }),
        (INITIALIZE, Content::EnterInitialization),
    ]
}

fn goes_through(alloc: Global, modes: &Modes) -> bool {
    let begin = begin(modes.event_mode, modes.early_return);
    match modes_shape(alloc, modes) {
        Ok(shape) => goes(alloc, &shape, &begin, modes.steps),
        Err(_) => false,
    }
}

#[test]
fn each_machine_goes_through_its_modes(rt: HostRuntime) {
    let alloc = rt.alloc();
    assert_eq!(rt;
        MODES.iter().position(|modes| !goes_through(alloc, modes)),
        None
    );
}

struct Port {
    reference: u32,
    kind: PortType,
    causality: Causality,
    // what clocks it
    clocks: &'static [u32],
    start: i128,
}

macro_rules! port {
    ($reference:literal $kind:ident $causality:ident $start:expr, by $clocks:expr) => {
        Port {
            reference: $reference,
            kind: PortType::$kind,
            causality: Causality::$causality,
            clocks: &$clocks,
            start: $start,
        }
    };
}

struct Clocked {
    identifier: &'static str,
    ports: &'static [Port],
    // the reference of its Clock, and how that varies
    clock: u32,
    variability: IntervalVariability,
    // what its outputs under 2 and 3 depend on
    on: &'static [u32],
    // the calls after EnterInitialization
    steps: &'static [(Call, Content)],
}

macro_rules! clocked {
    ($identifier:literal $ports:expr, $variability:ident $clock:literal, on $on:expr, $steps:expr) => {
        Clocked {
            identifier: $identifier,
            ports: &$ports,
            clock: $clock,
            variability: IntervalVariability::$variability,
            on: &$on,
            steps: &$steps,
        }
    };
}

macro_rules! tick {
    ($reference:expr) => {
        (
            Call::SetClock {
                reference: $reference,
            },
            Content::SetClock,
        )
    };
}

macro_rules! is_active {
    ($reference:expr, $word:expr) => {
        (
            Call::GetClock {
                reference: $reference,
            },
            Content::GetClock { word: $word },
        )
    };
}

macro_rules! interval {
    ($reference:expr, $interval:expr) => {
        (
            Call::GetInterval {
                reference: $reference,
            },
            Content::GetInterval {
                interval: $interval,
            },
        )
    };
}

macro_rules! shift {
    ($reference:expr, $shift:expr) => {
        (
            Call::GetShift {
                reference: $reference,
            },
            Content::GetShift { shift: $shift },
        )
    };
}

macro_rules! seconds {
    ($counter:expr, $resolution:expr) => {
        Fraction {
            counter: $counter,
            resolution: $resolution,
        }
    };
}

const NONE: Fraction = seconds!(0, 0);

const SAMPLER: [Port; 6] = [
    port!(1 Clock Input 0, by []),
    port!(2 Int32 Input 7, by [1]),
    port!(3 Int32 Output 0, by [1]),
    port!(4 Int64 Parameter 1, by []),
    port!(5 Int64 Parameter 100, by []),
    port!(6 Int64 Parameter 0, by []),
];

// A sampler that shows its input at once, and one that shows that of the tick before; a count that isn't one of 64 bits.
static SAMPLERS: [Clocked; 3] = [
    clocked!("sampler" SAMPLER, Fixed 1, on [2], [
        interval!(1, Interval::Changed(seconds!(1, 100))), shift!(1, seconds!(0, 100)), EXIT, updated!(false), ENTER_STEP,
        stepped!(0, 20),
        ENTER_EVENT, tick!(1), shows!(3, 7), updated!(false), ENTER_STEP, stepped!(20, 40),
        ENTER_EVENT, tick!(1), set!(2, 9), shows!(3, 9), updated!(false), ENTER_STEP,
    ]),
    clocked!("sampler" SAMPLER, Fixed 1, on [], [
        EXIT, updated!(false), ENTER_STEP, stepped!(0, 20),
        ENTER_EVENT, tick!(1), shows!(3, 0), updated!(false), ENTER_STEP, stepped!(20, 40),
        ENTER_EVENT, updated!(false), tick!(1), set!(2, 9), shows!(3, 7), updated!(false), tick!(1), shows!(3, 9), updated!(false), ENTER_STEP,
    ]),
    clocked!("sampler" [
        port!(1 Clock Input 0, by []),
        port!(4 Int64 Parameter 18_446_744_073_709_551_616, by []),
        port!(5 Int64 Parameter 3, by []),
        port!(6 Int64 Parameter -3, by []),
    ], Fixed 1, on [], [
        interval!(1, Interval::Changed(seconds!(18_446_744_073_709_551_615, 3))), shift!(1, seconds!(0, 3)), EXIT,
    ]),
];

// A timer that arms its Clock at 20 for the same point; and one that does so for 7 counts later, and whose Clock never
// ticks.
static TIMERS: [Clocked; 2] = [
    clocked!("timer" [
        port!(1 Int64 Parameter 20, by []),
        port!(2 Clock Input 0, by []),
        port!(3 Int32 Output 0, by []),
        port!(4 Int64 Parameter 0, by []),
    ], Countdown 2, on [], [
        EXIT, interval!(2, Interval::NotYetKnown), shows!(3, 0), updated!(false), ENTER_STEP, stepped!(0, 20),
        ENTER_EVENT, interval!(2, Interval::Changed(seconds!(0, 1000))), shows!(3, 0), updated!(false),
        tick!(2), shows!(3, 0), interval!(2, Interval::Unchanged(NONE)), updated!(false), shows!(3, 1), ENTER_STEP,
        stepped!(20, 40),
        ENTER_EVENT, interval!(2, Interval::Unchanged(NONE)), updated!(false), shows!(3, 1), ENTER_STEP,
    ]),
    clocked!("timer" [
        port!(1 Int64 Parameter 0, by []),
        port!(2 Clock Input 0, by []),
        port!(3 Int32 Output 0, by []),
        port!(4 Int64 Parameter 7, by []),
    ], Countdown 2, on [], [
        EXIT, interval!(2, Interval::Changed(seconds!(7, 1000))), updated!(false), interval!(2, Interval::Unchanged(NONE)),
        updated!(false), shows!(3, 0), ENTER_STEP,
    ]),
];

// A pulse whose intervals grow by a count.
static PULSE: Clocked = clocked!("pulse" [
    port!(1 Clock Input 0, by []),
    port!(2 Int64 Parameter 3, by []),
    port!(3 Int64 Parameter 2, by []),
    port!(4 Int32 Output 0, by []),
], Changing 1, on [], [
    shift!(1, seconds!(2, 1000)), EXIT, shows!(4, 0), updated!(false), shows!(4, 0), ENTER_STEP, stepped!(0, 20),
    ENTER_EVENT, tick!(1), interval!(1, Interval::Changed(seconds!(3, 1000))), shows!(4, 0), updated!(false),
    shows!(4, 1), ENTER_STEP, stepped!(20, 40),
    ENTER_EVENT, tick!(1), interval!(1, Interval::Changed(seconds!(4, 1000))), updated!(false), shows!(4, 2), ENTER_STEP,
]);

const RELAY: [Port; 3] = [
    port!(1 Int32 Input 0, by []),
    port!(2 Clock Output 0, by []),
    port!(3 Int32 Output 0, by [2]),
];

// A relay of 0, 2, 4 and 4, and one whose Clock doesn't depend on its input.
static RELAYS: [Clocked; 2] = [
    clocked!("relay" RELAY, Triggered 2, on [1], [
        EXIT, is_active!(2, 0), updated!(false), ENTER_STEP, stepped!(0, 20),
        ENTER_EVENT, set!(1, 2), is_active!(2, 1), shows!(3, 2), updated!(false), ENTER_STEP, stepped!(20, 40),
        ENTER_EVENT, set!(1, 4), is_active!(2, 1), shows!(3, 4), updated!(false), is_active!(2, 0), updated!(false), ENTER_STEP,
    ]),
    clocked!("relay" RELAY, Triggered 2, on [], [
        EXIT, set!(1, 2), is_active!(2, 0), updated!(false), ENTER_STEP,
    ]),
];

// A machine without Clocks of its own: its output is active where the count is odd, and it knows no interval.
static COUNTER: Clocked = clocked!("counter" [
    port!(1 Int64 Parameter 3, by []),
    port!(2 Clock Output 0, by []),
    port!(7 Clock Input 0, by []),
], Countdown 7, on [], [
    EXIT, is_active!(2, 0), interval!(7, Interval::NotYetKnown), updated!(false), ENTER_STEP, stepped!(0, 20),
    ENTER_EVENT, is_active!(2, 1), tick!(7), updated!(false), ENTER_STEP,
]);

fn clocked_variable(alloc: Global, port: &Port) -> Result<Variable, AllocError> {
    let clocks = Items::from_vec(port.clocks.to_vec(alloc)?);
    let start = Some(port.start);
    let mut variable = variable(alloc, port.reference, port.kind, port.causality, start)?;
    variable.clocks = clocks;
    Ok(variable)
}

fn clocked_variables(alloc: Global, ports: &[Port]) -> Result<Vec<Variable>, AllocError> {
    let mut variables = Vec::new(alloc);
    for port in ports {
        variables.push(clocked_variable(alloc, port)?)?;
    }
    Ok(variables)
}

fn clocks_of(alloc: Global, clocked: &Clocked) -> Result<ByReference<ClockTiming>, AllocError> {
    let timing = ClockTiming {
        reference: clocked.clock,
        variability: clocked.variability,
        supports_fraction: true,
        interval: None,
        shift: None,
    };
    ByReference::new(alloc, vec![in alloc; timing]?)
}

fn dependencies_of(
    alloc: Global,
    clocked: &Clocked,
) -> Result<ByReference<Dependency>, AllocError> {
    let second = dependency(alloc, 2, clocked.on)?;
    let third = dependency(alloc, 3, clocked.on)?;
    ByReference::new(alloc, vec![in alloc; second, third]?)
}

fn clocked_shape(alloc: Global, clocked: &Clocked) -> Result<Shape, AllocError> {
    let clocks = clocks_of(alloc, clocked)?;
    let dependencies = dependencies_of(alloc, clocked)?;
    let variables = clocked_variables(alloc, clocked.ports)?;
    let mut shape = shape(alloc, clocked.identifier, variables)?;
    shape.has_event_mode = true;
    shape.clocks = clocks;
    shape.dependencies = dependencies;
    Ok(shape)
}

fn goes_by_its_clock(alloc: Global, clocked: &Clocked) -> bool {
    match clocked_shape(alloc, clocked) {
        Ok(shape) => goes(alloc, &shape, &begin(true, false), clocked.steps),
        Err(_) => false,
    }
}

// The place of the first machine that goes otherwise.
fn first_wrong(alloc: Global, all: &[Clocked]) -> Option<usize> {
    all.iter()
        .position(|clocked| !goes_by_its_clock(alloc, clocked))
}

#[test]
fn a_sampler_samples_at_its_ticks(rt: HostRuntime) {
    assert_eq!(rt; first_wrong(rt.alloc(), &SAMPLERS), None);
}

#[test]
fn a_timer_arms_its_clock_once(rt: HostRuntime) {
    assert_eq!(rt; first_wrong(rt.alloc(), &TIMERS), None);
}

#[test]
fn a_pulse_tells_longer_intervals(rt: HostRuntime) {
    assert!(rt; goes_by_its_clock(rt.alloc(), &PULSE));
}

#[test]
fn a_relay_ticks_where_its_input_changed(rt: HostRuntime) {
    assert_eq!(rt; first_wrong(rt.alloc(), &RELAYS), None);
}

#[test]
fn another_machine_knows_no_interval(rt: HostRuntime) {
    assert!(rt; goes_by_its_clock(rt.alloc(), &COUNTER));
}
