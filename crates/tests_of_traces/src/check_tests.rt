ghost use Rattle.std.specs.Prelude.{IsTrue};
ghost use Rattle.trace_check.specs.Ticks.{HasLimitedClocks, HasLimits};

use clock_fraction::Fraction;
use sim_base::{CompId, Items, PartedText, PortId, SourceId, Text};
use std::alloc::{AllocError, Global};
use std::test::Fail;
use system_model::{Component, Feed, Port, Role, System, Timing};
use trace_check::{Verdict, check};
use trace_reading::read_trace;
use value_types::{ByReference, ClockTiming, IntervalVariability, PortType, Shape};

// The trace of two samplers, the first of which feeds the second: with an interval of a second and a shift of a hundredth
// of one, and with an interval of a hundredth of a second.
static SAMPLERS: [&str; 23] = [
    "trace 1 1000 0 20",
    "port 0 Clock a c",
    "port 1 Int32 a u",
    "port 2 Int32 a y",
    "port 3 Clock b c",
    "port 4 Int32 b u",
    "port 5 Int32 b y",
    "at 0 0",
    "0 0",
    "3 1",
    "5 0",
    "at 10 0",
    "0 1",
    "2 7",
    "3 1",
    "4 7",
    "5 7",
    "at 20 0",
    "0 0",
    "2 7",
    "3 1",
    "4 7",
    "5 7",
];

fn port(
    alloc: Global,
    component: u32,
    name: &str,
    reference: u32,
    role: Role,
    clock: Option<u32>,
) -> Result<Port, AllocError> {
    let mut clocks = Vec::new(alloc);
    if let Some(clock) = clock {
        clocks.push(PortId(clock))?;
    }
    Ok(Port {
        component: CompId(component),
        name: Text::from_str(alloc, name)?,
        kind: match role {
            Role::TimeClock { .. } => PortType::Clock,
            _ => PortType::Int32,
        },
        reference,
        role,
        clocks: Items::from_vec(clocks),
    })
}

fn constant(interval: Fraction, shift: Fraction) -> ClockTiming {
    ClockTiming {
        reference: 1,
        variability: IntervalVariability::Constant,
        supports_fraction: false,
        interval: Some(interval),
        shift: Some(shift),
    }
}

fn shape(alloc: Global, interval: Fraction, shift: Fraction) -> Result<Shape, AllocError> {
    let identifier = Text::from_str(alloc, "sampler")?;
    let token = Text::from_str(alloc, "{s}")?;
    let clocks = vec![in alloc; constant(interval, shift)]?;
    let clocks = ByReference::new(alloc, clocks)?;
    let variables = ByReference::new(alloc, Vec::new(alloc))?;
    let dependencies = ByReference::new(alloc, Vec::new(alloc))?;
    Ok(Shape {
        identifier,
        token,
        resolution: 1000,
        has_event_mode: true,
        might_return_early: false,
        has_variable_steps: true,
        can_save_state: true,
        can_serialize_state: false,
        variables,
        clocks,
        dependencies,
        initial_dependencies: ByReference::new(alloc, Vec::new(alloc))?,
    })
}

fn sampler(
    alloc: Global,
    name: &str,
    interval: Fraction,
    shift: Fraction,
) -> Result<Component, AllocError> {
    let name = PartedText::from_text(alloc, Text::from_str(alloc, name)?)?;
    Ok(Component {
        name,
        source: SourceId(0),
        shape: shape(alloc, interval, shift)?,
    })
}

fn clock(interval: u128, shift: u128) -> Role {
    Role::TimeClock {
        timing: Timing::Periodic { interval, shift },
    }
}

// A fraction of a second.
fn of_second(counter: u64, resolution: u64) -> Fraction {
    Fraction {
        counter,
        resolution,
    }
}

fn components(alloc: Global) -> Result<Vec<Component>, AllocError> {
    let hundredth = of_second(1, 100);
    let first = sampler(alloc, "a", of_second(1, 1), hundredth)?;
    Ok(vec![in alloc; first, sampler(alloc, "b", hundredth, of_second(0, 1))?]?)
}

fn ports(alloc: Global, feed: Feed) -> Result<Vec<Port>, AllocError> {
    let unconnected = Role::Input { feed: None };
    let connected = Role::Input { feed: Some(feed) };
    let mut ports = Vec::new(alloc);
    ports.push(port(alloc, 0, "c", 1, clock(1000, 10), None)?)?;
    ports.push(port(alloc, 0, "u", 2, unconnected, Some(0))?)?;
    ports.push(port(alloc, 0, "y", 3, Role::Output, Some(0))?)?;
    ports.push(port(alloc, 1, "c", 1, clock(10, 0), None)?)?;
    ports.push(port(alloc, 1, "u", 2, connected, Some(3))?)?;
    ports.push(port(alloc, 1, "y", 3, Role::Output, Some(3))?)?;
    Ok(ports)
}

// The samplers, of which the second is fed so.
fn samplers(alloc: Global, feed: Feed) -> Result<System, AllocError> {
    let ports = ports(alloc, feed)?;
    Ok(System {
        components: Items::from_vec(components(alloc)?),
        ports: Items::from_vec(ports),
        instant_order: Items::from_vec(Vec::new(alloc)),
        initial_order: Items::from_vec(Vec::new(alloc)),
    })
}

// A feed by the thirtyfold of the first's output.
fn thirtyfold(alloc: Global) -> Result<Feed, AllocError> {
    let change = parameter_values::Change::Linear {
        factor: 30,
        offset: 0,
    };
    let mut changes = Vec::with_capacity(alloc, 1)?;
    changes.push(change)?;
    Ok(Feed {
        from: PortId(2),
        changes: Items::from_vec(changes),
    })
}

const LIMIT: u128 = 1 << 126;

fn is_limited(port: &Port) -> bool
    ensures { IsTrue result → HasLimits port.now.role }
{
    match port.role {
        Role::Input { .. } | Role::Output | Role::ClockInput { .. } | Role::ClockOutput => true,
        Role::TimeClock { timing } => match timing {
            Timing::Periodic { interval, shift } => {
                interval > 0 && interval <= LIMIT && shift <= LIMIT
            }
            Timing::Answered | Timing::Countdown | Timing::Changing => true,
        },
    }
}

// Whether each interval that is known before the run is within the limits.
fn keeps_limits(system: &System) -> bool
    ensures { IsTrue result → HasLimitedClocks system.now }
{
    for port in system.ports.as_slice() {
        if !is_limited(port) {
            return false;
        }
    }
    true
}

// Other lines in place of some, from the first number to the last, how the run ended, and the first line that breaks a
// rule with the rule.
type Change = (usize, usize, &'static str, &'static str, (u64, u8));

// The text with a change.
fn changed(alloc: Global, change: &Change) -> Result<String, AllocError> {
    let mut text = String::new(alloc);
    for k in 0..SAMPLERS.len() {
        if k + 1 == change.0 {
            text.push_str(change.2)?;
        }
        if k + 1 < change.0 || change.1 < k + 1 {
            text.push_str(SAMPLERS[k])?;
            text.push_str("\n")?;
        }
    }
    text.push_str(change.3)?;
    Ok(text)
}

fn is_verdict(verdict: &Verdict, first: &(u64, u8)) -> bool {
    match verdict {
        Verdict::Yes => *first == (0, 0),
        Verdict::No { line, rule } => *line == first.0 && *rule == first.1,
    }
}

fn is_told(alloc: Global, system: &System, change: &Change) -> bool
    requires { HasLimitedClocks system.now }
{
    let Ok(text) = changed(alloc, change) else {
        return false;
    };
    let Ok(trace) = read_trace(alloc, text.as_bytes()) else {
        return false;
    };
    match check(alloc, system, &trace) {
        Ok(verdict) => is_verdict(&verdict, &change.4),
        Err(_) => false,
    }
}

static VALUES: [Change; 8] = [
    (1, 0, "", "end stop 20\n", (0, 0)),
    (16, 16, "4 8\n", "end stop 20\n", (16, 3)),
    (16, 16, "", "end stop 20\n", (12, 3)),
    (14, 14, "", "end stop 20\n", (15, 3)),
    (13, 13, "0 0\n", "end stop 20\n", (12, 4)),
    (10, 10, "3 0\n", "end stop 20\n", (8, 4)),
    (12, 17, "", "end stop 20\n", (12, 4)),
    (7, 7, "port 5 Int32 b z\n", "end stop 20\n", (7, 1)),
];

static ORDERS: [Change; 9] = [
    (8, 8, "at 10 0\n", "end stop 20\n", (8, 2)),
    (8, 8, "at 0 1\n", "end stop 20\n", (8, 2)),
    (12, 12, "at 0 0\n", "end stop 20\n", (12, 2)),
    (18, 18, "at 10 2\n", "end stop 20\n", (18, 2)),
    (18, 18, "at 30 0\n", "end stop 20\n", (18, 2)),
    (1, 1, "trace 1 1000 0 25\n", "end stop 25\n", (24, 2)),
    (1, 0, "", "end stop 10\n", (24, 2)),
    (1, 0, "", "end asked 10\n", (0, 0)),
    (8, 23, "", "end fault 0\n", (0, 0)),
];

// Of the samplers whose second takes the thirtyfold.
static SCALED: [Change; 3] = [
    (
        12,
        23,
        "at 10 0\n0 1\n2 7\n3 1\n4 210\n5 7\n",
        "end range 20\n",
        (0, 0),
    ),
    (
        12,
        23,
        "at 10 0\n0 1\n2 7\n3 1\n4 7\n5 7\n",
        "end range 20\n",
        (16, 3),
    ),
    (
        12,
        23,
        "at 10 0\n0 1\n2 7\n3 1\n5 7\n",
        "end range 20\n",
        (12, 3),
    ),
];

// The place of the first change of which something else is told.
fn first_wrong(alloc: Global, system: &System, changes: &[Change]) -> Option<usize>
    requires { HasLimitedClocks system.now }
{
    for k in 0..changes.len() {
        if !is_told(alloc, system, &changes[k]) {
            return Some(k);
        }
    }
    None
}

#[test]
fn the_first_line_that_breaks_a_rule_is_told(rt: HostRuntime) -> Result<(), Fail> {
    let system = samplers(rt.alloc(), Feed::plain(rt.alloc(), PortId(2)))?;
    assert!(rt; keeps_limits(&system));
    assert_eq!(rt; first_wrong(rt.alloc(), &system, &VALUES), None);
    assert_eq!(rt; first_wrong(rt.alloc(), &system, &ORDERS), None);
    Ok(())
}

#[test]
fn an_input_has_what_its_path_makes(rt: HostRuntime) -> Result<(), Fail> {
    let system = samplers(rt.alloc(), thirtyfold(rt.alloc())?)?;
    assert!(rt; keeps_limits(&system));
    assert_eq!(rt; first_wrong(rt.alloc(), &system, &SCALED), None);
    Ok(())
}
