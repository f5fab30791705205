use sim_base::{Items, Text};
use std::alloc::{AllocError, Global};
use std::test::Fail;
use value_types::{
    ByReference, Causality, Class, ClockTiming, Dependency, Fraction, IntervalVariability, Joint,
    Knowns, PortType, Shape, Variable, class_of, connectable, fits, from_word, greatest_value,
    least_value, read_value, to_word,
};

static KINDS: [PortType; 11] = [
    PortType::Int8,
    PortType::UInt8,
    PortType::Int16,
    PortType::UInt16,
    PortType::Int32,
    PortType::UInt32,
    PortType::Int64,
    PortType::UInt64,
    PortType::Boolean,
    PortType::Enumeration,
    PortType::Clock,
];

// the row of an output, the column of an input: F fits, T is another type, R has another range
static JOINTS: [&str; 11] = [
    "FRFRFRFRTTT",
    "RFFFFFFFTTT",
    "RRFRFRFRTTT",
    "RRRFFFFFTTT",
    "RRRRFRFRTTT",
    "RRRRRFFFTTT",
    "RRRRRRFRTTT",
    "RRRRRRRFTTT",
    "TTTTTTTTFTT",
    "TTTTTTTTTFT",
    "TTTTTTTTTTF",
];

static WORDS: [(PortType, u64, Option<i128>); 16] = [
    (PortType::Int8, 0xFFFF_FFFF_FFFF_FF80, Some(-128)),
    (PortType::Int8, 0xFFFF_FFFF_FFFF_FF7F, None),
    (PortType::Int8, 0x80, None),
    (PortType::Int8, 0x7F, Some(127)),
    (PortType::UInt8, 0xFF, Some(255)),
    (PortType::UInt8, 0x100, None),
    (PortType::Int16, 0xFFFF_FFFF_FFFF_8000, Some(-32_768)),
    (PortType::UInt16, 0xFFFF_FFFF_FFFF_FFFF, None),
    (PortType::Int32, 0xFFFF_FFFF_FFFF_FFFF, Some(-1)),
    (PortType::UInt32, 0xFFFF_FFFF, Some(4_294_967_295)),
    (PortType::Int64, 1 << 63, Some(-9_223_372_036_854_775_808)),
    (
        PortType::UInt64,
        0xFFFF_FFFF_FFFF_FFFF,
        Some(18_446_744_073_709_551_615),
    ),
    (PortType::Boolean, 1, Some(1)),
    (PortType::Boolean, 2, None),
    (PortType::Enumeration, 0xFFFF_FFFF_FFFF_FFFE, Some(-2)),
    (PortType::Clock, 2, None),
];

static TEXTS: [(PortType, &str, Option<i128>); 24] = [
    (PortType::Int8, "127", Some(127)),
    (PortType::Int8, "128", None),
    (PortType::Int8, "-128", Some(-128)),
    (PortType::Int8, "-129", None),
    (PortType::UInt8, "-0", Some(0)),
    (PortType::UInt8, "+5", Some(5)),
    (PortType::UInt8, "-1", None),
    (
        PortType::UInt64,
        "18446744073709551615",
        Some(18_446_744_073_709_551_615),
    ),
    (PortType::UInt64, "18446744073709551616", None),
    (
        PortType::Int64,
        "-9223372036854775808",
        Some(-9_223_372_036_854_775_808),
    ),
    (
        PortType::Int32,
        "0000000000000000000000000000000000000000000000000007",
        Some(7),
    ),
    (
        PortType::Int32,
        "99999999999999999999999999999999999999999999999999",
        None,
    ),
    (PortType::Int32, "", None),
    (PortType::Int32, "+", None),
    (PortType::Int32, "--1", None),
    (PortType::Int32, " 1", None),
    (PortType::Int32, "1.0", None),
    (PortType::Boolean, "true", Some(1)),
    (PortType::Boolean, "0", Some(0)),
    (PortType::Boolean, "True", None),
    (PortType::Boolean, "+1", None),
    (PortType::Enumeration, "-3", Some(-3)),
    (PortType::Clock, "1", Some(1)),
    (PortType::Clock, "2", None),
];

fn letter(joint: Joint) -> u8 {
    match joint {
        Joint::Fit => b'F',
        Joint::WrongType => b'T',
        Joint::WrongRange => b'R',
    }
}

// Whether an output of this type is joined to an input of each as the row says.
fn is_joined_as(from: PortType, row: &str) -> bool {
    let wanted = row.as_bytes();
    let mut all = wanted.len() == KINDS.len();
    for at in 0..KINDS.len() {
        all = all && wanted.get(at) == Some(&letter(connectable(from, KINDS[at])));
    }
    all
}

#[test]
fn every_pair_of_types_is_joined(rt: HostRuntime) {
    for at in 0..KINDS.len() {
        assert!(rt; is_joined_as(KINDS[at], JOINTS[at]));
    }
    assert!(rt; class_of(PortType::UInt16) == Class::Integer);
}

fn is_value_of(row: &(PortType, u64, Option<i128>)) -> bool {
    let (kind, word, want) = *row;
    let is_back = match want {
        Some(value) => fits(kind, value) && to_word(kind, value) == word,
        None => true,
    };
    is_back && from_word(kind, word) == want
}

#[test]
fn words_are_values(rt: HostRuntime) {
    assert_eq!(rt; WORDS.iter().position(|row| !is_value_of(row)), None);
    assert!(rt;
        least_value(PortType::Int16) == -32_768 && greatest_value(PortType::Int16) == 32_767
    );
}

fn is_read_as(row: &(PortType, &str, Option<i128>)) -> bool {
    read_value(row.0, row.1) == row.2
}

#[test]
fn texts_are_read(rt: HostRuntime) {
    assert_eq!(rt; TEXTS.iter().position(|row| !is_read_as(row)), None);
}

fn clock() -> ClockTiming {
    ClockTiming {
        reference: 9,
        variability: IntervalVariability::Constant,
        supports_fraction: true,
        interval: Some(Fraction {
            counter: 1,
            resolution: 3,
        }),
        shift: None,
    }
}

fn aliases(alloc: Global) -> Result<Items<Text>, AllocError> {
    Ok(Items::from_vec(vec![in alloc; Text::from_str(alloc, "z")?]?))
}

fn variable(alloc: Global) -> Result<Variable, AllocError> {
    let clocks = Items::from_vec(vec![in alloc; 9]?);
    let name = Text::from_str(alloc, "y")?;
    Ok(Variable {
        name,
        aliases: aliases(alloc)?,
        reference: 7,
        kind: Some(PortType::Int32),
        causality: Causality::Output,
        clocks,
        start: Some(-4),
        can_be_set_again: true,
    })
}

fn variables(alloc: Global) -> Result<ByReference<Variable>, AllocError> {
    ByReference::new(alloc, vec![in alloc; variable(alloc)?]?)
}

fn clocks(alloc: Global) -> Result<ByReference<ClockTiming>, AllocError> {
    ByReference::new(alloc, vec![in alloc; clock()]?)
}

fn dependencies(alloc: Global, on: Knowns) -> Result<ByReference<Dependency>, AllocError> {
    ByReference::new(alloc, vec![in alloc; Dependency { output: 7, on }]?)
}

fn listed(alloc: Global) -> Result<ByReference<Dependency>, AllocError> {
    let references = vec![in alloc; 1, 2]?;
    dependencies(alloc, Knowns::Listed(Items::from_vec(references)))
}

// The lists of a shape.
#[derive(Drop)]
struct Lists {
    variables: ByReference<Variable>,
    clocks: ByReference<ClockTiming>,
    dependencies: ByReference<Dependency>,
    initial_dependencies: ByReference<Dependency>,
}

fn make_lists(alloc: Global) -> Result<Lists, AllocError> {
    let clocks = clocks(alloc)?;
    let dependencies = listed(alloc)?;
    let initial_dependencies = self::dependencies(alloc, Knowns::AllInputs)?;
    Ok(Lists {
        variables: variables(alloc)?,
        clocks,
        dependencies,
        initial_dependencies,
    })
}

fn shape_with(identifier: Text, token: Text, lists: Lists) -> Shape {
    Shape {
        identifier,
        token,
        resolution: 1000,
        has_event_mode: true,
        might_return_early: false,
        has_variable_steps: true,
        can_save_state: false,
        can_serialize_state: true,
        variables: lists.variables,
        clocks: lists.clocks,
        dependencies: lists.dependencies,
        initial_dependencies: lists.initial_dependencies,
    }
}

fn shape(alloc: Global) -> Result<Shape, AllocError> {
    let identifier = Text::from_str(alloc, "machine")?;
    let token = Text::from_str(alloc, "token")?;
    Ok(shape_with(identifier, token, make_lists(alloc)?))
}

fn shown(alloc: Global, shape: &Shape) -> Result<String, Fail> {
    Ok(format!(in alloc; "{shape:?}")?)
}

fn copy_shown(alloc: Global, shape: &Shape) -> Result<String, Fail> {
    let copy = shape.copy(alloc)?;
    shown(alloc, &copy)
}

fn shows_alike(alloc: Global, shape: &Shape) -> Result<bool, Fail> {
    let first = shown(alloc, shape)?;
    let second = copy_shown(alloc, shape)?;
    Ok(first.len() > 100 && first.as_str() == second.as_str())
}

// Whether its only variable is an output port, and nothing else.
fn has_an_output(shape: &Shape) -> bool {
    match shape.variables.find(7) {
        Some(y) => {
            y.is_output_port()
                && y.is_port()
                && !y.is_input_port()
                && !y.is_parameter()
                && !y.is_clock()
                && !y.is_unclocked()
        }
        None => false,
    }
}

#[test]
fn a_copy_shows_the_same(rt: HostRuntime) -> Result<(), Fail> {
    let shape = shape(rt.alloc())?;
    let is_alike = shows_alike(rt.alloc(), &shape)?;
    assert!(rt; is_alike && has_an_output(&shape));
    Ok(())
}

fn clock_of(reference: u32) -> ClockTiming {
    ClockTiming {
        reference,
        variability: IntervalVariability::Triggered,
        supports_fraction: false,
        interval: None,
        shift: None,
    }
}

fn triggered(alloc: Global) -> Result<ByReference<ClockTiming>, AllocError> {
    let mut clocks = Vec::new(alloc);
    for reference in &[9, 2, 9, 4_294_967_295, 0, 2] {
        clocks.push(clock_of(*reference))?;
    }
    let clocks = ByReference::new(alloc, clocks)?;
    clocks.copy()
}

// A reference and its place in that list.
static PLACES: [(u32, Option<usize>); 6] = [
    (0, Some(4)),
    (1, None),
    (2, Some(1)),
    (9, Some(0)),
    (10, None),
    (4_294_967_295, Some(3)),
];

fn is_found(clocks: &ByReference<ClockTiming>, row: &(u32, Option<usize>)) -> bool {
    clocks.place_of(row.0) == row.1 && clocks.find(row.0).is_some() == row.1.is_some()
}

#[test]
fn the_first_of_a_reference_is_found(rt: HostRuntime) -> Result<(), Fail> {
    let clocks = triggered(rt.alloc())?;
    assert_eq!(rt; PLACES.iter().position(|row| !is_found(&clocks, row)), None);
    Ok(())
}
