use clock_fraction::Fraction;
use doc_tree::read_tree;
use fmu_description::read_description;
use std::alloc::{AllocError, Global};
use value_types::{ByReference, Dependency, Knowns, Shape, Variable};

const COUNTER: &str =
    r#"<fmiModelDescription fmiVersion="3.0" modelName="counter" instantiationToken="{c}"><CoSimulation modelIdentifier="counter" canGetAndSetFMUState="true" canHandleVariableCommunicationStepSize="true"/><ModelVariables><Int32 name="inc" valueReference="1" causality="parameter" variability="fixed" start="2"/><Int32 name="y" valueReference="2" causality="output" variability="discrete"/></ModelVariables><ModelStructure><Output valueReference="2" dependencies=""/></ModelStructure></fmiModelDescription>"#;

pub(crate) const PREFIX: &str =
    r#"<fmiModelDescription fmiVersion="3.0" modelName="m" instantiationToken="t"><CoSimulation modelIdentifier="i" hasEventMode="true"/>"#;

pub(crate) const BACK: &str = "</fmiModelDescription>";

/// What stands in a description; its variables, Clocks, dependencies, and those of Initialization Mode.
static PARTS: [(&str, &str); 7] = [
    ("", "|||"),
    // Aliases, ignored variables, two lists of variables, and an exact start value.
    (
        r#"<ModelVariables><Int32 name="a" valueReference="1" causality="input"><Alias name="b"/><Alias name="c"/></Int32><Float64 name="f" valueReference="2" causality="input" start="0.5"/></ModelVariables><ModelVariables><Int8 name="d" valueReference="3" causality="output" initial="exact" start="-5"/><Int32 name="v" valueReference="4" causality="output"><Dimension start="2"/></Int32></ModelVariables>"#,
        "a=b=c 1 Some(Int32) Input None;f 2 None Input None;d 3 Some(Int8) Output Some(-5);v 4 None Output None;||3: all;|3:;",
    ),
    // Start values.
    (
        r#"<ModelVariables><Boolean name="b" valueReference="1" start="true"/><UInt64 name="w" valueReference="2" causality="calculatedParameter" start="18446744073709551615"/><Enumeration name="e" valueReference="3" causality="independent" start="+07"/><String name="s" valueReference="4" start="x"/><Clock name="c" valueReference="5" causality="input" intervalVariability="triggered" start="1"/></ModelVariables>"#,
        "b 1 Some(Boolean) Local Some(1);w 2 Some(UInt64) CalculatedParameter Some(18446744073709551615);e 3 Some(Enumeration) Independent Some(7);s 4 None Local None;c 5 Some(Clock) Input Some(1);|5 Triggered false - -;||",
    ),
    // Lists of dependencies: one that names a parameter, a second of one output, absent ones and empty ones.
    (
        r#"<ModelVariables><Int32 name="p" valueReference="1" causality="parameter"/><Int32 name="u" valueReference="2" causality="input"/><Int32 name="w" valueReference="3" causality="input"/><Int32 name="x" valueReference="4" causality="output"/><Int32 name="y" valueReference="5" causality="output"/><Int32 name="z" valueReference="6" causality="output"/></ModelVariables><ModelStructure><Output valueReference="4" dependencies="1 3"/><Output valueReference="4" dependencies="2"/><Output valueReference="5"/><Output valueReference="6" dependencies=""/><InitialUnknown valueReference="4" dependencies="2 4"/><InitialUnknown valueReference="5" dependencies=""/><InitialUnknown valueReference="6"/></ModelStructure>"#,
        "p 1 Some(Int32) Parameter None;u 2 Some(Int32) Input None;w 3 Some(Int32) Input None;x 4 Some(Int32) Output None;y 5 Some(Int32) Output None;z 6 Some(Int32) Output None;||4: 3;5: all;6:;|4: 2 4;5:;6: all;",
    ),
    // Without an InitialUnknown what the Output lists counts, where the start value isn't exact.
    (
        r#"<ModelVariables><Int32 name="u" valueReference="1" causality="input"/><Int32 name="x" valueReference="2" causality="output" initial="calculated"/><Int32 name="y" valueReference="3" causality="output" initial="exact" start="0"/></ModelVariables><ModelStructure><Output valueReference="3" dependencies="1"/><Output valueReference="2" dependencies="1"/></ModelStructure>"#,
        "u 1 Some(Int32) Input None;x 2 Some(Int32) Output None;y 3 Some(Int32) Output Some(0);||2: 1;3: 1;|2: 1;3:;",
    ),
    // Clocks with decimals, with counters, with both and with neither, a local one, and what they clock.
    (
        r#"<ModelVariables><Clock name="c" valueReference="1" causality="input" intervalVariability="constant" intervalDecimal="0.01" shiftDecimal="1e-1"/><Clock name="d" valueReference="2" causality="input" intervalVariability="fixed" supportsFraction="true" intervalCounter="1" resolution="4" shiftCounter="3"/><Clock name="e" valueReference="3" causality="input" intervalVariability="fixed" supportsFraction="true"/><Clock name="o" valueReference="4" causality="output" intervalVariability="triggered"/><Clock name="l" valueReference="5" intervalVariability="triggered"/><Int32 name="k" valueReference="6" causality="input" clocks="1  2" canHandleMultipleSetPerTimeInstant="false"/><Int32 name="g" valueReference="7" causality="output" clocks="5"/><Clock name="n" valueReference="8" causality="input" intervalVariability="constant" supportsFraction="true" intervalCounter="1" resolution="2" intervalDecimal="0.25"/></ModelVariables>"#,
        "c 1 Some(Clock) Input None;d 2 Some(Clock) Input None;e 3 Some(Clock) Input None;o 4 Some(Clock) Output None;l 5 None Local None;k 6 Some(Int32) Input None @1 @2 once;g 7 None Output None @5;n 8 Some(Clock) Input None;|1 Constant false 1/100 1/10;2 Fixed true 1/4 3/4;3 Fixed true - -;4 Triggered false - -;8 Constant true 1/2 0/2;|4: all;|4: all;",
    ),
    // Clocks that name one another in a circle, and others that depend on a local one, with what they clock.
    (
        r#"<ModelVariables><Clock name="a" valueReference="1" causality="input" clocks="2" intervalVariability="triggered"/><Clock name="b" valueReference="2" causality="input" clocks="3 1" intervalVariability="triggered"/><Clock name="c" valueReference="3"/><Clock name="d" valueReference="4" causality="input" clocks="5" intervalVariability="triggered"/><Clock name="e" valueReference="5" causality="input" clocks="4" intervalVariability="triggered"/><Int32 name="f" valueReference="6" causality="output" clocks="5  1"/><Int32 name="g" valueReference="7" causality="input" clocks="4"/></ModelVariables>"#,
        "a 1 None Input None @2;b 2 None Input None @3 @1;c 3 None Local None;d 4 Some(Clock) Input None @5;e 5 Some(Clock) Input None @4;f 6 None Output None @5 @1;g 7 Some(Int32) Input None @4;|4 Triggered false - -;5 Triggered false - -;||",
    ),
];

fn put_variable(alloc: Global, text: &mut String, variable: &Variable) -> Result<(), AllocError> {
    text.push_str(variable.name.as_str())?;
    for alias in variable.aliases.as_slice() {
        text.push_str("=")?;
        text.push_str(alias.as_str())?;
    }
    let (reference, kind) = (variable.reference, variable.kind);
    let (causality, start) = (variable.causality, variable.start);
    text.push_str(format!(in alloc; " {reference} {kind:?} {causality:?} {start:?}")?.as_str())?;
    for clock in variable.clocks.as_slice() {
        text.push_str(format!(in alloc; " @{clock}")?.as_str())?;
    }
    text.push_str(if variable.can_be_set_again {
        ";"
    } else {
        " once;"
    })
}

fn put_fraction(
    alloc: Global,
    text: &mut String,
    fraction: Option<Fraction>,
) -> Result<(), AllocError> {
    match fraction {
        Some(f) => {
            let (counter, resolution) = (f.counter, f.resolution);
            text.push_str(format!(in alloc; " {counter}/{resolution}")?.as_str())
        }
        None => text.push_str(" -"),
    }
}

fn put_knowns(alloc: Global, text: &mut String, knowns: &Knowns) -> Result<(), AllocError> {
    match knowns {
        Knowns::AllInputs => text.push_str(" all"),
        Knowns::Listed(on) => {
            for reference in on.as_slice() {
                text.push_str(format!(in alloc; " {reference}")?.as_str())?;
            }
            Ok(())
        }
    }
}

fn put_dependencies(
    alloc: Global,
    text: &mut String,
    dependencies: &ByReference<Dependency>,
) -> Result<(), AllocError> {
    text.push_str("|")?;
    for dependency in dependencies.as_slice() {
        put_dependency(alloc, text, dependency)?;
    }
    Ok(())
}

fn put_dependency(
    alloc: Global,
    text: &mut String,
    dependency: &Dependency,
) -> Result<(), AllocError> {
    let output = dependency.output;
    text.push_str(format!(in alloc; "{output}:")?.as_str())?;
    put_knowns(alloc, text, &dependency.on)?;
    text.push_str(";")
}

pub(crate) fn shape_text(alloc: Global, shape: &Shape) -> Result<String, AllocError> {
    let mut text = String::new(alloc);
    for variable in shape.variables.as_slice() {
        put_variable(alloc, &mut text, variable)?;
    }
    text.push_str("|")?;
    for clock in shape.clocks.as_slice() {
        let (reference, variability) = (clock.reference, clock.variability);
        let fractions = clock.supports_fraction;
        text.push_str(format!(in alloc; "{reference} {variability:?} {fractions}")?.as_str())?;
        put_fraction(alloc, &mut text, clock.interval)?;
        put_fraction(alloc, &mut text, clock.shift)?;
        text.push_str(";")?;
    }
    put_dependencies(alloc, &mut text, &shape.dependencies)?;
    put_dependencies(alloc, &mut text, &shape.initial_dependencies)?;
    Ok(text)
}

fn shape_of(alloc: Global, text: &str) -> Option<Shape> {
    let tree = read_tree(alloc, text.as_bytes()).ok()?;
    read_description(alloc, &tree, 1000).ok()
}

fn is_text(alloc: Global, shape: &Shape, expected: &str) -> bool {
    match shape_text(alloc, shape) {
        Ok(text) => text.as_str() == expected,
        Err(_) => false,
    }
}

fn is_counter(shape: &Shape) -> bool {
    shape.identifier.as_str() == "counter"
        && shape.token.as_str() == "{c}"
        && shape.resolution == 1000
        && shape.has_variable_steps
        && shape.can_save_state
        && !shape.has_event_mode
        && !shape.might_return_early
        && !shape.can_serialize_state
}

fn describes_counter(alloc: Global) -> bool {
    let expected = "inc 1 Some(Int32) Parameter Some(2);y 2 Some(Int32) Output None;||2:;|2:;";
    match shape_of(alloc, COUNTER) {
        Some(shape) => is_counter(&shape) && is_text(alloc, &shape, expected),
        None => false,
    }
}

#[test]
fn the_counter_is_described(rt: HostRuntime) {
    assert!(rt; describes_counter(rt.alloc()));
}

fn is_read_as(alloc: Global, row: &(&str, &str)) -> bool {
    let Ok(text) = format!(in alloc; "{PREFIX}{}{BACK}", row.0) else {
        return false;
    };
    match shape_of(alloc, text.as_str()) {
        Some(shape) => is_text(alloc, &shape, row.1),
        None => false,
    }
}

#[test]
fn shapes_are_read(rt: HostRuntime) {
    let alloc = rt.alloc();
    assert_eq!(rt; PARTS.iter().position(|row| !is_read_as(alloc, row)), None);
}
