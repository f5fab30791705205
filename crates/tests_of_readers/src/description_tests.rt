use doc_tree::{Refusal, Tree, read_tree};
use fmu_description::read_description;
use std::alloc::{AllocError, Global};
use std::test::Fail;
use value_types::{Fraction, Shape};

/// A document, and the element and rule that are answered where a second has 1000 counts.
static REFUSED: [(&str, usize, u32); 34] = [
    (r#"<ModelDescription/>"#, 0, 10),
    (
        r#"<fmiModelDescription fmiVersion="3.1" modelName="m" instantiationToken="t"/>"#,
        0,
        11,
    ),
    (
        r#"<fmiModelDescription fmiVersion="3.0" modelName="m" instantiationToken="t"/>"#,
        0,
        12,
    ),
    (
        r#"<fmiModelDescription fmiVersion="3.0" modelName="m"><CoSimulation modelIdentifier="m"/></fmiModelDescription>"#,
        0,
        13,
    ),
    // In the others the root is whole: from here on what stands in it.
    (r#"<CoSimulation/>"#, 1, 13),
    (
        r#"<CoSimulation modelIdentifier="m" hasEventMode="yes"/>"#,
        1,
        14,
    ),
    (
        r#"<CoSimulation modelIdentifier="m" canSerializeFMUState="true"/>"#,
        1,
        22,
    ),
    (
        r#"<CoSimulation modelIdentifier="m"/><ModelStructure><Output valueReference="1"/></ModelStructure>"#,
        3,
        21,
    ),
    (
        r#"<CoSimulation modelIdentifier="m"/><ModelVariables><Clock name="c" valueReference="1" causality="input" intervalVariability="triggered"/></ModelVariables>"#,
        3,
        24,
    ),
    // In these there is a CoSimulation with event mode: from here on the variables.
    (r#"<Int32 name="" valueReference="1"/>"#, 3, 13),
    (
        r#"<Int32 name="a" valueReference="1"><Alias/></Int32>"#,
        4,
        13,
    ),
    (
        r#"<Clock name="c" valueReference="1" causality="input"/>"#,
        3,
        13,
    ),
    (r#"<Int32 name="a" valueReference="-1"/>"#, 3, 14),
    (r#"<Int8 name="a" valueReference="1" start="128"/>"#, 3, 14),
    (r#"<Int32 name="a" valueReference="1" clocks=" 2"/>"#, 3, 14),
    (
        r#"<Clock name="c" valueReference="1" causality="local" intervalDecimal="-1"/>"#,
        3,
        14,
    ),
    (
        r#"<Int32 name="a" valueReference="1"/><Int32 name="b" valueReference="1"/>"#,
        4,
        15,
    ),
    (
        r#"<Int32 name="a" valueReference="1"/><Int32 name="a" valueReference="2"/>"#,
        4,
        16,
    ),
    (
        r#"<Int32 name="a" valueReference="1"><Alias name="b"/></Int32><Int32 name="b" valueReference="2"/>"#,
        5,
        16,
    ),
    (
        r#"<Clock name="c" valueReference="1" causality="input" intervalVariability="constant"/>"#,
        3,
        17,
    ),
    (
        r#"<Clock name="c" valueReference="1" causality="input" intervalVariability="fixed"/>"#,
        3,
        17,
    ),
    (
        r#"<Clock name="c" valueReference="1" causality="output" intervalVariability="countdown"/>"#,
        3,
        18,
    ),
    (
        r#"<Clock name="c" valueReference="1" causality="parameter" intervalVariability="triggered"/>"#,
        3,
        18,
    ),
    (
        r#"<Clock name="c" valueReference="1" causality="input" intervalVariability="constant" intervalDecimal="0.0"/>"#,
        3,
        19,
    ),
    (
        r#"<Clock name="c" valueReference="1" causality="input" intervalVariability="constant" intervalDecimal="0.0001"/>"#,
        3,
        19,
    ),
    (
        r#"<Clock name="c" valueReference="1" causality="input" intervalVariability="constant" intervalDecimal="1" shiftDecimal="0.0001"/>"#,
        3,
        19,
    ),
    (
        r#"<Clock name="c" valueReference="1" causality="input" intervalVariability="constant" supportsFraction="true" resolution="3" intervalCounter="1"/>"#,
        3,
        19,
    ),
    (r#"<Int32 name="a" valueReference="1" clocks="1"/>"#, 3, 20),
    (
        r#"<Clock name="c" valueReference="1" causality="input" intervalVariability="tunable"/>"#,
        3,
        23,
    ),
    // two rules at one element
    (
        r#"<Int32 name="a" valueReference="1"/><Int32 name="a" valueReference="1"/>"#,
        4,
        15,
    ),
    (
        r#"<Clock name="c" valueReference="1" causality="output" intervalVariability="tunable"/>"#,
        3,
        18,
    ),
    // two elements with one rule, and an earlier element with a later rule
    (
        r#"<Int32 name="a" valueReference="1"/><Int32 name="b" valueReference="1"/><Int32 name="c" valueReference="1"/>"#,
        4,
        15,
    ),
    (
        r#"<Int32 name="a" valueReference="1" clocks="9"/><Int32 name="b"/>"#,
        3,
        20,
    ),
    // an ignored variable counts among the references
    (
        r#"<Float64 name="a" valueReference="1"/><Int32 name="b" valueReference="1"/>"#,
        4,
        15,
    ),
];

/// Descriptions, and how many variables and Clocks they have.
static ACCEPTED: [(&str, usize, usize); 5] = [
    (
        r#"<fmiModelDescription fmiVersion="3.0" modelName="counter" instantiationToken="{c}"><CoSimulation modelIdentifier="counter" canGetAndSetFMUState="true" canHandleVariableCommunicationStepSize="true"/><ModelVariables><Int32 name="inc" valueReference="1" causality="parameter" variability="fixed" start="2"/><Int32 name="y" valueReference="2" causality="output" variability="discrete"/></ModelVariables><ModelStructure><Output valueReference="2" dependencies=""/></ModelStructure></fmiModelDescription>"#,
        2,
        0,
    ),
    // units, annotations, vendor attributes and namespaces are passed over
    (
        r#"<?xml version="1.0" encoding="UTF-8"?><f:fmiModelDescription xmlns:f="urn:f" fmiVersion="3.0.1" modelName="m" instantiationToken="t" v:made="now"><UnitDefinitions><Unit name="s"><BaseUnit s="1"/></Unit></UnitDefinitions><f:CoSimulation modelIdentifier="m" needsExecutionTool="maybe"/><CoSimulation hasEventMode="yes"/><ModelVariables><Int32 name="a" valueReference="1" quantity="q"/></ModelVariables><Annotations><Annotation type="t"><Int32/></Annotation></Annotations></f:fmiModelDescription>"#,
        1,
        0,
    ),
    // what is ignored may say what it likes
    (
        r#"<fmiModelDescription fmiVersion="3.0" modelName="m" instantiationToken="t"><CoSimulation modelIdentifier="m"/><ModelVariables><Float64 name="x" valueReference="1" start="1e3"/><Int32 name="xs" valueReference="2" start="1 2"><Dimension start="2"/></Int32><String name="s" valueReference="3"><Start value="a"/></String><Int8 name="o" valueReference="4" causality="other" start="900"/><Clock name="l" valueReference="5"/><Int8 name="k" valueReference="6" clocks="5" start="x"/></ModelVariables></fmiModelDescription>"#,
        6,
        0,
    ),
    // two lists of variables, and a Clock that comes after what it clocks
    (
        r#"<fmiModelDescription fmiVersion="3.0" modelName="m" instantiationToken="t"><CoSimulation modelIdentifier="m" hasEventMode="1"/><ModelVariables><Int32 name="y" valueReference="2" clocks="1"/></ModelVariables><ModelVariables><Clock name="c" valueReference="1" causality="input" intervalVariability="fixed" supportsFraction="true"/></ModelVariables></fmiModelDescription>"#,
        2,
        1,
    ),
    // the second Output of a variable is passed over
    (
        r#"<fmiModelDescription fmiVersion="3.0" modelName="m" instantiationToken="t"><CoSimulation modelIdentifier="m"/><ModelVariables><Int32 name="y" valueReference="2" causality="output"/></ModelVariables><ModelStructure><Output valueReference="2" dependencies="2"/><Output valueReference="2" dependencies="7"/></ModelStructure></fmiModelDescription>"#,
        1,
        0,
    ),
];

/// A clock of a third of a second.
const THIRD: &str =
    r#"<Clock name="c" valueReference="1" causality="input" intervalVariability="constant" supportsFraction="true" resolution="3" intervalCounter="1"/>"#;

fn in_root(alloc: Global, content: &str) -> Result<String, AllocError> {
    format!(in alloc;
        "<fmiModelDescription fmiVersion=\"3.0\" modelName=\"m\" instantiationToken=\"t\">{content}</fmiModelDescription>"
    )
}

fn with_variables(alloc: Global, variables: &str) -> Result<String, AllocError> {
    let content = format!(in alloc;
        "<CoSimulation modelIdentifier=\"m\" hasEventMode=\"true\"/><ModelVariables>{variables}</ModelVariables>"
    )?;
    in_root(alloc, content.as_str())
}

fn whole_document(alloc: Global, text: &str) -> Result<String, AllocError> {
    if text.contains("odelDescription") {
        String::from_str(alloc, text)
    } else if text.contains("<CoSimulation") {
        in_root(alloc, text)
    } else {
        with_variables(alloc, text)
    }
}

// Whether an answer refuses this rule at this element of the first file, and names no ports.
fn is_refusal(answer: &Result<Shape, Refusal>, number: u32, element: usize) -> bool {
    match answer {
        Ok(_) | Err(Refusal::Memory) => false,
        Err(
            Refusal::At {
                file,
                node,
                rule,
                ports,
            },
        ) => *file == 0 && ports.len() == 0 && rule.number() == number && *node == element,
    }
}

fn is_refused(alloc: Global, document: &str, number: u32, element: usize) -> bool {
    match read_tree(alloc, document.as_bytes()) {
        Ok(tree) => is_refusal(&read_description(alloc, &tree, 1000), number, element),
        Err(_) => false,
    }
}

fn is_refused_as(alloc: Global, row: &(&str, usize, u32)) -> bool {
    match whole_document(alloc, row.0) {
        Ok(document) => is_refused(alloc, document.as_str(), row.2, row.1),
        Err(_) => false,
    }
}

#[test]
fn the_first_violation_is_told(rt: HostRuntime) {
    let alloc = rt.alloc();
    assert_eq!(rt;
        REFUSED.iter().position(|row| !is_refused_as(alloc, row)),
        None
    );
}

fn has_counts(shape: &Shape, variables: usize, clocks: usize) -> bool {
    shape.variables.len() == variables && shape.clocks.len() == clocks && shape.resolution == 1000
}

fn describes(alloc: Global, tree: &Tree, variables: usize, clocks: usize) -> bool {
    match read_description(alloc, tree, 1000) {
        Ok(shape) => has_counts(&shape, variables, clocks),
        Err(_) => false,
    }
}

fn is_accepted(alloc: Global, row: &(&str, usize, usize)) -> bool {
    match read_tree(alloc, row.0.as_bytes()) {
        Ok(tree) => describes(alloc, &tree, row.1, row.2),
        Err(_) => false,
    }
}

#[test]
fn descriptions_are_read(rt: HostRuntime) {
    let alloc = rt.alloc();
    assert_eq!(rt;
        ACCEPTED.iter().position(|row| !is_accepted(alloc, row)),
        None
    );
}

fn has_a_third(alloc: Global, tree: &Tree) -> bool {
    let third = Fraction {
        counter: 1,
        resolution: 3,
    };
    match read_description(alloc, tree, 999) {
        Ok(shape) => shape.clocks.get(0).and_then(|clock| clock.interval) == Some(third),
        Err(_) => false,
    }
}

#[test]
fn a_third_of_a_second_is_whole_at_some_resolutions(rt: HostRuntime) -> Result<(), Fail> {
    let document = with_variables(rt.alloc(), THIRD)?;
    let tree = read_tree(rt.alloc(), document.as_bytes())?;
    assert!(rt; read_description(rt.alloc(), &tree, 1000).is_err());
    assert!(rt; has_a_third(rt.alloc(), &tree));
    Ok(())
}

// 32,768 inputs and as many outputs, which depend on all of them, by references that go in steps round the numbers below
// 65,536.
fn many_ports(alloc: Global, step: u64) -> Result<String, AllocError> {
    let mut variables = String::new(alloc);
    let mut outputs = String::new(alloc);
    for at in 0u64..65536 {
        let reference = at.wrapping_mul(step) % 65536;
        let causality = if at % 2 == 0 { "input" } else { "output" };
        variables.push_str(format!(in alloc;
            "<Int32 name=\"a.name.that.begins.as.all.others.do.{reference}\" valueReference=\"{reference}\" causality=\"{causality}\"/>"
        )?.as_str())?;
        outputs.push_str(format!(in alloc; "<Output valueReference=\"{reference}\"/>")?.as_str())?;
    }
    let content = format!(in alloc;
        "<CoSimulation modelIdentifier=\"m\"/><ModelVariables>{variables}</ModelVariables><ModelStructure>{outputs}</ModelStructure>"
    )?;
    in_root(alloc, content.as_str())
}

fn has_many_ports(alloc: Global, tree: &Tree) -> bool {
    match read_description(alloc, tree, 1000) {
        Ok(shape) => shape.variables.len() == 65536 && shape.dependencies.len() == 32768,
        Err(_) => false,
    }
}

#[test]
fn many_ports_are_read(rt: HostRuntime) -> Result<(), Fail> {
    let document = many_ports(rt.alloc(), 40503)?;
    let tree = read_tree(rt.alloc(), document.as_bytes())?;
    assert!(rt; has_many_ports(rt.alloc(), &tree));
    Ok(())
}
