use doc_tree::{Refusal, Tree, read_tree};
use ssd_tree::{
    Binding, ComponentPart, ConnectorKind, MOST_COMPONENTS, Origin, Owner, SourceBase, SystemTree,
    TypeChild, read_ssd,
};
use std::alloc::{AllocError, Global};
use std::test::Fail;

/// A document, and the element and rule that are answered.
static REFUSED: [(&str, usize, u32); 12] = [
    (r#"<System/>"#, 0, 30),
    (
        r#"<SystemStructureDescription version="1.1" name="d"><System name="s"/></SystemStructureDescription>"#,
        0,
        30,
    ),
    (
        r#"<SystemStructureDescription name="d"><System name="s"/></SystemStructureDescription>"#,
        0,
        30,
    ),
    (
        r#"<SystemStructureDescription version="1.0" name="d"/>"#,
        0,
        30,
    ),
    (
        r#"<SystemStructureDescription version="1.0" name="d"><System name="s"/><x/><System name="t"/></SystemStructureDescription>"#,
        0,
        30,
    ),
    (
        r#"<SystemStructureDescription version="1.0"><System name="s"/></SystemStructureDescription>"#,
        0,
        35,
    ),
    (
        r#"<SystemStructureDescription version="1.0" name=""><System name="s"/></SystemStructureDescription>"#,
        0,
        35,
    ),
    (
        r#"<SystemStructureDescription version="1.0" name="d"><System/></SystemStructureDescription>"#,
        1,
        35,
    ),
    // two rules at one element
    (
        r#"<SystemStructureDescription version="1.1"><System name="s"/></SystemStructureDescription>"#,
        0,
        30,
    ),
    // a System beside the lists is no System
    (
        r#"<SystemStructureDescription version="1.0" name="d"><System name="s"><System/><Elements><System/></Elements></System></SystemStructureDescription>"#,
        4,
        35,
    ),
    // connections may stand before what they name
    (
        r#"<SystemStructureDescription version="1.0" name="d"><System name="s"><Connections><Connection startElement="c" startConnector="y" endConnector="y"/></Connections><Elements><Component name="c" source="c"><Connectors><Connector name="y" kind="output"/></Connectors></Component></Elements><Connectors><Connector name="x" kind="output"/></Connectors></System></SystemStructureDescription>"#,
        3,
        37,
    ),
    (
        r#"<SystemStructureDescription version="1.0" name="d"><System name="s"><Connectors><Connector name="x" kind="inout"/></Connectors></System></SystemStructureDescription>"#,
        3,
        35,
    ),
];

/// What stands in the list of elements of the outermost System (element 2), and the element and rule that are answered.
static REFUSED_ELEMENTS: [(&str, usize, u32); 34] = [
    (
        r#"<Component name="a" source="a"/><System name="a"/>"#,
        4,
        31,
    ),
    (
        r#"<Component name="a" source="a"/><System name="b"><Elements><Component name="a" source="a"/></Elements></System><Component name="b" source="a"/>"#,
        7,
        31,
    ),
    (
        r#"<Component name="a" source="a" type="application/x-ssp-definition"/>"#,
        3,
        32,
    ),
    (r#"<Component name="a" source="a" type=""/>"#, 3, 32),
    (
        r#"<Component name="a" source="a"><ParameterBindings><ParameterBinding source="v" type="x"/></ParameterBindings></Component>"#,
        5,
        32,
    ),
    (r#"<Component name="a" source=""/>"#, 3, 33),
    (r#"<Component name="a" source="./"/>"#, 3, 33),
    (r#"<Component name="a" source="/a"/>"#, 3, 33),
    (r#"<Component name="a" source="a//b"/>"#, 3, 33),
    (r#"<Component name="a" source="a//"/>"#, 3, 33),
    (r#"<Component name="a" source="a//."/>"#, 3, 33),
    (r#"<Component name="a" source="a/../b"/>"#, 3, 33),
    (r#"<Component name="a" source="file:a"/>"#, 3, 33),
    (r#"<Component name="a" source="a%20"/>"#, 3, 33),
    (r#"<Component name="a" source="a\b"/>"#, 3, 33),
    (r#"<Component name="a" source="a?"/>"#, 3, 33),
    (r#"<Component name="a" source="a#b"/>"#, 3, 33),
    (
        r#"<System name="a"><ParameterBindings><ParameterBinding source="v" sourceBase="component"/></ParameterBindings></System>"#,
        5,
        33,
    ),
    (
        r#"<System name="a"><ParameterBindings><ParameterBinding source="v"><ParameterMapping source="m" sourceBase="component"/></ParameterBinding></ParameterBindings></System>"#,
        6,
        33,
    ),
    (
        r#"<Component name="a" source="a"><ParameterBindings><ParameterBinding source="v"><x/><ParameterMapping source=".."/></ParameterBinding></ParameterBindings></Component>"#,
        7,
        33,
    ),
    (
        r#"<Component name="a" source="a" implementation="ModelExchange"/>"#,
        3,
        34,
    ),
    (r#"<Component source="a"/>"#, 3, 35),
    (r#"<Component name="a"/>"#, 3, 35),
    (
        r#"<Component name="a" source="a"><Connectors><Connector name="y"/></Connectors></Component>"#,
        5,
        35,
    ),
    (
        r#"<Component name="a" source="a"><Connectors><Connector kind="input"/></Connectors></Component>"#,
        5,
        35,
    ),
    (
        r#"<Component name="a" source="a"><Connectors><Connector name="y" kind="input"/></Connectors><Connectors><Connector name="y" kind="output"/></Connectors></Component>"#,
        7,
        35,
    ),
    (
        r#"<Component name="a" source="a"><ParameterBindings><ParameterBinding/></ParameterBindings></Component>"#,
        5,
        35,
    ),
    (
        r#"<System name="a"><Connections><Connection startConnector="y"/></Connections></System>"#,
        5,
        35,
    ),
    (
        r#"<System name="a"><Connectors><Connector name="u" kind="input"/><Connector name="y" kind="output"/></Connectors><Connections><Connection startConnector="u" endConnector="y"><LinearTransformation factor="x"/></Connection></Connections></System>"#,
        8,
        36,
    ),
    (
        r#"<System name="a"><Connectors><Connector name="u" kind="input"/><Connector name="y" kind="output"/></Connectors><Connections><Connection startElement="" startConnector="u" endConnector="y"/></Connections></System>"#,
        8,
        37,
    ),
    (
        r#"<System name="a"><Connectors><Connector name="u" kind="input"/><Connector name="y" kind="output"/></Connectors><Connections><Connection startConnector="y" endConnector="y"/></Connections></System>"#,
        8,
        38,
    ),
    (
        r#"<System name="a"><Connectors><Connector name="u" kind="input"/><Connector name="y" kind="output"/></Connectors><Connections><Connection startConnector="u" endConnector="u"/></Connections></System>"#,
        8,
        38,
    ),
    (
        r#"<System name="a"><Connectors><Connector name="u" kind="input"/></Connectors><Elements><Component name="c" source="c"><Connectors><Connector name="y" kind="output"/></Connectors></Component></Elements><Connections><Connection startConnector="u" endElement="c" endConnector="y"/></Connections></System>"#,
        11,
        38,
    ),
    (
        r#"<System name="a"><Connectors><Connector name="y" kind="output"/></Connectors><Elements><Component name="c" source="c"><Connectors><Connector name="p" kind="parameter"/></Connectors></Component></Elements><Connections><Connection startElement="c" startConnector="p" endConnector="y"/></Connections></System>"#,
        11,
        38,
    ),
];

/// A counter that feeds a gain two systems further in.
const NESTED: &str =
    r#"<ssd:SystemStructureDescription xmlns:ssd="x" version="1.0" name="d"><ssd:System name="root"><ssd:Elements><ssd:Component name="c" source="./c/." type="application/x-fmu-sharedlibrary"><ssd:Connectors><ssd:Connector name="y" kind="output"><ssc:Integer/></ssd:Connector></ssd:Connectors><ssd:ParameterBindings><ssd:ParameterBinding><ssd:ParameterValues/></ssd:ParameterBinding></ssd:ParameterBindings></ssd:Component><ssd:System name="A"><ssd:Connectors><ssd:Connector name="u" kind="input"/></ssd:Connectors><ssd:Elements><ssd:System name="B"><ssd:Connectors><ssd:Connector name="u" kind="input"><a/><ssc:Boolean/><ssc:Integer/></ssd:Connector></ssd:Connectors><ssd:Elements><ssd:Component name="g" source="lib/./g.fmu/"/></ssd:Elements></ssd:System></ssd:Elements><ssd:Connections><ssd:Connection startConnector="u" endElement="B" endConnector="u"/></ssd:Connections></ssd:System></ssd:Elements><ssd:Connections><ssd:Connection startElement="c" startConnector="y" endElement="A" endConnector="u"/></ssd:Connections></ssd:System></ssd:SystemStructureDescription>"#;

/// A parameter binding of a component, element 5 of its document; its prefix, and where its values and its mapping are:
/// a folder and a path, or an element.
static BINDINGS: [(&str, &str, Given, Option<Given>); 5] = [
    (
        r#"<ParameterBinding source="a/./v.ssv"/>"#,
        "",
        Given::File(SourceBase::Description, "a/v.ssv"),
        None,
    ),
    (
        r#"<ParameterBinding prefix="p." source="v" sourceBase="component"><ParameterValues/></ParameterBinding>"#,
        "p.",
        Given::File(SourceBase::Component, "v"),
        None,
    ),
    (
        r#"<ParameterBinding><x/><ParameterValues/><ParameterValues/></ParameterBinding>"#,
        "",
        Given::Inline(7),
        None,
    ),
    (
        r#"<ParameterBinding sourceBase="SSD" source="v"><ParameterMapping sourceBase="component"/><ParameterMapping source="m"/></ParameterBinding>"#,
        "",
        Given::File(SourceBase::Description, "v"),
        Some(Given::Inline(6)),
    ),
    (
        r#"<ParameterBinding><ParameterValues><ParameterMapping/></ParameterValues><ParameterMapping sourceBase="component" source="m/"/></ParameterBinding>"#,
        "",
        Given::Inline(6),
        Some(Given::File(SourceBase::Component, "m")),
    ),
];

/// Where values or a mapping are: a folder and a path, or an element.
#[derive(Clone, Copy, Debug, PartialEq)]
enum Given {
    File(SourceBase, &'static str),
    Inline(usize),
}

fn is_given(origin: &Origin, given: &Given) -> bool {
    match (origin, given) {
        (Origin::File { base, path }, Given::File(wanted, text)) => {
            *base == *wanted && path.as_str() == *text
        }
        (Origin::Inline { node }, Given::Inline(wanted)) => *node == *wanted,
        _ => false,
    }
}

fn with_elements(alloc: Global, elements: &str) -> Result<String, AllocError> {
    format!(in alloc;
        "<SystemStructureDescription version=\"1.0\" name=\"d\"><System name=\"s\"><Elements>{elements}</Elements></System></SystemStructureDescription>"
    )
}

// Whether an answer refuses this rule at this element of the first file, and names no ports.
fn is_refusal(answer: &Result<SystemTree, Refusal>, number: u32, element: usize) -> bool {
    match answer {
        Ok(_) | Err(Refusal::Memory) => false,
        Err(
            Refusal::At {
                file,
                node,
                rule,
                ports,
            },
        ) => *file == 0 && ports.len() == 0 && rule.number() == number && *node == element,
    }
}

fn is_refused(alloc: Global, document: &str, number: u32, element: usize) -> bool {
    match read_tree(alloc, document.as_bytes()) {
        Ok(tree) => is_refusal(&read_ssd(alloc, &tree), number, element),
        Err(_) => false,
    }
}

fn is_refused_within(alloc: Global, elements: &str, number: u32, element: usize) -> bool {
    match with_elements(alloc, elements) {
        Ok(document) => is_refused(alloc, document.as_str(), number, element),
        Err(_) => false,
    }
}

#[test]
fn the_first_violation_is_told(rt: HostRuntime) {
    let alloc = rt.alloc();
    let wrong = REFUSED
        .iter()
        .position(|row| !is_refused(alloc, row.0, row.2, row.1));
    assert_eq!(rt; wrong, None);
    let wrong = REFUSED_ELEMENTS
        .iter()
        .position(|row| !is_refused_within(alloc, row.0, row.2, row.1));
    assert_eq!(rt; wrong, None);
}

// What is said of a document with these elements.
fn read_within(alloc: Global, elements: &str) -> Option<SystemTree> {
    let document = with_elements(alloc, elements).ok()?;
    let tree = read_tree(alloc, document.as_bytes()).ok()?;
    read_ssd(alloc, &tree).ok()
}

fn many_components(alloc: Global) -> Result<String, AllocError> {
    let mut elements = String::new(alloc);
    for at in 0..MOST_COMPONENTS {
        let component = format!(in alloc; "<Component name=\"c{at}\" source=\"c\"/>")?;
        elements.push_str(component.as_str())?;
    }
    Ok(elements)
}

fn has_components(alloc: Global, elements: &str, count: usize) -> bool {
    match read_within(alloc, elements) {
        Some(read) => read.components.len() == count,
        None => false,
    }
}

#[test]
fn the_257th_component_is_refused(rt: HostRuntime) -> Result<(), Fail> {
    let mut elements = many_components(rt.alloc())?;
    assert!(rt; has_components(rt.alloc(), elements.as_str(), 256));
    elements.push_str(
        "<System name=\"s\"><Elements><Component name=\"c\" source=\"c\"/></Elements></System>",
    )?;
    assert!(rt; is_refused_within(rt.alloc(), elements.as_str(), 48, 261));
    Ok(())
}

// The parent of each System.
static PARENTS: [Option<usize>; 3] = [None, Some(0), Some(1)];

// Of each component its name, its source and its System.
static COMPONENTS: [(&str, &str, usize); 2] = [("c", "c", 0), ("A.B.g", "lib/g.fmu", 2)];

// Of each connector its name, its kind, its type and its owner.
static CONNECTORS: [(&str, ConnectorKind, Option<TypeChild>, Owner); 3] = [
    (
        "y",
        ConnectorKind::Output,
        Some(TypeChild::Integer),
        Owner::Component(0),
    ),
    ("u", ConnectorKind::Input, None, Owner::System(1)),
    (
        "u",
        ConnectorKind::Input,
        Some(TypeChild::Boolean),
        Owner::System(2),
    ),
];

// The ends of each connection.
static CONNECTIONS: [(usize, usize); 2] = [(1, 2), (0, 1)];

fn are_systems(read: &SystemTree) -> bool {
    read.systems.len() == PARENTS.len()
        && read
            .systems
            .as_slice()
            .iter()
            .zip(&PARENTS)
            .all(|(system, parent)| system.parent == *parent)
}

fn are_components(read: &SystemTree) -> bool {
    read.components.len() == COMPONENTS.len()
        && read.components.as_slice().iter().zip(&COMPONENTS).all(|(component, row)| {
            component.name.is(row.0.as_bytes())
                && component.source.as_str() == row.1
                && component.system == row.2
        })
}

fn are_connectors(read: &SystemTree) -> bool {
    read.connectors.len() == CONNECTORS.len()
        && read.connectors.as_slice().iter().zip(&CONNECTORS).all(|(connector, row)| {
            connector.name.as_str() == row.0
                && connector.kind == row.1
                && connector.child == row.2
                && connector.owner == row.3
        })
}

fn are_connections(read: &SystemTree) -> bool {
    read.connections.len() == CONNECTIONS.len()
        && read.connections.as_slice().iter().zip(&CONNECTIONS).all(|(connection, row)| {
            connection.start == row.0 && connection.end == row.1
        })
}

fn is_nested(alloc: Global, tree: &Tree) -> bool {
    match read_ssd(alloc, tree) {
        Ok(read) => {
            are_systems(&read)
                && are_components(&read)
                && are_connectors(&read)
                && are_connections(&read)
                && read.bindings.len() == 1
        }
        Err(_) => false,
    }
}

#[test]
fn a_nested_system_is_read(rt: HostRuntime) -> Result<(), Fail> {
    let tree = read_tree(rt.alloc(), NESTED.as_bytes())?;
    assert!(rt; is_nested(rt.alloc(), &tree));
    Ok(())
}

fn is_mapped(mapping: &Option<Origin>, given: &Option<Given>) -> bool {
    match (mapping, given) {
        (Some(origin), Some(given)) => is_given(origin, given),
        (origin, given) => origin.is_none() && given.is_none(),
    }
}

fn is_bound(bound: Option<&Binding>, row: &(&str, &str, Given, Option<Given>)) -> bool {
    match bound {
        Some(bound) => {
            bound.node == 5
                && bound.prefix.as_str() == row.1
                && is_given(&bound.values, &row.2)
                && is_mapped(&bound.mapping, &row.3)
        }
        None => false,
    }
}

fn is_binding(alloc: Global, row: &(&str, &str, Given, Option<Given>)) -> bool {
    let Ok(elements) = format!(in alloc;
        "<Component name=\"c\" source=\"c\"><ParameterBindings>{}</ParameterBindings></Component>",
        row.0
    ) else {
        return false;
    };
    match read_within(alloc, elements.as_str()) {
        Some(read) => read.bindings.len() == 1 && is_bound(read.bindings.get(0), row),
        None => false,
    }
}

#[test]
fn bindings_are_read(rt: HostRuntime) {
    let alloc = rt.alloc();
    assert_eq!(rt;
        BINDINGS.iter().position(|row| !is_binding(alloc, row)),
        None
    );
}

fn thirty_systems(alloc: Global) -> Result<String, AllocError> {
    let mut elements = String::from_str(alloc, "<Component name=\"c\" source=\"c\"/>")?;
    for _level in 1..30 {
        elements = format!(in alloc;
            "<System name=\"s\"><Elements>{elements}</Elements></System>"
        )?;
    }
    Ok(elements)
}

fn is_deep(component: Option<&ComponentPart>) -> bool {
    match component {
        Some(component) => component.name.len() == 59 && component.system == 29,
        None => false,
    }
}

fn are_thirty(alloc: Global, elements: &str) -> bool {
    match read_within(alloc, elements) {
        Some(read) => {
            read.systems.len() == 30
                && read.components.len() == 1
                && is_deep(read.components.get(0))
        }
        None => false,
    }
}

#[test]
fn thirty_systems_are_read(rt: HostRuntime) -> Result<(), Fail> {
    let elements = thirty_systems(rt.alloc())?;
    assert!(rt; are_thirty(rt.alloc(), elements.as_str()));
    Ok(())
}
