use crate::documents::{document, read, with_lists};
use crate::same::same_trees;
use nested_documents::{Nest, Next, OUTERMOST, Place, Whole};
use std::alloc::Global;
use std::test::Fail;

// A nest of an outermost document with these lists.
fn nest(alloc: Global, lists: &str) -> Option<Nest> {
    let text = with_lists(alloc, lists)?;
    Nest::new(alloc, document(alloc, OUTERMOST, text.as_str())?).ok()
}

// The nest with one document more, which has these lists, where that one at this path comes next.
fn add(alloc: Global, nest: Nest, path: &str, lists: &str) -> Option<Nest> {
    let text = with_lists(alloc, lists)?;
    match nest.next(alloc) {
        Ok(
            Next::Document {
                path: wanted,
                setting,
            },
        ) if wanted.as_str() == path => {
            let document = document(alloc, setting, text.as_str())?;
            nest.add(alloc, document).ok()
        }
        _ => None,
    }
}

// All documents, each with the path at which it is asked for; none is asked for after them.
fn nest_of(alloc: Global, lists: &str, documents: &[(&str, &str)]) -> Option<Nest> {
    let mut nest = nest(alloc, lists)?;
    for (path, lists) in documents {
        nest = add(alloc, nest, path, lists)?;
    }
    Some(nest)
}

fn finish(alloc: Global, nest: Nest) -> Option<Result<Whole, Place>> {
    match nest.next(alloc) {
        Ok(Next::Nothing) => Some(nest.finish()),
        _ => None,
    }
}

// Whether the documents say what the inlined one says.
fn says_inlined(alloc: Global, lists: &str, documents: &[(&str, &str)], inlined: &str) -> bool {
    let Some(text) = with_lists(alloc, inlined) else {
        return false;
    };
    let Some(wanted) = read(alloc, text.as_str()) else {
        return false;
    };
    let Some(nest) = nest_of(alloc, lists, documents) else {
        return false;
    };
    match finish(alloc, nest) {
        Some(Ok(whole)) => same_trees(alloc, &whole.systems, &wanted),
        _ => false,
    }
}

// Three levels with connectors through all, an FMU beside each, and bindings everywhere.
const TOP: &str =
    r#"<ParameterBindings><ParameterBinding source="top.ssv"/></ParameterBindings><Elements><Component name="a" source="a"><Connectors><Connector name="y" kind="output"/></Connectors></Component><Component name="P" type="application/x-ssp-package" source="p"><Connectors><Connector name="u" kind="input"/><Connector name="y" kind="output"/></Connectors><ParameterBindings><ParameterBinding source="own.ssv" sourceBase="component"/><ParameterBinding source="of_top.ssv"/></ParameterBindings></Component><Component name="z" source="z"><Connectors><Connector name="u" kind="input"/></Connectors></Component></Elements><Connections><Connection startElement="a" startConnector="y" endElement="P" endConnector="u"/><Connection startElement="P" startConnector="y" endElement="z" endConnector="u"/></Connections>"#;

const PACKAGE: &str =
    r#"<Connectors><Connector name="y" kind="output"/><Connector name="x" kind="parameter"/><Connector name="u" kind="input"/></Connectors><ParameterBindings><ParameterBinding source="root.ssv"/></ParameterBindings><Elements><Component name="D" type="application/x-ssp-definition" source="deep/d.ssd"><Connectors><Connector name="u" kind="input"/><Connector name="y" kind="output"/></Connectors></Component><Component name="b" source="b"><ParameterBindings><ParameterBinding source="b.ssv" sourceBase="component"/></ParameterBindings></Component></Elements><Connections><Connection startConnector="u" endElement="D" endConnector="u"/><Connection startElement="D" startConnector="y" endConnector="y"/></Connections>"#;

const DEEP: &str =
    r#"<Connectors><Connector name="u" kind="input"/><Connector name="y" kind="output"/></Connectors><Elements><Component name="c" source="c"><Connectors><Connector name="u" kind="input"/><Connector name="y" kind="output"/></Connectors><ParameterBindings><ParameterBinding source="c.ssv"><ParameterMapping source="c.ssm"/></ParameterBinding></ParameterBindings></Component></Elements><Connections><Connection startConnector="u" endElement="c" endConnector="u"/><Connection startElement="c" startConnector="y" endConnector="y"/></Connections>"#;

const INLINED: &str =
    r#"<ParameterBindings><ParameterBinding source="top.ssv"/></ParameterBindings><Elements><Component name="a" source="a"><Connectors><Connector name="y" kind="output"/></Connectors></Component><System name="P"><Connectors><Connector name="y" kind="output"/><Connector name="x" kind="parameter"/><Connector name="u" kind="input"/></Connectors><ParameterBindings><ParameterBinding source="p/root.ssv"/></ParameterBindings><Elements><System name="D"><Connectors><Connector name="u" kind="input"/><Connector name="y" kind="output"/></Connectors><Elements><Component name="c" source="p/deep/c"><Connectors><Connector name="u" kind="input"/><Connector name="y" kind="output"/></Connectors><ParameterBindings><ParameterBinding source="p/deep/c.ssv"><ParameterMapping source="p/deep/c.ssm"/></ParameterBinding></ParameterBindings></Component></Elements><Connections><Connection startConnector="u" endElement="c" endConnector="u"/><Connection startElement="c" startConnector="y" endConnector="y"/></Connections></System><Component name="b" source="p/b"><ParameterBindings><ParameterBinding source="b.ssv" sourceBase="component"/></ParameterBindings></Component></Elements><Connections><Connection startConnector="u" endElement="D" endConnector="u"/><Connection startElement="D" startConnector="y" endConnector="y"/></Connections><ParameterBindings><ParameterBinding source="p/own.ssv"/><ParameterBinding source="of_top.ssv"/></ParameterBindings></System><Component name="z" source="z"><Connectors><Connector name="u" kind="input"/></Connectors></Component></Elements><Connections><Connection startElement="a" startConnector="y" endElement="P" endConnector="u"/><Connection startElement="P" startConnector="y" endElement="z" endConnector="u"/></Connections>"#;

static DOCUMENTS: [(&str, &str); 2] = [("p/SystemStructure.ssd", PACKAGE), ("p/deep/d.ssd", DEEP)];

#[test]
fn documents_say_what_the_inlined_one_says(rt: HostRuntime) {
    assert!(rt; says_inlined(rt.alloc(), TOP, &DOCUMENTS, INLINED));
}

// Two documents, each of which has a Component that is a package, and one of them a definition within.
const TWO: &str =
    r#"<Elements><Component name="P1" type="application/x-ssp-package" source="a"/><System name="s"><Elements><Component name="P2" type="application/x-ssp-package" source="b"/></Elements></System></Elements>"#;

const WITH_DEFINITION: &str =
    r#"<Elements><Component name="c" source="c"/><Component name="D" type="application/x-ssp-definition" source="x/y.ssd"/></Elements>"#;

const WITH_SIBLING: &str =
    r#"<Elements><Component name="D" type="application/x-ssp-definition" source="z.ssd"/><Component name="c" source="c"/></Elements>"#;

const EMPTY: &str = "";

#[test]
fn a_document_is_followed_by_those_nested_in_it(rt: HostRuntime) {
    let documents = [
        ("a/SystemStructure.ssd", WITH_DEFINITION),
        ("a/x/y.ssd", WITH_SIBLING),
        ("a/x/z.ssd", EMPTY),
        ("b/SystemStructure.ssd", EMPTY),
    ];
    assert!(rt; nest_of(rt.alloc(), TWO, &documents).is_some());
    // the package's own definition comes before the second package
    let documents = [
        ("a/SystemStructure.ssd", WITH_DEFINITION),
        ("b/SystemStructure.ssd", EMPTY),
    ];
    assert!(rt; nest_of(rt.alloc(), TWO, &documents).is_none());
}

// A document beside others that names itself.
const ITSELF: &str =
    r#"<Elements><Component name="D" type="application/x-ssp-definition" source="a.ssd"/></Elements>"#;

// Where the next document is refused, with so many more of these before it.
fn refused_after(alloc: Global, lists: &str, path: &str, count: usize) -> Option<Place> {
    let mut nest = nest(alloc, lists)?;
    for _ in 0..count {
        nest = add(alloc, nest, path, lists)?;
    }
    match nest.next(alloc) {
        Ok(Next::TooDeep { place }) => Some(place),
        _ => None,
    }
}

#[test]
fn eight_levels_are_read_below_the_outermost(rt: HostRuntime) {
    let place = refused_after(rt.alloc(), ITSELF, "a.ssd", 8);
    assert_eq!(rt;
        place,
        Some(Place {
            document: 8,
            node: 3
        })
    );
    assert_eq!(rt; refused_after(rt.alloc(), ITSELF, "a.ssd", 7), None);
}

fn many_packages(alloc: Global, count: usize) -> Option<String> {
    let mut lists = String::from_str(alloc, "<Elements>").ok()?;
    for at in 0..count {
        let component = format!(in alloc;
            "<Component name=\"P{at}\" type=\"application/x-ssp-package\" source=\"p\"/>"
        ).ok()?;
        lists.push_str(component.as_str()).ok()?;
    }
    lists.push_str("</Elements>").ok()?;
    Some(lists)
}

// Where the next document is refused after so many empty packages.
fn refused_package(alloc: Global, count: usize) -> Option<Place> {
    let lists = many_packages(alloc, count)?;
    let mut nest = nest(alloc, lists.as_str())?;
    for _ in 0..255 {
        nest = add(alloc, nest, "p/SystemStructure.ssd", EMPTY)?;
    }
    match nest.next(alloc) {
        Ok(Next::TooDeep { place }) => Some(place),
        _ => None,
    }
}

#[test]
fn the_257th_document_is_not_read(rt: HostRuntime) {
    let place = refused_package(rt.alloc(), 256);
    assert_eq!(rt;
        place,
        Some(Place {
            document: 0,
            node: 258
        })
    );
    assert_eq!(rt; refused_package(rt.alloc(), 255), None);
}

// The connectors of Components, and Systems that have one of them, one of another kind, and none.
const NAMING: &str =
    r#"<Elements><Component name="P1" type="application/x-ssp-package" source="a"><Connectors><Connector name="x" kind="output"/><Connector name="y" kind="output"/></Connectors></Component><Component name="P2" type="application/x-ssp-package" source="b"><Connectors><Connector name="x" kind="output"/></Connectors></Component></Elements>"#;

const HAS_X: &str = r#"<Connectors><Connector name="x" kind="output"/></Connectors>"#;

const HAS_BOTH: &str =
    r#"<Connectors><Connector name="y" kind="output"/><Connector name="x" kind="output"/></Connectors><Elements><Component name="D" type="application/x-ssp-definition" source="d.ssd"><Connectors><Connector name="z" kind="input"/></Connectors></Component></Elements>"#;

const OTHER_KIND: &str = r#"<Connectors><Connector name="x" kind="input"/></Connectors>"#;

// The first connector that is lacking.
fn lacking(alloc: Global, lists: &str, documents: &[(&str, &str)]) -> Option<Place> {
    match finish(alloc, nest_of(alloc, lists, documents)?) {
        Some(Err(place)) => Some(place),
        _ => None,
    }
}

#[test]
fn a_connector_that_the_document_lacks_is_told(rt: HostRuntime) {
    let documents = [
        ("a/SystemStructure.ssd", HAS_X),
        ("b/SystemStructure.ssd", HAS_X),
    ];
    let place = lacking(rt.alloc(), NAMING, &documents);
    assert_eq!(rt;
        place,
        Some(Place {
            document: 0,
            node: 6
        })
    );
    // one of the outermost document comes before one of a document that is read before
    let documents = [
        ("a/SystemStructure.ssd", HAS_BOTH),
        ("a/d.ssd", EMPTY),
        ("b/SystemStructure.ssd", OTHER_KIND),
    ];
    let place = lacking(rt.alloc(), NAMING, &documents);
    assert_eq!(rt;
        place,
        Some(Place {
            document: 0,
            node: 9
        })
    );
    let documents = [
        ("a/SystemStructure.ssd", HAS_BOTH),
        ("a/d.ssd", EMPTY),
        ("b/SystemStructure.ssd", HAS_X),
    ];
    let place = lacking(rt.alloc(), NAMING, &documents);
    assert_eq!(rt;
        place,
        Some(Place {
            document: 1,
            node: 8
        })
    );
}

// The elements of the whole.
fn places(alloc: Global) -> Option<[Option<Place>; 4]> {
    let nest = nest_of(alloc, ITSELF_ONCE, &[("b.ssd", EMPTY)])?;
    match finish(alloc, nest) {
        Some(Ok(whole)) => Some([
            whole.numbers.place(2),
            whole.numbers.place(3),
            whole.numbers.place(4),
            whole.numbers.place(5),
        ]),
        _ => None,
    }
}

const ITSELF_ONCE: &str =
    r#"<Elements><Component name="D" type="application/x-ssp-definition" source="b.ssd"/></Elements>"#;

#[test]
fn a_document_stands_before_its_component(rt: HostRuntime) {
    let wanted = [
        Some(Place {
            document: 0,
            node: 2,
        }),
        Some(Place {
            document: 1,
            node: 0,
        }),
        Some(Place {
            document: 1,
            node: 1,
        }),
        Some(Place {
            document: 0,
            node: 3,
        }),
    ];
    assert_eq!(rt; places(rt.alloc()), Some(wanted));
}

// Components that are FMUs, so many.
fn many_fmus(alloc: Global, before: &str, count: usize) -> Option<String> {
    let mut lists = String::from_str(alloc, "<Elements>").ok()?;
    lists.push_str(before).ok()?;
    for at in 0..count {
        let component = format!(in alloc; "<Component name=\"c{at}\" source=\"c\"/>").ok()?;
        lists.push_str(component.as_str()).ok()?;
    }
    lists.push_str("</Elements>").ok()?;
    Some(lists)
}

// Whether a package may have so many FMUs, where so many stand around it.
fn may_have(alloc: Global, around: usize, count: usize) -> Option<bool> {
    let package = r#"<Component name="P" type="application/x-ssp-package" source="p"/>"#;
    let outer = many_fmus(alloc, package, around)?;
    let inner = many_fmus(alloc, "", count)?;
    let nest = nest(alloc, outer.as_str())?;
    let text = with_lists(alloc, inner.as_str())?;
    match nest.next(alloc) {
        Ok(Next::Document { path: _, setting }) => {
            Some(document(alloc, setting, text.as_str()).is_some())
        }
        _ => None,
    }
}

#[test]
fn the_257th_fmu_of_all_documents_is_refused(rt: HostRuntime) {
    assert_eq!(rt; may_have(rt.alloc(), 255, 1), Some(true));
    assert_eq!(rt; may_have(rt.alloc(), 255, 2), Some(false));
    // the package itself isn't counted
    assert_eq!(rt; may_have(rt.alloc(), 256, 0), Some(true));
    assert_eq!(rt; may_have(rt.alloc(), 257, 0), None);
}
