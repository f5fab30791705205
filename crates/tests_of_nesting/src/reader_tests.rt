use crate::documents::{document, refused, refused_alone, with_lists};
use doc_tree::{Rule, SystemRule};
use nested_documents::OUTERMOST;
use ssd_tree::{NestedKind, Setting};
use std::alloc::Global;

// An FMU, a package and a definition; the package says that it is for Model Exchange.
const MIXED: &str =
    r#"<Elements><Component name="a" source="a"/><Component name="p" type="application/x-ssp-package" implementation="ModelExchange" source="p"/><System name="s"><Elements><Component name="d" type="application/x-ssp-definition" source="x/d.ssd"/></Elements></System></Elements>"#;

// Of each Component that is a system of its own: its place, the number of its element, and what it is.
fn nested(alloc: Global, lists: &str) -> Option<Vec<(usize, usize, NestedKind)>> {
    let text = with_lists(alloc, lists)?;
    let document = document(alloc, OUTERMOST, text.as_str())?;
    let mut nested = Vec::new(alloc);
    for one in &document.nested {
        nested.push((one.component, one.node, one.kind)).ok()?;
    }
    Some(nested)
}

#[test]
fn packages_and_definitions_are_listed(rt: HostRuntime) {
    let wanted = [(1, 4, NestedKind::Package), (2, 7, NestedKind::Definition)];
    let found = nested(rt.alloc(), MIXED).expect(&rt, "a document");
    assert!(rt; found.as_slice() == wanted.as_slice());
}

fn refused_lists(alloc: Global, setting: Setting, lists: &str) -> Option<(usize, Rule)> {
    let text = with_lists(alloc, lists)?;
    refused(alloc, setting, text.as_str())
}

#[test]
fn a_system_alone_has_no_packages(rt: HostRuntime) {
    let text = with_lists(rt.alloc(), MIXED).expect(&rt, "a text");
    let wanted = Some((4, Rule::System(SystemRule::OtherType)));
    assert_eq!(rt; refused_alone(rt.alloc(), text.as_str()), wanted);
    assert_eq!(rt; refused_lists(rt.alloc(), OUTERMOST, MIXED), None);
}

// An FMU for Model Exchange, after a package that is.
const EXCHANGES: &str =
    r#"<Elements><Component name="p" type="application/x-ssp-package" implementation="ModelExchange" source="p"/><Component name="a" implementation="ModelExchange" source="a"/></Elements>"#;

const OTHER: &str =
    r#"<Elements><Component name="p" type="application/zip" source="p"/></Elements>"#;

const ASTRAY: &str =
    r#"<Elements><Component name="p" type="application/x-ssp-package" source="../p"/></Elements>"#;

#[test]
fn rules_of_components_that_are_systems(rt: HostRuntime) {
    let exchange = refused_lists(rt.alloc(), OUTERMOST, EXCHANGES);
    assert_eq!(rt;
        exchange,
        Some((4, Rule::System(SystemRule::ModelExchange)))
    );
    let other = refused_lists(rt.alloc(), OUTERMOST, OTHER);
    assert_eq!(rt; other, Some((3, Rule::System(SystemRule::OtherType))));
    let astray = refused_lists(rt.alloc(), OUTERMOST, ASTRAY);
    assert_eq!(rt; astray, Some((3, Rule::System(SystemRule::NoSource))));
}

// A System within the outermost one, with a Component whose full name has three bytes.
const DEEP: &str =
    r#"<Elements><System name="s"><Elements><Component name="c" source="c"/></Elements></System></Elements>"#;

// The refusal where so many bytes stand before full names.
fn refused_below(alloc: Global, name_above: usize) -> Option<(usize, Rule)> {
    let setting = Setting {
        nests: true,
        fmus: 0,
        name_above,
    };
    refused_lists(alloc, setting, DEEP)
}

#[test]
fn a_full_name_has_at_most_2_to_24_bytes(rt: HostRuntime) {
    assert_eq!(rt; refused_below(rt.alloc(), 16_777_213), None);
    let wanted = Some((5, Rule::System(SystemRule::TooManyComponents)));
    assert_eq!(rt; refused_below(rt.alloc(), 16_777_214), wanted);
}
