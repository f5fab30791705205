//! What the elements of a system structure description are called, stand in and say.
ghost use Rattle.std.specs.Prelude.{◌≡◌, ◌<◌, IfSome, option_copied};
ghost use Rattle.doc_tables.specs.Places.{scoped};
ghost use Rattle.ssd_tree.specs.Elements.{both, connector_key, connector_kind, element_key, first_child, has_child, holder, kind_of, mapping_key, type_child, type_of};

use crate::tree::{ConnectorKind, TypeChild};
use doc_tables::{attribute, children, is_named, name, parent, unless_empty};
use doc_tree::Tree;

/// Whether an element of this name stands directly in this one.
pub(crate) fn has_child(tree: &Tree, node: usize, wanted: &str) -> bool
    ensures { result ≡ has_child tree.now node wanted.now }
{
    children(tree, node)
        .iter()
        .any(|child| is_named(tree, *child, wanted))
}

/// The first element of this name that stands directly in this one.
pub(crate) fn first_child(tree: &Tree, node: usize, wanted: &str) -> Option<usize>
    ensures { result ≡ first_child tree.now node wanted.now }
{
    children(tree, node)
        .iter()
        .copied()
        .find(|child| is_named(tree, *child, wanted))
}

/// The element whose list of this name this one stands in, which is before it.
pub(crate) fn holder(tree: &Tree, node: usize, list: &str) -> Option<usize>
    ensures holder { result ≡ holder tree.now node list.now }
    ensures before { IfSome result (λ p. p < node) }
{
    let parent_list = parent(tree, node)?;
    if is_named(tree, parent_list, list) {
        parent(tree, parent_list)
    } else {
        None
    }
}

// A name in a scope, where there are both.
fn both(scope: Option<usize>, name: Option<&str>) -> Option<(usize, &str)>
    ensures { scoped result ≡ both scope (option_copied name.entry) }
{
    Some((scope?, name?))
}

/// The name of a System or Component in its System.
pub(crate) fn element_key(tree: &Tree, node: usize) -> Option<(usize, &str)>
    ensures { scoped result ≡ element_key tree.now node }
{
    if is_named(tree, node, "System") || is_named(tree, node, "Component") {
        both(
            holder(tree, node, "Elements"),
            unless_empty(attribute(tree, node, "name")),
        )
    } else {
        None
    }
}

/// The name of a connector in its part.
pub(crate) fn connector_key(tree: &Tree, node: usize) -> Option<(usize, &str)>
    ensures { scoped result ≡ connector_key tree.now node }
{
    if is_named(tree, node, "Connector") {
        both(
            holder(tree, node, "Connectors"),
            unless_empty(attribute(tree, node, "name")),
        )
    } else {
        None
    }
}

/// A ParameterMapping in the element that it stands in.
pub(crate) fn mapping_key(tree: &Tree, node: usize) -> Option<(usize, &str)>
    ensures { scoped result ≡ mapping_key tree.now node }
{
    if is_named(tree, node, "ParameterMapping") {
        both(parent(tree, node), Some("ParameterMapping"))
    } else {
        None
    }
}

fn connector_kind(text: &str) -> Option<ConnectorKind>
    ensures { result ≡ connector_kind text.now }
{
    match text {
        "input" => Some(ConnectorKind::Input),
        "output" => Some(ConnectorKind::Output),
        "parameter" => Some(ConnectorKind::Parameter),
        "calculatedParameter" => Some(ConnectorKind::CalculatedParameter),
        _ => None,
    }
}

/// The kind of a connector, where it is one of the profile.
pub(crate) fn kind_of(tree: &Tree, node: usize) -> Option<ConnectorKind>
    ensures { result ≡ kind_of tree.now node }
{
    match attribute(tree, node, "kind") {
        Some(text) => connector_kind(text),
        None => None,
    }
}

fn type_child(name: &str) -> Option<TypeChild>
    ensures { result ≡ type_child name.now }
{
    match name {
        "Integer" => Some(TypeChild::Integer),
        "Boolean" => Some(TypeChild::Boolean),
        "Enumeration" => Some(TypeChild::Enumeration),
        "Real" | "String" | "Binary" => Some(TypeChild::Other),
        _ => None,
    }
}

/// The first type that stands in a connector.
pub(crate) fn type_of(tree: &Tree, node: usize) -> Option<TypeChild>
    ensures { result ≡ type_of tree.now node }
{
    for child in children(tree, node) {
        if let Some(found) = type_child(name(tree, *child)) {
            return Some(found);
        }
    }
    None
}
