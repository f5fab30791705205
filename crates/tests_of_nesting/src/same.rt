use sim_base::PartedText;
use ssd_tree::{Binding, ComponentPart, Connection, Connector, Origin, SystemPart, SystemTree};
use std::alloc::Global;

fn same_systems(one: &[SystemPart], other: &[SystemPart]) -> bool {
    one.len() == other.len()
        && one.iter().zip(other).all(|(a, b)| {
            a.parent == b.parent && a.name.as_str() == b.name.as_str()
        })
}

fn same_name(alloc: Global, one: &PartedText, other: &PartedText) -> bool {
    match other.text(alloc) {
        Ok(text) => one.is(text.as_str().as_bytes()),
        Err(_) => false,
    }
}

fn same_components(alloc: Global, one: &[ComponentPart], other: &[ComponentPart]) -> bool {
    one.len() == other.len()
        && one.iter().zip(other).all(|(a, b)| {
            a.system == b.system
                && same_name(alloc, &a.name, &b.name)
                && a.source.as_str() == b.source.as_str()
        })
}

fn same_connectors(one: &[Connector], other: &[Connector]) -> bool {
    one.len() == other.len()
        && one.iter().zip(other).all(|(a, b)| {
            a.owner == b.owner
                && a.name.as_str() == b.name.as_str()
                && a.kind == b.kind
                && a.child == b.child
        })
}

fn same_connections(one: &[Connection], other: &[Connection]) -> bool {
    one.len() == other.len()
        && one
            .iter()
            .zip(other)
            .all(|(a, b)| a.start == b.start && a.end == b.end)
}

// Files by their paths and bases; what stands within a document by that alone.
fn same_origin(one: &Origin, other: &Origin) -> bool {
    match (one, other) {
        (
            Origin::File { base, path },
            Origin::File {
                base: other_base,
                path: other_path,
            },
        ) => base == other_base && path.as_str() == other_path.as_str(),
        (Origin::Inline { .. }, Origin::Inline { .. }) => true,
        _ => false,
    }
}

fn same_mapping(one: &Option<Origin>, other: &Option<Origin>) -> bool {
    match (one, other) {
        (Some(a), Some(b)) => same_origin(a, b),
        (a, b) => a.is_none() && b.is_none(),
    }
}

fn same_bindings(one: &[Binding], other: &[Binding]) -> bool {
    one.len() == other.len()
        && one.iter().zip(other).all(|(a, b)| {
            a.owner == b.owner
                && a.prefix.as_str() == b.prefix.as_str()
                && same_origin(&a.values, &b.values)
                && same_mapping(&a.mapping, &b.mapping)
        })
}

/// Whether two trees are the same but for the numbers of elements.
pub(crate) fn same_trees(alloc: Global, one: &SystemTree, other: &SystemTree) -> bool {
    same_systems(one.systems.as_slice(), other.systems.as_slice())
        && same_components(
            alloc,
            one.components.as_slice(),
            other.components.as_slice(),
        )
        && same_connectors(one.connectors.as_slice(), other.connectors.as_slice())
        && same_connections(one.connections.as_slice(), other.connections.as_slice())
        && same_bindings(one.bindings.as_slice(), other.bindings.as_slice())
}
