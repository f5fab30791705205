//! The Systems of a document, its Components, and what stands in them.
ghost use Rattle.std.specs.Prelude.{◌↔◌, IsTrue, IfOk, codes};
ghost use Rattle.ssd_tree.specs.Elements.{IsBinding, IsComponent, IsConnection, IsConnector, IsOfPart, IsOfSystem, IsSystem};
ghost use Rattle.ssd_tree.specs.Listings.{IsListing, IsListingBelow};

use crate::elements::holder;
use crate::listings::is_listed;
use doc_tables::{is_in_root, is_named};
use doc_tree::Tree;
use std::alloc::{AllocError, Global};

/// Whether the element stands in this list of one of these Systems.
pub(crate) fn is_of_system(tree: &Tree, systems: &[usize], node: usize, list: &str) -> bool
    requires { IsListing (IsSystem tree.now) systems.now }
    ensures { IsTrue result ↔ IsOfSystem tree.now node list.now }
{
    match holder(tree, node, list) {
        Some(system) => is_listed(systems, system),
        None => false,
    }
}

/// Whether the element stands in this list of one of these Systems or Components.
pub(crate) fn is_of_part(
    tree: &Tree,
    systems: &[usize],
    components: &[usize],
    node: usize,
    list: &str,
) -> bool
    requires systems { IsListing (IsSystem tree.now) systems.now }
    requires components { IsListing (IsComponent tree.now) components.now }
    ensures { IsTrue result ↔ IsOfPart tree.now node list.now }
{
    match holder(tree, node, list) {
        Some(part) => is_listed(systems, part) || is_listed(components, part),
        None => false,
    }
}

// Whether the element stands among the Elements of one of the Systems before it.
fn is_inside(tree: &Tree, systems: &[usize], node: usize) -> bool
    requires { IsListingBelow (IsSystem tree.now) node systems.now }
    ensures { IsTrue result ↔ IsOfSystem tree.now node (codes "Elements") }
{
    match holder(tree, node, "Elements") {
        Some(system) => is_listed(systems, system),
        None => false,
    }
}

// Whether the element is a System, by those before it.
fn is_system(tree: &Tree, systems: &[usize], node: usize) -> bool
    requires { IsListingBelow (IsSystem tree.now) node systems.now }
    ensures { IsTrue result ↔ IsSystem tree.now node }
{
    is_named(tree, node, "System") && (is_in_root(tree, node) || is_inside(tree, systems, node))
}

fn is_component(tree: &Tree, systems: &[usize], node: usize) -> bool
    requires { IsListing (IsSystem tree.now) systems.now }
    ensures { IsTrue result ↔ IsComponent tree.now node }
{
    is_named(tree, node, "Component") && is_of_system(tree, systems, node, "Elements")
}

fn is_connector(tree: &Tree, systems: &[usize], components: &[usize], node: usize) -> bool
    requires systems { IsListing (IsSystem tree.now) systems.now }
    requires components { IsListing (IsComponent tree.now) components.now }
    ensures { IsTrue result ↔ IsConnector tree.now node }
{
    is_named(tree, node, "Connector") && is_of_part(tree, systems, components, node, "Connectors")
}

fn is_connection(tree: &Tree, systems: &[usize], node: usize) -> bool
    requires { IsListing (IsSystem tree.now) systems.now }
    ensures { IsTrue result ↔ IsConnection tree.now node }
{
    is_named(tree, node, "Connection") && is_of_system(tree, systems, node, "Connections")
}

fn is_binding(tree: &Tree, systems: &[usize], components: &[usize], node: usize) -> bool
    requires systems { IsListing (IsSystem tree.now) systems.now }
    requires components { IsListing (IsComponent tree.now) components.now }
    ensures { IsTrue result ↔ IsBinding tree.now node }
{
    is_named(tree, node, "ParameterBinding")
        && is_of_part(tree, systems, components, node, "ParameterBindings")
}

/// All Systems. A System comes after the one that it stands in.
pub(crate) fn systems(alloc: Global, tree: &Tree) -> Result<Vec<usize>, AllocError>
    ensures { IfOk result (λ v. IsListing (IsSystem tree.now) v.items) }
{
    let mut systems = Vec::new(alloc);
    for node in 0..tree.len() {
        if is_system(tree, systems.as_slice(), node) {
            systems.push(node)?;
        }
    }
    Ok(systems)
}

/// All Components.
pub(crate) fn components(
    alloc: Global,
    tree: &Tree,
    systems: &[usize],
) -> Result<Vec<usize>, AllocError>
    requires { IsListing (IsSystem tree.now) systems.now }
    ensures { IfOk result (λ v. IsListing (IsComponent tree.now) v.items) }
{
    let mut components = Vec::new(alloc);
    for node in 0..tree.len() {
        if is_component(tree, systems, node) {
            components.push(node)?;
        }
    }
    Ok(components)
}

/// All connectors of these parts.
pub(crate) fn connectors(
    alloc: Global,
    tree: &Tree,
    systems: &[usize],
    components: &[usize],
) -> Result<Vec<usize>, AllocError>
    requires systems { IsListing (IsSystem tree.now) systems.now }
    requires components { IsListing (IsComponent tree.now) components.now }
    ensures { IfOk result (λ v. IsListing (IsConnector tree.now) v.items) }
{
    let mut connectors = Vec::new(alloc);
    for node in 0..tree.len() {
        if is_connector(tree, systems, components, node) {
            connectors.push(node)?;
        }
    }
    Ok(connectors)
}

/// All connections of these Systems.
pub(crate) fn connections(
    alloc: Global,
    tree: &Tree,
    systems: &[usize],
) -> Result<Vec<usize>, AllocError>
    requires { IsListing (IsSystem tree.now) systems.now }
    ensures { IfOk result (λ v. IsListing (IsConnection tree.now) v.items) }
{
    let mut connections = Vec::new(alloc);
    for node in 0..tree.len() {
        if is_connection(tree, systems, node) {
            connections.push(node)?;
        }
    }
    Ok(connections)
}

/// All parameter bindings of these parts.
pub(crate) fn bindings(
    alloc: Global,
    tree: &Tree,
    systems: &[usize],
    components: &[usize],
) -> Result<Vec<usize>, AllocError>
    requires systems { IsListing (IsSystem tree.now) systems.now }
    requires components { IsListing (IsComponent tree.now) components.now }
    ensures { IfOk result (λ v. IsListing (IsBinding tree.now) v.items) }
{
    let mut bindings = Vec::new(alloc);
    for node in 0..tree.len() {
        if is_binding(tree, systems, components, node) {
            bindings.push(node)?;
        }
    }
    Ok(bindings)
}
