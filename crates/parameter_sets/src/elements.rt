//! The elements of sets and mappings.
ghost use Rattle.std.specs.Prelude.{◌≡◌, ◌++◌, IfOk, OnOk};
ghost use Rattle.parameter_sets.specs.Elements.{first_value, inside, is_value, seat, tops};
ghost use Rattle.transformations.specs.Elements.{children_named, transformations_of};
ghost use Rattle.std.specs.List.{flat_map};

use doc_tables::{children, is_named, name};
use doc_tree::Tree;
use std::alloc::{AllocError, Global};
use transformations::{children_named, is_transformation};

// Appends those with a name to a list.
fn put_named(
    found: &mut Vec<usize>,
    tree: &Tree,
    node: usize,
    wanted: &str,
) -> Result<(), AllocError>
    ensures { OnOk result (found.new.items ≡ found.old.items ++ children_named tree.now wanted.now
        node) }
{
    for child in children(tree, node) {
        if is_named(tree, *child, wanted) {
            found.push(*child)?;
        }
    }
    Ok(())
}

/// The elements with a name that stand directly in one of these.
pub(crate) fn inside(
    alloc: Global,
    tree: &Tree,
    outer: &[usize],
    wanted: &str,
) -> Result<Vec<usize>, AllocError>
    ensures { IfOk result (λ v. v.items ≡ inside tree.now wanted.now outer.now) }
{
    let mut found = Vec::new(alloc);
    for node in outer {
        put_named(&mut found, tree, *node, wanted)?;
    }
    Ok(found)
}

// The root, where it has the name.
fn root_named(alloc: Global, tree: &Tree, wanted: &str) -> Result<Vec<usize>, AllocError>
    ensures { IfOk result (λ v. v.items ≡ tops tree.now wanted.now None) }
{
    let mut found = Vec::new(alloc);
    if is_named(tree, 0, wanted) {
        found.push(0)?;
    }
    Ok(found)
}

/// What there is of this name: the root of a file, or what stands directly in the element of a binding.
pub(crate) fn tops(
    alloc: Global,
    tree: &Tree,
    wanted: &str,
    at: Option<usize>,
) -> Result<Vec<usize>, AllocError>
    ensures { IfOk result (λ v. v.items ≡ tops tree.now wanted.now at) }
{
    match at {
        Some(holder) => children_named(alloc, tree, holder, wanted),
        None => root_named(alloc, tree, wanted),
    }
}

/// The element that is told where there isn't just one.
pub(crate) fn seat(at: Option<usize>) -> usize
    ensures { result ≡ seat at }
{
    at.unwrap_or(0)
}

fn is_value(name: &str) -> bool
    ensures { result ≡ is_value name.now }
{
    name == "Real"
        || name == "Integer"
        || name == "Boolean"
        || name == "String"
        || name == "Enumeration"
        || name == "Binary"
}

// Appends the transformations of an entry to a list.
fn put_transformations(found: &mut Vec<usize>, tree: &Tree, node: usize) -> Result<(), AllocError>
    ensures { OnOk result (found.new.items ≡ found.old.items ++ transformations_of tree.now node) }
{
    for child in children(tree, node) {
        if is_transformation(name(tree, *child)) {
            found.push(*child)?;
        }
    }
    Ok(())
}

/// The transformations of these entries.
pub(crate) fn transformations(
    alloc: Global,
    tree: &Tree,
    entries: &[usize],
) -> Result<Vec<usize>, AllocError>
    ensures { IfOk result (λ v. v.items ≡ flat_map (transformations_of tree.now) entries.now) }
{
    let mut found = Vec::new(alloc);
    for node in entries {
        put_transformations(&mut found, tree, *node)?;
    }
    Ok(found)
}

/// The value of a Parameter that counts.
pub(crate) fn first_value(tree: &Tree, node: usize) -> Option<usize>
    ensures { result ≡ first_value tree.now node }
{
    children(tree, node)
        .iter()
        .copied()
        .find(|child| is_value(name(tree, *child)))
}
