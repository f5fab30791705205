//! The elements that transformations are, and those that stand in them.
ghost use Rattle.std.specs.Prelude.{◌≡◌, IfOk};
ghost use Rattle.doc_tables.specs.Documents.{is_transformation};
ghost use Rattle.transformations.specs.Elements.{children_named, first_transformation};

use doc_tables::{children, is_named, name};
use doc_tree::Tree;
use std::alloc::{AllocError, Global};

/// The elements with a name that stand directly in this one, in document order.
pub fn children_named(
    alloc: Global,
    tree: &Tree,
    node: usize,
    wanted: &str,
) -> Result<Vec<usize>, AllocError>
    ensures { IfOk result (λ v. v.items ≡ children_named tree.now wanted.now node) }
{
    let mut found = Vec::new(alloc);
    for child in children(tree, node) {
        if is_named(tree, *child, wanted) {
            found.push(*child)?;
        }
    }
    Ok(found)
}

/// Whether an element of this name is a transformation.
pub fn is_transformation(name: &str) -> bool
    ensures { result ≡ is_transformation name.now }
{
    name == "LinearTransformation"
        || name == "BooleanMappingTransformation"
        || name == "IntegerMappingTransformation"
        || name == "EnumerationMappingTransformation"
}

/// The transformation of an element that counts: the first of those that stand directly in it.
pub fn first_transformation(tree: &Tree, node: usize) -> Option<usize>
    ensures { result ≡ first_transformation tree.now node }
{
    children(tree, node)
        .iter()
        .copied()
        .find(|child| is_transformation(name(tree, *child)))
}
