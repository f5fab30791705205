//! The entries of a mapping.
ghost use Rattle.std.specs.Prelude.{◌≡◌, ◌↔◌, ℕ, codes, IsTrue, IfOk, Contains};
ghost use Rattle.std.specs.List.{AllZip, flat_map};
ghost use Rattle.transformations.specs.Changes.{IsMisread};
ghost use Rattle.transformations.specs.Elements.{first_transformation, transformations_of};
ghost use Rattle.parameter_sets.specs.Rules.{IsIncompleteEntry};
ghost use Rattle.parameter_sets.specs.Sets.{IsEntry, IsTransformation};

use doc_tables::{attribute, lacks};
use doc_tree::Tree;
use parameter_values::{MappingEntry, Transformation};
use sim_base::Text;
use std::alloc::{AllocError, Global};
use transformations::{first_transformation, read_transformation};

/// Whether an entry lacks its source or its target.
pub(crate) fn is_incomplete_entry(tree: &Tree, node: usize) -> bool
    ensures { IsTrue result ↔ IsIncompleteEntry tree.now node }
{
    lacks(tree, node, "source") || lacks(tree, node, "target")
}

/// Whether a transformation doesn't read.
pub(crate) fn is_misread(alloc: Global, tree: &Tree, node: usize) -> Result<bool, AllocError>
    ensures { IfOk result (λ b. IsTrue b ↔ IsMisread tree.now node) }
{
    Ok(read_transformation(alloc, tree, node)?.is_none())
}

// The transformation of an entry that counts.
fn transformation(
    alloc: Global,
    tree: &Tree,
    node: usize,
) -> Result<Option<Transformation>, AllocError>
    requires { (k : ℕ) → Contains (transformations_of tree.now node) k →
        IsMisread tree.now k → ⊥ }
    ensures { IfOk result (IsTransformation tree.now (first_transformation tree.now node)) }
{
    let Some(child) = first_transformation(tree, node) else {
        return Ok(None);
    };
    let change = read_transformation(alloc, tree, child)?.unwrap();
    Ok(Some(Transformation {
        node: child,
        change,
    }))
}

fn entry(alloc: Global, tree: &Tree, node: usize) -> Result<MappingEntry, AllocError>
    requires complete { IsIncompleteEntry tree.now node → ⊥ }
    requires read { (k : ℕ) → Contains (transformations_of tree.now node) k →
        IsMisread tree.now k → ⊥ }
    ensures { IfOk result (IsEntry tree.now node) }
{
    Ok(MappingEntry {
        node,
        source: Text::from_str(alloc, attribute(tree, node, "source").unwrap())?,
        target: Text::from_str(alloc, attribute(tree, node, "target").unwrap())?,
        transformation: transformation(alloc, tree, node)?,
    })
}

/// What these entries say.
pub(crate) fn entries(
    alloc: Global,
    tree: &Tree,
    nodes: &[usize],
) -> Result<Vec<MappingEntry>, AllocError>
    requires complete { (k : ℕ) → Contains nodes.now k → IsIncompleteEntry tree.now k → ⊥ }
    requires read { (k : ℕ) → Contains (flat_map (transformations_of tree.now) nodes.now) k →
        IsMisread tree.now k → ⊥ }
    ensures { IfOk result (λ v. AllZip (IsEntry tree.now) nodes.now v.items) }
{
    let mut found = Vec::new(alloc);
    for node in nodes {
        found.push(entry(alloc, tree, *node)?)?;
    }
    Ok(found)
}
