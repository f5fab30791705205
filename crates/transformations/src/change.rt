//! What transformations do to values (SSP 1.0: LinearTransformation, BooleanMappingTransformation, IntegerMappingTransformation).
ghost use Rattle.std.specs.Prelude.{◌≡◌, ℤ, Bool, Some, List, IfOk, IfSome, MatchOption, codes, pos, true};
ghost use Rattle.std.specs.List.{AllZip};
ghost use Rattle.parameter_values.specs.declared.change.BooleanPair.{BooleanPair};
ghost use Rattle.parameter_values.specs.declared.change.Change.{Change};
ghost use Rattle.parameter_values.specs.declared.change.IntegerPair.{IntegerPair};
ghost use Rattle.doc_tables.specs.Elements.{attribute, is_named};
ghost use Rattle.transformations.specs.Elements.{children_named};
ghost use Rattle.transformations.specs.Numbers.{WritesOr};
ghost use Rattle.transformations.specs.Changes.{IsBooleanPair, IsChange, IsIntegerPair, IsMisread};

use crate::elements::children_named;
use crate::numbers::{boolean, factor_or, whole_number};
use doc_tables::is_named;
use doc_tree::Tree;
use parameter_values::{BooleanPair, Change, IntegerPair};
use sim_base::Items;
use std::alloc::{AllocError, Global};

fn integer_pair(tree: &Tree, node: usize) -> Option<IntegerPair>
    ensures { MatchOption result ((x : IntegerPair) → IsIntegerPair tree.now node x → ⊥)
        (IsIntegerPair tree.now node) }
{
    let source = whole_number(tree, node, "source")?;
    let target = whole_number(tree, node, "target")?;
    Some(IntegerPair { source, target })
}

fn boolean_pair(tree: &Tree, node: usize) -> Option<BooleanPair>
    ensures { MatchOption result ((x : BooleanPair) → IsBooleanPair tree.now node x → ⊥)
        (IsBooleanPair tree.now node) }
{
    let source = boolean(tree, node, "source")?;
    let target = boolean(tree, node, "target")?;
    Some(BooleanPair { source, target })
}

// The pairs of an integer mapping, where each entry reads.
fn integer_pairs(
    alloc: Global,
    tree: &Tree,
    entries: &[usize],
) -> Result<Option<Vec<IntegerPair>>, AllocError>
    ensures { IfOk result (λ o. MatchOption o
        ((xs : List IntegerPair) → AllZip (IsIntegerPair tree.now) entries.now xs → ⊥)
        (λ v. AllZip (IsIntegerPair tree.now) entries.now v.items)) }
{
    let mut pairs = Vec::new(alloc);
    for node in entries {
        let Some(pair) = integer_pair(tree, *node) else {
            return Ok(None);
        };
        pairs.push(pair)?;
    }
    Ok(Some(pairs))
}

// The pairs of a Boolean mapping, where each entry reads.
fn boolean_pairs(
    alloc: Global,
    tree: &Tree,
    entries: &[usize],
) -> Result<Option<Vec<BooleanPair>>, AllocError>
    ensures { IfOk result (λ o. MatchOption o
        ((xs : List BooleanPair) → AllZip (IsBooleanPair tree.now) entries.now xs → ⊥)
        (λ v. AllZip (IsBooleanPair tree.now) entries.now v.items)) }
{
    let mut pairs = Vec::new(alloc);
    for node in entries {
        let Some(pair) = boolean_pair(tree, *node) else {
            return Ok(None);
        };
        pairs.push(pair)?;
    }
    Ok(Some(pairs))
}

fn linear(tree: &Tree, node: usize) -> Option<Change>
    requires { is_named tree.now node (codes "LinearTransformation") ≡ true }
    ensures { MatchOption result (IsMisread tree.now node) (IsChange tree.now node) }
{
    let factor = factor_or(1, tree, node, "factor")?;
    let offset = factor_or(0, tree, node, "offset")?;
    Some(Change::Linear { factor, offset })
}

fn integer_mapping(alloc: Global, tree: &Tree, node: usize) -> Result<Option<Change>, AllocError>
    requires { is_named tree.now node (codes "IntegerMappingTransformation") ≡ true }
    ensures { IfOk result (λ o. MatchOption o (IsMisread tree.now node)
        (IsChange tree.now node)) }
{
    let entries = children_named(alloc, tree, node, "MapEntry")?;
    match integer_pairs(alloc, tree, entries.as_slice())? {
        Some(pairs) => Ok(Some(Change::Integers {
            pairs: Items::from_vec(pairs),
        })),
        None => Ok(None),
    }
}

fn boolean_mapping(alloc: Global, tree: &Tree, node: usize) -> Result<Option<Change>, AllocError>
    requires { is_named tree.now node (codes "BooleanMappingTransformation") ≡ true }
    ensures { IfOk result (λ o. MatchOption o (IsMisread tree.now node)
        (IsChange tree.now node)) }
{
    let entries = children_named(alloc, tree, node, "MapEntry")?;
    match boolean_pairs(alloc, tree, entries.as_slice())? {
        Some(pairs) => Ok(Some(Change::Booleans {
            pairs: Items::from_vec(pairs),
        })),
        None => Ok(None),
    }
}

/// What a transformation does to values; nothing exactly where its factor, its offset or an entry of it doesn't read, or it
/// maps enumerations. Of several entries with one source the last counts.
pub fn read_transformation(
    alloc: Global,
    tree: &Tree,
    node: usize,
) -> Result<Option<Change>, AllocError>
    ensures { IfOk result (λ o. MatchOption o (IsMisread tree.now node)
        (IsChange tree.now node)) }
{
    if is_named(tree, node, "LinearTransformation") {
        Ok(linear(tree, node))
    } else if is_named(tree, node, "IntegerMappingTransformation") {
        integer_mapping(alloc, tree, node)
    } else if is_named(tree, node, "BooleanMappingTransformation") {
        boolean_mapping(alloc, tree, node)
    } else {
        Ok(None)
    }
}
