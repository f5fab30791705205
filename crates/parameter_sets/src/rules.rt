//! The first rule that a set or a mapping breaks.
ghost use Rattle.std.specs.Prelude.{◌≡◌, ◌↔◌, ℕ, IsTrue, IfOk};
ghost use Rattle.doc_tables.specs.Violations.{FindsLeast, earlier_violation};
ghost use Rattle.parameter_sets.specs.Least.{least_with, lesser};
ghost use Rattle.parameter_sets.specs.Rules.{IsBroken, IsBrokenAmong, IsOtherStructure};
ghost use Rattle.doc_tables.specs.Documents.{has_version};

use crate::elements::seat;
use crate::entries::{is_incomplete_entry, is_misread};
use crate::parameters::is_incomplete_parameter;
use crate::part::Part;
use doc_tables::attribute;
use doc_tree::{ParameterRule, Tree};
use std::alloc::{AllocError, Global};

fn has_version(tree: &Tree, node: usize) -> bool
    ensures { result ≡ has_version tree.now node }
{
    match attribute(tree, node, "version") {
        Some(version) => version == "1.0",
        None => false,
    }
}

/// The element that is told where what is found isn't just one set, or one mapping, of version 1.0.
pub(crate) fn other_structure(tree: &Tree, found: &[usize], at: Option<usize>) -> Option<usize>
    ensures { FindsLeast (IsOtherStructure tree.now found.now at) result }
{
    if found.len() != 1 {
        Some(seat(at))
    } else if has_version(tree, found[0]) {
        None
    } else {
        Some(found[0])
    }
}

// Whether a part breaks its rule.
fn is_broken(alloc: Global, tree: &Tree, part: Part, node: usize) -> Result<bool, AllocError>
    ensures { IfOk result (λ b. IsTrue b ↔ IsBroken tree.now part node) }
{
    match part {
        Part::Parameter => Ok(is_incomplete_parameter(tree, node)),
        Part::Entry => Ok(is_incomplete_entry(tree, node)),
        Part::Transformation => is_misread(alloc, tree, node),
    }
}

// The lesser of two elements, where the first is there.
fn lesser(first: Option<usize>, node: usize) -> usize
    ensures { result ≡ lesser first node }
{
    match first {
        Some(first) => first.min(node),
        None => node,
    }
}

// The least element so far, where this one counts or doesn't.
fn least_with(first: Option<usize>, node: usize, counts: bool) -> Option<usize>
    ensures { result ≡ least_with first node counts }
{
    if counts {
        Some(lesser(first, node))
    } else {
        first
    }
}

/// The first of these elements that breaks the rule of its part.
pub(crate) fn first_broken(
    alloc: Global,
    tree: &Tree,
    part: Part,
    nodes: &[usize],
) -> Result<Option<usize>, AllocError>
    ensures { IfOk result (FindsLeast (IsBrokenAmong tree.now part nodes.now)) }
{
    let mut first = None;
    for node in nodes {
        let broken = is_broken(alloc, tree, part, *node)?;
        first = least_with(first, *node, broken);
    }
    Ok(first)
}

/// The earlier of two breaches; at one element the first stays.
pub(crate) fn earlier(
    first: Option<(usize, ParameterRule)>,
    other: Option<usize>,
    rule: ParameterRule,
) -> Option<(usize, ParameterRule)>
    ensures { result ≡ earlier_violation first other rule }
{
    let Some(node) = other else {
        return first;
    };
    match first {
        Some((before, broken)) => {
            if node < before {
                Some((node, rule))
            } else {
                Some((before, broken))
            }
        }
        None => Some((node, rule)),
    }
}
