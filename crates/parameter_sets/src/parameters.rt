//! The parameters of a set.
ghost use Rattle.std.specs.Prelude.{◌≡◌, ◌↔◌, ℕ, true, codes, IsTrue, IfOk, MatchOption, Contains, Some};
ghost use Rattle.std.specs.List.{AllZip};
ghost use Rattle.parameter_values.specs.declared.set.ParameterValue.{ParameterValue};
ghost use Rattle.doc_tables.specs.Elements.{is_named};
ghost use Rattle.parameter_sets.specs.Elements.{first_value};
ghost use Rattle.parameter_sets.specs.Rules.{IsIncompleteParameter};
ghost use Rattle.parameter_sets.specs.Sets.{IsParameter, IsValue};

use crate::elements::first_value;
use doc_tables::{attribute, is_named, lacks};
use doc_tree::Tree;
use parameter_values::{Parameter, ParameterValue};
use sim_base::Text;
use std::alloc::{AllocError, Global};
use transformations::{boolean, whole_number};

// The value that an element gives, where it reads as its type.
fn value_in(tree: &Tree, node: usize) -> Option<ParameterValue>
    ensures { MatchOption result ((x : ParameterValue) → IsValue tree.now (Some node) x → ⊥)
        (IsValue tree.now (Some node)) }
{
    if is_named(tree, node, "Integer") {
        Some(ParameterValue::Integer(whole_number(tree, node, "value")?))
    } else if is_named(tree, node, "Boolean") {
        Some(ParameterValue::Boolean(boolean(tree, node, "value")?))
    } else {
        Some(ParameterValue::Other)
    }
}

// The value of a Parameter, where it reads as its type.
fn value(tree: &Tree, node: usize) -> Option<ParameterValue>
    ensures { MatchOption result ((x : ParameterValue) →
        IsValue tree.now (first_value tree.now node) x → ⊥)
        (IsValue tree.now (first_value tree.now node)) }
{
    match first_value(tree, node) {
        Some(child) => value_in(tree, child),
        None => Some(ParameterValue::Other),
    }
}

/// Whether a Parameter lacks its name, or its value doesn't read.
pub(crate) fn is_incomplete_parameter(tree: &Tree, node: usize) -> bool
    ensures { IsTrue result ↔ IsIncompleteParameter tree.now node }
{
    lacks(tree, node, "name") || value(tree, node).is_none()
}

fn parameter(alloc: Global, tree: &Tree, node: usize) -> Result<Parameter, AllocError>
    requires { IsIncompleteParameter tree.now node → ⊥ }
    ensures { IfOk result (IsParameter tree.now node) }
{
    Ok(Parameter {
        node,
        name: Text::from_str(alloc, attribute(tree, node, "name").unwrap())?,
        value: value(tree, node).unwrap(),
    })
}

/// What these Parameters say.
pub(crate) fn parameters(
    alloc: Global,
    tree: &Tree,
    nodes: &[usize],
) -> Result<Vec<Parameter>, AllocError>
    requires { (k : ℕ) → Contains nodes.now k → IsIncompleteParameter tree.now k → ⊥ }
    ensures { IfOk result (λ v. AllZip (IsParameter tree.now) nodes.now v.items) }
{
    let mut found = Vec::new(alloc);
    for node in nodes {
        found.push(parameter(alloc, tree, *node)?)?;
    }
    Ok(found)
}
