//! What the elements of a description are, and what they say.
ghost use Rattle.std.specs.Prelude.{◌≡◌, IfOk, option_copied};
ghost use Rattle.doc_tables.specs.Elements.{is_in};
ghost use Rattle.fmu_description.specs.Elements.{causality_of, clock_key, flag_of, has_flag, initial_key, is_alias, is_clock, is_co_simulation, is_dimension, is_initial_unknown, is_output, is_structure, is_type, is_variable, is_variable_list, name_key, output_key, reference_of, references_of, variable_key};
ghost use Rattle.fmu_description.specs.Clocks.{counter_of, variability_of};

use crate::texts;
use doc_tables::{attribute, is_in_root, is_named, name, parent, unless_empty};
use doc_tree::Tree;
use std::alloc::{AllocError, Global};
use value_types::{Causality, IntervalVariability};

fn is_in_variable_list(tree: &Tree, node: usize) -> bool
    ensures { result ≡ is_in is_variable_list tree.now node }
{
    match parent(tree, node) {
        Some(parent) => is_variable_list(tree, parent),
        None => false,
    }
}

fn is_in_structure(tree: &Tree, node: usize) -> bool
    ensures { result ≡ is_in is_structure tree.now node }
{
    match parent(tree, node) {
        Some(parent) => is_structure(tree, parent),
        None => false,
    }
}

fn is_in_variable(tree: &Tree, node: usize) -> bool
    ensures { result ≡ is_in is_variable tree.now node }
{
    match parent(tree, node) {
        Some(parent) => is_variable(tree, parent),
        None => false,
    }
}

/// Whether the element is a CoSimulation, the first or another.
pub(crate) fn is_co_simulation(tree: &Tree, node: usize) -> bool
    ensures { result ≡ is_co_simulation tree.now node }
{
    is_named(tree, node, "CoSimulation") && is_in_root(tree, node)
}

fn is_variable_list(tree: &Tree, node: usize) -> bool
    ensures { result ≡ is_variable_list tree.now node }
{
    is_named(tree, node, "ModelVariables") && is_in_root(tree, node)
}

fn is_structure(tree: &Tree, node: usize) -> bool
    ensures { result ≡ is_structure tree.now node }
{
    is_named(tree, node, "ModelStructure") && is_in_root(tree, node)
}

fn is_type(name: &str) -> bool
    ensures { result ≡ is_type name.now }
{
    texts::is_unsupported_type(name) || texts::port_type(name).is_some()
}

/// Whether the element describes a variable.
pub(crate) fn is_variable(tree: &Tree, node: usize) -> bool
    ensures { result ≡ is_variable tree.now node }
{
    is_type(name(tree, node)) && is_in_variable_list(tree, node)
}

/// Whether the element describes a variable of type Clock.
pub(crate) fn is_clock(tree: &Tree, node: usize) -> bool
    ensures { result ≡ is_clock tree.now node }
{
    is_named(tree, node, "Clock") && is_variable(tree, node)
}

/// Whether the element is the Alias of a variable.
pub(crate) fn is_alias(tree: &Tree, node: usize) -> bool
    ensures { result ≡ is_alias tree.now node }
{
    is_named(tree, node, "Alias") && is_in_variable(tree, node)
}

/// Whether the element is a Dimension of a variable.
pub(crate) fn is_dimension(tree: &Tree, node: usize) -> bool
    ensures { result ≡ is_dimension tree.now node }
{
    is_named(tree, node, "Dimension") && is_in_variable(tree, node)
}

/// Whether the element is an Output of the model structure.
pub(crate) fn is_output(tree: &Tree, node: usize) -> bool
    ensures { result ≡ is_output tree.now node }
{
    is_named(tree, node, "Output") && is_in_structure(tree, node)
}

/// Whether the element is an InitialUnknown of the model structure.
pub(crate) fn is_initial_unknown(tree: &Tree, node: usize) -> bool
    ensures { result ≡ is_initial_unknown tree.now node }
{
    is_named(tree, node, "InitialUnknown") && is_in_structure(tree, node)
}

/// The element's value reference, where it reads.
pub(crate) fn reference_of(tree: &Tree, node: usize) -> Option<u32>
    ensures { result ≡ reference_of tree.now node }
{
    match attribute(tree, node, "valueReference") {
        Some(text) => texts::reference(text),
        None => None,
    }
}

/// The value references that an attribute lists; none where it isn't there or doesn't read.
pub(crate) fn references_of(
    alloc: Global,
    tree: &Tree,
    node: usize,
    name: &str,
) -> Result<Vec<u32>, AllocError>
    ensures { IfOk result (λ all. all.items ≡ references_of tree.now node name.now) }
{
    let Some(text) = attribute(tree, node, name) else {
        return Ok(Vec::new(alloc));
    };
    match texts::references(alloc, text)? {
        Some(all) => Ok(all),
        None => Ok(Vec::new(alloc)),
    }
}

/// What the variable is for.
pub(crate) fn causality_of(tree: &Tree, node: usize) -> Causality
    ensures { result ≡ causality_of tree.now node }
{
    texts::causality(attribute(tree, node, "causality"))
}

/// When the Clock ticks, where it reads.
pub(crate) fn variability_of(tree: &Tree, node: usize) -> Option<IntervalVariability>
    ensures { result ≡ variability_of tree.now node }
{
    match attribute(tree, node, "intervalVariability") {
        Some(text) => texts::variability(text),
        None => None,
    }
}

/// The counter that an attribute writes, where it reads.
pub(crate) fn counter_of(tree: &Tree, node: usize, name: &str) -> Option<u64>
    ensures { result ≡ counter_of tree.now node name.now }
{
    match attribute(tree, node, name) {
        Some(text) => texts::counter(text),
        None => None,
    }
}

/// The flag that an attribute writes, false where it isn't there, and none where it doesn't read.
pub(crate) fn flag_of(tree: &Tree, node: usize, name: &str) -> Option<bool>
    ensures { result ≡ flag_of tree.now node name.now }
{
    texts::flag_or(false, attribute(tree, node, name))
}

/// Whether the element sets the flag.
pub(crate) fn has_flag(tree: &Tree, node: usize, name: &str) -> bool
    ensures { result ≡ has_flag tree.now node name.now }
{
    flag_of(tree, node, name).unwrap_or(false)
}

/// The value reference of a variable.
pub(crate) fn variable_key(tree: &Tree, node: usize) -> Option<u32>
    ensures { result ≡ variable_key tree.now node }
{
    if is_variable(tree, node) {
        reference_of(tree, node)
    } else {
        None
    }
}

/// The value reference of a Clock.
pub(crate) fn clock_key(tree: &Tree, node: usize) -> Option<u32>
    ensures { result ≡ clock_key tree.now node }
{
    if is_clock(tree, node) {
        reference_of(tree, node)
    } else {
        None
    }
}

/// The value reference that an Output names.
pub(crate) fn output_key(tree: &Tree, node: usize) -> Option<u32>
    ensures { result ≡ output_key tree.now node }
{
    if is_output(tree, node) {
        reference_of(tree, node)
    } else {
        None
    }
}

/// The value reference that an InitialUnknown names.
pub(crate) fn initial_key(tree: &Tree, node: usize) -> Option<u32>
    ensures { result ≡ initial_key tree.now node }
{
    if is_initial_unknown(tree, node) {
        reference_of(tree, node)
    } else {
        None
    }
}

/// The name of a variable or an Alias, where it isn't empty.
pub(crate) fn name_key(tree: &Tree, node: usize) -> Option<&str>
    ensures { option_copied result ≡ name_key tree.now node }
{
    if is_variable(tree, node) || is_alias(tree, node) {
        unless_empty(attribute(tree, node, "name"))
    } else {
        None
    }
}
