//! The variables of a description.
ghost use Rattle.std.specs.Prelude.{◌≡◌, ◌↔◌, true, codes, IfOk, IsTrue};
ghost use Rattle.std.specs.List.{AllZip};
ghost use Rattle.fmu_description.specs.Clocks.{IsIgnored};
ghost use Rattle.doc_tables.specs.Elements.{attribute, name_of};
ghost use Rattle.fmu_description.specs.Description.{IsSoundTree, IsStart, IsVariable, ReadsStart, aliases_of, is_kept_on, variables_in};
ghost use Rattle.fmu_description.specs.Elements.{is_variable};
ghost use Rattle.fmu_description.specs.Places.{MarksIgnored, is_ignored};
ghost use Rattle.fmu_description.specs.Texts.{port_type};

use crate::elements::{causality_of, is_alias, is_variable, reference_of, references_of};
use crate::ignored::Ignored;
use crate::texts::{flag_or, port_type};
use doc_tables::{attribute, name, text_of};
use doc_tree::Tree;
use sim_base::{Items, Text};
use std::alloc::{AllocError, Global};
use value_types::{ByReference, PortType, Variable, read_value};

/// The variables of a sound tree, in the order of the description.
pub(crate) fn variables(
    alloc: Global,
    tree: &Tree,
    ignored: &Ignored,
) -> Result<ByReference<Variable>, AllocError>
    requires sound { IsSoundTree tree.now }
    requires ignored { MarksIgnored tree.now (is_ignored ignored.now) }
    ensures { IfOk result (AllZip (IsVariable tree.now) (variables_in tree.now)) }
{
    let mut variables = Vec::new(alloc);
    for node in 0..tree.len() {
        if is_variable(tree, node) {
            variables.push(variable(alloc, tree, node, ignored.is_ignored(node))?)?;
        }
    }
    ByReference::new(alloc, variables)
}

/// The variable that an element describes.
fn variable(
    alloc: Global,
    tree: &Tree,
    node: usize,
    is_ignored: bool,
) -> Result<Variable, AllocError>
    requires sound { IsSoundTree tree.now }
    requires is { is_variable tree.now node ≡ true }
    requires ignored { IsTrue is_ignored ↔ IsIgnored tree.now node }
    ensures { IfOk result (IsVariable tree.now node) }
{
    let kind = kind_of(tree, node, is_ignored);
    let start = start_of(tree, node, kind);
    let reference = reference_of(tree, node).unwrap();
    Ok(Variable {
        name: Text::from_str(alloc, text_of(tree, node, "name"))?,
        aliases: aliases_of(alloc, tree, node)?,
        reference,
        kind,
        causality: causality_of(tree, node),
        clocks: Items::from_vec(references_of(alloc, tree, node, "clocks")?),
        start,
        can_be_set_again: is_kept_on(tree, node, "canHandleMultipleSetPerTimeInstant"),
    })
}

/// A flag that is set unless the element says otherwise.
fn is_kept_on(tree: &Tree, node: usize, name: &str) -> bool
    ensures { result ≡ is_kept_on tree.now node name.now }
{
    flag_or(true, attribute(tree, node, name)).unwrap_or(true)
}

/// The names of the aliases.
fn aliases_of(alloc: Global, tree: &Tree, node: usize) -> Result<Items<Text>, AllocError>
    requires { is_variable tree.now node ≡ true }
    ensures { IfOk result (λ names. names ≡ aliases_of tree.now node) }
{
    let mut names = Vec::new(alloc);
    for child in tree.children(node) {
        if is_alias(tree, *child) {
            names.push(Text::from_str(alloc, text_of(tree, *child, "name"))?)?;
        }
    }
    Ok(Items::from_vec(names))
}

/// The type; an ignored variable has none.
fn kind_of(tree: &Tree, node: usize, is_ignored: bool) -> Option<PortType>
    ensures ignored { IsTrue is_ignored → result ≡ None }
    ensures own { (IsTrue is_ignored → ⊥) → result ≡ port_type (name_of tree.now node) }
{
    if is_ignored {
        None
    } else {
        port_type(name(tree, node))
    }
}

/// The start value, where it is given and reads.
fn start_of(tree: &Tree, node: usize, kind: Option<PortType>) -> Option<i128>
    requires { ReadsStart kind (attribute tree.now node (codes "start")) }
    ensures { IsStart kind (attribute tree.now node (codes "start")) result }
{
    match read_value(kind?, attribute(tree, node, "start")?) {
        Some(value) => Some(value),
        None => unreachable!(),
    }
}
