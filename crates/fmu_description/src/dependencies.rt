//! What the outputs depend on.
ghost use Rattle.std.specs.Prelude.{◌≡◌, ◌↔◌, Some, codes, filter, IfOk, IsTrue};
ghost use Rattle.std.specs.List.{AllZip};
ghost use Rattle.fmu_description.specs.Description.{DependsInitiallyOn, DependsOn, IsDependency, IsExact, IsInitialDependency, IsSoundTree, is_port_at, listed, outputs_among};
ghost use Rattle.doc_tables.specs.Elements.{attribute};
ghost use Rattle.fmu_description.specs.Elements.{initial_key, output_key, references_of, variable_key};
ghost use Rattle.doc_tables.specs.Tables.{IsTable};
ghost use Rattle.fmu_description.specs.Places.{found};

use crate::elements::references_of;
use crate::places::Places;
use doc_tables::attribute;
use doc_tree::Tree;
use sim_base::Items;
use std::alloc::{AllocError, Global};
use value_types::{ByReference, Dependency, Knowns, Variable};

/// What each output depends on in Event Mode and Step Mode.
pub(crate) fn dependencies(
    alloc: Global,
    tree: &Tree,
    outputs: &Places,
    variables: &ByReference<Variable>,
) -> Result<ByReference<Dependency>, AllocError>
    requires { IsTable (output_key tree.now) (found outputs.now) }
    ensures { IfOk result (AllZip (IsDependency tree.now variables.now)
        (outputs_among variables.now)) }
{
    let mut dependencies = Vec::new(alloc);
    for variable in variables.as_slice() {
        if variable.is_output_port() {
            let output = variable.reference;
            let on = depends_on(alloc, tree, outputs, variables, output)?;
            dependencies.push(Dependency { output, on })?;
        }
    }
    ByReference::new(alloc, dependencies)
}

/// What each output depends on in Initialization Mode.
pub(crate) fn initial_dependencies(
    alloc: Global,
    tree: &Tree,
    places: &Places,
    unknowns: &Places,
    outputs: &Places,
    variables: &ByReference<Variable>,
) -> Result<ByReference<Dependency>, AllocError>
    requires sound { IsSoundTree tree.now }
    requires places { IsTable (variable_key tree.now) (found places.now) }
    requires unknowns { IsTable (initial_key tree.now) (found unknowns.now) }
    requires outputs { IsTable (output_key tree.now) (found outputs.now) }
    ensures { IfOk result (AllZip (IsInitialDependency tree.now variables.now)
        (outputs_among variables.now)) }
{
    let mut dependencies = Vec::new(alloc);
    for variable in variables.as_slice() {
        if variable.is_output_port() {
            let output = variable.reference;
            let on = depends_initially_on(
                alloc, tree, places, unknowns, outputs, variables, output,
            )?;
            dependencies.push(Dependency { output, on })?;
        }
    }
    ByReference::new(alloc, dependencies)
}

/// What an output depends on in Event Mode and Step Mode.
fn depends_on(
    alloc: Global,
    tree: &Tree,
    outputs: &Places,
    variables: &ByReference<Variable>,
    reference: u32,
) -> Result<Knowns, AllocError>
    requires { IsTable (output_key tree.now) (found outputs.now) }
    ensures { IfOk result (DependsOn tree.now variables.now reference) }
{
    match outputs.find(reference) {
        Some(node) => listed_knowns(alloc, tree, node, variables),
        None => Ok(Knowns::AllInputs),
    }
}

/// What an output depends on in Initialization Mode.
fn depends_initially_on(
    alloc: Global,
    tree: &Tree,
    places: &Places,
    unknowns: &Places,
    outputs: &Places,
    variables: &ByReference<Variable>,
    reference: u32,
) -> Result<Knowns, AllocError>
    requires sound { IsSoundTree tree.now }
    requires places { IsTable (variable_key tree.now) (found places.now) }
    requires unknowns { IsTable (initial_key tree.now) (found unknowns.now) }
    requires outputs { IsTable (output_key tree.now) (found outputs.now) }
    ensures { IfOk result (DependsInitiallyOn tree.now variables.now reference) }
{
    match unknowns.find(reference) {
        Some(node) => listed_knowns(alloc, tree, node, variables),
        None if is_exact(tree, places, reference) => {
            Ok(Knowns::Listed(Items::from_vec(Vec::new(alloc))))
        }
        None => depends_on(alloc, tree, outputs, variables, reference),
    }
}

/// Whether the start value of the variable is exact.
fn is_exact(tree: &Tree, places: &Places, reference: u32) -> bool
    requires sound { IsSoundTree tree.now }
    requires places { IsTable (variable_key tree.now) (found places.now) }
    ensures { IsTrue result ↔ IsExact tree.now reference }
{
    match places.find(reference) {
        Some(node) => is_exact_at(tree, node),
        None => false,
    }
}

fn is_exact_at(tree: &Tree, node: usize) -> bool
    ensures { IsTrue result ↔ (attribute tree.now node (codes "initial") ≡ Some (codes "exact")) }
{
    match attribute(tree, node, "initial") {
        Some(text) => text == "exact",
        None => false,
    }
}

/// What a list of dependencies says: an absent one means all inputs.
fn listed_knowns(
    alloc: Global,
    tree: &Tree,
    node: usize,
    variables: &ByReference<Variable>,
) -> Result<Knowns, AllocError>
    ensures { IfOk result (λ on. on ≡ listed variables.now
        (attribute tree.now node (codes "dependencies"))) }
{
    match attribute(tree, node, "dependencies") {
        Some(_) => Ok(Knowns::Listed(ports_listed(alloc, tree, node, variables)?)),
        None => Ok(Knowns::AllInputs),
    }
}

/// The ports that a list of dependencies names.
fn ports_listed(
    alloc: Global,
    tree: &Tree,
    node: usize,
    variables: &ByReference<Variable>,
) -> Result<Items<u32>, AllocError>
    ensures { IfOk result (λ on. on ≡ filter (is_port_at variables.now)
        (references_of tree.now node (codes "dependencies"))) }
{
    let listed = references_of(alloc, tree, node, "dependencies")?;
    let named = listed
        .iter()
        .copied()
        .filter(|reference| is_port_at(variables, *reference))
        .collect(alloc)?;
    Ok(Items::from_vec(named))
}

/// Whether a reference is that of a port.
fn is_port_at(variables: &ByReference<Variable>, reference: u32) -> bool
    ensures { result ≡ is_port_at variables.now reference }
{
    match variables.find(reference) {
        Some(variable) => variable.is_port(),
        None => false,
    }
}
