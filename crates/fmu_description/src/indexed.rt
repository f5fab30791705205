//! A tree with the tables of what its elements name.
ghost use Rattle.std.specs.Prelude.{◌≡◌, ◌↔◌, IsTrue, IfOk, ℕ, Option};
ghost use Rattle.fmu_description.specs.Clocks.{IsIgnored};
ghost use Rattle.doc_tables.specs.Tables.{IsRepeated, IsTable};
ghost use Rattle.fmu_description.specs.Elements.{IsCoSimulation, IsFirstInitial, IsFirstOutput, IsUnknown, name_key, variable_key};
ghost use Rattle.fmu_description.specs.Places.{found};
ghost use Rattle.fmu_description.specs.Indexed.{IsIndexed};
ghost use Rattle.fmu_description.specs.Rules.{DependsOnNothing, HasNoCoSimulation, HasNoEventMode, NamesNoClock, NamesNone, NamesNoVariable, RefersToNothing};

use crate::elements::{
    flag_of, initial_key, is_initial_unknown, is_output, output_key, reference_of, references_of,
    variable_key,
};
use crate::ignored::{Ignored, ignored_variables};
use crate::names::RepeatedNames;
use crate::places::{KindPlaces, Places, co_simulation, kind_places};
use doc_tree::Tree;
use std::alloc::{AllocError, Global};

/// A tree, and where the elements with keys stand in it.
#[derive(Drop)]
pub(crate) struct IndexedTree<'a> {
    pub(crate) tree: &'a Tree,
    /// counts in a second
    pub(crate) resolution: u64,
    pub(crate) variables: Places,
    pub(crate) clocks: Places,
    pub(crate) outputs: Places,
    pub(crate) initial_unknowns: Places,
    pub(crate) names: RepeatedNames,
    pub(crate) co_simulation: Option<usize>,
    pub(crate) ignored: Ignored,
}

impl<'a> IndexedTree<'a> {
    /// The tree with its tables.
    pub(crate) fn new(
        alloc: Global,
        tree: &'a Tree,
        resolution: u64,
    ) -> Result<IndexedTree<'a>, AllocError>
        ensures indexed { IfOk result IsIndexed }
        ensures tree { IfOk result (λ d. d.tree.now ≡ tree.now) }
        ensures resolution { IfOk result (λ d. d.resolution ≡ resolution) }
    {
        let KindPlaces {
            variables,
            clocks,
            outputs,
            initial_unknowns,
        } = kind_places(alloc, tree)?;
        Ok(IndexedTree {
            tree,
            resolution,
            variables,
            clocks,
            outputs,
            initial_unknowns,
            names: RepeatedNames::new(alloc, tree)?,
            co_simulation: co_simulation(tree),
            ignored: ignored_variables(alloc, tree)?,
        })
    }

    /// The first CoSimulation.
    pub(crate) fn is_co_simulation(&self, node: usize) -> bool
        requires { IsIndexed self.now }
        ensures { IsTrue result ↔ IsCoSimulation self.now.tree.now node }
    {
        self.co_simulation == Some(node)
    }

    /// There is no CoSimulation.
    pub(crate) fn has_no_co_simulation(&self) -> bool
        requires { IsIndexed self.now }
        ensures { IsTrue result ↔ HasNoCoSimulation self.now.tree.now }
    {
        self.co_simulation.is_none()
    }

    /// The CoSimulation doesn't set `hasEventMode`.
    pub(crate) fn has_no_event_mode(&self) -> bool
        requires { IsIndexed self.now }
        ensures { IsTrue result ↔ HasNoEventMode self.now.tree.now }
    {
        match self.co_simulation {
            Some(node) => flag_of(self.tree, node, "hasEventMode") == Some(false),
            None => false,
        }
    }

    /// An ignored variable.
    pub(crate) fn is_ignored(&self, node: usize) -> bool
        requires { IsIndexed self.now }
        ensures { IsTrue result ↔ IsIgnored self.now.tree.now node }
    {
        self.ignored.is_ignored(node)
    }

    fn is_first_output(&self, node: usize) -> bool
        requires { IsIndexed self.now }
        ensures { IsTrue result ↔ IsFirstOutput self.now.tree.now node }
    {
        is_output(self.tree, node) && !self.outputs.is_repeated(output_key(self.tree, node), node)
    }

    fn is_first_initial(&self, node: usize) -> bool
        requires { IsIndexed self.now }
        ensures { IsTrue result ↔ IsFirstInitial self.now.tree.now node }
    {
        is_initial_unknown(self.tree, node)
            && !self
                .initial_unknowns
                .is_repeated(initial_key(self.tree, node), node)
    }

    /// The first Output or InitialUnknown of its variable.
    pub(crate) fn is_unknown(&self, node: usize) -> bool
        requires { IsIndexed self.now }
        ensures { IsTrue result ↔ IsUnknown self.now.tree.now node }
    {
        self.is_first_output(node) || self.is_first_initial(node)
    }

    /// A variable before this one has its value reference.
    pub(crate) fn repeats_reference(&self, node: usize) -> bool
        requires { IsIndexed self.now }
        ensures { IsTrue result ↔ IsRepeated (variable_key self.now.tree.now) node }
    {
        self.variables
            .is_repeated(variable_key(self.tree, node), node)
    }

    /// A variable or alias before this one has its name.
    pub(crate) fn repeats_name(&self, node: usize) -> bool
        requires { IsIndexed self.now }
        ensures { IsTrue result ↔ IsRepeated (name_key self.now.tree.now) node }
    {
        self.names.is_repeated(node)
    }

    /// One of `clocks` is no Clock.
    pub(crate) fn names_no_clock(&self, alloc: Global, node: usize) -> Result<bool, AllocError>
        requires { IsIndexed self.now }
        ensures { IfOk result (λ b. IsTrue b ↔ NamesNoClock self.now.tree.now node) }
    {
        let clocks = references_of(alloc, self.tree, node, "clocks")?;
        Ok(misses_one(&self.clocks, clocks.as_slice()))
    }

    fn refers_to_nothing(&self, node: usize) -> bool
        requires { IsIndexed self.now }
        ensures { IsTrue result ↔ RefersToNothing self.now.tree.now node }
    {
        match reference_of(self.tree, node) {
            Some(reference) => self.variables.find(reference).is_none(),
            None => false,
        }
    }

    fn depends_on_nothing(&self, alloc: Global, node: usize) -> Result<bool, AllocError>
        requires { IsIndexed self.now }
        ensures { IfOk result (λ b. IsTrue b ↔ DependsOnNothing self.now.tree.now node) }
    {
        let dependencies = references_of(alloc, self.tree, node, "dependencies")?;
        Ok(misses_one(&self.variables, dependencies.as_slice()))
    }

    /// The reference or a dependency of an Output or InitialUnknown is no variable.
    pub(crate) fn names_no_variable(&self, alloc: Global, node: usize) -> Result<bool, AllocError>
        requires { IsIndexed self.now }
        ensures { IfOk result (λ b. IsTrue b ↔ NamesNoVariable self.now.tree.now node) }
    {
        Ok(self.refers_to_nothing(node) || self.depends_on_nothing(alloc, node)?)
    }
}

/// One of the references isn't found.
fn misses_one(places: &Places, references: &[u32]) -> bool
    ensures { (key : ℕ → Option ℕ) → IsTable key (found places.now) →
        (IsTrue result ↔ NamesNone key references.now) }
{
    for reference in references {
        if places.find(*reference).is_none() {
            return true;
        }
    }
    false
}
