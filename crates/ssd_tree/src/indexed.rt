//! A document with the lists of its parts and the tables of their names.
ghost use Rattle.std.specs.Prelude.{◌≡◌, ◌↔◌, IsTrue, IfOk, codes};
ghost use Rattle.doc_tables.specs.Tables.{IsRepeated, IsTable};
ghost use Rattle.doc_tables.specs.Places.{found_in};
ghost use Rattle.ssd_tree.specs.Elements.{connector_key, element_key, IsBinding, IsComponent, IsConnection, IsConnector, IsOfSystem, IsPart, IsSystem, mapping_key};
ghost use Rattle.ssd_tree.specs.Indexed.{IsIndexed, ListsNodes};
ghost use Rattle.ssd_tree.specs.Rules.{IsFmu, IsTooMany};

use crate::elements::{connector_key, element_key, mapping_key};
use crate::kinds::fmus;
use crate::listings::{is_listed, place_of};
use crate::sorts::{bindings, components, connections, connectors, is_of_system, systems};
use crate::tree::Setting;
use doc_tables::ScopedPlaces;
use doc_tree::Tree;
use std::alloc::{AllocError, Global};

/// The greatest number of FMUs of a system.
pub const MOST_COMPONENTS: usize = 256;

/// The elements of each sort, in document order.
#[derive(Drop)]
pub(crate) struct PartLists {
    pub(crate) systems: Vec<usize>,
    pub(crate) components: Vec<usize>,
    pub(crate) connectors: Vec<usize>,
    pub(crate) connections: Vec<usize>,
    pub(crate) bindings: Vec<usize>,
}

/// A document, its parts, and where the elements with names stand in it.
#[derive(Drop)]
pub(crate) struct IndexedTree<'a> {
    pub(crate) setting: Setting,
    pub(crate) tree: &'a Tree,
    pub(crate) lists: PartLists,
    pub(crate) fmus: Vec<usize>,
    pub(crate) elements: ScopedPlaces<'a>,
    pub(crate) connectors: ScopedPlaces<'a>,
    pub(crate) mappings: ScopedPlaces<'a>,
}

fn part_lists(alloc: Global, tree: &Tree) -> Result<PartLists, AllocError>
    ensures { IfOk result (ListsNodes tree.now) }
{
    let systems = systems(alloc, tree)?;
    let components = components(alloc, tree, systems.as_slice())?;
    let connectors = connectors(alloc, tree, systems.as_slice(), components.as_slice())?;
    let connections = connections(alloc, tree, systems.as_slice())?;
    let bindings = bindings(alloc, tree, systems.as_slice(), components.as_slice())?;
    Ok(PartLists {
        systems,
        components,
        connectors,
        connections,
        bindings,
    })
}

fn element_places(alloc: Global, tree: &Tree) -> Result<ScopedPlaces<'_>, AllocError>
    ensures { IfOk result (λ places. IsTable (element_key tree.now) (found_in places)) }
{
    let mut places = ScopedPlaces::new(alloc);
    for node in 0..tree.len() {
        places.put(element_key(tree, node), node)?;
    }
    Ok(places)
}

fn connector_places(alloc: Global, tree: &Tree) -> Result<ScopedPlaces<'_>, AllocError>
    ensures { IfOk result (λ places. IsTable (connector_key tree.now) (found_in places)) }
{
    let mut places = ScopedPlaces::new(alloc);
    for node in 0..tree.len() {
        places.put(connector_key(tree, node), node)?;
    }
    Ok(places)
}

fn mapping_places(alloc: Global, tree: &Tree) -> Result<ScopedPlaces<'_>, AllocError>
    ensures { IfOk result (λ places. IsTable (mapping_key tree.now) (found_in places)) }
{
    let mut places = ScopedPlaces::new(alloc);
    for node in 0..tree.len() {
        places.put(mapping_key(tree, node), node)?;
    }
    Ok(places)
}

impl<'a> IndexedTree<'a> {
    /// The document with its lists and tables.
    pub(crate) fn new(
        alloc: Global,
        setting: Setting,
        tree: &'a Tree,
    ) -> Result<IndexedTree<'a>, AllocError>
        ensures indexed { IfOk result IsIndexed }
        ensures tree { IfOk result (λ d. d.tree.now ≡ tree.now) }
        ensures setting { IfOk result (λ d. d.setting ≡ setting) }
    {
        let lists = part_lists(alloc, tree)?;
        let fmus = fmus(alloc, setting, tree, lists.components.as_slice())?;
        Ok(IndexedTree {
            setting,
            tree,
            lists,
            fmus,
            elements: element_places(alloc, tree)?,
            connectors: connector_places(alloc, tree)?,
            mappings: mapping_places(alloc, tree)?,
        })
    }

    /// Whether the element is a System.
    pub(crate) fn is_system(&self, node: usize) -> bool
        requires { IsIndexed self.now }
        ensures { IsTrue result ↔ IsSystem self.now.tree.now node }
    {
        is_listed(self.lists.systems.as_slice(), node)
    }

    /// Whether the element is a Component.
    pub(crate) fn is_component(&self, node: usize) -> bool
        requires { IsIndexed self.now }
        ensures { IsTrue result ↔ IsComponent self.now.tree.now node }
    {
        is_listed(self.lists.components.as_slice(), node)
    }

    /// Whether the element is a System or a Component.
    pub(crate) fn is_part(&self, node: usize) -> bool
        requires { IsIndexed self.now }
        ensures { IsTrue result ↔ IsPart self.now.tree.now node }
    {
        self.is_system(node) || self.is_component(node)
    }

    /// Whether the element is a connector of a part.
    pub(crate) fn is_connector(&self, node: usize) -> bool
        requires { IsIndexed self.now }
        ensures { IsTrue result ↔ IsConnector self.now.tree.now node }
    {
        is_listed(self.lists.connectors.as_slice(), node)
    }

    /// Whether the element is a connection of a System.
    pub(crate) fn is_connection(&self, node: usize) -> bool
        requires { IsIndexed self.now }
        ensures { IsTrue result ↔ IsConnection self.now.tree.now node }
    {
        is_listed(self.lists.connections.as_slice(), node)
    }

    /// Whether the element is a parameter binding of a part.
    pub(crate) fn is_binding(&self, node: usize) -> bool
        requires { IsIndexed self.now }
        ensures { IsTrue result ↔ IsBinding self.now.tree.now node }
    {
        is_listed(self.lists.bindings.as_slice(), node)
    }

    /// Whether the element stands among the parameter bindings of a System.
    pub(crate) fn binds_system(&self, node: usize) -> bool
        requires { IsIndexed self.now }
        ensures { IsTrue result ↔ IsOfSystem self.now.tree.now node (codes "ParameterBindings") }
    {
        is_of_system(
            self.tree,
            self.lists.systems.as_slice(),
            node,
            "ParameterBindings",
        )
    }

    /// Whether an element before this one has its name in the same System.
    pub(crate) fn repeats_element(&self, node: usize) -> bool
        requires { IsIndexed self.now }
        ensures { IsTrue result ↔ IsRepeated (element_key self.now.tree.now) node }
    {
        self.elements
            .is_repeated(element_key(self.tree, node), node)
    }

    /// Whether a connector before this one has its name in the same part.
    pub(crate) fn repeats_connector(&self, node: usize) -> bool
        requires { IsIndexed self.now }
        ensures { IsTrue result ↔ IsRepeated (connector_key self.now.tree.now) node }
    {
        self.connectors
            .is_repeated(connector_key(self.tree, node), node)
    }

    /// Whether a ParameterMapping stands before this one in the same element.
    pub(crate) fn repeats_mapping(&self, node: usize) -> bool
        requires { IsIndexed self.now }
        ensures { IsTrue result ↔ IsRepeated (mapping_key self.now.tree.now) node }
    {
        self.mappings
            .is_repeated(mapping_key(self.tree, node), node)
    }

    /// Whether the element is an FMU.
    pub(crate) fn is_fmu(&self, node: usize) -> bool
        requires { IsIndexed self.now }
        ensures { IsTrue result ↔ IsFmu self.now.setting self.now.tree.now node }
    {
        is_listed(self.fmus.as_slice(), node)
    }

    /// Whether the element is the 257th FMU, with those before the document.
    pub(crate) fn is_too_many(&self, node: usize) -> bool
        requires { IsIndexed self.now }
        ensures { IsTrue result ↔ IsTooMany self.now.setting self.now.tree.now node }
    {
        match place_of(self.fmus.as_slice(), node) {
            Some(place) => place == MOST_COMPONENTS.saturating_sub(self.setting.fmus),
            None => false,
        }
    }
}
