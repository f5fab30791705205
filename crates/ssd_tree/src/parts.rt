//! What a sound document says: its systems, components, connectors, connections and bindings.
ghost use Rattle.std.specs.Prelude.{◌≡◌, ℕ, IfOk, IsSome, Some, codes, slice_get, vec_len};
ghost use Rattle.std.specs.List.{AllZip};
ghost use Rattle.doc_tables.specs.Elements.{attribute, Lacks};
ghost use Rattle.ssd_tree.specs.Elements.{holder, IsBinding, IsComponent, IsConnection, IsConnector, IsOfPart, IsPart, IsSystem};
ghost use Rattle.ssd_tree.specs.Indexed.{IsIndexed, nodes_of};
ghost use Rattle.ssd_tree.specs.Lists.{tree_of};
ghost use Rattle.ssd_tree.specs.Names.{AreDotted, IsDotted, IsNameScope};
ghost use Rattle.ssd_tree.specs.Paths.{LeadsOut};
ghost use Rattle.ssd_tree.specs.Parts.{base_of, Describes, HasPath, IsBindingPart, IsChangeBy, IsComponentPart, IsConnectionPart, IsConnectorPart, IsFullName, IsMappingOrigin, IsOrigin, IsPlaceOf, IsSystemPart, IsValuesOrigin, owner_node};
ghost use Rattle.ssd_tree.specs.Rules.{IsSoundStructure};
ghost use Rattle.transformations.specs.Elements.{first_transformation};

use crate::elements::{first_child, holder, kind_of, type_of};
use crate::indexed::IndexedTree;
use crate::listings::known_place;
use crate::lists::Parts;
use crate::tree::{
    Binding, ComponentPart, Connection, Connector, Origin, Owner, SourceBase, SystemPart,
};
use doc_tables::{attribute, lacks, text_of};
use doc_tree::Tree;
use parameter_values::Change;
use sim_base::{Items, PartedText, Text, plain_path};
use std::alloc::{AllocError, Global};
use transformations::{first_transformation, read_transformation};

/// The text of an attribute that is there.
pub(crate) fn text(alloc: Global, tree: &Tree, node: usize, name: &str) -> Result<Text, AllocError>
    requires { IsSome (attribute tree.now node name.now) }
    ensures { IfOk result (λ t. attribute tree.now node name.now ≡ Some t) }
{
    Text::from_str(alloc, attribute(tree, node, name).unwrap())
}

// The path of an element's file.
fn source(alloc: Global, tree: &Tree, node: usize) -> Result<Text, AllocError>
    requires { IsSome (attribute tree.now node (codes "source")) }
    ensures { IfOk result (HasPath tree.now node) }
{
    let source = attribute(tree, node, "source").unwrap();
    Ok(Text::from_string(plain_path(alloc, source)?))
}

// Below which folder the file of an element stands.
fn source_base(tree: &Tree, node: usize) -> SourceBase
    ensures { result ≡ base_of (attribute tree.now node (codes "sourceBase")) }
{
    match attribute(tree, node, "sourceBase") {
        Some("component") => SourceBase::Component,
        _ => SourceBase::Description,
    }
}

// In the file that the element's `source` names; where it has none, within this one.
fn origin(
    alloc: Global,
    tree: &Tree,
    node: usize,
    inner: Option<usize>,
) -> Result<Origin, AllocError>
    requires { Lacks tree.now node (codes "source") → IsSome inner }
    ensures { IfOk result (IsOrigin tree.now node inner) }
{
    if lacks(tree, node, "source") {
        return Ok(Origin::Inline {
            node: inner.unwrap(),
        });
    }
    Ok(Origin::File {
        base: source_base(tree, node),
        path: source(alloc, tree, node)?,
    })
}

// Where the values of a binding are given.
fn values(alloc: Global, tree: &Tree, node: usize) -> Result<Origin, AllocError>
    requires sound { IsSoundStructure tree.now }
    requires is { IsBinding tree.now node }
    ensures { IfOk result (IsValuesOrigin tree.now node) }
{
    let inner = first_child(tree, node, "ParameterValues");
    origin(alloc, tree, node, inner)
}

// The elements from this one out to the outermost System, which isn't among them.
fn path_out(alloc: Global, tree: &Tree, node: usize) -> Result<Vec<usize>, AllocError>
    requires part { IsPart tree.now node }
    requires sound { IsSoundStructure tree.now }
    ensures { IfOk result (λ path. LeadsOut tree.now node path.items) }
{
    let mut path = Vec::new(alloc);
    let mut current = node;
    while let Some(outer) = holder(tree, current, "Elements") {
        path.push(current)?;
        current = outer;
    }
    Ok(path)
}

// The name of an element, with a dot after it.
fn dotted(alloc: Global, tree: &Tree, node: usize) -> Result<PartedText, AllocError>
    ensures { IfOk result (IsDotted tree.now node) }
{
    let mut name = String::from_str(alloc, text_of(tree, node, "name"))?;
    name.push_str(".")?;
    PartedText::from_text(alloc, Text::from_string(name))
}

// What a connection does to values, by the first of its transformations.
fn change(alloc: Global, tree: &Tree, node: usize) -> Result<Option<Change>, AllocError>
    requires sound { IsSoundStructure tree.now }
    requires is { IsConnection tree.now node }
    ensures { IfOk result (IsChangeBy tree.now (first_transformation tree.now node)) }
{
    match first_transformation(tree, node) {
        Some(transformation) => read_transformation(alloc, tree, transformation),
        None => Ok(None),
    }
}

impl IndexedTree<'_> {
    fn system_place(&self, node: usize) -> usize
        requires indexed { IsIndexed self.now }
        requires is { IsSystem self.now.tree.now node }
        ensures { slice_get self.now.lists.systems.items result ≡ Some node }
    {
        known_place(self.lists.systems.as_slice(), node)
    }

    fn component_place(&self, node: usize) -> usize
        requires indexed { IsIndexed self.now }
        requires is { IsComponent self.now.tree.now node }
        ensures { slice_get self.now.lists.components.items result ≡ Some node }
    {
        known_place(self.lists.components.as_slice(), node)
    }

    fn connector_place(&self, node: usize) -> usize
        requires indexed { IsIndexed self.now }
        requires is { IsConnector self.now.tree.now node }
        ensures { slice_get self.now.lists.connectors.items result ≡ Some node }
    {
        known_place(self.lists.connectors.as_slice(), node)
    }

    // The place of the System that a System stands in; the outermost stands in none.
    fn outer_system(&self, node: usize) -> Option<usize>
        requires indexed { IsIndexed self.now }
        requires sound { IsSoundStructure self.now.tree.now }
        requires is { IsSystem self.now.tree.now node }
        ensures { IsPlaceOf self.now.lists.systems.items result
            (holder self.now.tree.now node (codes "Elements")) }
    {
        match holder(self.tree, node, "Elements") {
            Some(system) => Some(self.system_place(system)),
            None => None,
        }
    }

    // The place of the System that a Component stands in.
    fn system_of(&self, node: usize) -> usize
        requires indexed { IsIndexed self.now }
        requires is { IsComponent self.now.tree.now node }
        ensures { IsPlaceOf self.now.lists.systems.items (Some result)
            (holder self.now.tree.now node (codes "Elements")) }
    {
        let system = holder(self.tree, node, "Elements").unwrap();
        self.system_place(system)
    }

    // The System or Component in whose list the element stands.
    fn owner(&self, node: usize, list: &str) -> Owner
        requires indexed { IsIndexed self.now }
        requires part { IsOfPart self.now.tree.now node list.now }
        ensures { (part : ℕ) → holder self.now.tree.now node list.now ≡ Some part →
            owner_node (nodes_of self.now.lists) result ≡ Some part }
    {
        let part = holder(self.tree, node, list).unwrap();
        if self.is_system(part) {
            Owner::System(self.system_place(part))
        } else {
            Owner::Component(self.component_place(part))
        }
    }

    fn system_part(&self, alloc: Global, node: usize) -> Result<SystemPart, AllocError>
        requires indexed { IsIndexed self.now }
        requires sound { IsSoundStructure self.now.tree.now }
        requires is { IsSystem self.now.tree.now node }
        ensures { IfOk result (IsSystemPart self.now.tree.now (nodes_of self.now.lists) node) }
    {
        Ok(SystemPart {
            node,
            parent: self.outer_system(node),
            name: text(alloc, self.tree, node, "name")?,
        })
    }

    // The name of each System, with a dot after it.
    fn dotted_names(&self, alloc: Global) -> Result<Vec<PartedText>, AllocError>
        requires indexed { IsIndexed self.now }
        requires sound { IsSoundStructure self.now.tree.now }
        ensures { IfOk result
            (λ v. AreDotted self.now.tree.now self.now.lists.systems.items v.items) }
    {
        let mut names = Vec::new(alloc);
        for node in &self.lists.systems {
            names.push(dotted(alloc, self.tree, *node)?)?;
        }
        Ok(names)
    }

    // What stands before the names of a System's elements, which shares the names of the Systems.
    fn scope(
        &self,
        alloc: Global,
        system: usize,
        names: &[PartedText],
    ) -> Result<PartedText, AllocError>
        requires indexed { IsIndexed self.now }
        requires sound { IsSoundStructure self.now.tree.now }
        requires is { IsSystem self.now.tree.now system }
        requires names { AreDotted self.now.tree.now self.now.lists.systems.items names.now }
        ensures { IfOk result (IsNameScope self.now.tree.now system) }
    {
        let mut path = path_out(alloc, self.tree, system)?;
        let mut scope = PartedText::new(alloc);
        while let Some(inner) = path.pop() {
            let place = self.system_place(inner);
            scope.append(&names[place])?;
        }
        Ok(scope)
    }

    // The element names below the outermost System, joined with dots.
    fn full_name(
        &self,
        alloc: Global,
        node: usize,
        names: &[PartedText],
    ) -> Result<PartedText, AllocError>
        requires indexed { IsIndexed self.now }
        requires sound { IsSoundStructure self.now.tree.now }
        requires is { IsComponent self.now.tree.now node }
        requires names { AreDotted self.now.tree.now self.now.lists.systems.items names.now }
        ensures { IfOk result (IsFullName self.now.tree.now node) }
    {
        let system = holder(self.tree, node, "Elements").unwrap();
        let mut name = self.scope(alloc, system, names)?;
        name.push(alloc, text(alloc, self.tree, node, "name")?)?;
        Ok(name)
    }

    fn component_part(
        &self,
        alloc: Global,
        node: usize,
        names: &[PartedText],
    ) -> Result<ComponentPart, AllocError>
        requires indexed { IsIndexed self.now }
        requires sound { IsSoundStructure self.now.tree.now }
        requires is { IsComponent self.now.tree.now node }
        requires names { AreDotted self.now.tree.now self.now.lists.systems.items names.now }
        ensures { IfOk result (IsComponentPart self.now.tree.now (nodes_of self.now.lists) node) }
    {
        Ok(ComponentPart {
            node,
            system: self.system_of(node),
            name: self.full_name(alloc, node, names)?,
            source: source(alloc, self.tree, node)?,
        })
    }

    fn connector_part(&self, alloc: Global, node: usize) -> Result<Connector, AllocError>
        requires indexed { IsIndexed self.now }
        requires sound { IsSoundStructure self.now.tree.now }
        requires is { IsConnector self.now.tree.now node }
        ensures { IfOk result (IsConnectorPart self.now.tree.now (nodes_of self.now.lists) node) }
    {
        Ok(Connector {
            node,
            owner: self.owner(node, "Connectors"),
            name: text(alloc, self.tree, node, "name")?,
            kind: kind_of(self.tree, node).unwrap(),
            child: type_of(self.tree, node),
        })
    }

    fn connection_part(&self, alloc: Global, node: usize) -> Result<Connection, AllocError>
        requires indexed { IsIndexed self.now }
        requires sound { IsSoundStructure self.now.tree.now }
        requires is { IsConnection self.now.tree.now node }
        ensures { IfOk result (IsConnectionPart self.now.tree.now (nodes_of self.now.lists) node) }
    {
        let from = self.start(node).unwrap();
        let to = self.stop(node).unwrap();
        Ok(Connection {
            node,
            start: self.connector_place(from),
            end: self.connector_place(to),
            change: change(alloc, self.tree, node)?,
        })
    }

    // Where the mapping of a binding is given, if it has one.
    fn mapping(&self, alloc: Global, node: usize) -> Result<Option<Origin>, AllocError>
        requires indexed { IsIndexed self.now }
        requires is { IsBinding self.now.tree.now node }
        ensures { IfOk result (IsMappingOrigin self.now.tree.now node) }
    {
        match self.mappings.find(node, "ParameterMapping") {
            Some(mapping) => Ok(Some(origin(alloc, self.tree, mapping, Some(mapping))?)),
            None => Ok(None),
        }
    }

    fn binding_part(&self, alloc: Global, node: usize) -> Result<Binding, AllocError>
        requires indexed { IsIndexed self.now }
        requires sound { IsSoundStructure self.now.tree.now }
        requires is { IsBinding self.now.tree.now node }
        ensures { IfOk result (IsBindingPart self.now.tree.now (nodes_of self.now.lists) node) }
    {
        Ok(Binding {
            node,
            owner: self.owner(node, "ParameterBindings"),
            prefix: Text::from_str(alloc, text_of(self.tree, node, "prefix"))?,
            values: values(alloc, self.tree, node)?,
            mapping: self.mapping(alloc, node)?,
        })
    }

    fn system_parts(&self, alloc: Global) -> Result<Vec<SystemPart>, AllocError>
        requires indexed { IsIndexed self.now }
        requires sound { IsSoundStructure self.now.tree.now }
        ensures { IfOk result
            (λ v. AllZip (IsSystemPart self.now.tree.now (nodes_of self.now.lists))
            self.now.lists.systems.items v.items) }
    {
        let mut parts = Vec::new(alloc);
        for node in &self.lists.systems {
            parts.push(self.system_part(alloc, *node)?)?;
        }
        Ok(parts)
    }

    fn component_parts(&self, alloc: Global) -> Result<Vec<ComponentPart>, AllocError>
        requires indexed { IsIndexed self.now }
        requires sound { IsSoundStructure self.now.tree.now }
        ensures { IfOk result
            (λ v. AllZip (IsComponentPart self.now.tree.now (nodes_of self.now.lists))
            self.now.lists.components.items v.items) }
    {
        let names = self.dotted_names(alloc)?;
        let mut parts = Vec::new(alloc);
        for node in &self.lists.components {
            parts.push(self.component_part(alloc, *node, names.as_slice())?)?;
        }
        Ok(parts)
    }

    fn connector_parts(&self, alloc: Global) -> Result<Vec<Connector>, AllocError>
        requires indexed { IsIndexed self.now }
        requires sound { IsSoundStructure self.now.tree.now }
        ensures { IfOk result
            (λ v. AllZip (IsConnectorPart self.now.tree.now (nodes_of self.now.lists))
            self.now.lists.connectors.items v.items) }
    {
        let mut parts = Vec::new(alloc);
        for node in &self.lists.connectors {
            parts.push(self.connector_part(alloc, *node)?)?;
        }
        Ok(parts)
    }

    fn connection_parts(&self, alloc: Global) -> Result<Vec<Connection>, AllocError>
        requires indexed { IsIndexed self.now }
        requires sound { IsSoundStructure self.now.tree.now }
        ensures { IfOk result
            (λ v. AllZip (IsConnectionPart self.now.tree.now (nodes_of self.now.lists))
            self.now.lists.connections.items v.items) }
    {
        let mut parts = Vec::new(alloc);
        for node in &self.lists.connections {
            parts.push(self.connection_part(alloc, *node)?)?;
        }
        Ok(parts)
    }

    fn binding_parts(&self, alloc: Global) -> Result<Vec<Binding>, AllocError>
        requires indexed { IsIndexed self.now }
        requires sound { IsSoundStructure self.now.tree.now }
        ensures { IfOk result
            (λ v. AllZip (IsBindingPart self.now.tree.now (nodes_of self.now.lists))
            self.now.lists.bindings.items v.items) }
    {
        let mut parts = Vec::new(alloc);
        for node in &self.lists.bindings {
            parts.push(self.binding_part(alloc, *node)?)?;
        }
        Ok(parts)
    }

    /// What a sound document says.
    pub(crate) fn describe(&self, alloc: Global) -> Result<Parts, AllocError>
        requires indexed { IsIndexed self.now }
        requires sound { IsSoundStructure self.now.tree.now }
        ensures found { IfOk result (λ parts. Describes self.now.tree.now (tree_of parts)) }
        ensures components { IfOk result
            (λ parts. vec_len parts.components ≡ vec_len self.now.lists.components) }
    {
        Ok(Parts {
            systems: self.system_parts(alloc)?,
            components: self.component_parts(alloc)?,
            connectors: self.connector_parts(alloc)?,
            connections: self.connection_parts(alloc)?,
            bindings: self.binding_parts(alloc)?,
        })
    }
}
