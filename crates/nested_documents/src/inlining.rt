//! A document in place of a Component of another.
ghost use Rattle.std.specs.Prelude.{◌≡◌, ◌+◌, ◌<◌, ◌≤◌, ◌==◌, nat_lt, IfOk, count_by, drop, length, map, slice_get, vec_len};
ghost use Rattle.ssd_tree.specs.declared.tree.ComponentPart.{ComponentPart};
ghost use Rattle.nested_documents.specs.Moves.{moved_binding, moved_component_part, moved_connection, moved_connector_part, moved_system_part};
ghost use Rattle.nested_documents.specs.Inlining.{bindings_before, connections_before, connectors_before, inner_ends, inlined, is_of, own_connectors, own_count, put, put_together, seam_of, systems_before};
ghost use Rattle.nested_documents.specs.Inner.{found_end, found_ends};
ghost use Rattle.ssd_tree.specs.Lists.{tree_of};

use crate::inner::{inner_place, inner_places};
use crate::seam::{Frame, Seam, Side};
use doc_tables::ScopedPlaces;
use ssd_tree::{Binding, ComponentPart, Connection, Connector, Owner, Parts, SystemPart};
use std::alloc::{AllocError, Global};

/// The parts of two documents where the inner one, which has so many elements, stands in place of a Component of the
/// outer one. Its outermost System has the connectors of the Component, and the Component's bindings come after all of
/// its own.
pub fn inlined(
    alloc: Global,
    outer: Parts,
    place: usize,
    frame: &Frame,
    inner: Parts,
    elements: usize,
) -> Result<Parts, AllocError>
    requires { place < vec_len outer.components }
    ensures { (c : ComponentPart) → slice_get outer.components.items place ≡ Some c →
        IfOk result (λ whole. tree_of whole ≡
        inlined (tree_of outer) place c frame.now (tree_of inner) elements) }
{
    let seam = seam_of(&outer, place, &inner, elements);
    let ends = seam.own_ends(alloc, &outer.connectors, &inner.connectors)?;
    seam.put_together(alloc, frame, &ends, outer, inner)
}

/// What stands before a Component, and what goes in its place.
pub(crate) fn seam_of(outer: &Parts, place: usize, inner: &Parts, elements: usize) -> Seam
    requires { place < vec_len outer.now.components }
    ensures { (c : ComponentPart) → slice_get outer.now.components.items place ≡ Some c →
        result ≡ seam_of (tree_of outer.now) place c (tree_of inner.now) elements }
{
    let component = &outer.components[place];
    Seam {
        node: component.node,
        elements,
        system: component.system,
        systems_before: systems_before(&outer.systems, component.node),
        systems: inner.systems.len(),
        component: place,
        components: inner.components.len(),
        connectors_before: connectors_before(&outer.connectors, component.node),
        connectors: inner.connectors.len(),
    }
}

fn systems_before(systems: &[SystemPart], node: usize) -> usize
    ensures is { result ≡ systems_before node systems.now }
    ensures within { result ≤ length systems.now }
{
    systems.iter().filter(|part| part.node < node).count()
}

fn connectors_before(connectors: &[Connector], node: usize) -> usize
    ensures is { result ≡ connectors_before node connectors.now }
    ensures within { result ≤ length connectors.now }
{
    connectors.iter().filter(|part| part.node < node).count()
}

fn connections_before(connections: &[Connection], node: usize) -> usize
    ensures is { result ≡ connections_before node connections.now }
    ensures within { result ≤ length connections.now }
{
    connections.iter().filter(|part| part.node < node).count()
}

fn bindings_before(bindings: &[Binding], node: usize) -> usize
    ensures is { result ≡ bindings_before node bindings.now }
    ensures within { result ≤ length bindings.now }
{
    bindings.iter().filter(|part| part.node < node).count()
}

// Whether a connector is of the Component at a place.
fn is_of(owner: Owner, component: usize) -> bool
    ensures { result ≡ is_of component owner }
{
    match owner {
        Owner::System(_) => false,
        Owner::Component(place) => place == component,
    }
}

// How many connectors at the head of a list are the Component's own.
fn own_count(connectors: &[Connector], component: usize) -> usize
    ensures is { result ≡ own_count component connectors.now }
    ensures within { result ≤ length connectors.now }
{
    connectors
        .iter()
        .filter(|connector| is_of(connector.owner, component))
        .count()
}

// The inner parts in place of some of the outer ones.
fn put<T: Drop>(outer: Vec<T>, at: usize, gone: usize, inner: Vec<T>) -> Result<Vec<T>, AllocError>
    requires { at + gone ≤ vec_len outer }
    ensures { IfOk result (λ whole. whole.items ≡ put at gone inner.items outer.items) }
{
    let mut whole = outer;
    let mut inside = inner;
    let mut after = whole.split_off(at + gone)?;
    whole.truncate(at);
    whole.append(&mut inside)?;
    whole.append(&mut after)?;
    Ok(whole)
}

impl Seam {
    // The place in the whole of the inner connector that stands for one of the Component's.
    fn end<'a>(&self, places: &ScopedPlaces<'a>, wanted: &'a Connector) -> Result<usize, AllocError>
        ensures { IfOk result (λ end. end ≡ found_end self.now places.now wanted.now) }
    {
        let place = inner_place(places, wanted).unwrap_or(0);
        place.checked_add(self.connectors_before).ok_or(AllocError)
    }

    fn ends<'a>(
        &self,
        alloc: Global,
        places: &ScopedPlaces<'a>,
        own: &'a [Connector],
    ) -> Result<Vec<usize>, AllocError>
        ensures { IfOk result (λ ends. ends.items ≡ found_ends self.now places.now own.now) }
    {
        let mut ends = Vec::with_capacity(alloc, own.len())?;
        for connector in own {
            ends.push(self.end(places, connector)?)?;
        }
        Ok(ends)
    }

    /// The Component's own connectors.
    pub(crate) fn own<'a>(&self, connectors: &'a [Connector]) -> &'a [Connector]
        requires { self.now.connectors_before ≤ length connectors.now }
        ensures own { result.now ≡ own_connectors self.now connectors.now }
        ensures within { self.now.connectors_before + length result.now ≤ length connectors.now }
    {
        let rest = &connectors[self.connectors_before..];
        &rest[..own_count(rest, self.component)]
    }

    // The places in the whole of the inner connectors that stand for the Component's own.
    fn own_ends<'a>(
        &self,
        alloc: Global,
        outer: &'a [Connector],
        inner: &'a [Connector],
    ) -> Result<Vec<usize>, AllocError>
        requires { self.now.connectors_before ≤ length outer.now }
        ensures { IfOk result (λ ends. ends.items ≡ inner_ends self.now outer.now inner.now) }
    {
        let places = inner_places(alloc, inner)?;
        self.ends(alloc, &places, self.own(outer))
    }

    fn whole_systems(
        &self,
        alloc: Global,
        frame: &Frame,
        outer: Vec<SystemPart>,
        inner: Vec<SystemPart>,
    ) -> Result<Vec<SystemPart>, AllocError>
        requires { self.now.systems_before ≤ vec_len outer }
        ensures { IfOk result (λ whole. whole.items ≡ put self.now.systems_before 0
            (map (moved_system_part self.now frame.now Side.Inner) inner.items)
            (map (moved_system_part self.now frame.now Side.Outer) outer.items)) }
    {
        let outer = self.system_parts(alloc, frame, Side::Outer, outer)?;
        let inner = self.system_parts(alloc, frame, Side::Inner, inner)?;
        put(outer, self.systems_before, 0, inner)
    }

    fn whole_components(
        &self,
        alloc: Global,
        frame: &Frame,
        outer: Vec<ComponentPart>,
        inner: Vec<ComponentPart>,
    ) -> Result<Vec<ComponentPart>, AllocError>
        requires { self.now.component < vec_len outer }
        ensures { IfOk result (λ whole. whole.items ≡ put self.now.component 1
            (map (moved_component_part self.now frame.now Side.Inner) inner.items)
            (map (moved_component_part self.now frame.now Side.Outer) outer.items)) }
    {
        let outer = self.component_parts(alloc, frame, Side::Outer, outer)?;
        let inner = self.component_parts(alloc, frame, Side::Inner, inner)?;
        put(outer, self.component, 1, inner)
    }

    fn whole_connectors(
        &self,
        alloc: Global,
        gone: usize,
        outer: Vec<Connector>,
        inner: Vec<Connector>,
    ) -> Result<Vec<Connector>, AllocError>
        requires { self.now.connectors_before + gone ≤ vec_len outer }
        ensures { IfOk result (λ whole. whole.items ≡ put self.now.connectors_before gone
            (map (moved_connector_part self.now Side.Inner) inner.items)
            (map (moved_connector_part self.now Side.Outer) outer.items)) }
    {
        let outer = self.connector_parts(alloc, Side::Outer, outer)?;
        let inner = self.connector_parts(alloc, Side::Inner, inner)?;
        put(outer, self.connectors_before, gone, inner)
    }

    fn whole_connections(
        &self,
        alloc: Global,
        ends: &[usize],
        outer: Vec<Connection>,
        inner: Vec<Connection>,
    ) -> Result<Vec<Connection>, AllocError>
        ensures { IfOk result (λ whole. whole.items ≡ put (connections_before self.now.node outer.items) 0
            (map (moved_connection self.now ends.now Side.Inner) inner.items)
            (map (moved_connection self.now ends.now Side.Outer) outer.items)) }
    {
        let before = connections_before(&outer, self.node);
        let outer = self.connection_parts(alloc, ends, Side::Outer, outer)?;
        let inner = self.connection_parts(alloc, ends, Side::Inner, inner)?;
        put(outer, before, 0, inner)
    }

    fn whole_bindings(
        &self,
        alloc: Global,
        frame: &Frame,
        outer: Vec<Binding>,
        inner: Vec<Binding>,
    ) -> Result<Vec<Binding>, AllocError>
        ensures { IfOk result (λ whole. whole.items ≡ put (bindings_before self.now.node outer.items) 0
            (map (moved_binding self.now frame.now Side.Inner) inner.items)
            (map (moved_binding self.now frame.now Side.Outer) outer.items)) }
    {
        let before = bindings_before(&outer, self.node);
        let outer = self.binding_parts(alloc, frame, Side::Outer, outer)?;
        let inner = self.binding_parts(alloc, frame, Side::Inner, inner)?;
        put(outer, before, 0, inner)
    }

    fn put_together(
        &self,
        alloc: Global,
        frame: &Frame,
        ends: &[usize],
        outer: Parts,
        inner: Parts,
    ) -> Result<Parts, AllocError>
        requires systems { self.now.systems_before ≤ vec_len outer.systems }
        requires components { self.now.component < vec_len outer.components }
        requires connectors { self.now.connectors_before + length ends.now ≤ vec_len outer.connectors }
        ensures { IfOk result (λ whole. tree_of whole ≡
            put_together self.now frame.now ends.now (tree_of outer) (tree_of inner)) }
    {
        let Parts {
            systems,
            components,
            connectors,
            connections,
            bindings,
        } = outer;
        Ok(Parts {
            systems: self.whole_systems(alloc, frame, systems, inner.systems)?,
            components: self.whole_components(alloc, frame, components, inner.components)?,
            connectors: self.whole_connectors(alloc, ends.len(), connectors, inner.connectors)?,
            connections: self.whole_connections(alloc, ends, connections, inner.connections)?,
            bindings: self.whole_bindings(alloc, frame, bindings, inner.bindings)?,
        })
    }
}
