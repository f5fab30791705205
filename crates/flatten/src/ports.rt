//! The ports of the flattened system.
ghost use Rattle.std.specs.Prelude.{◌≡◌, ◌<◌, ◌+◌, ◌++◌, List, All, IfOk, IsSomeAnd, None, OnOk, Some, if◌then◌else◌, length, map, slice_get, true};
ghost use Rattle.std.specs.List.{AllZip};
ghost use Rattle.value_types.specs.Shape.{is_at, is_clock, is_port};
ghost use Rattle.value_types.specs.declared.shape.Shape.{Shape};
ghost use Rattle.value_types.specs.declared.shape.Variable.{Variable};
ghost use Rattle.system_model.specs.declared.system.Component.{Component};
ghost use Rattle.system_model.specs.Ports.{label_of};
ghost use Rattle.system_model.specs.Sound.{HasSoundPorts};
ghost use Rattle.port_orders.specs.Outcome.{unordered};
ghost use Rattle.flatten.specs.Flat.{AreComponentsOf, HasFeeds};
ghost use Rattle.flatten.specs.Indexed.{IsIndexed, all_variables, begin_of};
ghost use Rattle.flatten.specs.Ports.{IsMade, IsPortOf, IsPortTable, IsPortUnder, labels_at};
ghost use Rattle.flatten.specs.Rules.{IsFitting};

use crate::connectors::FlatTree;
use crate::roles::role;
use sim_base::{CompId, Items, PortId};
use std::alloc::{AllocError, Global};
use std::collections::BTreeMap;
use system_model::{Feed, Port};
use value_types::{PortType, Shape, Variable};

/// For each variable the number of its port, and for each that is fed, by its number, the port that feeds it.
#[derive(Drop)]
struct PortTable {
    numbers: Vec<Option<PortId>>,
    feeds: BTreeMap<usize, Feed>,
}

// The type of an input or output that isn't ignored.
fn port_type(variable: &Variable) -> Option<PortType>
    ensures { result ≡ (if is_port variable.now then variable.now.kind else None) }
{
    if variable.is_port() {
        variable.kind
    } else {
        None
    }
}

impl<'a> FlatTree<'a> {
    fn port_table(&self, alloc: Global) -> Result<PortTable, AllocError>
        requires indexed { IsIndexed self.now }
        requires fitting { IsFitting self.now.tree.now self.now.shapes.now }
        ensures { IfOk result (IsPortTable self.now.tree.now self.now.shapes.now) }
    {
        let numbers = self.port_numbers(alloc)?;
        let feeds = self.feeds(alloc, numbers.as_slice())?;
        Ok(PortTable { numbers, feeds })
    }

    // The number of the variable at a place of a component.
    fn number_at(&self, component: usize, place: usize) -> usize
        requires indexed { IsIndexed self.now }
        requires place { IsSomeAnd (slice_get self.now.shapes.now component)
            (λ (shape : Shape). place < length shape.variables) }
        ensures number { result ≡ begin_of self.now.shapes.now component + place }
        ensures within { result < length (all_variables self.now.shapes.now) }
    {
        self.variables.begins[component] + place
    }

    // The port of the Clock that has this reference in the component.
    fn clock_port(&self, table: &PortTable, component: usize, reference: u32) -> Option<PortId>
        requires indexed { IsIndexed self.now }
        requires table { IsPortTable self.now.tree.now self.now.shapes.now table.now }
        requires known { IsSomeAnd (slice_get self.now.shapes.now component)
            (λ (shape : Shape). is_at is_clock shape.variables reference ≡ true) }
        ensures { IsSomeAnd result (IsPortUnder self.now.shapes.now component reference) }
    {
        let place = self.shapes[component].variables.place_of(reference)?;
        table.numbers[self.number_at(component, place)]
    }

    // The ports of the Clocks that a variable of the component names.
    fn clocks(
        &self,
        alloc: Global,
        table: &PortTable,
        component: usize,
        references: &[u32],
    ) -> Result<Items<PortId>, AllocError>
        requires indexed { IsIndexed self.now }
        requires table { IsPortTable self.now.tree.now self.now.shapes.now table.now }
        requires known { IsSomeAnd (slice_get self.now.shapes.now component)
            (λ (shape : Shape). All (λ r. is_at is_clock shape.variables r ≡ true) references.now) }
        ensures { IfOk result (AllZip (IsPortUnder self.now.shapes.now component) references.now) }
    {
        let mut clocks = Vec::with_capacity(alloc, references.len())?;
        for reference in references {
            if let Some(port) = self.clock_port(table, component, *reference) {
                clocks.push(port)?;
            }
        }
        Ok(Items::from_vec(clocks))
    }

    fn port(
        &self,
        alloc: Global,
        table: &PortTable,
        component: usize,
        place: usize,
        kind: PortType,
    ) -> Result<Port, AllocError>
        requires indexed { IsIndexed self.now }
        requires table { IsPortTable self.now.tree.now self.now.shapes.now table.now }
        requires component { component < length self.now.shapes.now }
        requires place { IsSomeAnd (slice_get self.now.shapes.now component)
            (λ (shape : Shape). IsSomeAnd (slice_get shape.variables place)
            (λ (x : Variable). (is_port x ≡ true) × (x.kind ≡ Some kind))) }
        ensures { IfOk result (IsPortOf self.now.shapes.now table.now component place) }
    {
        let shape: &Shape = &self.shapes[component];
        let variable: &Variable = &shape.variables.as_slice()[place];
        let feed = match table.feeds.get(&self.number_at(component, place)) {
            Some(feed) => Some(feed.copy(alloc)?),
            None => None,
        };
        Ok(Port {
            component: CompId(component as u32),
            name: variable.name.copy(alloc)?,
            kind,
            reference: variable.reference,
            role: role(shape, variable, feed),
            clocks: self.clocks(alloc, table, component, variable.clocks.as_slice())?,
        })
    }

    // Adds the ports of a component, by their places in its description.
    fn add_ports(
        &self,
        alloc: Global,
        table: &PortTable,
        component: usize,
        ports: &mut Vec<Port>,
    ) -> Result<(), AllocError>
        requires indexed { IsIndexed self.now }
        requires table { IsPortTable self.now.tree.now self.now.shapes.now table.now }
        requires component { component < length self.now.shapes.now }
        ensures labels { OnOk result (map label_of ports.new.items ≡
            map label_of ports.old.items ++ labels_at self.now.shapes.now component) }
        ensures made { OnOk result (All (IsMade self.now.shapes.now table.now) ports.old.items →
            All (IsMade self.now.shapes.now table.now) ports.new.items) }
    {
        let variables = self.shapes[component].variables.as_slice();
        for place in 0..variables.len() {
            if let Some(kind) = port_type(&variables[place]) {
                ports.push(self.port(alloc, table, component, place, kind)?)?;
            }
        }
        Ok(())
    }

    /// The ports, by component and place in its description.
    pub(crate) fn ports(&self, alloc: Global) -> Result<Items<Port>, AllocError>
        requires indexed { IsIndexed self.now }
        requires fitting { IsFitting self.now.tree.now self.now.shapes.now }
        ensures ports { IfOk result (λ ports. (components : List Component) →
            AreComponentsOf self.now.tree.now.components self.now.shapes.now components →
            HasSoundPorts (unordered components ports)) }
        ensures feeds { IfOk result (HasFeeds self.now.tree.now self.now.shapes.now) }
    {
        let table = self.port_table(alloc)?;
        let mut ports = Vec::new(alloc);
        for component in 0..self.shapes.len() {
            self.add_ports(alloc, &table, component, &mut ports)?;
        }
        Ok(Items::from_vec(ports))
    }
}
