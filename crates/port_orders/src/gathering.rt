//! What each port needs, gathered from feeds, Clocks and what descriptions say.
ghost use Rattle.std.specs.Prelude.{◌≡◌, ◌↔◌, ◌<◌, [], ℕ, All, Contains, IfOk, IfSome, IsTrue, OnOk, length, map, replicate, Some, false};
ghost use Rattle.dependency_order.specs.Graph.{AreBelow, Needs};
ghost use Rattle.sim_base.specs.declared.numbers.PortId.{PortId};
ghost use Rattle.system_model.specs.Ports.{port_numbers, source_of};
ghost use Rattle.port_orders.specs.Gathered.{Adds, AreNeeds, Concerns, IsGathering, IsKnown, IsReferred, IsTold, group_in, has_part, row_at};
ghost use Rattle.port_orders.specs.Placed.{ArePlaced, IsPlaced};

use crate::index::{inputs_of, tables_of};
use crate::needs::{group_in, knowns_in, place_in};
use crate::roles::source_of;
use dependency_order::{GroupedNeeds, Lists};
use sim_base::PortId;
use std::alloc::{AllocError, Global};
use system_model::{Component, Port, Role};
use value_types::Knowns;

// The list of each port so far; a port is stamped by the last one in whose list it was put, so that none is put in twice.
#[derive(Drop)]
struct Gathering {
    stamps: Vec<Option<usize>>,
    lists: Lists,
}

impl Gathering {
    fn new(alloc: Global, count: usize) -> Result<Gathering, AllocError>
        ensures held { IfOk result (λ g. IsGathering count g.stamps.items g.lists) }
        ensures lists { IfOk result (λ g. g.lists ≡ replicate count []) }
    {
        Ok(Gathering {
            stamps: vec![in alloc; None; count]?,
            lists: Lists::new(alloc, count)?,
        })
    }

    // Puts a port that takes part into the list of another.
    fn add(&mut self, taken: &[bool], port: usize, need: usize) -> Result<(), AllocError>
        requires held { IsGathering (length taken.now) self.old.stamps.items self.old.lists }
        requires port { port < length taken.now }
        requires need { need < length taken.now }
        ensures held { OnOk result
            (IsGathering (length taken.now) self.new.stamps.items self.new.lists) }
        ensures adds { OnOk result
            (Adds taken.now port (λ q. q ≡ need) self.old.lists self.new.lists) }
    {
        if !taken[need] {
            return Ok(());
        }
        if is_stamped(self.stamps[need], port) {
            return Ok(());
        }
        self.lists.push(port, need)?;
        self.stamps[need] = Some(port);
        Ok(())
    }

    fn add_all(&mut self, taken: &[bool], port: usize, needs: &[usize]) -> Result<(), AllocError>
        requires held { IsGathering (length taken.now) self.old.stamps.items self.old.lists }
        requires port { port < length taken.now }
        requires needs { All (λ q. q < length taken.now) needs.now }
        ensures held { OnOk result
            (IsGathering (length taken.now) self.new.stamps.items self.new.lists) }
        ensures adds { OnOk result
            (Adds taken.now port (Contains needs.now) self.old.lists self.new.lists) }
    {
        for need in needs {
            self.add(taken, port, *need)?;
        }
        Ok(())
    }

    // The port that feeds it.
    fn add_source(&mut self, taken: &[bool], port: usize, role: &Role) -> Result<(), AllocError>
        requires held { IsGathering (length taken.now) self.old.stamps.items self.old.lists }
        requires port { port < length taken.now }
        requires source { IfSome (source_of role.now) (λ q. q < length taken.now) }
        ensures held { OnOk result
            (IsGathering (length taken.now) self.new.stamps.items self.new.lists) }
        ensures adds { OnOk result
            (Adds taken.now port (λ q. source_of role.now ≡ Some q) self.old.lists self.new.lists) }
    {
        match source_of(role) {
            Some(source) => self.add(taken, port, source),
            None => Ok(()),
        }
    }

    // Its Clocks, in instants.
    fn add_clocks(
        &mut self,
        taken: &[bool],
        port: usize,
        initializing: bool,
        clocks: &[PortId],
    ) -> Result<(), AllocError>
        requires held { IsGathering (length taken.now) self.old.stamps.items self.old.lists }
        requires port { port < length taken.now }
        requires clocks { All (λ (clock : PortId). clock.0 < length taken.now) clocks.now }
        ensures held { OnOk result
            (IsGathering (length taken.now) self.new.stamps.items self.new.lists) }
        ensures adds { OnOk result
            (Adds taken.now port (λ q. (initializing ≡ false) ×
            Contains (port_numbers clocks.now) q)
            self.old.lists self.new.lists) }
    {
        if initializing {
            return Ok(());
        }
        for clock in clocks {
            self.add(taken, port, clock.0 as usize)?;
        }
        Ok(())
    }

    // The ports that stand in the table at the places of these references.
    fn add_referred(
        &mut self,
        taken: &[bool],
        number: usize,
        components: &[Component],
        port: &Port,
        on: &[u32],
        table: &Lists,
    ) -> Result<(), AllocError>
        requires held { IsGathering (length taken.now) self.old.stamps.items self.old.lists }
        requires number { number < length taken.now }
        requires table { AreBelow table.now (length taken.now) }
        ensures held { OnOk result
            (IsGathering (length taken.now) self.new.stamps.items self.new.lists) }
        ensures adds { OnOk result
            (Adds taken.now number (IsReferred components.now port.now on.now table.now)
            self.old.lists self.new.lists) }
    {
        for reference in on {
            self.add_all(
                taken,
                number,
                row_of(table, place_in(components, port, *reference)),
            )?;
        }
        Ok(())
    }

    // The ports that its list in the description names.
    fn add_knowns(
        &mut self,
        taken: &[bool],
        number: usize,
        components: &[Component],
        port: &Port,
        initializing: bool,
        table: &Lists,
    ) -> Result<(), AllocError>
        requires held { IsGathering (length taken.now) self.old.stamps.items self.old.lists }
        requires number { number < length taken.now }
        requires table { AreBelow table.now (length taken.now) }
        ensures held { OnOk result
            (IsGathering (length taken.now) self.new.stamps.items self.new.lists) }
        ensures adds { OnOk result
            (Adds taken.now number (IsKnown components.now initializing port.now table.now)
            self.old.lists self.new.lists) }
    {
        match knowns_in(components, initializing, port) {
            Some(Knowns::Listed(on)) => {
                self.add_referred(taken, number, components, port, on.as_slice(), table)
            }
            Some(Knowns::AllInputs) => Ok(()),
            None => Ok(()),
        }
    }

    // All that a port needs but for its group.
    fn add_port(
        &mut self,
        taken: &[bool],
        number: usize,
        components: &[Component],
        port: &Port,
        initializing: bool,
        table: &Lists,
    ) -> Result<(), AllocError>
        requires held { IsGathering (length taken.now) self.old.stamps.items self.old.lists }
        requires number { number < length taken.now }
        requires placed { IsPlaced (length components.now) (length taken.now) port.now }
        requires table { AreBelow table.now (length taken.now) }
        ensures held { OnOk result
            (IsGathering (length taken.now) self.new.stamps.items self.new.lists) }
        ensures adds { OnOk result
            (Adds taken.now number (Concerns components.now initializing port.now table.now)
            self.old.lists self.new.lists) }
    {
        self.add_source(taken, number, &port.role)?;
        self.add_clocks(taken, number, initializing, port.clocks.as_slice())?;
        self.add_knowns(taken, number, components, port, initializing, table)
    }
}

fn is_stamped(stamp: Option<usize>, port: usize) -> bool
    ensures { IsTrue result ↔ (stamp ≡ Some port) }
{
    match stamp {
        Some(last) => last == port,
        None => false,
    }
}

// The list at a place, or none.
fn row_of(table: &Lists, place: Option<usize>) -> &[usize]
    ensures { result.now ≡ row_at table.now place }
{
    match place {
        Some(place) => if place < table.len() {
            table.row(place)
        } else {
            &[]
        },
        None => &[],
    }
}

// For each port the list of those that it needs but for its group.
fn lists_of(
    alloc: Global,
    components: &[Component],
    ports: &[Port],
    taken: &[bool],
    initializing: bool,
) -> Result<Lists, AllocError>
    requires placed { ArePlaced components.now ports.now }
    requires taken { taken.now ≡ map (has_part initializing) ports.now }
    ensures len { IfOk result (λ lists. length lists ≡ length ports.now) }
    ensures told { IfOk result (λ lists. (p q : ℕ) →
        Needs lists p q ↔ IsTold components.now ports.now taken.now initializing p q) }
{
    let tables = tables_of(alloc, components, ports, taken)?;
    let mut gathering = Gathering::new(alloc, ports.len())?;
    for number in 0..ports.len() {
        let port = &ports[number];
        if taken[number] {
            let table = &tables[port.component.0 as usize];
            gathering.add_port(taken, number, components, port, initializing, table)?;
        }
    }
    Ok(gathering.lists)
}

fn groups_of(
    alloc: Global,
    components: &[Component],
    ports: &[Port],
    initializing: bool,
) -> Result<Vec<Option<usize>>, AllocError>
    ensures { IfOk result (λ groups. groups.items ≡ map (group_in components.now initializing)
        ports.now) }
{
    let mut groups = Vec::new(alloc);
    for port in ports {
        groups.push(group_in(components, initializing, port))?;
    }
    Ok(groups)
}

/// What each port needs; an output that depends on all inputs of its component has these as its group.
pub(crate) fn gather(
    alloc: Global,
    components: &[Component],
    ports: &[Port],
    taken: &[bool],
    initializing: bool,
) -> Result<GroupedNeeds, AllocError>
    requires placed { ArePlaced components.now ports.now }
    requires taken { taken.now ≡ map (has_part initializing) ports.now }
    ensures { IfOk result (AreNeeds components.now ports.now taken.now initializing) }
{
    Ok(GroupedNeeds {
        listed: lists_of(alloc, components, ports, taken, initializing)?,
        group_of: groups_of(alloc, components, ports, initializing)?,
        groups: inputs_of(alloc, components, ports, taken)?,
    })
}
