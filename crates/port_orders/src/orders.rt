//! The two orders of a system.
ghost use Rattle.std.specs.Prelude.{◌≡◌, ◌<◌, ◌^◌, All, IfErr, IfOk, false, filter, map, slice_index_or};
ghost use Rattle.system_model.specs.Ports.{port_numbers};
ghost use Rattle.port_orders.specs.Gathered.{has_part};
ghost use Rattle.port_orders.specs.Outcome.{AreOrders, HasCause, HasCauseIn, IsOrderIn, unordered};
ghost use Rattle.port_orders.specs.Placed.{ArePlaced};

use crate::gathering::gather;
use crate::roles::has_part;
use dependency_order::{Found, order_grouped};
use sim_base::{Items, PortId};
use std::alloc::{AllocError, Global};
use system_model::{Component, Port};
use thiserror::Error;

/// Orders in which each port stands once, after all that it needs.
#[derive(Debug, Drop)]
pub struct Orders {
    /// all ports, for instants
    pub instant_order: Items<PortId>,
    /// those that have no Clocks and are none, for Initialization Mode
    pub initial_order: Items<PortId>,
}

/// Why there are no orders.
#[derive(Debug, Drop, Error)]
pub enum OrderFault {
    /// Each of these ports needs the next, the last the first; the least comes first.
    #[error("ports need each other in a loop")]
    Loop(Items<PortId>),
    #[error("out of memory")]
    Memory,
}

impl From<AllocError> for OrderFault {
    ghost use Rattle.port_orders.specs.declared.orders.OrderFault.TheVariants.{Memory};

    ghost from_gives = { λ _ e. e ≡ Memory };

    fn from(_error: AllocError) -> OrderFault {
        OrderFault::Memory
    }
}

fn marks_of(alloc: Global, ports: &[Port], initializing: bool) -> Result<Vec<bool>, AllocError>
    ensures { IfOk result (λ marks. marks.items ≡ map (has_part initializing) ports.now) }
{
    let mut marks = Vec::new(alloc);
    for port in ports {
        marks.push(has_part(port, initializing))?;
    }
    Ok(marks)
}

// Those that are marked.
fn marked_nodes(alloc: Global, nodes: &[usize], marks: &[bool]) -> Result<Vec<usize>, AllocError>
    ensures { IfOk result (λ kept. kept.items ≡ filter (λ p. slice_index_or marks.now p false)
        nodes.now) }
{
    let mut kept = Vec::new(alloc);
    for node in nodes {
        if is_marked(marks, *node) {
            kept.push(*node)?;
        }
    }
    Ok(kept)
}

fn is_marked(marks: &[bool], node: usize) -> bool
    ensures { result ≡ slice_index_or marks.now node false }
{
    if node < marks.len() {
        marks[node]
    } else {
        false
    }
}

fn port_ids(alloc: Global, nodes: &[usize]) -> Result<Items<PortId>, AllocError>
    requires { All (λ p. p < 2 ^ 32) nodes.now }
    ensures { IfOk result (λ ports. port_numbers ports ≡ nodes.now) }
{
    let mut ports = Vec::new(alloc);
    for node in nodes {
        ports.push(PortId(*node as u32))?;
    }
    Ok(Items::from_vec(ports))
}

// The order for instants or for Initialization Mode.
fn order_in(
    alloc: Global,
    components: &[Component],
    ports: &[Port],
    initializing: bool,
) -> Result<Items<PortId>, OrderFault>
    requires placed { ArePlaced components.now ports.now }
    ensures order { IfOk result (λ order. IsOrderIn initializing
        (unordered components.now ports.now) (port_numbers order)) }
    ensures cause { IfErr result (HasCauseIn initializing (unordered components.now ports.now)) }
{
    let taken = marks_of(alloc, ports, initializing)?;
    let needs = gather(alloc, components, ports, taken.as_slice(), initializing)?;
    match order_grouped(alloc, needs)? {
        Found::Order(nodes) => {
            let kept = marked_nodes(alloc, nodes.as_slice(), taken.as_slice())?;
            let order = port_ids(alloc, kept.as_slice())?;
            Ok(order)
        }
        Found::Loop(nodes) => {
            let found = port_ids(alloc, nodes.as_slice())?;
            Err(OrderFault::Loop(found))
        }
    }
}

/// The stored orders of a system of these components and ports, or a loop where there are none: of the needs in instants
/// first, then of those in Initialization Mode. Time is n log n in what the descriptions list.
pub fn order_system(
    alloc: Global,
    components: &[Component],
    ports: &[Port],
) -> Result<Orders, OrderFault>
    requires placed { ArePlaced components.now ports.now }
    ensures orders { IfOk result (AreOrders components.now ports.now) }
    ensures cause { IfErr result (HasCause components.now ports.now) }
{
    let instant_order = order_in(alloc, components, ports, false)?;
    match order_in(alloc, components, ports, true) {
        Ok(initial_order) => Ok(Orders {
            instant_order,
            initial_order,
        }),
        Err(fault) => Err(fault),
    }
}
