ghost use Rattle.std.specs.Prelude.{◌↔◌, ◌<◌, All, IsTrue};
ghost use Rattle.sim_base.specs.declared.numbers.PortId.{PortId};
ghost use Rattle.port_orders.specs.Placed.{ArePlaced, IsPlaced};

use crate::roles::source_of;
use sim_base::PortId;
use system_model::{Component, Port};

fn all_below(ports: &[PortId], count: usize) -> bool
    ensures { IsTrue result ↔ All (λ (port : PortId). port.0 < count) ports.now }
{
    ports.iter().all(|port| (port.0 as usize) < count)
}

fn is_placed(port: &Port, components: usize, ports: usize) -> bool
    ensures { IsTrue result ↔ IsPlaced components ports port.now }
{
    if port.component.0 as usize >= components {
        return false;
    }
    if let Some(source) = source_of(&port.role) {
        if source >= ports {
            return false;
        }
    }
    all_below(port.clocks.as_slice(), ports)
}

fn each_placed(all: &[Port], components: usize, ports: usize) -> bool
    ensures { IsTrue result ↔ All (IsPlaced components ports) all.now }
{
    all.iter().all(|port| is_placed(port, components, ports))
}

/// Whether all that ports name is there, and components and ports are at most 2^32.
pub fn are_placed(components: &[Component], ports: &[Port]) -> bool
    ensures { IsTrue result ↔ ArePlaced components.now ports.now }
{
    if components.len() > 1 << 32 || ports.len() > 1 << 32 {
        return false;
    }
    each_placed(ports, components.len(), ports.len())
}
