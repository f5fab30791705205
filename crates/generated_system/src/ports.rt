ghost use Rattle.std.specs.Prelude.{◌≡◌, ◌+◌, ◌-◌, ◌≤◌, ◌++◌, IfOk, OnOk, length, map};
ghost use Rattle.std.specs.List.{range_with_len};
ghost use Rattle.generated_system.specs.Generated.{port_of, ports_of};

use crate::drawn::DrawnMachine;
use crate::shapes::output_reference;
use sim_base::{CompId, Items, PortId, Text};
use std::alloc::{AllocError, Global};
use system_model::{Feed, Port, Role};
use value_types::PortType;

fn port(
    alloc: Global,
    component: CompId,
    name: &str,
    reference: u32,
    role: Role,
) -> Result<Port, AllocError>
    ensures { IfOk result (λ port. port ≡ port_of component.0 name.now reference role) }
{
    Ok(Port {
        component,
        name: Text::from_str(alloc, name)?,
        kind: PortType::Int32,
        reference,
        role,
        clocks: Items::from_vec(Vec::new(alloc)),
    })
}

/// Appends the ports of a component to those of the others. It answers the number of its output.
pub(crate) fn push_ports(
    alloc: Global,
    ports: &mut Vec<Port>,
    component: CompId,
    machine: DrawnMachine,
    feed: Option<Feed>,
) -> Result<usize, AllocError>
    ensures ports { OnOk result (ports.new.items ≡ ports.old.items ++
        ports_of component.0 machine feed) }
    ensures output { IfOk result (λ output. output ≡ length ports.new.items - 1) }
    ensures near { IfOk result (λ output. output ≤ length ports.old.items + 1) }
{
    if machine == DrawnMachine::Gain {
        ports.push(port(alloc, component, "u", 2, Role::Input { feed })?)?;
    }
    let output = ports.len();
    let reference = output_reference(machine);
    ports.push(port(alloc, component, "y", reference, Role::Output)?)?;
    Ok(output)
}

/// So many ports by their numbers.
#[tactic(auto, using(crate::proofs::ByNumber::numbers_more))]
pub(crate) fn by_number(alloc: Global, count: u32) -> Result<Items<PortId>, AllocError>
    ensures { IfOk result (λ ids. ids ≡ map (λ p. record { 0 = p }) (range_with_len 0 count)) }
{
    let mut ids = Vec::with_capacity(alloc, count as usize)?;
    for number in 0..count {
        ids.push(PortId(number))?;
    }
    Ok(Items::from_vec(ids))
}
