//! Two gains, the second fed by the first: their system.
ghost use Rattle.std.specs.Prelude.{◌≡◌, ◌∷◌, [], IfOk};
ghost use Rattle.worked_rows.specs.Chain.{by_place, chain, gain_on, port_of};

use crate::trio::{make_component, make_number};
use sim_base::{CompId, Items, PortId, Text};
use std::alloc::{AllocError, Global};
use system_model::{Component, Feed, Port, Role, System};
use value_types::{ByReference, Causality, Dependency, Knowns, PortType, Shape, Variable};

fn make_dependencies(alloc: Global, inputs: &[u32]) -> Result<ByReference<Dependency>, AllocError>
    ensures { IfOk result (λ list. list ≡ record { output = 3; on = Knowns.Listed inputs.now } ∷
        []) }
{
    let on = Knowns::Listed(Items::from_vec(inputs.to_vec(alloc)?));
    ByReference::new(alloc, vec![in alloc; Dependency { output: 3, on }]?)
}

fn make_variables(alloc: Global) -> Result<ByReference<Variable>, AllocError>
    ensures { IfOk result (λ list. list ≡ (gain_on []).variables) }
{
    let mut variables = Vec::new(alloc);
    variables.push(make_number(alloc, "k", 1, Causality::Parameter, Some(3))?)?;
    variables.push(make_number(alloc, "u", 2, Causality::Input, Some(5))?)?;
    variables.push(make_number(alloc, "y", 3, Causality::Output, None)?)?;
    ByReference::new(alloc, variables)
}

fn make_gain(alloc: Global, inputs: &[u32]) -> Result<Shape, AllocError>
    ensures { IfOk result (λ shape. shape ≡ gain_on inputs.now) }
{
    Ok(Shape {
        identifier: Text::from_str(alloc, "gain")?,
        token: Text::from_str(alloc, "{3}")?,
        resolution: 1000,
        has_event_mode: false,
        might_return_early: false,
        has_variable_steps: true,
        can_save_state: true,
        can_serialize_state: false,
        clocks: ByReference::new(alloc, Vec::new(alloc))?,
        dependencies: make_dependencies(alloc, inputs)?,
        initial_dependencies: make_dependencies(alloc, inputs)?,
        variables: make_variables(alloc)?,
    })
}

pub(crate) fn make_port(
    alloc: Global,
    component: u32,
    name: &str,
    reference: u32,
    role: Role,
) -> Result<Port, AllocError>
    ensures { IfOk result (λ port. port ≡ port_of component name.now reference role) }
{
    Ok(Port {
        component: CompId(component),
        name: Text::from_str(alloc, name)?,
        kind: PortType::Int32,
        reference,
        role,
        clocks: Items::from_vec(Vec::new(alloc)),
    })
}

pub(crate) fn make_order(alloc: Global) -> Result<Items<PortId>, AllocError>
    ensures { IfOk result (λ order. order ≡ by_place) }
{
    Ok(Items::from_vec(vec![in alloc; PortId(0), PortId(1), PortId(2), PortId(3)]?))
}

fn make_components(alloc: Global) -> Result<Items<Component>, AllocError>
    ensures { IfOk result (λ list. list ≡ chain.components) }
{
    let first = make_component(alloc, "first", 0, make_gain(alloc, &[])?)?;
    let second = make_component(alloc, "second", 1, make_gain(alloc, &[2])?)?;
    Ok(Items::from_vec(vec![in alloc; first, second]?))
}

fn make_ports(alloc: Global) -> Result<Items<Port>, AllocError>
    ensures { IfOk result (λ list. list ≡ chain.ports) }
{
    let feed = Some(Feed::plain(alloc, PortId(1)));
    let mut ports = Vec::new(alloc);
    ports.push(make_port(alloc, 0, "u", 2, Role::Input { feed: None })?)?;
    ports.push(make_port(alloc, 0, "y", 3, Role::Output)?)?;
    ports.push(make_port(alloc, 1, "u", 2, Role::Input { feed })?)?;
    ports.push(make_port(alloc, 1, "y", 3, Role::Output)?)?;
    Ok(Items::from_vec(ports))
}

/// The system.
pub(crate) fn make_chain(alloc: Global) -> Result<System, AllocError>
    ensures { IfOk result (λ system. system ≡ chain) }
{
    Ok(System {
        instant_order: make_order(alloc)?,
        initial_order: make_order(alloc)?,
        ports: make_ports(alloc)?,
        components: make_components(alloc)?,
    })
}
