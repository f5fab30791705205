use port_orders::{OrderFault, Orders, are_placed, order_system};
use sim_base::{CompId, Items, PartedText, PortId, SourceId, Text};
use std::alloc::{AllocError, Global};
use std::test::Fail;
use system_model::{Component, Feed, Port, Role, Timing};
use value_types::{ByReference, Causality, Dependency, Knowns, PortType, Shape, Variable};

// Two FMUs in a ring: the output under reference 3 of each feeds the input under reference 2 of the other. Each row has
// what the outputs list, none for all inputs, and the loop that is expected.
struct Ring {
    has_event_mode: bool,
    first: Option<&'static [u32]>,
    second: Option<&'static [u32]>,
    wanted: Option<[u32; 4]>,
}

macro_rules! ring {
    ($events:expr, $first:expr, $second:expr => $wanted:expr) => {
        Ring {
            has_event_mode: $events,
            first: $first,
            second: $second,
            wanted: $wanted,
        }
    };
}

const NOTHING: Option<&'static [u32]> = Some(&[]);

const INPUT: Option<&'static [u32]> = Some(&[2]);

static RINGS: [Ring; 7] = [
    ring!(true, None, None => Some([0, 3, 2, 1])),
    ring!(false, None, None => Some([0, 3, 2, 1])),
    ring!(true, INPUT, INPUT => Some([0, 3, 2, 1])),
    ring!(true, INPUT, None => Some([0, 3, 2, 1])),
    ring!(true, None, NOTHING => None),
    ring!(false, NOTHING, INPUT => None),
    ring!(true, NOTHING, NOTHING => None),
];

fn variable(
    alloc: Global,
    reference: u32,
    kind: PortType,
    causality: Causality,
    clocks: &[u32],
) -> Result<Variable, AllocError> {
    Ok(Variable {
        name: Text::from_str(alloc, "v")?,
        aliases: Items::from_vec(Vec::new(alloc)),
        reference,
        kind: Some(kind),
        causality,
        clocks: Items::from_vec(clocks.to_vec(alloc)?),
        start: None,
        can_be_set_again: true,
    })
}

fn depends(alloc: Global, listed: Option<&[u32]>) -> Result<ByReference<Dependency>, AllocError> {
    let on = match listed {
        Some(references) => Knowns::Listed(Items::from_vec(references.to_vec(alloc)?)),
        None => Knowns::AllInputs,
    };
    ByReference::new(alloc, vec![in alloc; Dependency { output: 3, on }]?)
}

fn shape(
    alloc: Global,
    has_event_mode: bool,
    variables: Vec<Variable>,
    listed: Option<&[u32]>,
) -> Result<Shape, AllocError> {
    let identifier = Text::from_str(alloc, "gain")?;
    let token = Text::from_str(alloc, "t")?;
    let clocks = ByReference::new(alloc, Vec::new(alloc))?;
    let dependencies = depends(alloc, listed)?;
    let initial_dependencies = depends(alloc, listed)?;
    Ok(Shape {
        identifier,
        token,
        resolution: 1000,
        has_event_mode,
        might_return_early: false,
        has_variable_steps: true,
        can_save_state: false,
        can_serialize_state: false,
        variables: ByReference::new(alloc, variables)?,
        clocks,
        dependencies,
        initial_dependencies,
    })
}

fn component(
    alloc: Global,
    has_event_mode: bool,
    variables: Vec<Variable>,
    listed: Option<&[u32]>,
) -> Result<Component, AllocError> {
    let name = PartedText::from_text(alloc, Text::from_str(alloc, "g")?)?;
    Ok(Component {
        name,
        source: SourceId(0),
        shape: shape(alloc, has_event_mode, variables, listed)?,
    })
}

fn gain(
    alloc: Global,
    has_event_mode: bool,
    listed: Option<&[u32]>,
) -> Result<Component, AllocError> {
    let input = variable(alloc, 2, PortType::Int32, Causality::Input, &[])?;
    let output = variable(alloc, 3, PortType::Int32, Causality::Output, &[])?;
    component(
        alloc,
        has_event_mode,
        vec![in alloc; input, output]?,
        listed,
    )
}

fn port(
    alloc: Global,
    of: u32,
    reference: u32,
    kind: PortType,
    role: Role,
    clocks: &[PortId],
) -> Result<Port, AllocError> {
    Ok(Port {
        component: CompId(of),
        name: Text::from_str(alloc, "p")?,
        kind,
        reference,
        role,
        clocks: Items::from_vec(clocks.to_vec(alloc)?),
    })
}

fn fed_input(alloc: Global, by: u32) -> Role {
    Role::Input {
        feed: Some(Feed::plain(alloc, PortId(by))),
    }
}

// The orders, where the ports stand as they have to.
fn orders_of(
    alloc: Global,
    components: &[Component],
    ports: &[Port],
) -> Result<Orders, OrderFault> {
    if !are_placed(components, ports) {
        return Err(OrderFault::Memory);
    }
    order_system(alloc, components, ports)
}

fn stands_before(order: &Items<PortId>, p: u32, q: u32) -> bool {
    let place = |p| order.as_slice().iter().position(|port| port.0 == p);
    match (place(p), place(q)) {
        (Some(first), Some(second)) => first < second,
        _ => false,
    }
}

fn is_order_of_ring(order: &Items<PortId>) -> bool {
    order.as_slice().len() == 4 && stands_before(order, 1, 2) && stands_before(order, 3, 0)
}

fn is_answer(answer: &Result<Orders, OrderFault>, wanted: &Option<[u32; 4]>) -> bool {
    match (answer, wanted) {
        (Ok(orders), None) => {
            is_order_of_ring(&orders.instant_order) && is_order_of_ring(&orders.initial_order)
        }
        (Err(OrderFault::Loop(found)), Some(wanted)) => {
            found
                .as_slice()
                .iter()
                .map(|port| port.0)
                .eq(wanted.iter().copied())
        }
        _ => false,
    }
}

fn ports_of_ring(alloc: Global) -> Result<Vec<Port>, AllocError> {
    let int = PortType::Int32;
    let mut ports = Vec::new(alloc);
    for of in 0..2 {
        ports.push(port(
            alloc,
            of,
            2,
            int,
            fed_input(alloc, if of == 0 { 3 } else { 1 }),
            &[],
        )?)?;
        ports.push(port(alloc, of, 3, int, Role::Output, &[])?)?;
    }
    Ok(ports)
}

fn components_of(alloc: Global, ring: &Ring) -> Result<Vec<Component>, AllocError> {
    let first = gain(alloc, ring.has_event_mode, ring.first)?;
    Ok(vec![in alloc; first, gain(alloc, ring.has_event_mode, ring.second)?]?)
}

fn is_ring(alloc: Global, ports: &[Port], ring: &Ring) -> bool {
    match components_of(alloc, ring) {
        Ok(components) => is_answer(
            &orders_of(alloc, components.as_slice(), ports),
            &ring.wanted,
        ),
        Err(_) => false,
    }
}

#[test]
fn a_ring_is_a_loop_where_each_output_needs_its_input(rt: HostRuntime) -> Result<(), Fail> {
    let alloc = rt.alloc();
    let ports = ports_of_ring(alloc)?;
    let ports = ports.as_slice();
    assert_eq!(rt;
        RINGS.iter().position(|ring| !is_ring(alloc, ports, ring)),
        None
    );
    Ok(())
}

// A Clock, an input that it clocks, and an output that depends on the input.
fn clocked(alloc: Global) -> Result<Component, AllocError> {
    let int = PortType::Int32;
    let output = variable(alloc, 3, int, Causality::Output, &[])?;
    let input = variable(alloc, 2, int, Causality::Input, &[1])?;
    let clock = variable(alloc, 1, PortType::Clock, Causality::Input, &[])?;
    component(alloc, true, vec![in alloc; output, input, clock]?, INPUT)
}

fn clocked_ports(alloc: Global) -> Result<Vec<Port>, AllocError> {
    let int = PortType::Int32;
    let countdown = Role::TimeClock {
        timing: Timing::Countdown,
    };
    let output = port(alloc, 0, 3, int, Role::Output, &[])?;
    let input = port(alloc, 0, 2, int, Role::Input { feed: None }, &[PortId(2)])?;
    let clock = port(alloc, 0, 1, PortType::Clock, countdown, &[])?;
    Ok(vec![in alloc; output, input, clock]?)
}

fn are_orders(alloc: Global, components: &[Component], ports: &[Port]) -> bool {
    match orders_of(alloc, components, ports) {
        Ok(orders) => {
            orders.instant_order.as_slice() == [PortId(2), PortId(1), PortId(0)].as_slice()
                && orders.initial_order.as_slice() == [PortId(0)].as_slice()
        }
        Err(_) => false,
    }
}

#[test]
fn a_port_stands_after_its_clock_and_outside_initialization(rt: HostRuntime) -> Result<(), Fail> {
    let alloc = rt.alloc();
    let components = vec![in alloc; clocked(alloc)?]?;
    let ports = clocked_ports(alloc)?;
    assert!(rt; are_orders(alloc, components.as_slice(), ports.as_slice()));
    Ok(())
}
