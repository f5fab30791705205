//! An FMU that settles feeds one with a constant Clock: their system.
ghost use Rattle.std.specs.Prelude.{◌≡◌, ◌∷◌, [], IfOk};
ghost use Rattle.value_types.specs.declared.shape.Knowns.TheVariants.{Listed};
ghost use Rattle.worked_rows.specs.Ticking.{clock, clock_port, clocked, clocked_port, each_hundredth, eventful, own, settling, ticking};

use crate::chain::{make_order, make_port};
use crate::trio::{make_component, make_number};
use clock_fraction::Fraction;
use sim_base::{Items, PortId, Text};
use std::alloc::{AllocError, Global};
use system_model::{Component, Feed, Port, Role, System, Timing};
use value_types::{
    ByReference, Causality, ClockTiming, Dependency, IntervalVariability, Knowns, PortType, Shape,
    Variable,
};

fn make_clock(alloc: Global) -> Result<Variable, AllocError>
    ensures { IfOk result (λ v. v ≡ clock) }
{
    Ok(Variable {
        kind: Some(PortType::Clock),
        ..make_number(alloc, "c", 2, Causality::Input, None)?
    })
}

fn make_clocked(alloc: Global) -> Result<Variable, AllocError>
    ensures { IfOk result (λ v. v ≡ clocked) }
{
    Ok(Variable {
        clocks: Items::from_vec(vec![in alloc; 2]?),
        ..make_number(alloc, "u", 5, Causality::Input, None)?
    })
}

// The output depends on nothing.
fn make_dependencies(alloc: Global) -> Result<ByReference<Dependency>, AllocError>
    ensures { IfOk result (λ list. list ≡ record { output = 3; on = Listed [] } ∷ []) }
{
    let dependency = Dependency {
        output: 3,
        on: Knowns::Listed(Items::from_vec(Vec::new(alloc))),
    };
    ByReference::new(alloc, vec![in alloc; dependency]?)
}

fn make_eventful(
    alloc: Global,
    variables: Vec<Variable>,
    clocks: Vec<ClockTiming>,
) -> Result<Shape, AllocError>
    ensures { IfOk result (λ shape. shape ≡ eventful variables.items clocks.items) }
{
    Ok(Shape {
        identifier: Text::from_str(alloc, "example")?,
        token: Text::from_str(alloc, "")?,
        resolution: 1000,
        has_event_mode: true,
        might_return_early: false,
        has_variable_steps: true,
        can_save_state: true,
        can_serialize_state: false,
        dependencies: make_dependencies(alloc)?,
        initial_dependencies: make_dependencies(alloc)?,
        clocks: ByReference::new(alloc, clocks)?,
        variables: ByReference::new(alloc, variables)?,
    })
}

fn each_hundredth() -> ClockTiming
    ensures { result ≡ each_hundredth }
{
    ClockTiming {
        reference: 2,
        variability: IntervalVariability::Constant,
        supports_fraction: false,
        interval: Some(Fraction {
            counter: 1,
            resolution: 100,
        }),
        shift: Some(Fraction {
            counter: 0,
            resolution: 1,
        }),
    }
}

fn make_settling(alloc: Global) -> Result<Component, AllocError>
    ensures { IfOk result (λ c. c ≡ settling) }
{
    let variables = vec![in alloc; make_number(alloc, "y", 3, Causality::Output, None)?]?;
    let shape = make_eventful(alloc, variables, Vec::new(alloc))?;
    make_component(alloc, "settle", 0, shape)
}

fn make_own_variables(alloc: Global) -> Result<Vec<Variable>, AllocError>
    ensures { IfOk result (λ list. list.items ≡ own.shape.variables) }
{
    let mut variables = Vec::new(alloc);
    variables.push(make_clock(alloc)?)?;
    variables.push(make_clocked(alloc)?)?;
    variables.push(make_number(alloc, "y", 3, Causality::Output, None)?)?;
    Ok(variables)
}

fn make_own(alloc: Global) -> Result<Component, AllocError>
    ensures { IfOk result (λ c. c ≡ own) }
{
    let clocks = vec![in alloc; each_hundredth()]?;
    let shape = make_eventful(alloc, make_own_variables(alloc)?, clocks)?;
    make_component(alloc, "own", 1, shape)
}

fn make_clock_port(alloc: Global) -> Result<Port, AllocError>
    ensures { IfOk result (λ port. port ≡ clock_port) }
{
    let timing = Timing::Periodic {
        interval: 10,
        shift: 0,
    };
    Ok(Port {
        kind: PortType::Clock,
        ..make_port(alloc, 1, "c", 2, Role::TimeClock { timing })?
    })
}

fn make_clocked_port(alloc: Global) -> Result<Port, AllocError>
    ensures { IfOk result (λ port. port ≡ clocked_port) }
{
    let feed = Some(Feed::plain(alloc, PortId(0)));
    Ok(Port {
        clocks: Items::from_vec(vec![in alloc; PortId(1)]?),
        ..make_port(alloc, 1, "u", 5, Role::Input { feed })?
    })
}

fn make_components(alloc: Global) -> Result<Items<Component>, AllocError>
    ensures { IfOk result (λ list. list ≡ ticking.components) }
{
    let settling = make_settling(alloc)?;
    let own = make_own(alloc)?;
    Ok(Items::from_vec(vec![in alloc; settling, own]?))
}

fn make_ports(alloc: Global) -> Result<Items<Port>, AllocError>
    ensures { IfOk result (λ list. list ≡ ticking.ports) }
{
    let mut ports = Vec::new(alloc);
    ports.push(make_port(alloc, 0, "y", 3, Role::Output)?)?;
    ports.push(make_clock_port(alloc)?)?;
    ports.push(make_clocked_port(alloc)?)?;
    ports.push(make_port(alloc, 1, "y", 3, Role::Output)?)?;
    Ok(Items::from_vec(ports))
}

/// The system.
pub(crate) fn make_ticking(alloc: Global) -> Result<System, AllocError>
    ensures { IfOk result (λ system. system ≡ ticking) }
{
    Ok(System {
        instant_order: make_order(alloc)?,
        initial_order: Items::from_vec(vec![in alloc; PortId(0), PortId(3)]?),
        ports: make_ports(alloc)?,
        components: make_components(alloc)?,
    })
}
