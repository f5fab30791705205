ghost use Rattle.std.specs.Prelude.{◌≡◌, IfOk};
ghost use Rattle.generated_system.specs.Shapes.{dependencies_of, known_to_output, output_reference, shape_of, variable, variables_of};

use crate::drawn::DrawnMachine;
use sim_base::{Items, Text};
use std::alloc::{AllocError, Global};
use value_types::{ByReference, Causality, Dependency, Knowns, PortType, Shape, Variable};

fn variable(
    alloc: Global,
    name: &str,
    reference: u32,
    causality: Causality,
) -> Result<Variable, AllocError>
    ensures { IfOk result (λ v. v ≡ variable name.now reference causality) }
{
    Ok(Variable {
        name: Text::from_str(alloc, name)?,
        aliases: Items::from_vec(Vec::new(alloc)),
        reference,
        kind: Some(PortType::Int32),
        causality,
        clocks: Items::from_vec(Vec::new(alloc)),
        start: Some(0),
        can_be_set_again: true,
    })
}

fn variables(alloc: Global, machine: DrawnMachine) -> Result<Vec<Variable>, AllocError>
    ensures { IfOk result (λ variables. variables.items ≡ variables_of machine) }
{
    match machine {
        DrawnMachine::Counter => counter_variables(alloc),
        DrawnMachine::Gain => gain_variables(alloc),
        DrawnMachine::Alarm => alarm_variables(alloc),
    }
}

fn counter_variables(alloc: Global) -> Result<Vec<Variable>, AllocError>
    ensures { IfOk result (λ variables. variables.items ≡ variables_of DrawnMachine.Counter) }
{
    let mut variables = Vec::new(alloc);
    variables.push(variable(alloc, "inc", 1, Causality::Parameter)?)?;
    variables.push(variable(alloc, "y", 2, Causality::Output)?)?;
    variables.push(variable(alloc, "long", 3, Causality::Parameter)?)?;
    Ok(variables)
}

fn gain_variables(alloc: Global) -> Result<Vec<Variable>, AllocError>
    ensures { IfOk result (λ variables. variables.items ≡ variables_of DrawnMachine.Gain) }
{
    let mut variables = Vec::new(alloc);
    variables.push(variable(alloc, "k", 1, Causality::Parameter)?)?;
    variables.push(variable(alloc, "u", 2, Causality::Input)?)?;
    variables.push(variable(alloc, "y", 3, Causality::Output)?)?;
    Ok(variables)
}

fn alarm_variables(alloc: Global) -> Result<Vec<Variable>, AllocError>
    ensures { IfOk result (λ variables. variables.items ≡ variables_of DrawnMachine.Alarm) }
{
    let point = variable(alloc, "at", 1, Causality::Parameter)?;
    let output = variable(alloc, "y", 2, Causality::Output)?;
    Ok(vec![in alloc; point, output]?)
}

// The value reference of its output.
pub(crate) fn output_reference(machine: DrawnMachine) -> u32
    ensures { result ≡ output_reference machine }
{
    match machine {
        DrawnMachine::Gain => 3,
        _ => 2,
    }
}

// The value references of what its output depends on.
fn known_to_output(alloc: Global, machine: DrawnMachine) -> Result<Vec<u32>, AllocError>
    ensures { IfOk result (λ on. on.items ≡ known_to_output machine) }
{
    match machine {
        DrawnMachine::Gain => Ok(vec![in alloc; 2]?),
        _ => Ok(Vec::new(alloc)),
    }
}

fn dependencies(alloc: Global, machine: DrawnMachine) -> Result<ByReference<Dependency>, AllocError>
    ensures { IfOk result (λ dependencies. dependencies ≡ dependencies_of machine) }
{
    let dependency = Dependency {
        output: output_reference(machine),
        on: Knowns::Listed(Items::from_vec(known_to_output(alloc, machine)?)),
    };
    ByReference::new(alloc, vec![in alloc; dependency]?)
}

/// What the description of a machine says of it, at 1000 counts in a second.
pub(crate) fn shape(alloc: Global, machine: DrawnMachine) -> Result<Shape, AllocError>
    ensures { IfOk result (λ shape. shape ≡ shape_of machine) }
{
    Ok(Shape {
        identifier: Text::from_str(alloc, machine.identifier())?,
        token: Text::from_str(alloc, "")?,
        resolution: 1000,
        has_event_mode: true,
        might_return_early: machine == DrawnMachine::Alarm,
        has_variable_steps: true,
        can_save_state: true,
        can_serialize_state: false,
        clocks: ByReference::new(alloc, Vec::new(alloc))?,
        dependencies: dependencies(alloc, machine)?,
        initial_dependencies: dependencies(alloc, machine)?,
        variables: ByReference::new(alloc, variables(alloc, machine)?)?,
    })
}
