//! FMUs whose answers are those of a list of exchanges.
ghost use Rattle.std.specs.Prelude.{◌≡◌, IfOk};
ghost use Rattle.fmi_calls.specs.declared.phase.InstanceState.TheVariants as P;

use bench_fmus::{Script, Scripts};
use fmu_peer::{Exchange, Spawner, StartFault};
use sim_base::{Items, Text};
use std::alloc::{AllocError, Global};
use std::process::Abort;
use value_types::{ByReference, Causality, PortType, Shape, Variable};

fn make_variable(
    alloc: Global,
    name: &str,
    reference: u32,
    causality: Causality,
) -> Result<Variable, AllocError> {
    Ok(Variable {
        name: Text::from_str(alloc, name)?,
        aliases: Items::from_vec(Vec::new(alloc)),
        reference,
        kind: Some(PortType::Int32),
        causality,
        clocks: Items::from_vec(Vec::new(alloc)),
        start: None,
        can_be_set_again: true,
    })
}

static VARIABLES: [(&str, u32, Causality); 3] = [
    ("u", 1, Causality::Input),
    ("y", 2, Causality::Output),
    ("p", 3, Causality::Parameter),
];

fn make_variables(alloc: Global) -> Result<ByReference<Variable>, AllocError> {
    let mut variables = Vec::new(alloc);
    for row in &VARIABLES {
        let (name, reference, causality) = *row;
        variables.push(make_variable(alloc, name, reference, causality)?)?;
    }
    ByReference::new(alloc, variables)
}

// An FMU that may return early, without event mode and without variable steps.
pub(crate) fn make_shape(alloc: Global) -> Result<Shape, AllocError> {
    Ok(Shape {
        identifier: Text::from_str(alloc, "counter")?,
        token: Text::from_str(alloc, "{1}")?,
        resolution: 1000,
        has_event_mode: false,
        might_return_early: true,
        has_variable_steps: false,
        can_save_state: true,
        can_serialize_state: false,
        clocks: ByReference::new(alloc, Vec::new(alloc))?,
        dependencies: ByReference::new(alloc, Vec::new(alloc))?,
        initial_dependencies: ByReference::new(alloc, Vec::new(alloc))?,
        variables: make_variables(alloc)?,
    })
}

// An FMU before its first call.
pub(crate) fn start<S: Spawner>(
    rt: &impl Abort,
    alloc: Global,
    spawner: &mut S,
) -> Result<S::Link, StartFault>
    ensures { IfOk result (λ link. (S.Link.view link).phase.state ≡ P.Fresh) }
{
    let Ok(shape) = make_shape(alloc) else {
        return Err(StartFault::Memory);
    };
    assert!(rt; shape.token.as_str().len() <= 1 << 24);
    spawner.start(alloc, "host", "c", "fmus/c", &shape)
}

fn script_list(alloc: Global, talk: &[Exchange]) -> Result<Scripts, AllocError> {
    let mut answers = Vec::new(alloc);
    for exchange in talk {
        answers.push(exchange.result)?;
    }
    let lists = vec![in alloc; Items::from_vec(answers)]?;
    Ok(Scripts::new(alloc, lists, Vec::new(alloc)))
}

// An FMU that gives these answers.
pub(crate) fn make_script(
    rt: &impl Abort,
    alloc: Global,
    talk: &[Exchange],
) -> Result<Script, StartFault>
    ensures { IfOk result (λ script. script.book.phase.state ≡ P.Fresh) }
{
    let Ok(mut scripts) = script_list(alloc, talk) else {
        return Err(StartFault::Memory);
    };
    start(rt, alloc, &mut scripts)
}
