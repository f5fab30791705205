//! FMUs whose answers are those of a list of exchanges.
ghost use Rattle.std.specs.Prelude.{◌≡◌, IfOk};
ghost use Rattle.fmi_calls.specs.declared.phase.InstanceState.TheVariants as P;

use bench_fmus::{Script, Scripts};
use fmi_calls::Call;
use fmu_peer::{Exchange, Spawner, StartFault};
use sim_base::{Items, Text};
use std::alloc::{AllocError, Global};
use std::process::Abort;
use value_types::{ByReference, Shape};

// An FMU without variables and without event mode, which takes steps of any size.
fn make_shape(alloc: Global, might_return_early: bool) -> Result<Shape, AllocError> {
    Ok(Shape {
        identifier: Text::from_str(alloc, "script")?,
        token: Text::from_str(alloc, "{1}")?,
        resolution: 1000,
        has_event_mode: false,
        might_return_early,
        has_variable_steps: true,
        can_save_state: true,
        can_serialize_state: false,
        variables: ByReference::new(alloc, Vec::new(alloc))?,
        clocks: ByReference::new(alloc, Vec::new(alloc))?,
        dependencies: ByReference::new(alloc, Vec::new(alloc))?,
        initial_dependencies: ByReference::new(alloc, Vec::new(alloc))?,
    })
}

fn start<S: Spawner>(
    rt: &impl Abort,
    alloc: Global,
    might_return_early: bool,
    spawner: &mut S,
) -> Result<S::Link, StartFault>
    ensures { IfOk result (λ link. (S.Link.view link).phase.state ≡ P.Fresh) }
{
    let Ok(shape) = make_shape(alloc, might_return_early) else {
        return Err(StartFault::Memory);
    };
    assert!(rt; shape.token.as_str().len() <= 1 << 24);
    spawner.start(alloc, "host", "c", "fmus/c", &shape)
}

fn script_list(alloc: Global, talk: &[Exchange]) -> Result<Scripts, AllocError> {
    let mut answers = Vec::new(alloc);
    for exchange in talk {
        answers.push(exchange.result)?;
    }
    let lists = vec![in alloc; Items::from_vec(answers)]?;
    Ok(Scripts::new(alloc, lists, Vec::new(alloc)))
}

// Whether the FMU with this talk might return early: it was made so.
fn might_return_early(talk: &[Exchange]) -> bool {
    match talk.first() {
        Some(made) => matches!(
            made.call,
            Call::Instantiate {
                early_return: true,
                ..
            }
        ),
        None => false,
    }
}

/// An FMU that gives these answers.
pub(crate) fn make_script(
    rt: &impl Abort,
    alloc: Global,
    talk: &[Exchange],
) -> Result<Script, StartFault>
    ensures { IfOk result (λ script. script.book.phase.state ≡ P.Fresh) }
{
    let Ok(mut scripts) = script_list(alloc, talk) else {
        return Err(StartFault::Memory);
    };
    start(rt, alloc, might_return_early(talk), &mut scripts)
}
