ghost use Rattle.std.specs.Prelude.{◌≡◌, IfOk};
ghost use Rattle.generated_system.specs.Generated.{component_of};

use crate::drawn::DrawnMachine;
use crate::shapes::shape;
use sim_base::{PartedText, Text};
use std::alloc::{AllocError, Global};
use system_model::Component;

/// The component with a number.
pub(crate) fn component(
    alloc: Global,
    number: usize,
    machine: DrawnMachine,
) -> Result<Component, AllocError>
    ensures { IfOk result (λ c. c ≡ component_of number machine) }
{
    let name = Text::from_string(format!(in alloc; "b{number}")?);
    Ok(Component {
        name: PartedText::from_text(alloc, name)?,
        source: machine.source(),
        shape: shape(alloc, machine)?,
    })
}
