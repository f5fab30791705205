//! The values of all parameters.
ghost use Rattle.std.specs.Prelude.{IfOk, length};
ghost use Rattle.parameter_binding.specs.Walk.{AreAllValues, AreValues};

use crate::winners::Winners;
use parameter_targets::Target;
use sim_base::Items;
use std::alloc::{AllocError, Global};
use system_model::BoundValue;
use value_types::Shape;

// The values that win for a component of so many variables, in their order.
fn component_values(
    alloc: Global,
    winners: &Winners,
    component: usize,
    variables: usize,
) -> Result<Vec<BoundValue>, AllocError>
    ensures { IfOk result (λ values. AreValues winners.now component variables values.items) }
{
    let mut values = Vec::new(alloc);
    for variable in 0..variables {
        let target = Target {
            component,
            variable,
        };
        if let Some(best) = winners.get(target) {
            values.push(best.value)?;
        }
    }
    Ok(values)
}

/// The values that win, for each component in the order of its description.
pub(crate) fn all_values(
    alloc: Global,
    winners: &Winners,
    shapes: &[Shape],
) -> Result<Items<Items<BoundValue>>, AllocError>
    ensures { IfOk result (AreAllValues shapes.now winners.now (length shapes.now)) }
{
    let mut components = Vec::new(alloc);
    for component in 0..shapes.len() {
        let variables = shapes[component].variables.len();
        components.push(Items::from_vec(component_values(alloc, winners, component, variables)?))?;
    }
    Ok(Items::from_vec(components))
}
