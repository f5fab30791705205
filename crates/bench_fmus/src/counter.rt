//! The machine `counter`: each step adds its increment to a count, which is its output.
ghost use Rattle.std.specs.Prelude.{◌≡◌};
ghost use Rattle.bench_fmus.specs.Counter.{counted, counter};
ghost use Rattle.bench_fmus.specs.Told.{told, values_in};

use crate::wrap::wrapping_sum;
use crate::{BuiltInState, Numbers};
use fmi_calls::Call;
use value_types::{ByReference, Shape, Variable};

/// What a step adds, a parameter.
const INCREMENT: u32 = 1;

/// The count, an output.
const OUTPUT: u32 = 2;

/// The size from which a step asks to end the simulation, a parameter; none does where it isn't above 0.
const LONG: u32 = 3;

#[inline(always)]
pub(crate) fn shown_value(shape: &Shape, state: &BuiltInState, reference: u32) -> i128
    ensures { result ≡ counter.shown shape.now (told state.now.numbers)
        (values_in shape.now.variables state.now) reference }
{
    state.count_at(shape, OUTPUT, reference)
}

pub(crate) fn asks_to_end(
    variables: &ByReference<Variable>,
    state: &BuiltInState,
    size: u64,
) -> bool
    ensures { result ≡ counter.asks_to_end variables.now (values_in variables.now state.now) size }
{
    let long = state.value(variables, LONG);
    0 < long && long <= i128::from(size)
}

/// The numbers after a call: a step counts.
pub(crate) fn changed_numbers(shape: &Shape, state: &BuiltInState, call: &Call) -> Numbers
    ensures { told result ≡ counted shape.now (told state.now.numbers)
        (values_in shape.now.variables state.now) call.now }
{
    match *call {
        Call::DoStep { .. } => Numbers {
            count: wrapping_sum(
                state.numbers.count,
                state.value(&shape.variables, INCREMENT),
            ),
            ..state.numbers
        },
        _ => state.numbers,
    }
}
