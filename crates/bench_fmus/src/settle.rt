//! The machine `settle`: it asks for some updates in each Event Mode.
ghost use Rattle.std.specs.Prelude.{◌≡◌};
ghost use Rattle.bench_fmus.specs.Settle.{settle, updated};
ghost use Rattle.bench_fmus.specs.Told.{told, values_in};

use crate::{BuiltInState, Numbers};
use fmi_calls::Call;
use value_types::{ByReference, Shape, Variable};

/// How many updates ask for another one, a parameter.
const LIMIT: u32 = 1;

/// The count of the updates, an output.
const OUTPUT: u32 = 2;

pub(crate) fn shown_value(shape: &Shape, state: &BuiltInState, reference: u32) -> i128
    ensures { result ≡ settle.shown shape.now (told state.now.numbers)
        (values_in shape.now.variables state.now) reference }
{
    state.count_at(shape, OUTPUT, reference)
}

pub(crate) fn asks_again(variables: &ByReference<Variable>, state: &BuiltInState) -> bool
    ensures { result ≡ settle.asks_again variables.now (told state.now.numbers)
        (values_in variables.now state.now) }
{
    i128::from(state.numbers.count) < state.value(variables, LIMIT)
}

/// The numbers after a call: an update counts, from EnterEvent on.
pub(crate) fn changed_numbers(_shape: &Shape, state: &BuiltInState, call: &Call) -> Numbers
    ensures { told result ≡ updated _shape.now (told state.now.numbers)
        (values_in _shape.now.variables state.now) call.now }
{
    match *call {
        Call::Update => state.numbers.one_more(),
        Call::EnterEvent => Numbers {
            count: 0,
            ..state.numbers
        },
        _ => state.numbers,
    }
}
