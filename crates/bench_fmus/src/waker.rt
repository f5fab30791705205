//! The machine `waker`: it asks for an event at its point, and counts the updates there.
ghost use Rattle.std.specs.Prelude.{◌≡◌};
ghost use Rattle.bench_fmus.specs.Waker.{waker, waking_time, woken};
ghost use Rattle.bench_fmus.specs.Told.{told, values_in};

use crate::wrap::count_of;
use crate::{BuiltInState, Numbers};
use fmi_calls::Call;
use value_types::{ByReference, Shape, Variable};

/// The point, a parameter.
const AT: u32 = 1;

/// The count of the updates there, an output.
const OUTPUT: u32 = 2;

pub(crate) fn shown_value(shape: &Shape, state: &BuiltInState, reference: u32) -> i128
    ensures { result ≡ waker.shown shape.now (told state.now.numbers)
        (values_in shape.now.variables state.now) reference }
{
    state.count_at(shape, OUTPUT, reference)
}

/// The event time that an update asks for: the point, while it is to come.
pub(crate) fn event_time(variables: &ByReference<Variable>, state: &BuiltInState) -> Option<u64>
    ensures { result ≡ waking_time variables.now (told state.now.numbers)
        (values_in variables.now state.now) }
{
    let point = state.value(variables, AT);
    if i128::from(state.numbers.point) < point {
        Some(count_of(point))
    } else {
        None
    }
}

/// The numbers after a call: an update at the point counts.
pub(crate) fn changed_numbers(shape: &Shape, state: &BuiltInState, call: &Call) -> Numbers
    ensures { told result ≡ woken shape.now (told state.now.numbers)
        (values_in shape.now.variables state.now) call.now }
{
    match *call {
        Call::Update => if i128::from(state.numbers.point) == state.value(&shape.variables, AT) {
            state.numbers.one_more()
        } else {
            state.numbers
        },
        _ => state.numbers,
    }
}
