//! The machine `alarm`: a step over its point ends there, where early return is allowed.
ghost use Rattle.std.specs.Prelude.{◌≡◌, ◌+◌, ◌<◌, ◌^◌};
ghost use Rattle.bench_fmus.specs.Alarm.{alarm, rings, rung, rung_at};
ghost use Rattle.bench_fmus.specs.Told.{told, values_in};

use crate::{BuiltInState, Numbers};
use fmi_calls::Call;
use value_types::Shape;

/// The point, a parameter.
const AT: u32 = 1;

/// The count of the steps that ended there, an output.
const OUTPUT: u32 = 2;

pub(crate) fn shown_value(shape: &Shape, state: &BuiltInState, reference: u32) -> i128
    ensures { result ≡ alarm.shown shape.now (told state.now.numbers)
        (values_in shape.now.variables state.now) reference }
{
    state.count_at(shape, OUTPUT, reference)
}

/// Where a step ends early.
#[inline(never)]
pub(crate) fn early_end(shape: &Shape, state: &BuiltInState, at: u64, size: u64) -> Option<u64>
    requires { at + size < 2 ^ 64 }
    ensures { result ≡ rung_at shape.now (values_in shape.now.variables state.now) at size }
{
    if rings(shape, state, at, size) {
        Some(state.value(&shape.variables, AT) as u64)
    } else {
        None
    }
}

// Whether the point is inside the step, which may end early.
fn rings(shape: &Shape, state: &BuiltInState, at: u64, size: u64) -> bool
    ensures { result ≡ rings shape.now (values_in shape.now.variables state.now) at size }
{
    let point = state.value(&shape.variables, AT);
    shape.might_return_early && i128::from(at) < point && point < i128::from(at) + i128::from(size)
}

/// The numbers after a call: a step that ends early counts.
pub(crate) fn changed_numbers(shape: &Shape, state: &BuiltInState, call: &Call) -> Numbers
    ensures { told result ≡ rung shape.now (told state.now.numbers)
        (values_in shape.now.variables state.now) call.now }
{
    match *call {
        Call::DoStep { at, size } => if rings(shape, state, at, size) {
            state.numbers.one_more()
        } else {
            state.numbers
        },
        _ => state.numbers,
    }
}
