//! The machine `relay`: its Clock ticks where its input has changed, and its output is the input at these ticks.
ghost use Rattle.std.specs.Prelude.{◌≡◌};
ghost use Rattle.bench_fmus.specs.Relay.{differ, passed_on, relayed};
ghost use Rattle.bench_fmus.specs.Told.{told, values_in};

use crate::wrap::wrapping_value;
use crate::{BuiltInState, Numbers};
use fmi_calls::Call;
use value_types::Shape;

/// What is passed on, an input.
const INPUT: u32 = 1;

/// The Clock, an output.
const CLOCK: u32 = 2;

/// The input at the ticks, an output.
const OUTPUT: u32 = 3;

pub(crate) fn shown_value(shape: &Shape, state: &BuiltInState, reference: u32) -> i128
    ensures { result ≡ relayed shape.now (told state.now.numbers)
        (values_in shape.now.variables state.now) reference }
{
    if reference == CLOCK {
        let input = state.seen_by(shape, CLOCK, INPUT);
        let ticks = differ(input, i128::from(state.numbers.held));
        if ticks { 1 } else { 0 }
    } else if reference == OUTPUT {
        state.seen_by(shape, OUTPUT, INPUT)
    } else {
        state.value(&shape.variables, reference)
    }
}

// Whether the words of 64 bits of two numbers differ.
fn differ(a: i128, b: i128) -> bool
    ensures { result ≡ differ a b }
{
    wrapping_value(a) != wrapping_value(b)
}

/// The numbers after a call: the input is held where an instant ends.
pub(crate) fn changed_numbers(shape: &Shape, state: &BuiltInState, call: &Call) -> Numbers
    ensures { told result ≡ passed_on shape.now (told state.now.numbers)
        (values_in shape.now.variables state.now) call.now }
{
    match *call {
        Call::Update => Numbers {
            held: wrapping_value(state.value(&shape.variables, INPUT)),
            ..state.numbers
        },
        _ => state.numbers,
    }
}
