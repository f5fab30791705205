//! The machine `sampler`: its output is its input, at the ticks of its Clock.
ghost use Rattle.std.specs.Prelude.{◌≡◌};
ghost use Rattle.bench_fmus.specs.Sampler.{sampled, sampler, sampling_interval, sampling_shift};
ghost use Rattle.bench_fmus.specs.Told.{told, values_in};

use crate::built_in_state::no_fraction;
use crate::wrap::wrapping_value;
use crate::{BuiltInState, Numbers};
use clock_fraction::Fraction;
use fmi_calls::{Call, Interval};
use value_types::Shape;

/// The Clock, an input.
const CLOCK: u32 = 1;

/// What is sampled, an input.
const INPUT: u32 = 2;

/// The sample, an output.
const OUTPUT: u32 = 3;

/// Over the resolution the interval in seconds, a parameter.
const INTERVAL: u32 = 4;

/// A parameter.
const RESOLUTION: u32 = 5;

/// Over the resolution the shift in seconds, a parameter.
const SHIFT: u32 = 6;

pub(crate) fn shown_value(shape: &Shape, state: &BuiltInState, reference: u32) -> i128
    ensures { result ≡ sampler.shown shape.now (told state.now.numbers)
        (values_in shape.now.variables state.now) reference }
{
    if reference == OUTPUT {
        state.seen_by(shape, OUTPUT, INPUT)
    } else {
        state.value(&shape.variables, reference)
    }
}

/// The interval of the Clock under a reference.
pub(crate) fn interval(shape: &Shape, state: &BuiltInState, reference: u32) -> Interval
    ensures { result ≡ sampling_interval shape.now (told state.now.numbers)
        (values_in shape.now.variables state.now) reference }
{
    if reference == CLOCK {
        Interval::Changed(state.fraction_at(&shape.variables, INTERVAL, RESOLUTION))
    } else {
        Interval::NotYetKnown
    }
}

/// The shift of the Clock under a reference.
pub(crate) fn shift(shape: &Shape, state: &BuiltInState, reference: u32) -> Fraction
    ensures { result ≡ sampling_shift shape.now (values_in shape.now.variables state.now)
        reference }
{
    if reference == CLOCK {
        state.fraction_at(&shape.variables, SHIFT, RESOLUTION)
    } else {
        no_fraction()
    }
}

/// The numbers after a call: the input is held where an instant ends at which the Clock ticks.
pub(crate) fn changed_numbers(shape: &Shape, state: &BuiltInState, call: &Call) -> Numbers
    ensures { told result ≡ sampled shape.now (told state.now.numbers)
        (values_in shape.now.variables state.now) call.now }
{
    match *call {
        Call::Update => if state.is_ticking(&shape.variables, CLOCK) {
            Numbers {
                held: wrapping_value(state.value(&shape.variables, INPUT)),
                ..state.numbers
            }
        } else {
            state.numbers
        },
        _ => state.numbers,
    }
}
