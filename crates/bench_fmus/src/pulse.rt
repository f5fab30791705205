//! The machine `pulse`: it tells the intervals of its changing Clock, each longer than the one before, and counts the ticks.
ghost use Rattle.std.specs.Prelude.{◌≡◌};
ghost use Rattle.bench_fmus.specs.Pulse.{pulse, pulse_interval, pulse_shift, pulsed};
ghost use Rattle.bench_fmus.specs.Told.{told, values_in};

use crate::built_in_state::no_fraction;
use crate::wrap::count_of;
use crate::{BuiltInState, Numbers};
use clock_fraction::Fraction;
use fmi_calls::{Call, Interval};
use value_types::Shape;

/// The Clock, an input.
const CLOCK: u32 = 1;

/// The first interval in counts, a parameter.
const INTERVAL: u32 = 2;

/// The shift in counts, a parameter.
const SHIFT: u32 = 3;

/// The count of the ticks, an output.
const OUTPUT: u32 = 4;

pub(crate) fn shown_value(shape: &Shape, state: &BuiltInState, reference: u32) -> i128
    ensures { result ≡ pulse.shown shape.now (told state.now.numbers)
        (values_in shape.now.variables state.now) reference }
{
    state.count_at(shape, OUTPUT, reference)
}

/// The interval of the Clock under a reference.
pub(crate) fn interval(shape: &Shape, state: &BuiltInState, reference: u32) -> Interval
    ensures { result ≡ pulse_interval shape.now (told state.now.numbers)
        (values_in shape.now.variables state.now) reference }
{
    if reference == CLOCK {
        let ticks = count_of(i128::from(state.numbers.count));
        Interval::Changed(Fraction {
            counter: ticks.saturating_add(count_of(state.value(&shape.variables, INTERVAL))),
            resolution: shape.resolution,
        })
    } else {
        Interval::NotYetKnown
    }
}

/// The shift of the Clock under a reference.
pub(crate) fn shift(shape: &Shape, state: &BuiltInState, reference: u32) -> Fraction
    ensures { result ≡ pulse_shift shape.now (values_in shape.now.variables state.now) reference }
{
    if reference == CLOCK {
        Fraction {
            counter: count_of(state.value(&shape.variables, SHIFT)),
            resolution: shape.resolution,
        }
    } else {
        no_fraction()
    }
}

/// The numbers after a call: an instant ends, and with it a tick.
pub(crate) fn changed_numbers(shape: &Shape, state: &BuiltInState, call: &Call) -> Numbers
    ensures { told result ≡ pulsed shape.now (told state.now.numbers)
        (values_in shape.now.variables state.now) call.now }
{
    match *call {
        Call::Update => if state.is_ticking(&shape.variables, CLOCK) {
            state.numbers.one_more()
        } else {
            state.numbers
        },
        _ => state.numbers,
    }
}
