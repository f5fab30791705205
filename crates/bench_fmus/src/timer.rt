//! The machine `timer`: at its point it arms its countdown Clock, once, and it counts the ticks.
ghost use Rattle.std.specs.Prelude.{◌≡◌};
ghost use Rattle.bench_fmus.specs.Timer.{countdown, is_due, ticked, timed, timer};
ghost use Rattle.bench_fmus.specs.Told.{told, values_in};

use crate::built_in_state::no_fraction;
use crate::wrap::count_of;
use crate::{BuiltInState, Numbers};
use clock_fraction::Fraction;
use fmi_calls::{Call, Interval};
use value_types::Shape;

/// The point, a parameter.
const WHEN: u32 = 1;

/// The Clock, an input.
const CLOCK: u32 = 2;

/// The count of the ticks, an output.
const OUTPUT: u32 = 3;

/// How many counts later the Clock ticks, a parameter.
const WAIT: u32 = 4;

pub(crate) fn shown_value(shape: &Shape, state: &BuiltInState, reference: u32) -> i128
    ensures { result ≡ timer.shown shape.now (told state.now.numbers)
        (values_in shape.now.variables state.now) reference }
{
    state.count_at(shape, OUTPUT, reference)
}

/// The interval of the Clock under a reference.
pub(crate) fn interval(shape: &Shape, state: &BuiltInState, reference: u32) -> Interval
    ensures { result ≡ timer.interval shape.now (told state.now.numbers)
        (values_in shape.now.variables state.now) reference }
{
    if reference == CLOCK {
        countdown(shape, state)
    } else {
        Interval::NotYetKnown
    }
}

fn countdown(shape: &Shape, state: &BuiltInState) -> Interval
    ensures { result ≡ countdown shape.now (told state.now.numbers)
        (values_in shape.now.variables state.now) }
{
    if state.numbers.has_fired {
        Interval::Unchanged(no_fraction())
    } else if is_due(shape, state) {
        Interval::Changed(Fraction {
            counter: count_of(state.value(&shape.variables, WAIT)),
            resolution: shape.resolution,
        })
    } else {
        Interval::NotYetKnown
    }
}

fn is_due(shape: &Shape, state: &BuiltInState) -> bool
    ensures { result ≡ is_due shape.now (told state.now.numbers)
        (values_in shape.now.variables state.now) }
{
    i128::from(state.numbers.point) == state.value(&shape.variables, WHEN)
}

/// The numbers after a call: an instant ends, and with it a tick, or the point at which the Clock was armed.
pub(crate) fn changed_numbers(shape: &Shape, state: &BuiltInState, call: &Call) -> Numbers
    ensures { told result ≡ timed shape.now (told state.now.numbers)
        (values_in shape.now.variables state.now) call.now }
{
    match *call {
        Call::Update => if is_due(shape, state) {
            Numbers {
                has_fired: true,
                ..after_tick(shape, state)
            }
        } else {
            after_tick(shape, state)
        },
        _ => state.numbers,
    }
}

// A tick is counted.
fn after_tick(shape: &Shape, state: &BuiltInState) -> Numbers
    ensures { told result ≡ ticked shape.now (told state.now.numbers)
        (values_in shape.now.variables state.now) }
{
    if state.is_ticking(&shape.variables, CLOCK) {
        state.numbers.one_more()
    } else {
        state.numbers
    }
}
