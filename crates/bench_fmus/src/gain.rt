//! The machine `gain`: its output is its input times a factor.
ghost use Rattle.std.specs.Prelude.{◌≡◌};
ghost use Rattle.value_types.specs.Shape.{is_at, is_input};
ghost use Rattle.bench_fmus.specs.Gain.{factor, gain, holding, product};
ghost use Rattle.bench_fmus.specs.Told.{told, values_in};
ghost use Rattle.bench_fmus.specs.Wrapping.{wrapped_int64};

use crate::wrap::{wrapping_product, wrapping_value};
use crate::{BuiltInState, Numbers};
use fmi_calls::Call;
use value_types::{ByReference, Causality, Shape, Variable};

/// The factor, a parameter or an input.
const FACTOR: u32 = 1;

/// What is multiplied, an input.
const INPUT: u32 = 2;

/// The product, an output.
const OUTPUT: u32 = 3;

pub(crate) fn shown_value(shape: &Shape, state: &BuiltInState, reference: u32) -> i128
    ensures { result ≡ gain.shown shape.now (told state.now.numbers)
        (values_in shape.now.variables state.now) reference }
{
    if reference == OUTPUT {
        i128::from(product(shape, state))
    } else {
        state.value(&shape.variables, reference)
    }
}

fn product(shape: &Shape, state: &BuiltInState) -> i64
    ensures { result ≡ product shape.now (told state.now.numbers)
        (values_in shape.now.variables state.now) }
{
    wrapping_product(factor(shape, state), state.seen_by(shape, OUTPUT, INPUT))
}

fn factor(shape: &Shape, state: &BuiltInState) -> i128
    ensures { result ≡ factor shape.now (told state.now.numbers)
        (values_in shape.now.variables state.now) }
{
    if is_input_at(&shape.variables, FACTOR) {
        state.seen_by(shape, OUTPUT, FACTOR)
    } else {
        state.value(&shape.variables, FACTOR)
    }
}

fn is_input_at(variables: &ByReference<Variable>, reference: u32) -> bool
    ensures { result ≡ is_at (λ v. is_input v.causality) variables.now reference }
{
    match variables.find(reference) {
        Some(variable) => variable.causality == Causality::Input,
        None => false,
    }
}

/// The numbers after a call: the input is held where time goes on.
pub(crate) fn changed_numbers(shape: &Shape, state: &BuiltInState, call: &Call) -> Numbers
    ensures { told result ≡ holding shape.now (told state.now.numbers)
        (values_in shape.now.variables state.now) call.now }
{
    match *call {
        Call::ExitInitialization | Call::Update | Call::DoStep { .. } => Numbers {
            held: wrapping_value(state.value(&shape.variables, INPUT)),
            ..state.numbers
        },
        _ => state.numbers,
    }
}
