ghost use Rattle.std.specs.Prelude.{◌≡◌, ◌+◌, ◌<◌, ◌^◌};

use crate::built_in_state::no_fraction;
use crate::{
    BuiltInState, Numbers, alarm, counter, gain, pulse, relay, sampler, settle, timer, waker,
};
use clock_fraction::Fraction;
use fmi_calls::{Call, Interval};
use value_types::{ByReference, Shape, Variable};

/// A built-in machine.
#[derive(Clone, Copy, Debug, PartialEq, Eq)]
pub enum Model {
    Counter,
    Gain,
    Sampler,
    Alarm,
    Timer,
    Relay,
    Settle,
    Pulse,
    Waker,
}

impl Model {
    ghost use Rattle.bench_fmus.specs.Models.{behaviour_of, model_named};
    ghost use Rattle.bench_fmus.specs.Told.{told, values_in};

    /// The machine that a description names as its modelIdentifier.
    pub fn from_identifier(identifier: &str) -> Option<Model>
        ensures { result ≡ model_named identifier.now }
    {
        match identifier {
            "counter" => Some(Model::Counter),
            "gain" => Some(Model::Gain),
            "sampler" => Some(Model::Sampler),
            "alarm" => Some(Model::Alarm),
            "timer" => Some(Model::Timer),
            "relay" => Some(Model::Relay),
            "settle" => Some(Model::Settle),
            "pulse" => Some(Model::Pulse),
            "waker" => Some(Model::Waker),
            _ => None,
        }
    }

    /// What a reference shows, before it is wrapped into its type.
    #[inline(always)]
    pub(crate) fn shown_value(self, shape: &Shape, state: &BuiltInState, reference: u32) -> i128
        ensures { result ≡ (behaviour_of self).shown shape.now (told state.now.numbers)
            (values_in shape.now.variables state.now) reference }
    {
        match self {
            Model::Counter => counter::shown_value(shape, state, reference),
            Model::Gain => gain::shown_value(shape, state, reference),
            Model::Sampler => sampler::shown_value(shape, state, reference),
            Model::Alarm => alarm::shown_value(shape, state, reference),
            Model::Timer => timer::shown_value(shape, state, reference),
            Model::Relay => relay::shown_value(shape, state, reference),
            Model::Settle => settle::shown_value(shape, state, reference),
            Model::Pulse => pulse::shown_value(shape, state, reference),
            Model::Waker => waker::shown_value(shape, state, reference),
        }
    }

    /// Where a step ends early.
    #[inline(always)]
    pub(crate) fn early_end(
        self,
        shape: &Shape,
        state: &BuiltInState,
        at: u64,
        size: u64,
    ) -> Option<u64>
        requires { at + size < 2 ^ 64 }
        ensures { result ≡ (behaviour_of self).early_end shape.now
            (values_in shape.now.variables state.now) at size }
    {
        match self {
            Model::Alarm => alarm::early_end(shape, state, at, size),
            _ => None,
        }
    }

    /// Whether a step of this size asks to end the simulation.
    pub(crate) fn asks_to_end(
        self,
        variables: &ByReference<Variable>,
        state: &BuiltInState,
        size: u64,
    ) -> bool
        ensures { result ≡ (behaviour_of self).asks_to_end variables.now
            (values_in variables.now state.now) size }
    {
        match self {
            Model::Counter => counter::asks_to_end(variables, state, size),
            _ => false,
        }
    }

    /// Whether an update asks for another.
    pub(crate) fn asks_again(self, variables: &ByReference<Variable>, state: &BuiltInState) -> bool
        ensures { result ≡ (behaviour_of self).asks_again variables.now (told state.now.numbers)
            (values_in variables.now state.now) }
    {
        match self {
            Model::Settle => settle::asks_again(variables, state),
            _ => false,
        }
    }

    /// The event time that an update asks for.
    pub(crate) fn event_time(
        self,
        variables: &ByReference<Variable>,
        state: &BuiltInState,
    ) -> Option<u64>
        ensures { result ≡ (behaviour_of self).event_time variables.now (told state.now.numbers)
            (values_in variables.now state.now) }
    {
        match self {
            Model::Waker => waker::event_time(variables, state),
            _ => None,
        }
    }

    /// The interval of the Clock under a reference.
    pub(crate) fn interval(self, shape: &Shape, state: &BuiltInState, reference: u32) -> Interval
        ensures { result ≡ (behaviour_of self).interval shape.now (told state.now.numbers)
            (values_in shape.now.variables state.now) reference }
    {
        match self {
            Model::Sampler => sampler::interval(shape, state, reference),
            Model::Timer => timer::interval(shape, state, reference),
            Model::Pulse => pulse::interval(shape, state, reference),
            _ => Interval::NotYetKnown,
        }
    }

    /// The shift of the Clock under a reference.
    pub(crate) fn shift(self, shape: &Shape, state: &BuiltInState, reference: u32) -> Fraction
        ensures { result ≡ (behaviour_of self).shift shape.now
            (values_in shape.now.variables state.now) reference }
    {
        match self {
            Model::Sampler => sampler::shift(shape, state, reference),
            Model::Pulse => pulse::shift(shape, state, reference),
            _ => no_fraction(),
        }
    }

    /// The numbers after a call, but for the mark of Initialization Mode and the point of time.
    pub(crate) fn changed_numbers(self, shape: &Shape, state: &BuiltInState, call: &Call) -> Numbers
        ensures { told result ≡ (behaviour_of self).changed shape.now (told state.now.numbers)
            (values_in shape.now.variables state.now) call.now }
    {
        match self {
            Model::Counter => counter::changed_numbers(shape, state, call),
            Model::Gain => gain::changed_numbers(shape, state, call),
            Model::Sampler => sampler::changed_numbers(shape, state, call),
            Model::Alarm => alarm::changed_numbers(shape, state, call),
            Model::Timer => timer::changed_numbers(shape, state, call),
            Model::Relay => relay::changed_numbers(shape, state, call),
            Model::Settle => settle::changed_numbers(shape, state, call),
            Model::Pulse => pulse::changed_numbers(shape, state, call),
            Model::Waker => waker::changed_numbers(shape, state, call),
        }
    }
}
