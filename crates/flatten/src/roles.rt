//! What a port is: an input with its source, an output, or a Clock with its timing.
ghost use Rattle.std.specs.Prelude.{◌≡◌, ◌≢◌, ℕ, ◌<◌, ◌≤◌, ◌^◌, true, Contains, IsSomeAnd};
ghost use Rattle.clock_fraction.specs.Counts.{IsCounts};
ghost use Rattle.clock_fraction.specs.declared.fraction.Fraction as seconds;
ghost use Rattle.value_types.specs.Shape.{is_clock, is_port};
ghost use Rattle.value_types.specs.declared.shape.Causality.TheVariants.{Input};
ghost use Rattle.value_types.specs.declared.shape.IntervalVariability.TheVariants.{Triggered};
ghost use Rattle.value_types.specs.declared.shape.Shape as shapes;
ghost use Rattle.value_types.specs.declared.shape.Variable as variables;
ghost use Rattle.system_model.specs.Shapes.{IsSoundClock, IsSoundShape, is_described};
ghost use Rattle.system_model.specs.Sound.{IsRole, IsTiming};
ghost use Rattle.flatten.specs.Flat.{IsSourceWith};

use clock_fraction::{Fraction, to_counts};
use system_model::{Feed, Role, Timing};
use value_types::{Causality, ClockTiming, IntervalVariability, Shape, Variable};

// The counts of a time that the description tells; the checks of descriptions leave no other.
fn counts(told: Option<Fraction>, resolution: u64) -> u128
    ensures exact { (n : ℕ) → IsSomeAnd told (λ (f : seconds.Fraction). IsCounts f resolution n) →
        result ≡ n }
    ensures within { resolution ≤ 2 ^ 62 → result ≤ 2 ^ 126 }
{
    match told {
        Some(fraction) => to_counts(fraction, resolution).unwrap_or(0),
        None => 0,
    }
}

// The timing of a Clock whose interval the description gives.
fn periodic_timing(clock: &ClockTiming, resolution: u64) -> Timing
    requires above { 0 < resolution }
    requires within { resolution ≤ 2 ^ 62 }
    ensures { (shape : shapes.Shape) (v : variables.Variable) → IsSoundClock shape v clock.now →
        shape.resolution ≡ resolution → is_described clock.now.variability
        clock.now.supports_fraction ≡ true → IsTiming resolution clock.now result }
{
    Timing::Periodic {
        interval: counts(clock.interval, resolution),
        shift: counts(clock.shift, resolution),
    }
}

// The timing of a time-based Clock.
fn timing(clock: &ClockTiming, resolution: u64) -> Timing
    requires above { 0 < resolution }
    requires within { resolution ≤ 2 ^ 62 }
    ensures { (shape : shapes.Shape) (v : variables.Variable) → IsSoundClock shape v clock.now →
        shape.resolution ≡ resolution → clock.now.variability ≢ Triggered →
        IsTiming resolution clock.now result }
{
    match clock.variability {
        IntervalVariability::Countdown => Timing::Countdown,
        IntervalVariability::Changing => Timing::Changing,
        IntervalVariability::Fixed => if clock.supports_fraction {
            Timing::Answered
        } else {
            periodic_timing(clock, resolution)
        },
        IntervalVariability::Constant
        | IntervalVariability::Tunable
        | IntervalVariability::Triggered => periodic_timing(clock, resolution),
    }
}

fn clock_input(shape: &Shape, variable: &Variable, feed: Option<Feed>) -> Role
    requires sound { IsSoundShape shape.now }
    requires above { 0 < shape.now.resolution }
    requires within { shape.now.resolution ≤ 2 ^ 62 }
    requires variable { Contains shape.now.variables variable.now }
    requires input { variable.now.causality ≡ Input }
    requires clock { is_clock variable.now ≡ true }
    ensures role { IsRole shape.now variable.now result }
    ensures source { IsSourceWith shape.now variable.now feed result }
{
    match shape.clocks.find(variable.reference) {
        Some(clock) => match clock.variability {
            IntervalVariability::Triggered => Role::ClockInput { feed },
            _ => Role::TimeClock {
                timing: timing(clock, shape.resolution),
            },
        },
        None => Role::ClockInput { feed },
    }
}

/// The role of an input or output of an FMU, and where it is an input that may be fed, this is its source.
pub(crate) fn role(shape: &Shape, variable: &Variable, feed: Option<Feed>) -> Role
    requires sound { IsSoundShape shape.now }
    requires above { 0 < shape.now.resolution }
    requires within { shape.now.resolution ≤ 2 ^ 62 }
    requires variable { Contains shape.now.variables variable.now }
    requires port { is_port variable.now ≡ true }
    ensures role { IsRole shape.now variable.now result }
    ensures source { IsSourceWith shape.now variable.now feed result }
{
    match (variable.causality == Causality::Input, variable.is_clock()) {
        (true, true) => clock_input(shape, variable, feed),
        (true, false) => Role::Input { feed },
        (false, true) => Role::ClockOutput,
        (false, false) => Role::Output,
    }
}
