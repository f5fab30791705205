ghost use Rattle.std.specs.Prelude.{◌≡◌, is_some};
ghost use Rattle.fmi_calls.specs.Worth.{grade_of, has_counts, is_countdown_interval, is_interval, is_known_interval, is_step_end, is_valid, variability_at};
ghost use Rattle.value_types.specs.Values.{word_value};

use crate::{Call, Content, Grade, Interval, Phase, Reply};
use clock_fraction::{Fraction, to_counts};
use value_types::{IntervalVariability, PortType, Shape, from_word};

/// Whether what a reply with OK or Warning carries is what the call may get, in any phase that permits the call.
#[inline(always)]
pub fn valid(shape: &Shape, _phase: &Phase, call: &Call, content: &Content) -> bool
    ensures { result ≡ is_valid shape.now call.now content.now }
{
    match (*call, *content) {
        (
            Call::DoStep { at, size },
            Content::DoStep {
                event_needed: _,
                terminate: _,
                early,
                end,
            },
        ) => is_step_end(shape, at, size, early, end),
        (Call::Get { kind, reference: _ }, Content::Get { word }) => is_word(kind, word),
        (
            Call::Instantiate {
                event_mode: _,
                early_return: _,
                batches: asked,
            },
            Content::Instantiate { batches: agreed },
        ) => asked || !agreed,
        (Call::EnterInitialization { .. }, Content::EnterInitialization) => true,
        (Call::ExitInitialization, Content::ExitInitialization) => true,
        (Call::EnterEvent, Content::EnterEvent) => true,
        (Call::EnterStep, Content::EnterStep) => true,
        (Call::Update, Content::Update { .. }) => true,
        (Call::Set { .. }, Content::Set) => true,
        (Call::GetClock { .. }, Content::GetClock { word }) => word <= 1,
        (Call::SetClock { .. }, Content::SetClock) => true,
        (Call::GetInterval { reference }, Content::GetInterval { interval }) => {
            is_interval(variability_at(shape, reference), interval, shape.resolution)
        }
        (Call::GetShift { .. }, Content::GetShift { shift }) => {
            has_counts(0, shift, shape.resolution)
        }
        (Call::Save, Content::Save) => true,
        (Call::Restore, Content::Restore) => true,
        (Call::Free, Content::Free) => true,
        (Call::Serialize, Content::Serialize { .. }) => true,
        (Call::Deserialize { .. }, Content::Deserialize) => true,
        (Call::Terminate, Content::Terminate) => true,
        (Call::FreeInstance, Content::FreeInstance) => true,
        (_, _) => false,
    }
}

fn is_step_end(shape: &Shape, at: u64, size: u64, early: bool, end: u64) -> bool
    ensures { result ≡ is_step_end shape.now at size early end }
{
    at < end
        && end - at <= size
        && early == (end - at < size)
        && (shape.might_return_early || !early)
}

fn is_word(kind: PortType, word: u64) -> bool
    ensures { result ≡ is_some (word_value kind word) }
{
    from_word(kind, word).is_some()
}

#[inline(never)]
fn variability_at(shape: &Shape, reference: u32) -> Option<IntervalVariability>
    ensures { result ≡ variability_at shape.now reference }
{
    match shape.clocks.find(reference) {
        Some(clock) => Some(clock.variability),
        None => None,
    }
}

#[inline(never)]
fn is_interval(
    variability: Option<IntervalVariability>,
    interval: Interval,
    resolution: u64,
) -> bool
    ensures { result ≡ is_interval variability interval resolution }
{
    match variability {
        Some(IntervalVariability::Countdown) => is_countdown_interval(interval, resolution),
        _ => is_known_interval(interval, resolution),
    }
}

fn is_countdown_interval(interval: Interval, resolution: u64) -> bool
    ensures { result ≡ is_countdown_interval interval resolution }
{
    match interval {
        Interval::NotYetKnown | Interval::Unchanged(_) => true,
        Interval::Changed(fraction) => has_counts(0, fraction, resolution),
    }
}

fn is_known_interval(interval: Interval, resolution: u64) -> bool
    ensures { result ≡ is_known_interval interval resolution }
{
    match interval {
        Interval::NotYetKnown => false,
        Interval::Unchanged(fraction) | Interval::Changed(fraction) => {
            has_counts(1, fraction, resolution)
        }
    }
}

// Whether a fraction of a second is a whole number of counts, and at least so many.
#[inline(never)]
fn has_counts(least: u128, fraction: Fraction, resolution: u64) -> bool
    ensures { result ≡ has_counts least fraction resolution }
{
    match to_counts(fraction, resolution) {
        Some(counts) => least <= counts,
        None => false,
    }
}

/// The worth of a reply to a call that the phase permits.
#[inline(always)]
pub fn grade(shape: &Shape, phase: &Phase, call: &Call, reply: &Reply) -> Grade
    ensures { result ≡ grade_of shape.now call.now reply.now }
{
    match reply {
        Reply::Done { content, .. } => {
            if valid(shape, phase, call, content) {
                Grade::Good
            } else {
                Grade::Misreply
            }
        }
        Reply::Refused { kind, .. } => {
            if *kind == call.kind() {
                Grade::Refused
            } else {
                Grade::Misreply
            }
        }
    }
}
