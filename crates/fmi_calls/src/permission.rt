ghost use Rattle.std.specs.Prelude.{◌≡◌, ◌↔◌, IsTrue, IsSomeAnd, Some};
ghost use Rattle.std.specs.List.{list_any};
ghost use Rattle.fmi_calls.specs.Permission.{Permitted, IsReadable, IsWritable, can_be_read, can_be_set, can_be_ticked, can_go_back, counts_down, has_causality, has_interval, has_shift, is_answered, is_changed, is_input_clock, is_marked, is_of_point, is_output_clock, is_accessible, is_timed};
ghost use Rattle.value_types.specs.Shape.{IsOutput, is_at, is_input, is_parameter, is_unclocked, variable_at};

use crate::{Call, InstanceState, Marks, Phase, SavedPhase};
use value_types::{Causality, IntervalVariability, PortType, Shape, fits};

fn is_readable(shape: &Shape, kind: PortType, reference: u32) -> bool
    ensures { IsTrue result ↔ IsReadable shape.now kind reference }
{
    kind != PortType::Clock && is_output(shape, kind, reference)
}

fn is_output(shape: &Shape, kind: PortType, reference: u32) -> bool
    ensures { IsTrue result ↔ IsOutput shape.now kind reference }
{
    match shape.variables.find(reference) {
        Some(variable) => variable.kind == Some(kind) && variable.causality == Causality::Output,
        None => false,
    }
}

fn is_writable(shape: &Shape, kind: PortType, reference: u32) -> bool
    ensures { IsTrue result ↔ IsWritable shape.now kind reference }
{
    kind != PortType::Clock && is_of_type(shape, kind, reference)
}

fn is_of_type(shape: &Shape, kind: PortType, reference: u32) -> bool
    ensures { IsTrue result ↔ IsSomeAnd (variable_at shape.now.variables reference)
        (λ v. v.kind ≡ Some kind) }
{
    match shape.variables.find(reference) {
        Some(variable) => variable.kind == Some(kind),
        None => false,
    }
}

fn is_unclocked(shape: &Shape, reference: u32) -> bool
    ensures { result ≡ is_at is_unclocked shape.now.variables reference }
{
    match shape.variables.find(reference) {
        Some(variable) => variable.is_unclocked(),
        None => false,
    }
}

fn is_parameter(shape: &Shape, reference: u32) -> bool
    ensures { result ≡ has_causality is_parameter shape.now reference }
{
    match shape.variables.find(reference) {
        Some(variable) => variable.is_parameter(),
        None => false,
    }
}

fn is_input(shape: &Shape, reference: u32) -> bool
    ensures { result ≡ has_causality is_input shape.now reference }
{
    match shape.variables.find(reference) {
        Some(variable) => variable.causality == Causality::Input,
        None => false,
    }
}

fn is_marked(shape: &Shape, marks: &Marks, reference: u32) -> bool
    ensures { result ≡ is_marked shape.now marks.now reference }
{
    match shape.variables.place_of(reference) {
        Some(place) => marks.has(place),
        None => false,
    }
}

// Whether it has no Clocks, or one of them is active.
fn is_accessible(shape: &Shape, active: &Marks, reference: u32) -> bool
    ensures { result ≡ is_at (is_accessible shape.now active.now) shape.now.variables reference }
{
    match shape.variables.find(reference) {
        Some(variable) => {
            variable.is_unclocked() || is_any_marked(shape, active, variable.clocks.as_slice())
        }
        None => false,
    }
}

fn is_any_marked(shape: &Shape, marks: &Marks, references: &[u32]) -> bool
    ensures { result ≡ list_any (is_marked shape.now marks.now) references.now }
{
    references
        .iter()
        .any(|reference| is_marked(shape, marks, *reference))
}

fn is_input_clock(shape: &Shape, reference: u32) -> bool
    ensures { result ≡ is_at is_input_clock shape.now.variables reference }
{
    match shape.variables.find(reference) {
        Some(variable) => variable.is_input_port() && variable.is_clock(),
        None => false,
    }
}

fn is_output_clock(shape: &Shape, reference: u32) -> bool
    ensures { result ≡ is_at is_output_clock shape.now.variables reference }
{
    match shape.variables.find(reference) {
        Some(variable) => variable.is_output_port() && variable.is_clock(),
        None => false,
    }
}

fn can_be_set_active(phase: &Phase, shape: &Shape, reference: u32) -> bool
    ensures { result ≡ can_be_ticked is_input_clock phase.now.state shape.now phase.now.marks
        reference }
{
    phase.state == InstanceState::Event
        && is_input_clock(shape, reference)
        && !is_marked(shape, &phase.marks, reference)
}

fn can_be_asked(phase: &Phase, shape: &Shape, reference: u32) -> bool
    ensures { result ≡ can_be_ticked is_output_clock phase.now.state shape.now phase.now.marks
        reference }
{
    phase.state == InstanceState::Event
        && is_output_clock(shape, reference)
        && !is_marked(shape, &phase.marks, reference)
}

// Whether its interval and shift are answered.
fn is_answered(shape: &Shape, reference: u32) -> bool
    ensures { result ≡ is_timed is_answered shape.now reference }
{
    is_input_clock(shape, reference)
        && match shape.clocks.find(reference) {
            Some(clock) => {
                clock.variability == IntervalVariability::Fixed && clock.supports_fraction
            }
            None => false,
        }
}

fn counts_down(shape: &Shape, reference: u32) -> bool
    ensures { result ≡ is_timed counts_down shape.now reference }
{
    is_input_clock(shape, reference)
        && match shape.clocks.find(reference) {
            Some(clock) => clock.variability == IntervalVariability::Countdown,
            None => false,
        }
}

fn is_changed(shape: &Shape, reference: u32) -> bool
    ensures { result ≡ is_timed is_changed shape.now reference }
{
    is_input_clock(shape, reference)
        && match shape.clocks.find(reference) {
            Some(clock) => clock.variability == IntervalVariability::Changing,
            None => false,
        }
}

fn has_interval(phase: &Phase, shape: &Shape, reference: u32) -> bool
    ensures { result ≡ has_interval phase.now.state shape.now phase.now.active reference }
{
    match phase.state {
        InstanceState::Initialization => is_answered(shape, reference),
        InstanceState::Event => {
            counts_down(shape, reference)
                || (is_changed(shape, reference) && is_marked(shape, &phase.active, reference))
        }
        _ => false,
    }
}

fn has_shift(phase: &Phase, shape: &Shape, reference: u32) -> bool
    ensures { result ≡ has_shift phase.now.state shape.now reference }
{
    phase.state == InstanceState::Initialization
        && (is_answered(shape, reference) || is_changed(shape, reference))
}

fn can_be_read(phase: &Phase, shape: &Shape, reference: u32) -> bool
    ensures { result ≡ can_be_read phase.now.state shape.now phase.now.marks phase.now.active
        reference }
{
    match phase.state {
        InstanceState::Initialization => is_unclocked(shape, reference),
        InstanceState::Event => is_accessible(shape, &phase.active, reference),
        InstanceState::Step => !shape.has_event_mode && !phase.marks.any(),
        _ => false,
    }
}

fn can_be_set(phase: &Phase, shape: &Shape, reference: u32) -> bool
    ensures { result ≡ can_be_set phase.now.state shape.now phase.now.marks phase.now.active
        reference }
{
    match phase.state {
        InstanceState::Instantiated => is_parameter(shape, reference),
        InstanceState::Initialization => is_input(shape, reference)
            && is_unclocked(shape, reference),
        InstanceState::Event => {
            is_input(shape, reference)
                && is_accessible(shape, &phase.active, reference)
                && !is_marked(shape, &phase.marks, reference)
        }
        InstanceState::Step => {
            is_input(shape, reference)
                && !shape.has_event_mode
                && !is_marked(shape, &phase.marks, reference)
        }
        _ => false,
    }
}

fn is_of_point(slot: &SavedPhase, point: u64) -> bool
    ensures { result ≡ is_of_point slot.now point }
{
    !slot.is_full || slot.point == point
}

// Whether a state that is saved may be gone back to.
fn can_go_back(state: InstanceState) -> bool
    ensures { result ≡ can_go_back state }
{
    match state {
        InstanceState::Step | InstanceState::Instantiated => true,
        _ => false,
    }
}

/// Whether the phase permits a call.
pub fn permitted(shape: &Shape, phase: &Phase, call: &Call) -> bool
    ensures { IsTrue result ↔ Permitted shape.now phase.now call.now }
{
    match *call {
        Call::Instantiate {
            event_mode,
            early_return,
            batches: _,
        } => {
            phase.state == InstanceState::Fresh
                && event_mode == shape.has_event_mode
                && early_return == shape.might_return_early
        }
        Call::EnterInitialization { start, stop } => {
            phase.state == InstanceState::Instantiated && start <= stop
        }
        Call::ExitInitialization => phase.state == InstanceState::Initialization,
        Call::EnterEvent => {
            phase.state == InstanceState::Step && shape.has_event_mode && !phase.slot.is_full
        }
        Call::EnterStep => phase.state == InstanceState::Event && phase.settled,
        Call::Update => phase.state == InstanceState::Event,
        Call::DoStep { at, size } => {
            phase.state == InstanceState::Step
                && at == phase.point
                && 0 < size
                && at <= phase.stop
                && size <= phase.stop - at
                && (shape.has_variable_steps || phase.first_size.unwrap_or(size) == size)
                && is_of_point(&phase.slot, phase.point)
        }
        Call::Get { kind, reference } => {
            can_be_read(phase, shape, reference) && is_readable(shape, kind, reference)
        }
        Call::Set {
            kind,
            reference,
            value,
        } => {
            can_be_set(phase, shape, reference)
                && is_writable(shape, kind, reference)
                && fits(kind, value)
        }
        Call::Save => {
            phase.state == InstanceState::Step && shape.can_save_state && !phase.slot.is_full
        }
        Call::Restore | Call::Free => {
            can_go_back(phase.state) && shape.can_save_state && phase.slot.is_full
        }
        Call::Serialize => {
            phase.state == InstanceState::Step && shape.can_serialize_state && phase.slot.is_full
        }
        Call::Deserialize { point, stop, .. } => {
            phase.state == InstanceState::Instantiated
                && shape.can_serialize_state
                && !phase.slot.is_full
                && point <= stop
        }
        Call::Terminate => phase.state.is_running() && !phase.slot.is_full,
        Call::FreeInstance => phase.state.can_be_freed(phase.slot.is_full),
        Call::GetClock { reference } => can_be_asked(phase, shape, reference),
        Call::SetClock { reference } => can_be_set_active(phase, shape, reference),
        Call::GetInterval { reference } => has_interval(phase, shape, reference),
        Call::GetShift { reference } => has_shift(phase, shape, reference),
    }
}
