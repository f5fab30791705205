ghost use Rattle.std.specs.Prelude.{◌≡◌, option_copied, length, true, false, replicate};
ghost use Rattle.fmi_calls.specs.Permission.{Permitted};
ghost use Rattle.fmi_calls.specs.Next.{HasMarks, next_of, entered, end_of, is_tick, state_after_bad, restored_state, restores_after, marked, marks_after_set, running_state, settles};

use crate::{BadStatus, Call, Content, Grade, InstanceState, Marks, Phase, Reply, grade};
use value_types::Shape;

/// Goes on to the phase after a call, with its reply or with none at a fault. It allocates no memory.
pub fn next_phase(shape: &Shape, phase: &mut Phase, call: &Call, reply: Option<&Reply>)
    requires permitted { Permitted shape.now phase.old call.now }
    requires room { HasMarks shape.now phase.old }
    ensures next { phase.new ≡ next_of shape.now phase.old call.now (option_copied reply.entry) }
    ensures room { HasMarks shape.now phase.new }
{
    phase.exchanges = phase.exchanges.saturating_add(1);
    phase.restores = restores_after(phase.restores, call);
    let Some(reply) = reply else {
        phase.state = InstanceState::Lost;
        return;
    };
    match grade(shape, phase, call, reply) {
        Grade::Good => enter(shape, phase, call, reply),
        Grade::Refused => {
            phase.state = state_after_bad(phase.state, call, reply.bad_status());
        }
        Grade::Misreply => {
            phase.state = state_after_bad(phase.state, call, BadStatus::Error);
        }
    }
}

fn restores_after(restores: u64, call: &Call) -> u64
    ensures { result ≡ restores_after restores call.now }
{
    match call {
        Call::Restore => restores.saturating_add(1),
        _ => restores,
    }
}

fn end_of(reply: &Reply, point: u64) -> u64
    ensures { result ≡ end_of reply.now point }
{
    match reply {
        Reply::Done {
            content: Content::DoStep { end, .. },
            ..
        } => *end,
        _ => point,
    }
}

// Where Initialization Mode leads.
fn running_state(shape: &Shape) -> InstanceState
    ensures { result ≡ running_state shape.now }
{
    if shape.has_event_mode {
        InstanceState::Event
    } else {
        InstanceState::Step
    }
}

// Whether the reply to an Update asks for no other.
fn settles(reply: &Reply) -> bool
    ensures { result ≡ settles reply.now }
{
    match reply {
        Reply::Done {
            content: Content::Update { again, .. },
            ..
        } => !*again,
        _ => false,
    }
}

// Whether the answer to GetClock is that the Clock is active.
fn is_tick(reply: &Reply) -> bool
    ensures { result ≡ is_tick reply.now }
{
    match reply {
        Reply::Done {
            content: Content::GetClock { word },
            ..
        } => *word == 1,
        _ => false,
    }
}

// Where a good reply leads.
fn enter(shape: &Shape, phase: &mut Phase, call: &Call, reply: &Reply)
    requires { HasMarks shape.now phase.old }
    ensures next { phase.new ≡ entered shape.now phase.old call.now reply.now }
    ensures room { HasMarks shape.now phase.new }
{
    match *call {
        Call::Instantiate { .. } => phase.state = InstanceState::Instantiated,
        Call::EnterInitialization { start, stop } => {
            phase.state = InstanceState::Initialization;
            phase.point = start;
            phase.stop = stop;
        }
        Call::ExitInitialization => {
            phase.state = running_state(shape);
            phase.settled = false;
        }
        Call::EnterEvent => {
            phase.state = InstanceState::Event;
            phase.settled = false;
            phase.marks.clear();
        }
        Call::EnterStep => phase.state = InstanceState::Step,
        Call::Update => {
            phase.settled = settles(reply);
            phase.marks.clear();
            phase.active.clear();
        }
        Call::DoStep { size, .. } => {
            phase.point = end_of(reply, phase.point);
            phase.first_size = Some(phase.first_size.unwrap_or(size));
            phase.marks.clear();
        }
        Call::Set { reference, .. } => {
            mark_after_set(phase.state, shape, &mut phase.marks, reference);
        }
        Call::GetClock { reference } => {
            mark(shape, &mut phase.marks, reference);
            if is_tick(reply) {
                mark(shape, &mut phase.active, reference);
            }
        }
        Call::SetClock { reference } => {
            mark(shape, &mut phase.marks, reference);
            mark(shape, &mut phase.active, reference);
        }
        Call::Save => save(phase),
        Call::Restore => restore(phase),
        Call::Free => phase.slot.is_full = false,
        Call::Deserialize { point, stop, .. } => fill(phase, point, stop),
        Call::Terminate => phase.state = InstanceState::Terminated,
        Call::FreeInstance => phase.state = InstanceState::Gone,
        Call::Get { .. } | Call::GetInterval { .. } | Call::GetShift { .. } | Call::Serialize => {}
    }
}

fn mark_after_set(state: InstanceState, shape: &Shape, marks: &mut Marks, reference: u32)
    requires { length marks.old ≡ length shape.now.variables }
    ensures marks { marks.new ≡ marks_after_set state shape.now marks.old reference }
    ensures room { length marks.new ≡ length shape.now.variables }
{
    match state {
        InstanceState::Event | InstanceState::Step => mark(shape, marks, reference),
        _ => {}
    }
}

fn mark(shape: &Shape, marks: &mut Marks, reference: u32)
    requires { length marks.old ≡ length shape.now.variables }
    ensures marks { marks.new ≡ marked shape.now marks.old reference }
    ensures room { length marks.new ≡ length shape.now.variables }
{
    match shape.variables.place_of(reference) {
        Some(place) => marks.mark(place),
        None => {}
    }
}

fn save(phase: &mut Phase)
    requires { length phase.old.marks ≡ length phase.old.slot.marks }
    ensures { phase.new ≡ record phase.old
        { slot = record { is_full = true; point = phase.old.point; marks = phase.old.marks } } }
{
    phase.slot.is_full = true;
    phase.slot.point = phase.point;
    phase.slot.marks.copy_from(&phase.marks);
}

// The slot has the state of a point, without marks.
fn fill(phase: &mut Phase, point: u64, stop: u64)
    ensures { phase.new ≡ record phase.old {
      stop = stop;
      slot = record { is_full = true; point = point; marks = replicate (length phase.old.slot.marks) false };
    } }
{
    phase.stop = stop;
    phase.slot.is_full = true;
    phase.slot.point = point;
    phase.slot.marks.clear();
}

// Where a Restore leads: the run that is resumed is in Step Mode.
fn restored_state(state: InstanceState) -> InstanceState
    ensures { result ≡ restored_state state }
{
    match state {
        InstanceState::Instantiated => InstanceState::Step,
        _ => state,
    }
}

fn restore(phase: &mut Phase)
    requires { length phase.old.marks ≡ length phase.old.slot.marks }
    ensures { phase.new ≡ record phase.old {
      state = restored_state phase.old.state;
      point = phase.old.slot.point;
      marks = phase.old.slot.marks;
    } }
{
    phase.state = restored_state(phase.state);
    phase.point = phase.slot.point;
    phase.marks.copy_from(&phase.slot.marks);
}

// Where a bad reply leads.
fn state_after_bad(state: InstanceState, call: &Call, status: BadStatus) -> InstanceState
    ensures { result ≡ state_after_bad state call.now status }
{
    match (call, status) {
        (Call::FreeInstance, _) => InstanceState::Gone,
        (_, BadStatus::Fatal) => InstanceState::Lost,
        (Call::Instantiate { .. }, _) => InstanceState::Gone,
        (_, BadStatus::Error) => InstanceState::Dead,
        (_, BadStatus::Discard) => state,
    }
}
