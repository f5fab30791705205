//! Which calls are permitted, what replies are worth, and the phase after a call.
ghost use Rattle.std.specs.Prelude.{◌≡◌, ◌↔◌, IsTrue, option_copied};
ghost use Rattle.fmi_calls.specs.Next.{HasMarks, next_of};
ghost use Rattle.fmi_calls.specs.Permission.{Permitted};
ghost use Rattle.fmi_calls.specs.Worth.{grade_of};

use fmi_calls::{Call, Grade, Phase, Reply, grade, next_phase, permitted};
use value_types::Shape;

/// Whether the phase permits a call.
pub fn is_permitted(shape: &Shape, phase: &Phase, call: &Call) -> bool
    ensures { IsTrue result ↔ Permitted shape.now phase.now call.now }
{
    permitted(shape, phase, call)
}

/// The worth of a reply to a call that the phase permits.
pub fn worth_of(shape: &Shape, phase: &Phase, call: &Call, reply: &Reply) -> Grade
    ensures { result ≡ grade_of shape.now call.now reply.now }
{
    grade(shape, phase, call, reply)
}

/// Goes on to the phase after a call, with its reply or with none at a fault.
pub fn go_on(shape: &Shape, phase: &mut Phase, call: &Call, reply: Option<&Reply>)
    requires permitted { Permitted shape.now phase.old call.now }
    requires room { HasMarks shape.now phase.old }
    ensures next { phase.new ≡ next_of shape.now phase.old call.now (option_copied reply.entry) }
    ensures room { HasMarks shape.now phase.new }
{
    next_phase(shape, phase, call, reply);
}
