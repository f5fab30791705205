ghost use Rattle.inlined_runs.specs.Shorts.{FixedOnce, LostOnce};
ghost use Rattle.inlined_runs.specs.Twins.{AreFoundAlike, RunAlike, TellAlike, ToldUnknown};

use alike_runs::orders_and_workers_are_free;
use inlined_answers::inlined_answers;
use run_model::{one_next, one_solution, one_trace, situation_laws};

/// A law: where a run of machines ends before a step whose size a component can't take, that is at one point, and the
/// component and the end of that step are the same.
pub fn one_fixed_end()
    ensures { FixedOnce }
{
    one_next();
    one_solution();
    situation_laws();
}

/// A law: where a run of machines loses a value on its way to an input, that is at one point, and the value and the input are
/// the same.
pub fn one_lost_value()
    ensures { LostOnce }
{
    one_next();
    one_solution();
    situation_laws();
}

/// Laws over two calls of the program with the same arguments, the one over documents that stand in one another, the other
/// over one document that says what they say together. Both are to find the same (`found`). Where both do, FMUs that behave
/// well as the same machines give the same status, the same bytes on `out` and the same line on `err`, where nothing fails
/// (`runs`); a model identifier that isn't known is told alike (`unknown`), and so is the size of a system (`sizes`).
pub fn inlined_runs()
    ensures found { AreFoundAlike }
    ensures runs { RunAlike }
    ensures unknown { ToldUnknown }
    ensures sizes { TellAlike }
{
    inlined_answers();
    one_trace();
    orders_and_workers_are_free();
    one_fixed_end();
    one_lost_value();
}
