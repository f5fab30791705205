ghost use Rattle.checked_runs.specs.TwoParts.{BuiltInsGoInParts, RunsInParts};

use held_laws::{built_ins_keep, steps_within};
use run_model::one_trace;
use run_rest::{splits, steps_in_two};
use system_checkpoint::{checkpoint_laws, plan_laws};

/// A law over three calls of the program, `run`, `checkpoint` and `resume`, over the same files and FMUs that answer well: where
/// the run comes to a step from a first point on, `checkpoint` writes the checkpoint there, with status 0, and each `resume` of
/// it what `run` wrote after its last instant at that point, with its status, for any numbers of workers. Else `checkpoint`
/// writes the end line of the run alone, with its status. Each of both may run out of memory instead, and writes nothing then (`parts`).
/// What is asked of FMUs holds of built-in machines (`built_in`).
pub fn runs_in_parts()
    ensures parts { RunsInParts }
    ensures built_in { BuiltInsGoInParts }
{
    one_trace();
    steps_within();
    splits();
    steps_in_two();
    checkpoint_laws();
    plan_laws();
    built_ins_keep();
}
