ghost use Rattle.machine_courses.specs.Laws.{EarlyHasNone, HeldByLog, HeldWellByLog, RestByLog, RestWellByLog, RunByLog, SnapshotsStand, TraceByLog, UnmadeByLog};

use run_rest::{splits, steps_in_two};

/// Laws: where the replies of a run's log are those of machines, the instants that were put are those of their run so far,
/// however it ended; and where the machines behave well, the text is that of their one trace, but for a call or a put that
/// failed, and each of them is made.
pub fn logs_of_machines()
    ensures run { RunByLog }
    ensures trace { TraceByLog }
    ensures unmade { UnmadeByLog }
{}

/// Laws: where the replies of a held run's log are those of machines, the checkpoint that is put is that of their run's
/// snapshot where it is held, which is where they first come to a point that is done; and a run that is resumed by it puts
/// what is left of their run. Where the machines behave well, and put their states well, nothing but a call or a put that
/// failed breaks either off.
pub fn logs_of_rests()
    ensures held { HeldByLog }
    ensures held_well { HeldWellByLog }
    ensures none { EarlyHasNone }
    ensures stands { SnapshotsStand }
    ensures rest { RestByLog }
    ensures rest_well { RestWellByLog }
{
    splits();
    steps_in_two();
}
