ghost use Rattle.step_master.specs.Sessions.{FailedStartIsClosed, HistoriesAreOver, HoldIsSession, ResumedIsSession, RunIsSession};

use course_laws::calls_of_runs;

/// Laws: of a system that was prepared, run, held or resumed, and closed, and of one that couldn't be prepared, the talk of
/// each peer is legal, lean and closed, an Update follows another at one point only where one was asked for or a Clock was
/// armed for the point, the end is told by the first bad answer of the least component, and each peer is over, but for those
/// that are sent nothing more after a Fatal of their source: it was never asked, its instance is gone or lost, or it keeps a
/// state that Free was answered Discard for.
pub fn histories_of_peers()
    ensures run { RunIsSession }
    ensures hold { HoldIsSession }
    ensures rest { ResumedIsSession }
    ensures unmade { FailedStartIsClosed }
    ensures over { HistoriesAreOver }
{
    calls_of_runs();
}
