ghost use Rattle.session_laws.specs.Traced.{ToldFailedStart, ToldHeld, ToldHeldWell, ToldNone, ToldRest, ToldRestWell, ToldRun, ToldTrace};

use machine_courses::{logs_of_machines, logs_of_rests};

/// Laws: where the peers tell machines, the instants that were put are those of their run, and where the machines behave
/// well, the text is that of their trace, but for a call or a put that failed. Of a run that was held the checkpoint is that
/// of their run's snapshot where it first comes to a point that is done, and one that is resumed with it, by the same plan
/// but for the workers and the link, puts what is left of their run; each but for a call or a put that failed, where the
/// machines behave well, and put and take in their states well.
pub fn runs_of_machines()
    ensures run { ToldRun }
    ensures trace { ToldTrace }
    ensures unmade { ToldFailedStart }
    ensures held { ToldHeld }
    ensures held_well { ToldHeldWell }
    ensures none { ToldNone }
    ensures rest { ToldRest }
    ensures rest_well { ToldRestWell }
{
    logs_of_machines();
    logs_of_rests();
}
