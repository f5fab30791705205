ghost use Rattle.system_checkpoint.specs.Plans.{BeginsWithPlan, BreaksAtOne, CountsSeconds, HasOnePlan, LacksAtOne};

/// Laws of plans: bytes begin with one plan, within its limits, a checkpoint with that of what it keeps, and bytes that begin with none, or are
/// no checkpoint, break off at one byte.
pub fn plan_laws()
    ensures one { HasOnePlan }
    ensures counts { CountsSeconds }
    ensures begins { BeginsWithPlan }
    ensures lacks { LacksAtOne }
    ensures breaks { BreaksAtOne }
{}
