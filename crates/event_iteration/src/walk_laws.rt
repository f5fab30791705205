ghost use Rattle.event_iteration.specs.WalkCalls.{EachCallOnce, LastAloneIsBad};

/// Laws of a walk's log, for any replies: each FMU has its calls for its ports, none of them twice, and which these are;
/// each answer is good, or each but the last.
pub fn walk_calls()
    ensures once { EachCallOnce }
    ensures answers { LastAloneIsBad }
{}
