ghost use Rattle.event_iteration.specs.ByLog.{FixedByLog, InitialByLog, InstantByLog, IntervalsByLog, SetsByLog, UpdatesByLog};

/// Laws of the log of one part of a run, where each reply is its machine's: the values found are the solution of the
/// part's equations, the timers that the answers tell are those of the run, the answers to Updates say what those of the
/// machines say, and the machines come to the states after the part.
pub fn parts_of_machines()
    ensures initial { InitialByLog }
    ensures fixed { FixedByLog }
    ensures instant { InstantByLog }
    ensures intervals { IntervalsByLog }
    ensures updates { UpdatesByLog }
    ensures sets { SetsByLog }
{}
