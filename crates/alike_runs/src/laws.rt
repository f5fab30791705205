ghost use Rattle.alike_runs.specs.Alike.{BehaveAlike, HeldAlike, PutsAlike, ReadBackAlike, TakesAlike, TraceAlike};

/// Laws: runs that differ in the orders of their ports and in the number of workers alone have the same trace, can be held in
/// the same places, and have their states read back alike; their FMUs behave well together, with their states as bytes too.
pub fn orders_and_workers_are_free()
    ensures trace { TraceAlike }
    ensures behaved { BehaveAlike }
    ensures held { HeldAlike }
    ensures read_back { ReadBackAlike }
    ensures puts { PutsAlike }
    ensures takes { TakesAlike }
{}
