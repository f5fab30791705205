ghost use Rattle.run_model.specs.AlwaysWell.{AlwaysBehaves, TimedBehaves};
ghost use Rattle.run_model.specs.Laws.{BeginsInSituation, OneNext, OneTrace, ReachesSituations, ReadsFitting, SolvedByFitting, SolvedByFittingInitially, SolvedOnce, SolvedOnceInitially, StepsToSituation, UpdatesToSituation};
ghost use Rattle.run_model.specs.Plain.{KeepsPlainTraces};
ghost use Rattle.run_model.specs.Walk.{AllAtLast, AllAtLastInitially, KeepsBeside, LooksInMidst, LooksInitially, NothingAtFirst, PresentByNeeds, ValueByNeeds, WritesAtPort};

/// A law: two traces of one sound system, its machines and a plan are equal.
pub fn one_trace()
    ensures { OneTrace }
{}

/// A law: a sound system without transformations has the trace in which each input has its source's value and nothing is lost,
/// and no other.
pub fn plain_traces()
    ensures { KeepsPlainTraces }
{}

/// A law: an instant leads to one thing at most, to an end or to one situation.
pub fn one_next()
    ensures { OneNext }
{}

/// Laws on the equations of a sound system: those of an instant have exactly one solution, and so have those of
/// Initialization Mode.
pub fn one_solution()
    ensures instant { SolvedOnce }
    ensures initially { SolvedOnceInitially }
{}

/// Laws on the situations of a run: it begins in one, and each instant and each step leads to one.
pub fn situation_laws()
    ensures beginning { BeginsInSituation }
    ensures instant { UpdatesToSituation }
    ensures step { StepsToSituation }
    ensures along { ReachesSituations }
{}

/// Laws on types: each value that is read, and each of a solution, is one of its port's type.
pub fn type_laws()
    ensures read { ReadsFitting }
    ensures instant { SolvedByFitting }
    ensures initially { SolvedByFittingInitially }
{}

/// Laws on the midst of an instant, where some ports were taken in their order: what is written then, what outputs show,
/// and that a port's value is about what it needs.
pub fn walk_laws()
    ensures first { NothingAtFirst }
    ensures written { WritesAtPort }
    ensures beside { KeepsBeside }
    ensures last { AllAtLast }
    ensures last_initially { AllAtLastInitially }
    ensures looks { LooksInMidst }
    ensures looks_initially { LooksInitially }
    ensures present { PresentByNeeds }
    ensures value { ValueByNeeds }
{}

/// Laws: a machine that answers each call of a run well in each of its states behaves well as one FMU of any run,
/// whatever the others do; and so does one that answers those for the intervals and shifts of Clocks well only where the
/// run sends them.
pub fn always_behaves()
    ensures always { AlwaysBehaves }
    ensures timed { TimedBehaves }
{}
