ghost use Rattle.run_rest.specs.Laws.{BytesReadBack, HeldOnce, Joins, LastingReadsBack, OneRest, Resumes, Resumption, Splits, StepsInTwo};

use run_model::{one_next, one_solution, one_trace, situation_laws, type_laws};

/// A law: a step is EnterStep and what is done from Step Mode on.
pub fn steps_in_two()
    ensures { StepsInTwo }
{}

/// A law: a trace that comes to a step is the instants before it and a rest.
pub fn splits()
    ensures { Splits }
{
    one_next();
    one_solution();
    situation_laws();
}

/// A law: each rest makes the instants before it a trace.
pub fn joins()
    ensures { Joins }
{}

/// A law: where a run is held, one rest is left.
pub fn one_rest()
    ensures { OneRest }
{
    one_trace();
}

/// A law: from a point on a run is held in one way at most.
pub fn held_once()
    ensures { HeldOnce }
{
    one_next();
    one_solution();
    situation_laws();
}

/// A law: a run that is resumed with the snapshot has the rest of the run that was held, and no other.
pub fn resumes()
    ensures { Resumes }
{}

/// A law: what a run that is resumed writes is what the run that was held writes after the instants before.
pub fn resumption()
    ensures { Resumption }
{
    one_trace();
}

/// A law: the states that a snapshot keeps are those that their bytes are read back as.
pub fn bytes_read_back()
    ensures { BytesReadBack }
{
    situation_laws();
}

/// A law: a packing that reads back each state that passes a test reads back the states of an FMU in a run, where its
/// first state passes the test and each change that a run makes keeps that.
pub fn lasting_reads_back()
    ensures { LastingReadsBack }
{
    situation_laws();
    type_laws();
}
