ghost use Rattle.held_laws.specs.BuiltIns.{BuiltInsKeep};
ghost use Rattle.held_laws.specs.Laws.{AsksOn, ResumesFromBytes, StepsOn};

use built_in_laws::{built_in_runs, built_ins_read_back};
use run_rest::{bytes_read_back, resumption};

/// A law: each step of a run that behaves well leads on, and not past the stop.
pub fn steps_within()
    ensures { StepsOn }
{}

/// A law: where FMUs behave well and their states are read back from their bytes, a run that is resumed with what was kept
/// writes exactly what the run that was held writes after the instants before.
pub fn resumes_from_bytes()
    ensures { ResumesFromBytes }
{
    steps_within();
    bytes_read_back();
    resumption();
}

/// A law: no step of a run that behaves well asks an FMU for a point past the stop.
pub fn asks_within()
    ensures { AsksOn }
{}

/// A law: built-in FMUs that can tell what they are asked of their Clocks, and whose states have at most 2^20 bytes, behave
/// well, and put their states as bytes, read them back and take them in, wherever their run is held.
pub fn built_ins_keep()
    ensures { BuiltInsKeep }
{
    asks_within();
    built_in_runs();
    built_ins_read_back();
}
