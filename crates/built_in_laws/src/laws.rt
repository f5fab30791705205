ghost use Rattle.built_in_laws.specs.BuiltInBytes.{BuiltInsReadBack};
ghost use Rattle.built_in_laws.specs.BuiltInRuns.{BuiltInsAnswerWell, BuiltInsBehaveWell};
ghost use Rattle.built_in_laws.specs.Clocks.{TellsOfNoClocks};

use bench_fmus::states_read_back;
use run_rest::lasting_reads_back;

/// Laws: a built-in machine answers each call of a run well but those for the intervals and shifts of Clocks; and so,
/// where it can tell these, it behaves well along each run of a sound system, as one FMU among any others. It can where
/// the description has no Clocks.
pub fn built_in_runs()
    ensures answers { BuiltInsAnswerWell }
    ensures behaves { BuiltInsBehaveWell }
    ensures unclocked { TellsOfNoClocks }
{}

/// A law: where a run may be held, the states of a built-in FMU are those that their bytes are read back as.
pub fn built_ins_read_back()
    ensures { BuiltInsReadBack }
{
    lasting_reads_back();
    states_read_back();
}
