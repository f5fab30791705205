ghost use Rattle.checked_runs.specs.Laws.{LongTracesAreTold, RunsAreChecked};

use trace_laws::traces_keep_rules;
use trace_reading::texts_of_traces;

/// Laws over two calls of the program: what a run of machines that behave well wrote, put into a file and checked over the
/// same files, gives `yes` with status 0, or out of memory, where no count rises (`whole`); and where the file is past its
/// limit, that it is too long, or out of memory (`long`).
pub fn runs_are_checked()
    ensures whole { RunsAreChecked }
    ensures long { LongTracesAreTold }
{
    traces_keep_rules();
    texts_of_traces();
}
