//! A trace as a table.
ghost use Rattle.std.specs.Prelude.{◌≡◌, ◌++◌, ℕ, List, [], Some, Err, OnOk};
ghost use Rattle.trace_stream.specs.Reading.{IsFaultAt};
ghost use Rattle.trace_export.specs.declared.fault.ViewFault.TheVariants.{Line};
ghost use Rattle.trace_export.specs.Columns.{forms_in};
ghost use Rattle.trace_export.specs.Tables.{written, TellsEach};

use sim_base::Sink;
use std::alloc::Global;
use std::io::BufRead;
use trace_export::{Output, RealPort, ViewFault, write_table};

/// Writes a trace as a table: a header, and a row for each instant, or with `last` for the last instant at each point.
pub fn tell_table<B: BufRead + Drop, S: Sink>(
    alloc: Global,
    input: B,
    reals: &[RealPort],
    last: bool,
    out: &mut Output<S>,
) -> Result<(), ViewFault>
    ensures rows { OnOk result ((bytes before : List ℕ) →
        B.remaining input ≡ Some bytes → written S.view out.old ≡ Some before →
        (header : List ℕ) ×
        TellsEach (forms_in reals.now) last bytes (before ++ header) (written S.view out.new)) }
    ensures fault { (n : ℕ) (bytes : List ℕ) → result ≡ Err (Line n) →
        B.remaining input ≡ Some bytes → IsFaultAt bytes n }
{
    write_table(alloc, input, reals, last, out)
}
