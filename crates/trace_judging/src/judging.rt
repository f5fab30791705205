ghost use Rattle.std.specs.Prelude.{◌≡◌, ◌+◌, ◌<◌, ◌^◌, IfErr, IfOk, length};
ghost use Rattle.system_files.specs.Order.{search_of};
ghost use Rattle.trace_reading.specs.Form.{IsTrace};
ghost use Rattle.trace_judging.specs.Judging.{Gives, IsVerdict, Judged, LacksVerdict};
ghost use Rattle.trace_judging.specs.Steps.{JudgesTrace, LacksTraceVerdict};

use sim_base::Folder;
use std::alloc::Global;
use system_files::{LoadError, Subject, load, read_file};
use trace_check::{Verdict, check, laws_of_checks};
use trace_reading::{Trace, TraceFault, read_trace, texts_of_traces};

/// Reads the trace in a file, then the system in a directory with the trace's resolution, and answers whether the trace
/// keeps the rules of the system, or its first line that breaks one; a line out of form breaks rule 1, and then the system
/// isn't read. Or a file that isn't taken, and why: the trace's file, or one of the system's.
pub fn judge<F: Folder>(
    alloc: Global,
    directory: &str,
    file: &str,
    folder: &mut F,
) -> Result<Verdict, LoadError>
    ensures ok { IfOk result
        (λ verdict. Judged (record { directory = directory.now; file = file.now }) (Gives verdict)
        (F.view folder.old) (F.view folder.new)) }
    ensures err { IfErr result
        (λ end. LacksVerdict (record { directory = directory.now; file = file.now }) end
        (F.view folder.old) (F.view folder.new)) }
{
    texts_of_traces();
    match read_file(alloc, file, folder) {
        Ok(bytes) => match read_trace(alloc, bytes.as_slice()) {
            Ok(trace) => judge_trace(alloc, directory, &trace, folder),
            Err(TraceFault::Line(line)) => Ok(Verdict::No { line, rule: 1 }),
            Err(TraceFault::Memory) => Err(LoadError::Memory),
        },
        Err(end) => Err(end),
    }
}

// The same once the trace is read.
fn judge_trace<F: Folder>(
    alloc: Global,
    directory: &str,
    trace: &Trace,
    folder: &mut F,
) -> Result<Verdict, LoadError>
    requires form { IsTrace trace.now }
    requires lines { length trace.now.ports + length trace.now.lines + 2 < 2 ^ 64 }
    ensures ok { IfOk result
        (λ verdict. JudgesTrace (search_of Subject.System directory.now trace.now.resolution)
        trace.now verdict (F.view folder.old) (F.view folder.new)) }
    ensures err { IfErr result
        (λ end. LacksTraceVerdict (search_of Subject.System directory.now trace.now.resolution) end
        (F.view folder.old) (F.view folder.new)) }
{
    match load(alloc, Subject::System, directory, trace.resolution, folder) {
        Ok(loaded) => {
            laws_of_checks();
            match check(alloc, &loaded.system, trace) {
                Ok(verdict) => Ok(verdict),
                Err(_) => Err(LoadError::Memory),
            }
        }
        Err(end) => Err(end),
    }
}
