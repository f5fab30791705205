//! The check of a trace: its verdict on `out`, or on `err` why there is none.
ghost use Rattle.std.specs.Prelude.{◌≡◌, ℕ, List};
ghost use Rattle.sim_base.specs.Folder.{FolderView};
ghost use Rattle.command_line.specs.Line.{trace_of};
ghost use Rattle.fmu_peer.specs.Start.{SpawnerView};
ghost use Rattle.run_program.specs.Happened.{happened, outside};
ghost use Rattle.run_program.specs.TraceCheck.{EndsCheck, TellsVerdict, verdict_status};

use crate::message::write_verdict;
use crate::refusing::refuse;
use crate::report::put_line;
use command_line::TraceOptions;
use sim_base::{Folder, Sink};
use std::alloc::Global;
use trace_check::Verdict;
use trace_judging::judge;

/// Puts on `out` whether the trace in a file keeps the rules of the system in a directory, or on `err` why that can't be
/// said, and answers the status: 0 for a trace that keeps them, 1 for one that breaks one.
pub(crate) fn check_trace<F: Folder, O: Sink, E: Sink>(
    alloc: Global,
    options: TraceOptions<'_>,
    folder: &mut F,
    out: &mut O,
    err: &mut E,
) -> u8
    ensures { (words : List (List ℕ)) (spawner : SpawnerView) → EndsCheck (happened words
        (outside (F.view folder.old) spawner (O.view out.old))
        (outside (F.view folder.new) spawner (O.view out.new))
        (E.view err.old) (E.view err.new) result) (trace_of options.entry) }
{
    match judge(alloc, options.directory, options.file, folder) {
        Ok(verdict) => tell_verdict(verdict, out, err),
        Err(end) => refuse(alloc, end).put(err),
    }
}

// Puts a verdict on `out`, and answers its status.
fn tell_verdict<O: Sink, E: Sink>(verdict: Verdict, out: &mut O, err: &mut E) -> u8
    ensures { (words : List (List ℕ)) (old new : FolderView) (spawner : SpawnerView) → TellsVerdict (happened words
        (outside old spawner (O.view out.old)) (outside new spawner (O.view out.new)) (E.view err.old) (E.view err.new) result) verdict }
{
    let mut text = [0u8; 45];
    let length = write_verdict(verdict, &mut text);
    match out.put(&text[..length]) {
        Ok(()) => status_of(verdict),
        Err(_) => put_line(b"write\n", 10, err),
    }
}

fn status_of(verdict: Verdict) -> u8
    ensures { result ≡ verdict_status verdict }
{
    match verdict {
        Verdict::Yes => 0,
        Verdict::No { .. } => 1,
    }
}
