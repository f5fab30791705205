//! What the program's call promises, over a body that is that call: the wrong bodies of `must-fail/` stand in its place.
ghost use Rattle.command_line.specs.Line.{texts};
ghost use Rattle.run_model.specs.Laws.{OneTrace};
ghost use Rattle.run_program.specs.Happened.{happened, outside};
ghost use Rattle.run_program.specs.TraceCheck.{KeepsRows};

use fmu_peer::Spawner;
use run_program::run_words;
use sim_base::{Folder, Sink};
use std::alloc::Global;
use std::thread::Threads;

/// Does what the arguments of a command line say, as `run_words` of `run_program`, and answers the program's status.
pub fn answer_words<R: Threads + Sync, F: Folder, S: Spawner, O: Sink, E: Sink>(
    rt: &R,
    alloc: Global,
    words: &[String],
    folder: &mut F,
    spawner: &mut S,
    out: &mut O,
    err: &mut E,
) -> u8
    ensures rows { KeepsRows (happened (texts words.now)
        (outside (F.view folder.old) (S.view spawner.old) (O.view out.old))
        (outside (F.view folder.new) (S.view spawner.new) (O.view out.new))
        (E.view err.old) (E.view err.new) result) }
    ensures one { OneTrace }
{
    run_words(rt, alloc, words, folder, spawner, out, err)
}
