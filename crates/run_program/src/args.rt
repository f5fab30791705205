ghost use Rattle.std.specs.Prelude.{◌≡◌, drop, IfErr, IfOk};
ghost use Rattle.std.specs.IoError.{error_kind};
ghost use Rattle.std.specs.Vec.Iter.{into_iter_items};
ghost use Rattle.command_line.specs.Line.{texts};
ghost use Rattle.run_program.specs.Given.{ungiven_outcome};
ghost use Rattle.run_program.specs.Happened.{happened, outside};
ghost use Rattle.run_program.specs.Message.{Reports, message, status_of};
ghost use Rattle.run_program.specs.TraceCheck.{KeepsRows};

use crate::report::Report;
use crate::run::run_words;
use built_in_laws::built_in_runs;
use fmu_peer::Spawner;
use sim_base::{Folder, Sink};
use std::alloc::{AllocError, Global};
use std::env::Args;
use std::io::{self, ErrorKind};
use std::thread::Threads;

/// Does what the arguments say that the host gives, the program's name first, and answers the program's status. Where the host
/// can't give one, as where it isn't UTF-8, they are no command line.
pub fn run_args<R: Threads + Sync, F: Folder, S: Spawner, O: Sink, E: Sink>(
    rt: &R,
    alloc: Global,
    args: io::Result<Args>,
    folder: &mut F,
    spawner: &mut S,
    out: &mut O,
    err: &mut E,
) -> u8
    ensures given { IfOk args (λ given. KeepsRows (happened (texts (drop 1 (into_iter_items given)))
        (outside (F.view folder.old) (S.view spawner.old) (O.view out.old))
        (outside (F.view folder.new) (S.view spawner.new) (O.view out.new))
        (E.view err.old) (E.view err.new) result)) }
    ensures same { IfErr args (λ error. outside (F.view folder.new) (S.view spawner.new) (O.view out.new)
        ≡ outside (F.view folder.old) (S.view spawner.old) (O.view out.old)) }
    ensures ungiven { IfErr args (λ error. let outcome = ungiven_outcome (error_kind error) in
        Reports (message outcome) (status_of outcome) result (E.view err.old) (E.view err.new)) }
{
    built_in_runs();
    match args {
        Ok(given) => match words_after(alloc, given) {
            Ok(words) => run_words(rt, alloc, &words, folder, spawner, out, err),
            Err(_) => Report::memory(alloc).put(err),
        },
        Err(error) => report_ungiven(alloc, &error).put(err),
    }
}

// The arguments after the program's name.
fn words_after(alloc: Global, given: Args) -> Result<Vec<String>, AllocError>
    ensures { IfOk result (λ words. words.items ≡ drop 1 (into_iter_items given)) }
{
    given.skip(1).collect(alloc)
}

fn report_ungiven(alloc: Global, error: &io::Error) -> Report
    ensures { result.outcome ≡ ungiven_outcome (error_kind error.now) }
{
    match error.kind() {
        ErrorKind::OutOfMemory => Report::memory(alloc),
        _ => Report::words(alloc),
    }
}
