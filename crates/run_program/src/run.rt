ghost use Rattle.std.specs.Prelude.{◌≡◌, ◌+◌, ◌<◌, ◌≤◌, IfErr, IfOk, length, map};
ghost use Rattle.command_line.specs.Line.{IsWithin, Line, run_of, texts};
ghost use Rattle.fmu_peer.specs.Start.{SpawnerView};
ghost use Rattle.run_model.specs.Laws.{OneTrace};
ghost use Rattle.sim_base.specs.Sink.{SinkView};
ghost use Rattle.calling_sequence.specs.Plans.{CountsBy};
ghost use Rattle.system_model.specs.Bounds.{BindsParameters};
ghost use Rattle.system_model.specs.declared.system.System.{System};
ghost use Rattle.run_program.specs.Bench.{RanFacts};
ghost use Rattle.run_program.specs.Facts.{CheckFacts, LineFacts, StartFacts, task_of};
ghost use Rattle.run_program.specs.Requests.{IsRequestOf, KeepsCounts};
ghost use Rattle.run_program.specs.Happened.{happened, outside, scene};
ghost use Rattle.run_program.specs.Peers.{AreKnown, AreMade, AreStarted, StartsEach, StartsUpTo, with_all_started};
ghost use Rattle.run_program.specs.TraceCheck.{KeepsRows};
ghost use Rattle.run_program.specs.Runs.{CanRun, HasFolders, Task, named_in, names_of};

use crate::bench::run_bench;
use crate::held::{hold_run, resume_run};
use crate::message::write_size;
use crate::naming::Naming;
use crate::outcome::{Numbers, StartCause};
use crate::peers::{Unstarted, retire_each, start_each};
use crate::refusing::refuse;
use crate::report::Report;
use crate::request::{SystemRequest, request_of};
use crate::trace_verdict::check_trace;
use built_in_laws::built_in_runs;
use command_line::{Options, Request, WordsFault, read_words};
use fmu_peer::{Spawner, StartFault};
use generated_system::{call_counts, counted_talks};
use run_model::one_trace;
use session_laws::runs_of_machines;
use sim_base::{Folder, Sink, Text};
use std::alloc::Global;
use std::thread::Threads;
use step_master::{Master, PrepareEnd, PrepareFault, RunEnd, histories_of_peers};
use system_files::{Loaded, load};
use system_model::{Bound, System};

/// Does what the arguments of a command line say, and answers the program's status.
///
/// `run DIR --resolution R --step H --stop T [--start S] [--workers W] [--max-iterations N] [--link L] [--host PROGRAM]` reads
/// the description of the system in a directory and those of its FMUs, runs them from their first calls to their closing, and
/// puts the trace on `out`; `one` does so with the FMU that is described there. PROGRAM is started as the host of each FMU;
/// without `--host` the FMUs are built-in machines. R, H, T and S are counts: R of them are one second, and the run goes from
/// S (0 by default) to T by steps of H. A point has at most N instants (100 by default), and W threads make the calls of a
/// step (1 by default). With `--link 2` hosts that take batches are sent several reads or writes in one.
/// `check DIR --resolution R` puts the size of the system on `out`, `trace-check DIR FILE` whether the trace in a file keeps
/// the rules of that system, and `bench SEED N` the numbers of the run of a generated system of N components. At each status
/// but 0 and 1 one line is put on `err`.
///
/// `checkpoint DIR .. --at P` runs a system as `run` does, but puts no trace: at the first point from P on, before the stop,
/// it puts what is kept of the run on `out`, or its end line where it ends before. `resume DIR FILE [--workers W] [--link L]
/// [--host PROGRAM]` goes on from that, and puts what `run` puts after that point.
pub fn run_words<R: Threads + Sync, F: Folder, S: Spawner, O: Sink, E: Sink>(
    rt: &R,
    alloc: Global,
    words: &[String],
    folder: &mut F,
    spawner: &mut S,
    out: &mut O,
    err: &mut E,
) -> u8
    ensures rows { KeepsRows (happened (texts words.now)
        (outside (F.view folder.old) (S.view spawner.old) (O.view out.old))
        (outside (F.view folder.new) (S.view spawner.new) (O.view out.new))
        (E.view err.old) (E.view err.new) result) }
    ensures one { OneTrace }
{
    one_trace();
    built_in_runs();
    match read_words(alloc, words) {
        Ok(Request::System(line)) => {
            run_request(rt, alloc, request_of(line), folder, spawner, out).put(err)
        }
        Ok(Request::TraceCheck(options)) => check_trace(alloc, options, folder, out, err),
        Ok(Request::Bench(options)) => run_bench(rt, alloc, options, spawner, out).put(err),
        Ok(Request::Checkpoint(options)) => {
            hold_run(rt, alloc, options, folder, spawner, out).put(err)
        }
        Ok(Request::Resume(options)) => {
            resume_run(rt, alloc, options, folder, spawner, out, err)
        }
        Err(WordsFault::NoLine) => Report::words(alloc).put(err),
        Err(WordsFault::Memory) => Report::memory(alloc).put(err),
    }
}

// Loads what a request names, and runs it, or tells its size where no run is asked for.
fn run_request<R: Threads + Sync, F: Folder, S: Spawner, O: Sink>(
    rt: &R,
    alloc: Global,
    request: SystemRequest<'_>,
    folder: &mut F,
    spawner: &mut S,
    out: &mut O,
) -> Report
    requires { KeepsCounts request }
    ensures { (line : Line) → IsRequestOf line request.entry → LineFacts result.outcome line
        (outside (F.view folder.old) (S.view spawner.old) (O.view out.old))
        (outside (F.view folder.new) (S.view spawner.new) (O.view out.new)) }
{
    match load(
        alloc,
        request.subject,
        request.directory,
        request.resolution,
        folder,
    ) {
        Ok(loaded) => match request.run {
            Some(options) => {
                let Ran { report, numbers: _ } = run_system(
                    rt, alloc, options, loaded, spawner, out,
                );
                report
            }
            None => tell_size(alloc, &loaded, out),
        },
        Err(end) => refuse(alloc, end),
    }
}

// Tells the size of a system.
fn tell_size<O: Sink>(alloc: Global, loaded: &Loaded, out: &mut O) -> Report
    ensures { (spawner : SpawnerView) → CheckFacts result.outcome loaded.now
        (scene spawner (O.view out.old)) (scene spawner (O.view out.new)) }
{
    let mut text = [0u8; 128];
    let length = write_size(&loaded.system, loaded.bound.unreached, &mut text);
    Report::of_check(alloc, out.put(&text[..length]).is_ok())
}

/// What a run comes to: how it ended, and its numbers, which are all 0 where it didn't begin.
pub(crate) struct Ran {
    pub report: Report,
    pub numbers: Numbers,
}

// The numbers of a run that didn't begin.
const NO_NUMBERS: Numbers = Numbers {
    instants: 0,
    calls: 0,
    rollbacks: 0,
};

/// Runs a system: starts its peers, and takes them back at the end.
pub(crate) fn run_system<R: Threads + Sync, S: Spawner, O: Sink>(
    rt: &R,
    alloc: Global,
    options: Options<'_>,
    loaded: Loaded,
    spawner: &mut S,
    out: &mut O,
) -> Ran
    requires within { IsWithin options.plan }
    requires runnable { CanRun loaded.system }
    requires bound { BindsParameters loaded.system loaded.bound }
    requires counts { CountsBy loaded.system options.plan }
    requires folders { HasFolders loaded.folders loaded.system }
    ensures { RanFacts result.report.outcome result.numbers (task_of (run_of options.entry) loaded) loaded.system
        (scene (S.view spawner.old) (O.view out.old)) (scene (S.view spawner.new) (O.view out.new)) }
{
    let Loaded {
        system,
        bound,
        folders,
    } = loaded;
    let folders = folders.as_slice();
    match start_system(alloc, options.host, folders, &system, spawner) {
        Ok(Started { naming, peers }) => run_peers(
            rt, alloc, options, system, bound, folders, naming, peers, spawner, out,
        ),
        Err(report) => Ran {
            report,
            numbers: NO_NUMBERS,
        },
    }
}

/// The peers of a system, in the order of its components, and the names of its components and ports.
pub(crate) struct Started<L> {
    pub naming: Naming,
    pub peers: Vec<L>,
}

/// Starts a peer for each component of a system. Where one isn't started, takes back those before it.
pub(crate) fn start_system<S: Spawner>(
    alloc: Global,
    host: &str,
    folders: &[Text],
    system: &System,
    spawner: &mut S,
) -> Result<Started<S::Link>, Report>
    requires runnable { CanRun system.now }
    requires folders { HasFolders folders.now system.now }
    ensures names { IfOk result (λ started. named_in started.naming ≡ names_of system.now) }
    ensures ok { IfOk result (λ started. StartsEach host.now folders.now system.now.components
        (map S.Link.view started.peers.items) (S.view spawner.old) (S.view spawner.new)) }
    ensures err { IfErr result (λ report. (task : Task) (out : SinkView) → task.host ≡ host.now →
        task.folders ≡ folders.now → StartFacts report.outcome task system.now
        (scene (S.view spawner.old) out) (scene (S.view spawner.new) out)) }
{
    let components = system.components.as_slice();
    let Ok(naming) = Naming::new(alloc, system) else {
        return Err(Report::memory(alloc));
    };
    let Ok(room) = Vec::with_capacity(alloc, components.len()) else {
        return Err(Report::memory(alloc));
    };
    match start_each(alloc, host, folders, components, room, spawner) {
        Ok(peers) => Ok(Started { naming, peers }),
        Err(unstarted) => Err(give_up(alloc, naming, unstarted, spawner)),
    }
}

// Where a peer wasn't started: takes back those before it.
fn give_up<S: Spawner>(
    alloc: Global,
    naming: Naming,
    unstarted: Unstarted<S::Link>,
    spawner: &mut S,
) -> Report
    requires one { unstarted.component.0 < length naming.names.items }
    requires fewer { length (S.view spawner.old).retired + length unstarted.peers.items ≤
        (S.view spawner.old).started }
    ensures { (task : Task) (system : System) (before : SpawnerView) (out : SinkView) → named_in naming ≡ names_of system →
        StartsUpTo task.host task.folders system.components unstarted.component.0 unstarted.fault (map S.Link.view unstarted.peers.items) before (S.view spawner.old) →
        StartFacts result.outcome task system (scene before out) (scene (S.view spawner.new) out) }
{
    let Unstarted {
        peers,
        component,
        fault,
    } = unstarted;
    retire_each(peers, spawner);
    match fault {
        StartFault::Failed => naming.report_start_fault(component, StartCause::Failed),
        StartFault::Unknown => naming.report_start_fault(component, StartCause::Unknown),
        StartFault::Memory => Report::memory(alloc),
    }
}

// Runs the peers from their first calls to their closing, and takes them back.
fn run_peers<R: Threads + Sync, S: Spawner, O: Sink>(
    rt: &R,
    alloc: Global,
    options: Options<'_>,
    system: System,
    bound: Bound,
    folders: &[Text],
    naming: Naming,
    peers: Vec<S::Link>,
    spawner: &mut S,
    out: &mut O,
) -> Ran
    requires within { IsWithin options.plan }
    requires runnable { CanRun system }
    requires bound { BindsParameters system bound }
    requires counts { CountsBy system options.plan }
    requires names { named_in naming ≡ names_of system }
    requires each { length peers.items ≡ length system.components }
    requires started { AreStarted options.host.now folders.now system.components
        (map S.Link.view peers.items) }
    requires fewer { length (S.view spawner.old).retired + length peers.items ≤
        (S.view spawner.old).started }
    ensures { (before : SpawnerView) → AreKnown options.entry.host.now before system.components → AreMade options.entry.host.now before system.components (map S.Link.view peers.items) → S.view spawner.old ≡ with_all_started before (length peers.items) →
        RanFacts result.report.outcome result.numbers (record { plan = options.entry.plan; host = options.entry.host.now; bound = bound; folders = folders.now }) system (scene before (O.view out.old)) (scene (S.view spawner.new) (O.view out.new)) }
{
    histories_of_peers();
    runs_of_machines();
    counted_talks();
    match Master::prepare(alloc, system, bound, peers, options.plan) {
        Ok(master) => {
            let mut master = master;
            let end = master.run(rt, out);
            let instants = master.instants();
            let peers = master.close();
            let counts = call_counts(&peers);
            retire_each(peers, spawner);
            Ran {
                report: naming.report_end(end),
                numbers: Numbers {
                    instants,
                    calls: counts.calls,
                    rollbacks: counts.rollbacks,
                },
            }
        }
        Err(PrepareEnd { peers, fault }) => {
            retire_each(peers, spawner);
            match fault {
                PrepareFault::Memory => Ran {
                    report: Report::memory(alloc),
                    numbers: NO_NUMBERS,
                },
                PrepareFault::Bad(bad) => Ran {
                    report: naming.report_end(RunEnd::Bad(bad)),
                    numbers: NO_NUMBERS,
                },
            }
        }
    }
}
