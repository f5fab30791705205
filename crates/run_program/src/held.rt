//! A run in two parts: it is held at a point, and goes on from what is kept there.
ghost use Rattle.std.specs.Prelude.{◌≡◌, ◌+◌, ◌≤◌, ℕ, List, Some, length, map};
ghost use Rattle.calling_sequence.specs.Plans.{CountsBy};
ghost use Rattle.command_line.specs.Line.{MayBeHeld, MayGoOn, checkpoint_of, resume_of, run_of};
ghost use Rattle.fmu_peer.specs.Start.{SpawnerView};
ghost use Rattle.system_checkpoint.specs.Spelling.{CanBeHeld};
ghost use Rattle.system_model.specs.Bounds.{BindsParameters};
ghost use Rattle.trace_text.specs.Holding.{IsHoldable};
ghost use Rattle.run_program.specs.Facts.{task_of};
ghost use Rattle.run_program.specs.Happened.{happened, outside, scene};
ghost use Rattle.run_program.specs.Held.{CheckpointFacts, HoldFacts, RestFacts, RunsResume, rest_of, rest_plan};
ghost use Rattle.run_program.specs.Message.{Reports, checkpoint_message};
ghost use Rattle.run_program.specs.Peers.{AreKnown, AreMade, AreStarted, with_all_retired, with_all_started};
ghost use Rattle.run_program.specs.declared.outcome.Outcome.TheVariants.{Ran};
ghost use Rattle.run_program.specs.Runs.{CanRun, HasFolders, IsEndOf, NamesOne, named_in, names_of};

use crate::message::write_checkpoint_message;
use crate::naming::Naming;
use crate::peers::retire_each;
use crate::refusing::refuse;
use crate::report::{Report, put_line};
use crate::run::{Started, start_system};
use checkpoint_loading::{HeldRun, RestEnd, load_rest};
use command_line::{CheckpointOptions, ResumeOptions};
use fmu_peer::Spawner;
use session_laws::runs_of_machines;
use sim_base::{Folder, Sink, Text};
use std::alloc::Global;
use std::thread::Threads;
use step_master::{Master, PrepareEnd, PrepareFault, RunEnd, histories_of_peers};
use system_checkpoint::Snapshot;
use system_files::{LoadError, Loaded, NamedFile, load_held};
use system_model::{Bound, Plan, System};

/// Runs the system in a directory, and puts no trace of it. At the first point from `at` on that is done and before the stop,
/// it puts what is kept of the run on `out`; where the run ends before, its end line.
pub(crate) fn hold_run<R: Threads + Sync, F: Folder, S: Spawner, O: Sink>(
    rt: &R,
    alloc: Global,
    options: CheckpointOptions<'_>,
    folder: &mut F,
    spawner: &mut S,
    out: &mut O,
) -> Report
    requires { MayBeHeld (checkpoint_of options) }
    ensures { CheckpointFacts result.outcome (checkpoint_of options.entry)
        (outside (F.view folder.old) (S.view spawner.old) (O.view out.old))
        (outside (F.view folder.new) (S.view spawner.new) (O.view out.new)) }
{
    match load_held(alloc, options.run.directory, options.run.plan, folder) {
        Ok(loaded) => hold_system(rt, alloc, options, loaded, spawner, out),
        Err(end) => refuse(alloc, end),
    }
}

// Runs a system until it is held: starts its peers, and takes them back at the end.
fn hold_system<R: Threads + Sync, S: Spawner, O: Sink>(
    rt: &R,
    alloc: Global,
    options: CheckpointOptions<'_>,
    loaded: Loaded,
    spawner: &mut S,
    out: &mut O,
) -> Report
    requires within { MayBeHeld (checkpoint_of options) }
    requires holdable { IsHoldable loaded.system options.run.plan }
    requires runnable { CanRun loaded.system }
    requires bound { BindsParameters loaded.system loaded.bound }
    requires counts { CountsBy loaded.system options.run.plan }
    requires folders { HasFolders loaded.folders loaded.system }
    ensures { HoldFacts result.outcome (task_of (run_of options.entry.run) loaded) loaded.system options.entry.at
        (scene (S.view spawner.old) (O.view out.old)) (scene (S.view spawner.new) (O.view out.new)) }
{
    let Loaded {
        system,
        bound,
        folders,
    } = loaded;
    let folders = folders.as_slice();
    match start_system(alloc, options.run.host, folders, &system, spawner) {
        Ok(started) => hold_peers(
            rt, alloc, options, system, bound, folders, started, spawner, out,
        ),
        Err(report) => report,
    }
}

// Runs the peers until they are held, and takes them back.
fn hold_peers<R: Threads + Sync, S: Spawner, O: Sink>(
    rt: &R,
    alloc: Global,
    options: CheckpointOptions<'_>,
    system: System,
    bound: Bound,
    folders: &[Text],
    started: Started<S::Link>,
    spawner: &mut S,
    out: &mut O,
) -> Report
    requires within { MayBeHeld (checkpoint_of options) }
    requires holdable { IsHoldable system options.run.plan }
    requires runnable { CanRun system }
    requires bound { BindsParameters system bound }
    requires counts { CountsBy system options.run.plan }
    requires names { named_in started.naming ≡ names_of system }
    requires each { length started.peers.items ≡ length system.components }
    requires started { AreStarted options.run.host.now folders.now system.components
        (map S.Link.view started.peers.items) }
    requires fewer { length (S.view spawner.old).retired + length started.peers.items ≤
        (S.view spawner.old).started }
    ensures { (before : SpawnerView) → AreKnown options.entry.run.host.now before system.components → AreMade options.entry.run.host.now before system.components (map S.Link.view started.peers.items) → S.view spawner.old ≡ with_all_started before (length started.peers.items) →
        HoldFacts result.outcome (record { plan = options.entry.run.plan; host = options.entry.run.host.now; bound = bound; folders = folders.now }) system options.entry.at (scene before (O.view out.old)) (scene (S.view spawner.new) (O.view out.new)) }
{
    histories_of_peers();
    runs_of_machines();
    let Started { naming, peers } = started;
    match Master::prepare(alloc, system, bound, peers, options.run.plan) {
        Ok(mut master) => {
            let end = master.hold(rt, options.at, out);
            finish(naming, end, master.close(), spawner)
        }
        Err(PrepareEnd { peers, fault }) => {
            retire_each(peers, spawner);
            match fault {
                PrepareFault::Memory => Report::memory(alloc),
                PrepareFault::Bad(bad) => naming.report_end(RunEnd::Bad(bad)),
            }
        }
    }
}

/// Reads a checkpoint from a file and goes on with its run: what would come next of the trace is put on `out`. Answers the
/// status.
pub(crate) fn resume_run<R: Threads + Sync, F: Folder, S: Spawner, O: Sink, E: Sink>(
    rt: &R,
    alloc: Global,
    options: ResumeOptions<'_>,
    folder: &mut F,
    spawner: &mut S,
    out: &mut O,
    err: &mut E,
) -> u8
    requires { MayGoOn (resume_of options) }
    ensures { (words : List (List ℕ)) → RunsResume (happened words
        (outside (F.view folder.old) (S.view spawner.old) (O.view out.old))
        (outside (F.view folder.new) (S.view spawner.new) (O.view out.new))
        (E.view err.old) (E.view err.new) result) (resume_of options.entry) }
{
    match load_rest(alloc, options.directory, options.file, folder) {
        Ok(rest) => resume_system(rt, alloc, options, rest, spawner, out).put(err),
        Err(end) => match end {
            RestEnd::NoCheckpoint { file, at } => put_no_checkpoint(file, at, err),
            RestEnd::File { file, fault } => {
                refuse(alloc, LoadError::File { file, fault }).put(err)
            }
            RestEnd::Memory => Report::memory(alloc).put(err),
        },
    }
}

// Puts the line of a file that holds no checkpoint, and answers the status.
fn put_no_checkpoint<E: Sink>(file: NamedFile, at: u64, err: &mut E) -> u8
    ensures { Reports (Some (checkpoint_message file.path at)) 12 result (E.view err.old)
        (E.view err.new) }
{
    let NamedFile { path, mut text } = file;
    let length = write_checkpoint_message(path.as_str(), at, &mut text);
    put_line(&text[..length], 12, err)
}

// Goes on with the run of a system: starts its peers, and takes them back at the end.
fn resume_system<R: Threads + Sync, S: Spawner, O: Sink>(
    rt: &R,
    alloc: Global,
    options: ResumeOptions<'_>,
    run: HeldRun,
    spawner: &mut S,
    out: &mut O,
) -> Report
    requires within { MayGoOn (resume_of options) }
    requires holdable { IsHoldable run.loaded.system run.held.plan }
    requires kept { CanBeHeld run.loaded.system run.held }
    requires runnable { CanRun run.loaded.system }
    requires bound { BindsParameters run.loaded.system run.loaded.bound }
    requires counts { CountsBy run.loaded.system run.held.plan }
    requires folders { HasFolders run.loaded.folders run.loaded.system }
    ensures { RestFacts result.outcome (rest_of (resume_of options.entry) run.loaded run.held) run.loaded.system run.held
        (scene (S.view spawner.old) (O.view out.old)) (scene (S.view spawner.new) (O.view out.new)) }
{
    let HeldRun { loaded, held } = run;
    let Loaded {
        system,
        bound: _,
        folders,
    } = loaded;
    let folders = folders.as_slice();
    match start_system(alloc, options.host, folders, &system, spawner) {
        Ok(started) => resume_peers(
            rt, alloc, options, system, held, folders, started, spawner, out,
        ),
        Err(report) => report,
    }
}

// Leads the peers back to what is kept of them and runs them from there to their closing, and takes them back.
fn resume_peers<R: Threads + Sync, S: Spawner, O: Sink>(
    rt: &R,
    alloc: Global,
    options: ResumeOptions<'_>,
    system: System,
    held: Snapshot,
    folders: &[Text],
    started: Started<S::Link>,
    spawner: &mut S,
    out: &mut O,
) -> Report
    requires within { MayGoOn (resume_of options) }
    requires holdable { IsHoldable system held.plan }
    requires kept { CanBeHeld system held }
    requires runnable { CanRun system }
    requires counts { CountsBy system held.plan }
    requires names { named_in started.naming ≡ names_of system }
    requires each { length started.peers.items ≡ length system.components }
    requires started { AreStarted options.host.now folders.now system.components
        (map S.Link.view started.peers.items) }
    requires fewer { length (S.view spawner.old).retired + length started.peers.items ≤
        (S.view spawner.old).started }
    ensures { (before : SpawnerView) (bound : Bound) → BindsParameters system bound → AreKnown options.entry.host.now before system.components → AreMade options.entry.host.now before system.components (map S.Link.view started.peers.items) → S.view spawner.old ≡ with_all_started before (length started.peers.items) →
        RestFacts result.outcome (record { plan = rest_plan (resume_of options.entry) held; host = options.entry.host.now; bound = bound; folders = folders.now }) system held (scene before (O.view out.old)) (scene (S.view spawner.new) (O.view out.new)) }
{
    histories_of_peers();
    runs_of_machines();
    let plan = Plan {
        workers: options.workers,
        link: options.link,
        ..held.plan
    };
    let Started { naming, peers } = started;
    match Master::resume(alloc, system, peers, held, plan) {
        Ok(mut master) => {
            let end = master.run(rt, out);
            finish(naming, end, master.close(), spawner)
        }
        Err(PrepareEnd { peers, fault }) => {
            retire_each(peers, spawner);
            match fault {
                PrepareFault::Memory => Report::memory(alloc),
                PrepareFault::Bad(bad) => naming.report_end(RunEnd::Bad(bad)),
            }
        }
    }
}

// Takes the peers back, and reports the end of their run.
fn finish<S: Spawner>(naming: Naming, end: RunEnd, peers: Vec<S::Link>, spawner: &mut S) -> Report
    requires fewer { length (S.view spawner.old).retired + length peers.items ≤
        (S.view spawner.old).started }
    requires named { NamesOne (named_in naming) end }
    ensures report { (e : _) × (result.outcome ≡ Ran e) × IsEndOf (named_in naming) end e }
    ensures retired { S.view spawner.new ≡ with_all_retired (S.view spawner.old)
        (map S.Link.view peers.items) }
{
    retire_each(peers, spawner);
    naming.report_end(end)
}
