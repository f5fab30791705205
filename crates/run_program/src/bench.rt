//! The run of a generated system: its numbers on `out`.
ghost use Rattle.std.specs.Prelude.{◌≡◌, IfOk, replicate, []};
ghost use Rattle.command_line.specs.Line.{AreFew, bench_of};
ghost use Rattle.run_program.specs.Bench.{BenchFacts, Tells, has_finished, is_well, system_for, task_for};
ghost use Rattle.run_program.specs.Happened.{scene};
ghost use Rattle.run_program.specs.Message.{summary_text};
ghost use Rattle.run_program.specs.Runs.{CanRun};
ghost use Rattle.calling_sequence.specs.Plans.{CountsBy};
ghost use Rattle.generated_system.specs.Generated.{bench_plan};
ghost use Rattle.system_model.specs.Bounds.{BindsParameters};

use crate::message::write_summary;
use crate::outcome::{End, Numbers, Outcome};
use crate::report::Report;
use crate::run::{Ran, run_system};
use command_line::{BUILT_IN_HOST, BenchOptions, Options};
use fmu_peer::Spawner;
use generated_system::{EmptySink, bench_plan, bench_system, generated_systems};
use sim_base::{Items, Sink, Text};
use std::alloc::{AllocError, Global};
use std::thread::Threads;
use system_files::Loaded;

/// Runs the system that a seed gives on the built-in machines, and keeps nothing of its trace. Where it comes to the stop, or
/// an FMU asks for the end, its numbers are put on `out`.
pub(crate) fn run_bench<R: Threads + Sync, S: Spawner, O: Sink>(
    rt: &R,
    alloc: Global,
    options: BenchOptions,
    spawner: &mut S,
    out: &mut O,
) -> Report
    requires { AreFew (bench_of options) }
    ensures { BenchFacts result.outcome (bench_of options)
        (scene (S.view spawner.old) (O.view out.old)) (scene (S.view spawner.new) (O.view out.new)) }
{
    match load_generated(alloc, options) {
        Ok(loaded) => {
            let run = Options {
                directory: "",
                host: BUILT_IN_HOST,
                plan: bench_plan(options.workers),
            };
            let Ran { report, numbers } = run_system(
                rt,
                alloc,
                run,
                loaded,
                spawner,
                &mut EmptySink,
            );
            if has_finished(&report.outcome) {
                tell_numbers(alloc, numbers, out)
            } else {
                report
            }
        }
        Err(_) => Report::memory(alloc),
    }
}

// Whether the outcome is that of a run that came to the stop, or to where an FMU asked for the end.
fn has_finished(outcome: &Outcome) -> bool
    ensures { result ≡ has_finished outcome.now }
{
    match outcome {
        Outcome::Ran { end } => is_well(end),
        Outcome::Words
        | Outcome::Memory
        | Outcome::File { .. }
        | Outcome::Start { .. }
        | Outcome::Checked
        | Outcome::Untold => false,
    }
}

fn is_well(end: &End) -> bool
    ensures { result ≡ is_well end.now }
{
    match end {
        End::Stop | End::Asked => true,
        End::EventLimit { .. }
        | End::FixedStep { .. }
        | End::Range { .. }
        | End::Held { .. }
        | End::Bad { .. }
        | End::WriteFault => false,
    }
}

// The generated system, as one that files describe is loaded.
fn load_generated(alloc: Global, options: BenchOptions) -> Result<Loaded, AllocError>
    requires { AreFew (bench_of options) }
    ensures system { IfOk result (λ loaded. loaded.system ≡ system_for (bench_of options)) }
    ensures bound { IfOk result (λ loaded. loaded.bound ≡ (task_for (bench_of options)).bound) }
    ensures folders { IfOk result
        (λ loaded. loaded.folders ≡ (task_for (bench_of options)).folders) }
    ensures runnable { IfOk result (λ loaded. CanRun loaded.system) }
    ensures binds { IfOk result (λ loaded. BindsParameters loaded.system loaded.bound) }
    ensures counts { IfOk result
        (λ loaded. CountsBy loaded.system (bench_plan options.workers)) }
{
    generated_systems();
    let made = bench_system(alloc, options.seed, options.components)?;
    Ok(Loaded {
        system: made.system,
        bound: made.bound,
        folders: no_folders(alloc, options.components)?,
    })
}

#[tactic(auto, using(std::proofs::lemmas::List::replicate_more))]
fn no_folders(alloc: Global, count: usize) -> Result<Items<Text>, AllocError>
    ensures { IfOk result (λ folders. folders ≡ replicate count []) }
{
    let mut folders = Vec::new(alloc);
    for made in 0..count {
        folders.push(Text::from_str(alloc, "")?)?;
    }
    Ok(Items::from_vec(folders))
}

// Puts the numbers of a run on `out`.
fn tell_numbers<O: Sink>(alloc: Global, numbers: Numbers, out: &mut O) -> Report
    ensures { Tells (summary_text numbers.instants numbers.calls numbers.rollbacks) result.outcome
        (O.view out.old) (O.view out.new) }
{
    let mut text = [0u8; 145];
    let length = write_summary(
        numbers.instants,
        numbers.calls,
        numbers.rollbacks,
        &mut text,
    );
    Report::of_check(alloc, out.put(&text[..length]).is_ok())
}
