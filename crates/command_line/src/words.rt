ghost use Rattle.std.specs.Prelude.{◌≡◌, ℕ, ◌≤◌, ◌^◌, IfOk, IfErr, IfSome, IsSomeAnd};
ghost use Rattle.clap.specs.Words.{app_of, first_of, found_of, rows_of, subcommand_rows_of};
ghost use Rattle.command_line.specs.App.{app_of_rows};
ghost use Rattle.command_line.specs.Line.{AreFew, Asked, Asks, AsksBench, AsksCheck, AsksCheckpoint, AsksResume, AsksRun, AsksTrace, BenchLine, CheckLine, CheckpointLine, Counts, GivesPlan, IsAsked, IsLineOf, IsWithin, IsWithinLimits, Lookup, MayBeHeld, MayGoOn, ResumeLine, RunLine, TraceLine, asked_of, bench_of, check_of, checkpoint_of, commands, link_row, resume_of, run_of, texts, trace_of, workers_row};
ghost use Rattle.command_line.specs.Table.{GivesLine, SubAsks};
ghost use Rattle.command_line.specs.Words.{Word};
ghost use Rattle.command_line.specs.declared.fault.WordsFault.TheVariants.{NoLine};
ghost use Rattle.system_model.specs.declared.plan.Plan.{Plan};

use crate::clap_command::{top_command, with_subcommand};
use crate::fault::WordsFault;
use crate::lines::read_line;
use crate::values::{option_count, option_text, value_of};
use clap::{ArgMatches, Command};
use sim_base::{MOST_COUNTS, MOST_INSTANTS};
use std::alloc::{AllocError, Global};
use system_model::Plan;

// The options of a run.
const RUN_OPTIONS: [&str; 8] = [
    "resolution",
    "step",
    "stop",
    "start",
    "workers",
    "max-iterations",
    "link",
    "host",
];

// The options of a run that is to be held.
const CHECKPOINT_OPTIONS: [&str; 9] = [
    "at",
    "resolution",
    "step",
    "stop",
    "start",
    "workers",
    "max-iterations",
    "link",
    "host",
];

// The options of the rest of a run that was held.
const RESUME_OPTIONS: [&str; 3] = ["workers", "link", "host"];

/// The name of the host of the built-in machines, the default of `--host`.
pub const BUILT_IN_HOST: &str = "builtin";

// The most instants at a point, where no option says it.
const DEFAULT_LIMIT: u64 = 100;

// The most workers.
const MOST_WORKERS: u64 = 64;

// The newest version of the link to an FMU in a process of its own.
const NEWEST_LINK: u64 = 2;

// The greatest seed and the most components of a generated system.
const MOST_SEED: u64 = 2_147_483_647;

const MOST_COMPONENTS: u64 = 256;

/// What a command line asks for.
#[derive(Clone, Copy, Debug)]
pub enum Request<'a> {
    /// to run or to measure what a directory describes
    System(CommandLine<'a>),
    /// to check a trace against the system in a directory
    TraceCheck(TraceOptions<'a>),
    /// to run a generated system
    Bench(BenchOptions),
    /// to run a system up to a point where it is held
    Checkpoint(CheckpointOptions<'a>),
    /// to run the rest of a run that was held
    Resume(ResumeOptions<'a>),
}

/// What the command line of a system or of one FMU asks for, by its command.
#[derive(Clone, Copy, Debug)]
pub enum CommandLine<'a> {
    /// to run the FMU in a directory
    One(Options<'a>),
    /// to run the system in a directory
    Run(Options<'a>),
    /// to check the system in a directory
    Check(CheckOptions<'a>),
}

/// What `one` and `run` are asked for: the directory of the FMU or of the system, the host of its FMUs, which is a program
/// or `builtin`, and the plan of its run.
#[derive(Clone, Copy, Debug)]
pub struct Options<'a> {
    pub directory: &'a str,
    pub host: &'a str,
    pub plan: Plan,
}

/// What `check` is asked for: the directory, and how many counts a second has.
#[derive(Clone, Copy, Debug)]
pub struct CheckOptions<'a> {
    pub directory: &'a str,
    pub resolution: u64,
}

/// What `trace-check` is asked for: the directory of the system, and the path of the trace's file.
#[derive(Clone, Copy, Debug)]
pub struct TraceOptions<'a> {
    pub directory: &'a str,
    pub file: &'a str,
}

/// What `bench` is asked for: what the system is drawn by, below 2^31, how many components it has, from 1 to 256, and how
/// many workers make the calls of a step.
#[derive(Clone, Copy, Debug, PartialEq, Eq)]
pub struct BenchOptions {
    pub seed: u32,
    pub components: usize,
    pub workers: u32,
}

/// What `checkpoint` is asked for: the run, and the point from which on it may be held, a count before the stop.
#[derive(Clone, Copy, Debug)]
pub struct CheckpointOptions<'a> {
    pub run: Options<'a>,
    pub at: u64,
}

/// What `resume` is asked for: the directory of the system, the path of the checkpoint's file, the host of the FMUs, how
/// many workers make the calls of a step, and the version of the link to hosts.
#[derive(Clone, Copy, Debug)]
pub struct ResumeOptions<'a> {
    pub directory: &'a str,
    pub file: &'a str,
    pub host: &'a str,
    pub workers: u32,
    pub link: u32,
}

/// Reads the arguments of a command line, without the program's name.
///
/// `NoLine` comes only where the arguments are no command line. `Memory` may come for any arguments.
pub fn read_words(alloc: Global, words: &[String]) -> Result<Request<'_>, WordsFault>
    ensures ok { IfOk result (λ r. IsAsked (texts words.now) (asked_of r)) }
    ensures none { IfErr result (λ e. e ≡ NoLine → (asked : Asked) →
        IsAsked (texts words.now) asked → ⊥) }
    ensures only { (asked : Asked) → IsAsked (texts words.now) asked →
        IfOk result (λ r. asked_of r ≡ asked) }
    ensures within { IfOk result (λ r. IsWithinLimits (asked_of r)) }
{
    match find_line(alloc, words) {
        Ok(matches) => match read_matches(&matches) {
            Some(request) => Ok(request),
            None => Err(WordsFault::NoLine),
        },
        Err(fault) => Err(fault),
    }
}

// The matches of the arguments, where they are a line of the program's commands.
fn find_line<'a>(alloc: Global, words: &'a [String]) -> Result<ArgMatches<'a>, WordsFault>
    ensures ok { IfOk result (GivesLine commands (texts words.entry.now)) }
    ensures none { IfErr result (λ e. e ≡ NoLine → (name : Word) (get : Lookup) →
        IsLineOf commands (texts words.entry.now) name get → ⊥) }
{
    match make_command(alloc) {
        Ok(command) => read_line(command, words),
        Err(_) => Err(WordsFault::Memory),
    }
}

// The table of the commands, with the names of their positionals and options.
fn make_command<'a>(alloc: Global) -> Result<Command<'a>, AllocError>
    ensures { IfOk result (λ c. app_of c ≡ app_of_rows commands) }
{
    let command = top_command(alloc);
    let command = with_subcommand(alloc, command, "one", &["DIR"], &RUN_OPTIONS)?;
    let command = with_subcommand(alloc, command, "run", &["DIR"], &RUN_OPTIONS)?;
    let command = with_subcommand(alloc, command, "check", &["DIR"], &["resolution"])?;
    let command = with_subcommand(alloc, command, "trace-check", &["DIR", "FILE"], &[])?;
    let command = with_subcommand(alloc, command, "bench", &["SEED", "N"], &["workers"])?;
    let command = with_subcommand(alloc, command, "checkpoint", &["DIR"], &CHECKPOINT_OPTIONS)?;
    with_subcommand(alloc, command, "resume", &["DIR", "FILE"], &RESUME_OPTIONS)
}

// The command that was matched, with its options.
fn read_matches<'a>(matches: &ArgMatches<'a>) -> Option<Request<'a>>
    ensures ok { IfSome result (λ r. SubAsks (subcommand_rows_of matches.now) (asked_of r)) }
    ensures only { (asked : Asked) → SubAsks (subcommand_rows_of matches.now) asked →
        IsSomeAnd result (λ r. asked_of r ≡ asked) }
    ensures within { IfSome result (λ r. IsWithinLimits (asked_of r)) }
{
    match matches.subcommand() {
        Some((name, inner)) => read_command(name, inner),
        None => None,
    }
}

// A command with its options, by its name.
fn read_command<'a>(name: &str, matches: &ArgMatches<'a>) -> Option<Request<'a>>
    ensures ok { IfSome result
        (λ r. Asks name.now (λ n. first_of n (rows_of (found_of matches.now))) (asked_of r)) }
    ensures only { (asked : Asked) →
        Asks name.now (λ n. first_of n (rows_of (found_of matches.now))) asked →
        IsSomeAnd result (λ r. asked_of r ≡ asked) }
    ensures within { IfSome result (λ r. IsWithinLimits (asked_of r)) }
{
    match name {
        "one" => Some(Request::System(CommandLine::One(read_run(matches)?))),
        "run" => Some(Request::System(CommandLine::Run(read_run(matches)?))),
        "check" => Some(Request::System(CommandLine::Check(read_check(matches)?))),
        "trace-check" => Some(Request::TraceCheck(read_trace_check(matches)?)),
        "bench" => Some(Request::Bench(read_bench(matches)?)),
        "checkpoint" => Some(Request::Checkpoint(read_checkpoint(matches)?)),
        "resume" => Some(Request::Resume(read_resume(matches)?)),
        _ => None,
    }
}

// The directory, the host and the plan of a run.
fn read_run<'a>(matches: &ArgMatches<'a>) -> Option<Options<'a>>
    ensures ok { IfSome result (λ o. AsksRun (λ n. first_of n (rows_of (found_of matches.now)))
        (run_of o)) }
    ensures only { (line : RunLine) → AsksRun (λ n. first_of n (rows_of (found_of matches.now)))
        line → IsSomeAnd result (λ o. run_of o ≡ line) }
    ensures within { IfSome result (λ o. IsWithin o.plan) }
{
    let directory = value_of(matches, "DIR")?;
    let host = option_text(matches, "host", BUILT_IN_HOST);
    let plan = read_plan(matches)?;
    Some(Options {
        directory,
        host,
        plan,
    })
}

// The directory and the resolution of a check.
fn read_check<'a>(matches: &ArgMatches<'a>) -> Option<CheckOptions<'a>>
    ensures ok { IfSome result (λ o. AsksCheck (λ n. first_of n (rows_of (found_of matches.now)))
        (check_of o)) }
    ensures only { (line : CheckLine) → AsksCheck (λ n. first_of n (rows_of (found_of matches.now)))
        line → IsSomeAnd result (λ o. check_of o ≡ line) }
    ensures within { IfSome result (λ o. (1 ≤ o.resolution) × (o.resolution ≤ 2 ^ 62)) }
{
    let directory = value_of(matches, "DIR")?;
    let resolution = option_count(matches, "resolution", 1, MOST_COUNTS, None)?;
    Some(CheckOptions {
        directory,
        resolution,
    })
}

// The directory of the system and the file of the trace.
fn read_trace_check<'a>(matches: &ArgMatches<'a>) -> Option<TraceOptions<'a>>
    ensures ok { IfSome result (λ o. AsksTrace (λ n. first_of n (rows_of (found_of matches.now)))
        (trace_of o)) }
    ensures only { (line : TraceLine) → AsksTrace (λ n. first_of n (rows_of (found_of matches.now)))
        line → IsSomeAnd result (λ o. trace_of o ≡ line) }
{
    Some(TraceOptions {
        directory: value_of(matches, "DIR")?,
        file: value_of(matches, "FILE")?,
    })
}

// What a generated system is drawn by, its number of components, and the workers.
fn read_bench(matches: &ArgMatches<'_>) -> Option<BenchOptions>
    ensures ok { IfSome result (λ o. AsksBench (λ n. first_of n (rows_of (found_of matches.now)))
        (bench_of o)) }
    ensures only { (line : BenchLine) → AsksBench (λ n. first_of n (rows_of (found_of matches.now)))
        line → IsSomeAnd result (λ o. bench_of o ≡ line) }
    ensures within { IfSome result (λ o. AreFew (bench_of o)) }
{
    let seed = option_count(matches, "SEED", 0, MOST_SEED, None)?;
    let components = option_count(matches, "N", 1, MOST_COMPONENTS, None)?;
    let workers = read_workers(matches)?;
    Some(BenchOptions {
        seed: seed as u32,
        components: components as usize,
        workers,
    })
}

// The run that is to be held, and a point of it, before the stop.
fn read_checkpoint<'a>(matches: &ArgMatches<'a>) -> Option<CheckpointOptions<'a>>
    ensures ok { IfSome result (λ o. AsksCheckpoint
        (λ n. first_of n (rows_of (found_of matches.now))) (checkpoint_of o)) }
    ensures only { (line : CheckpointLine) →
        AsksCheckpoint (λ n. first_of n (rows_of (found_of matches.now))) line →
        IsSomeAnd result (λ o. checkpoint_of o ≡ line) }
    ensures within { IfSome result (λ o. MayBeHeld (checkpoint_of o)) }
{
    let run = read_run(matches)?;
    let at = option_count(matches, "at", 0, MOST_COUNTS, None)?;
    if run.plan.start <= at && at < run.plan.stop {
        Some(CheckpointOptions { run, at })
    } else {
        None
    }
}

// The system, the checkpoint, the host, the workers and the link of the rest of a run.
fn read_resume<'a>(matches: &ArgMatches<'a>) -> Option<ResumeOptions<'a>>
    ensures ok { IfSome result (λ o. AsksResume (λ n. first_of n (rows_of (found_of matches.now)))
        (resume_of o)) }
    ensures only { (line : ResumeLine) →
        AsksResume (λ n. first_of n (rows_of (found_of matches.now))) line →
        IsSomeAnd result (λ o. resume_of o ≡ line) }
    ensures within { IfSome result (λ o. MayGoOn (resume_of o)) }
{
    Some(ResumeOptions {
        directory: value_of(matches, "DIR")?,
        file: value_of(matches, "FILE")?,
        host: option_text(matches, "host", BUILT_IN_HOST),
        workers: read_workers(matches)?,
        link: read_link(matches)?,
    })
}

// The number of workers, which is 1 where no option says it.
fn read_workers(matches: &ArgMatches<'_>) -> Option<u32>
    ensures ok { IfSome result
        (Counts workers_row (first_of workers_row.name (rows_of (found_of matches.now)))) }
    ensures only { (n : ℕ) →
        Counts workers_row (first_of workers_row.name (rows_of (found_of matches.now))) n →
        result ≡ Some n }
    ensures within { IfSome result (λ n. (1 ≤ n) × (n ≤ 64)) }
{
    let workers = option_count(matches, "workers", 1, MOST_WORKERS, Some(1))?;
    Some(workers as u32)
}

// The version of the link to hosts, which is 1 where no option says it.
fn read_link(matches: &ArgMatches<'_>) -> Option<u32>
    ensures ok { IfSome result
        (Counts link_row (first_of link_row.name (rows_of (found_of matches.now)))) }
    ensures only { (n : ℕ) →
        Counts link_row (first_of link_row.name (rows_of (found_of matches.now))) n →
        result ≡ Some n }
    ensures within { IfSome result (λ n. (1 ≤ n) × (n ≤ 2)) }
{
    let link = option_count(matches, "link", 1, NEWEST_LINK, Some(1))?;
    Some(link as u32)
}

fn read_plan(matches: &ArgMatches<'_>) -> Option<Plan>
    ensures ok { IfSome result (GivesPlan (λ n. first_of n (rows_of (found_of matches.now)))) }
    ensures only { (plan : Plan) → GivesPlan (λ n. first_of n (rows_of (found_of matches.now)))
        plan → result ≡ Some plan }
{
    let plan = Plan {
        resolution: option_count(matches, "resolution", 1, MOST_COUNTS, None)?,
        start: option_count(matches, "start", 0, MOST_COUNTS, Some(0))?,
        step: option_count(matches, "step", 1, MOST_COUNTS, None)?,
        stop: option_count(matches, "stop", 0, MOST_COUNTS, None)?,
        limit: option_count(
            matches,
            "max-iterations",
            1,
            MOST_INSTANTS,
            Some(DEFAULT_LIMIT),
        )?,
        workers: read_workers(matches)?,
        link: read_link(matches)?,
    };
    if plan.start <= plan.stop {
        Some(plan)
    } else {
        None
    }
}
