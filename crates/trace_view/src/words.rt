use clap::error::ErrorKind;
use clap::{Arg, ArgAction, ArgMatches, Command};
use std::alloc::{AllocError, AllocFailed, Global};
use trace_export::Tolerance;

/// What the arguments ask for, each of a trace's file or of two.
#[derive(Debug, Drop)]
pub(crate) enum Request<'a> {
    Table {
        file: &'a str,
        last: bool,
    },
    Waves {
        file: &'a str,
    },
    Plot {
        file: &'a str,
        names: Vec<&'a str>,
    },
    Compare {
        first: &'a str,
        second: &'a str,
        tolerance: Tolerance,
    },
}

/// A command line: what it asks for, and the file with the list of reals where one is given.
#[derive(Debug, Drop)]
pub(crate) struct Words<'a> {
    pub(crate) request: Request<'a>,
    pub(crate) reals: Option<&'a str>,
}

/// Why arguments ask for nothing.
#[derive(Clone, Copy, Debug)]
pub(crate) enum WordsFault {
    /// They are no command line.
    NoLine,
    /// Memory ran out.
    Memory,
}

impl From<AllocError> for WordsFault {
    fn from(_: AllocError) -> WordsFault {
        WordsFault::Memory
    }
}

impl<T: Drop> From<AllocFailed<T>> for WordsFault {
    fn from(_: AllocFailed<T>) -> WordsFault {
        WordsFault::Memory
    }
}

/// Reads the arguments after the program's name.
pub(crate) fn read_words<'a>(alloc: Global, words: &'a [String]) -> Result<Words<'a>, WordsFault> {
    match make_command(alloc)?.try_get_matches_from(words) {
        Ok(matches) => read_matches(alloc, &matches),
        Err(error) => {
            if error.kind() == ErrorKind::OutOfMemory {
                Err(WordsFault::Memory)
            } else {
                Err(WordsFault::NoLine)
            }
        }
    }
}

// ---- the commands, with their files and options

fn make_command<'a>(alloc: Global) -> Result<Command<'a>, AllocError> {
    let command = Command::new(alloc, "trace_view")
        .no_binary_name(true)
        .disable_help_flag(true)
        .disable_help_subcommand(true)
        .disable_version_flag(true)
        .subcommand_required(true);
    let command = command.subcommand(table_command(alloc)?)?;
    let command = command.subcommand(make_subcommand(alloc, "vcd", "FILE")?)?;
    let command = command.subcommand(plot_command(alloc)?)?;
    command.subcommand(compare_command(alloc)?)
}

fn table_command<'a>(alloc: Global) -> Result<Command<'a>, AllocError> {
    let last = Arg::new(alloc, "last")
        .long("last")
        .action(ArgAction::SetTrue);
    make_subcommand(alloc, "csv", "FILE")?.arg(last)
}

fn plot_command<'a>(alloc: Global) -> Result<Command<'a>, AllocError> {
    make_subcommand(alloc, "plot", "FILE")?.arg(Arg::new(alloc, "NAME").num_args(0..))
}

fn compare_command<'a>(alloc: Global) -> Result<Command<'a>, AllocError> {
    let second = Arg::new(alloc, "SECOND").required(true);
    let tolerance = Arg::new(alloc, "tolerance").long("tolerance");
    make_subcommand(alloc, "compare", "FILE")?
        .arg(second)?
        .arg(tolerance)
}

// A command of a file, with the list of reals.
fn make_subcommand<'a>(
    alloc: Global,
    name: &'a str,
    file: &'a str,
) -> Result<Command<'a>, AllocError> {
    Command::new(alloc, name)
        .arg(Arg::new(alloc, file).required(true))?
        .arg(Arg::new(alloc, "reals").long("reals"))
}

// ---- what was matched

fn read_matches<'a>(alloc: Global, matches: &ArgMatches<'a>) -> Result<Words<'a>, WordsFault> {
    let Some((command, matches)) = matches.subcommand() else {
        return Err(WordsFault::NoLine);
    };
    Ok(Words {
        request: read_request(alloc, command, matches)?,
        reals: matches.get_str("reals"),
    })
}

fn read_request<'a>(
    alloc: Global,
    command: &str,
    matches: &ArgMatches<'a>,
) -> Result<Request<'a>, WordsFault> {
    let Some(file) = matches.get_str("FILE") else {
        return Err(WordsFault::NoLine);
    };
    match command {
        "csv" => Ok(Request::Table {
            file,
            last: matches.get_flag("last"),
        }),
        "vcd" => Ok(Request::Waves { file }),
        "plot" => Ok(Request::Plot {
            file,
            names: read_names(alloc, matches)?,
        }),
        "compare" => read_compare(file, matches),
        _ => Err(WordsFault::NoLine),
    }
}

fn read_names<'a>(alloc: Global, matches: &ArgMatches<'a>) -> Result<Vec<&'a str>, AllocError> {
    match matches.get_strs("NAME") {
        Some(names) => names.to_vec(alloc),
        None => Ok(Vec::new(alloc)),
    }
}

fn read_compare<'a>(first: &'a str, matches: &ArgMatches<'a>) -> Result<Request<'a>, WordsFault> {
    let Some(second) = matches.get_str("SECOND") else {
        return Err(WordsFault::NoLine);
    };
    let tolerance = match matches.get_str("tolerance") {
        Some(text) => read_tolerance(text),
        None => Some(0.0),
    };
    match tolerance {
        Some(tolerance) => Ok(Request::Compare {
            first,
            second,
            tolerance: Tolerance(tolerance),
        }),
        None => Err(WordsFault::NoLine),
    }
}

// Not below 0.
fn read_tolerance(text: &str) -> Option<f64> {
    let x: f64 = text.parse().ok()?;
    if 0.0 <= x { Some(x) } else { None }
}
