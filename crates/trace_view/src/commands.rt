use crate::words::{Request, Words, WordsFault, read_words};
use sim_base::Sink;
use std::alloc::{AllocError, Global};
use std::env::Args;
use std::fs::File;
use std::io::{self, BufReader, Read};
use trace_export::{
    CompareFault, Output, RealPort, Tolerance, ViewFault, compare, count_digits, read_real_list,
    write_plot, write_table, write_waves,
};

/// How a command ends.
#[derive(Debug, Drop)]
enum Outcome {
    Done,
    /// Two traces differ.
    Differs,
    Words,
    Missing(String),
    Fault(ViewFault),
    /// A trace of two isn't read.
    FaultOf(String, ViewFault),
    /// No port has this name.
    NoPort(String),
}

impl From<ViewFault> for Outcome {
    fn from(fault: ViewFault) -> Outcome {
        Outcome::Fault(fault)
    }
}

impl From<WordsFault> for Outcome {
    fn from(fault: WordsFault) -> Outcome {
        match fault {
            WordsFault::NoLine => Outcome::Words,
            WordsFault::Memory => Outcome::Fault(ViewFault::Memory),
        }
    }
}

impl From<AllocError> for Outcome {
    fn from(_: AllocError) -> Outcome {
        Outcome::Fault(ViewFault::Memory)
    }
}

/// Does what the arguments say, and answers the program's status: 0, 1 where traces differ or one isn't shown, 2 where the
/// arguments are no command line, 3 where a file isn't there, 10 where a write failed, 11 where memory ran out.
pub(crate) fn run_args<S: Sink, E: Sink>(
    rt: &HostRuntime,
    args: io::Result<Args>,
    out: &mut Output<S>,
    err: &mut Output<E>,
) -> u8 {
    let outcome = match run(rt, rt.alloc(), args, out) {
        Ok(outcome) => outcome,
        Err(outcome) => outcome,
    };
    match tell(&outcome, &mut err.bytes) {
        Ok(()) => {}
        Err(_) => return 11,
    }
    match err.flush() {
        Ok(()) => status_of(&outcome),
        Err(_) => status_of(&outcome),
    }
}

fn status_of(outcome: &Outcome) -> u8 {
    match outcome {
        Outcome::Done => 0,
        Outcome::Differs | Outcome::NoPort(_) => 1,
        Outcome::Words => 2,
        Outcome::Missing(_) => 3,
        Outcome::Fault(fault) | Outcome::FaultOf(_, fault) => match fault {
            ViewFault::Write => 10,
            ViewFault::Memory => 11,
            _ => 1,
        },
    }
}

// The line on standard error.
fn tell(outcome: &Outcome, out: &mut Vec<u8>) -> Result<(), AllocError> {
    match outcome {
        Outcome::Done | Outcome::Differs => return Ok(()),
        Outcome::Words => out.extend_from_slice(b"words")?,
        Outcome::Missing(file) => append_named("missing", file, out)?,
        Outcome::NoPort(name) => append_named("port", name, out)?,
        Outcome::Fault(fault) => append_fault(*fault, out)?,
        Outcome::FaultOf(file, fault) => {
            append_fault(*fault, out)?;
            out.push(b' ')?;
            out.extend_from_slice(file.as_bytes())?;
        }
    }
    out.push(b'\n')?;
    Ok(())
}

fn append_named(what: &str, name: &String, out: &mut Vec<u8>) -> Result<(), AllocError> {
    out.extend_from_slice(what.as_bytes())?;
    out.push(b' ')?;
    out.extend_from_slice(name.as_bytes())
}

fn append_fault(fault: ViewFault, out: &mut Vec<u8>) -> Result<(), AllocError> {
    match fault {
        ViewFault::Line(number) => append_numbered("line ", number, out),
        ViewFault::List(number) => append_numbered("list ", number, out),
        ViewFault::Port(number) => append_numbered("port ", number as u64, out),
        ViewFault::Scale => out.extend_from_slice(b"scale"),
        ViewFault::Read => out.extend_from_slice(b"read"),
        ViewFault::Write => out.extend_from_slice(b"write"),
        ViewFault::Memory => out.extend_from_slice(b"memory"),
    }
}

fn append_numbered(what: &str, number: u64, out: &mut Vec<u8>) -> Result<(), AllocError> {
    out.extend_from_slice(what.as_bytes())?;
    out.extend_from_slice(itoa::Buffer::new().format(number).as_bytes())
}

fn run<S: Sink>(
    rt: &HostRuntime,
    alloc: Global,
    args: io::Result<Args>,
    out: &mut Output<S>,
) -> Result<Outcome, Outcome> {
    let args = match args {
        Ok(args) => args,
        Err(_) => return Err(Outcome::Words),
    };
    let texts: Vec<String> = args.skip(1).collect(alloc)?;
    let words = read_words(alloc, &texts)?;
    run_words(rt, alloc, &words, out)
}

fn run_words<S: Sink>(
    rt: &HostRuntime,
    alloc: Global,
    words: &Words<'_>,
    out: &mut Output<S>,
) -> Result<Outcome, Outcome> {
    let reals = read_reals(rt, alloc, words.reals)?;
    match &words.request {
        Request::Table { file, last } => {
            write_table(alloc, open(rt, alloc, file)?, &reals, *last, out)?;
            Ok(Outcome::Done)
        }
        Request::Waves { file } => {
            let digits = digits_of(rt, alloc, file)?;
            write_waves(alloc, open(rt, alloc, file)?, &reals, digits, out)?;
            Ok(Outcome::Done)
        }
        Request::Plot { file, names } => {
            match write_plot(alloc, open(rt, alloc, file)?, &reals, names, out) {
                Ok(()) => Ok(Outcome::Done),
                Err(ViewFault::Port(place)) => match names.get(place) {
                    Some(name) => Err(Outcome::NoPort(String::from_str(alloc, name)?)),
                    None => Err(Outcome::Words),
                },
                Err(fault) => Err(Outcome::Fault(fault)),
            }
        }
        Request::Compare {
            first,
            second,
            tolerance,
        } => run_compare(rt, alloc, (first, second), &reals, *tolerance, out),
    }
}

fn run_compare<S: Sink>(
    rt: &HostRuntime,
    alloc: Global,
    files: (&str, &str),
    reals: &[RealPort],
    tolerance: Tolerance,
    out: &mut Output<S>,
) -> Result<Outcome, Outcome> {
    let first = open(rt, alloc, files.0)?;
    let second = open(rt, alloc, files.1)?;
    match compare(alloc, first, second, reals, tolerance, out) {
        Ok(true) => Ok(Outcome::Done),
        Ok(false) => Ok(Outcome::Differs),
        Err(CompareFault::First(fault)) => {
            Err(Outcome::FaultOf(String::from_str(alloc, files.0)?, fault))
        }
        Err(CompareFault::Second(fault)) => {
            Err(Outcome::FaultOf(String::from_str(alloc, files.1)?, fault))
        }
        Err(CompareFault::Shown(fault)) => Err(Outcome::Fault(fault)),
    }
}

// Standard input can't be read twice: there are no more than four digits.
fn digits_of(rt: &HostRuntime, alloc: Global, file: &str) -> Result<u32, Outcome> {
    if file == "-" {
        Ok(4)
    } else {
        Ok(count_digits(alloc, open(rt, alloc, file)?)?)
    }
}

/// A file, or standard input.
#[derive(Drop)]
enum Input {
    File(File),
    Stdin(io::Stdin),
}

impl Read for Input {
    fn read(&mut self, into: &mut [u8]) -> io::Result<usize> {
        match self {
            Input::File(file) => file.read(into),
            Input::Stdin(stdin) => stdin.read(into),
        }
    }
}

fn open_input(rt: &HostRuntime, alloc: Global, name: &str) -> Result<Input, Outcome> {
    if name == "-" {
        return Ok(Input::Stdin(rt.stdin()));
    }
    match File::open(rt, name) {
        Ok(file) => Ok(Input::File(file)),
        Err(_) => Err(Outcome::Missing(String::from_str(alloc, name)?)),
    }
}

fn open(rt: &HostRuntime, alloc: Global, name: &str) -> Result<BufReader<Input>, Outcome> {
    let input = open_input(rt, alloc, name)?;
    match BufReader::new(alloc, input) {
        Ok(reader) => Ok(reader),
        Err(_) => Err(Outcome::Fault(ViewFault::Memory)),
    }
}

fn read_reals(
    rt: &HostRuntime,
    alloc: Global,
    file: Option<&str>,
) -> Result<Vec<RealPort>, Outcome> {
    let Some(name) = file else {
        return Ok(Vec::new(alloc));
    };
    let mut input = open_input(rt, alloc, name)?;
    let mut text = Vec::new(alloc);
    match input.read_to_end(&mut text) {
        Ok(_) => Ok(read_real_list(alloc, &text)?),
        Err(_) => Err(Outcome::Fault(ViewFault::Read)),
    }
}
