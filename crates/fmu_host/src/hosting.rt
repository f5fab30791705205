//! The machine that a description names is served.
ghost use Rattle.std.specs.Prelude.{◌≡◌, ◌++◌, IfErr, IfOk, codes, drop, string_bytes};
ghost use Rattle.std.specs.IoError.{error_kind};
ghost use Rattle.std.specs.Vec.Iter.{into_iter_items};
ghost use Rattle.command_line.specs.Line.{texts};
ghost use Rattle.fmu_host.specs.Description.{IsRead, LacksShape, ReadsBytes, refused_end, unread_end};
ghost use Rattle.fmu_host.specs.Facts.{Facts, ShapeFacts};
ghost use Rattle.fmu_host.specs.Happened.{happened, link, outside};
ghost use Rattle.fmu_host.specs.Line.{Line, line_of};
ghost use Rattle.fmu_host.specs.Rows.{KeepsRows};
ghost use Rattle.fmu_host.specs.Status.{status_of, ungiven_end};

use crate::quiet::QuietMachine;
use crate::words::{HostLine, read_words};
use bench_fmus::Model;
use host_serving::{ServeEnd, serve};
use sim_base::{Folder, MOST_FILE_BYTES, ReadFault, SharedBytes, Sink, Source};
use std::alloc::{AllocError, Global};
use std::env::Args;
use std::io::{self, ErrorKind};
use system_loading::{Fault, read_shape};
use value_types::Shape;

/// What a call of the program came to.
#[derive(Clone, Copy, Debug, PartialEq, Eq)]
pub(crate) enum HostEnd {
    /// The arguments are no directory and resolution.
    NoWords,
    /// The read of the description failed.
    Unread,
    /// There is no description.
    Missing,
    /// The description is longer than 16 MiB.
    TooBig,
    /// The description breaks a rule.
    Broken,
    /// It names no built-in machine.
    Unknown,
    /// The machine was served.
    Served(ServeEnd),
    /// Out of memory.
    Memory,
}

impl HostEnd {
    /// The program's status.
    pub fn status(self) -> u8
        ensures { result ≡ status_of self }
    {
        match self {
            HostEnd::Served(ServeEnd::Freed | ServeEnd::Ended) => 0,
            HostEnd::Served(ServeEnd::BadFrame { .. }) => 1,
            HostEnd::NoWords => 2,
            HostEnd::Unread | HostEnd::Missing | HostEnd::TooBig => 3,
            HostEnd::Broken => 4,
            HostEnd::Unknown => 5,
            HostEnd::Served(ServeEnd::NotPermitted { .. }) => 6,
            HostEnd::Served(ServeEnd::TooMany) => 9,
            HostEnd::Served(ServeEnd::Failed) => 10,
            HostEnd::Served(ServeEnd::Memory) | HostEnd::Memory => 11,
        }
    }
}

/// Does what the arguments say that the host gives, the program's name first, and answers the program's status. Where the host
/// can't give one, as where it isn't UTF-8, they are no command line.
pub(crate) fn host_args<F: Folder, I: Source, O: Sink>(
    alloc: Global,
    args: io::Result<Args>,
    folder: &mut F,
    input: &mut I,
    output: &mut O,
) -> u8
    ensures given { IfOk args (λ given. KeepsRows (happened (texts (drop 1 (into_iter_items given)))
        (outside (F.view folder.old) (I.view input.old) (O.view output.old))
        (outside (F.view folder.new) (I.view input.new) (O.view output.new)) result)) }
    ensures same { IfErr args (λ error. outside (F.view folder.new) (I.view input.new) (O.view output.new)
        ≡ outside (F.view folder.old) (I.view input.old) (O.view output.old)) }
    ensures ungiven { IfErr args (λ error. result ≡ status_of (ungiven_end (error_kind error))) }
{
    match args {
        Ok(given) => match words_after(alloc, given) {
            Ok(words) => host_words(alloc, &words, folder, input, output),
            Err(_) => HostEnd::Memory.status(),
        },
        Err(error) => ungiven_end(&error).status(),
    }
}

// The arguments after the program's name.
fn words_after(alloc: Global, given: Args) -> Result<Vec<String>, AllocError>
    ensures { IfOk result (λ words. words.items ≡ drop 1 (into_iter_items given)) }
{
    given.skip(1).collect(alloc)
}

fn ungiven_end(error: &io::Error) -> HostEnd
    ensures { result ≡ ungiven_end (error_kind error.now) }
{
    match error.kind() {
        ErrorKind::OutOfMemory => HostEnd::Memory,
        _ => HostEnd::NoWords,
    }
}

/// Does what the arguments say, without the program's name: reads the description in a directory, and serves the built-in
/// machine that it names, calls from the input and replies to the output. Answers the program's status.
pub fn host_words<F: Folder, I: Source, O: Sink>(
    alloc: Global,
    words: &[String],
    folder: &mut F,
    input: &mut I,
    output: &mut O,
) -> u8
    ensures { KeepsRows (happened (texts words.now)
        (outside (F.view folder.old) (I.view input.old) (O.view output.old))
        (outside (F.view folder.new) (I.view input.new) (O.view output.new)) result) }
{
    host(alloc, words, folder, input, output).status()
}

fn host<F: Folder, I: Source, O: Sink>(
    alloc: Global,
    words: &[String],
    folder: &mut F,
    input: &mut I,
    output: &mut O,
) -> HostEnd
    ensures { Facts result (texts words.now)
        (outside (F.view folder.old) (I.view input.old) (O.view output.old))
        (outside (F.view folder.new) (I.view input.new) (O.view output.new)) }
{
    let Some(line) = read_words(words) else {
        return HostEnd::NoWords;
    };
    match read_model(alloc, line, folder) {
        Ok(shape) => host_model(alloc, &shape, input, output),
        Err(end) => end,
    }
}

// The shape of the FMU whose description stands in a directory.
fn read_model<F: Folder>(
    alloc: Global,
    line: HostLine<'_>,
    folder: &mut F,
) -> Result<Shape, HostEnd>
    ensures ok { IfOk result (λ shape. IsRead (line_of line.entry) shape (F.view folder.old)
        (F.view folder.new)) }
    ensures err { IfErr result (λ end. LacksShape end (line_of line.entry) (F.view folder.old)
        (F.view folder.new)) }
{
    match read_description(alloc, line.directory, folder) {
        Ok(bytes) => match read_shape(alloc, bytes.as_slice(), line.resolution) {
            Ok(shape) => Ok(shape),
            Err(fault) => Err(refused_end(fault)),
        },
        Err(end) => Err(end),
    }
}

// The bytes of the description in a directory.
fn read_description<F: Folder>(
    alloc: Global,
    directory: &str,
    folder: &mut F,
) -> Result<SharedBytes, HostEnd>
    ensures ok { IfOk result (λ bytes. (line : Line) → line.directory ≡ directory.now →
        ReadsBytes line bytes (F.view folder.old) (F.view folder.new)) }
    ensures err { IfErr result (λ end. (line : Line) → line.directory ≡ directory.now →
        LacksShape end line (F.view folder.old) (F.view folder.new)) }
{
    let Ok(path) = description_path(alloc, directory) else {
        return Err(HostEnd::Memory);
    };
    match folder.read(alloc, path.as_str(), MOST_FILE_BYTES) {
        Ok(bytes) => Ok(bytes),
        Err(fault) => Err(unread_end(fault)),
    }
}

// The end at a description that wasn't read.
fn unread_end(fault: ReadFault) -> HostEnd
    ensures { result ≡ unread_end fault }
{
    match fault {
        ReadFault::Failed => HostEnd::Unread,
        ReadFault::Missing => HostEnd::Missing,
        ReadFault::TooBig { .. } => HostEnd::TooBig,
        ReadFault::Memory => HostEnd::Memory,
    }
}

// The end at a description that was read and gives no shape.
fn refused_end(fault: Fault) -> HostEnd
    ensures { result ≡ refused_end fault }
{
    match fault {
        Fault::Broken { .. } => HostEnd::Broken,
        Fault::Memory => HostEnd::Memory,
    }
}

// Where the description of an FMU stands in its directory (FMI 3.0, 2.5.1).
fn description_path(alloc: Global, directory: &str) -> Result<String, AllocError>
    ensures { IfOk result (λ path. string_bytes path ≡ directory.now ++ codes
        "/modelDescription.xml") }
{
    let mut path = String::from_str(alloc, directory)?;
    path.push_str("/modelDescription.xml")?;
    Ok(path)
}

// Serves the machine that a description of this shape names.
fn host_model<I: Source, O: Sink>(
    alloc: Global,
    shape: &Shape,
    input: &mut I,
    output: &mut O,
) -> HostEnd
    ensures { ShapeFacts result shape.now (link (I.view input.old) (O.view output.old))
        (link (I.view input.new) (O.view output.new)) }
{
    let Some(model) = Model::from_identifier(shape.identifier.as_str()) else {
        return HostEnd::Unknown;
    };
    match QuietMachine::new(alloc, model, shape) {
        Ok(mut machine) => {
            let end = serve(alloc, input, output, &mut machine);
            drop(machine);
            HostEnd::Served(end)
        }
        Err(_) => HostEnd::Memory,
    }
}
