ghost use Rattle.std.specs.Prelude.{◌≡◌, ◌+◌, ◌-◌, ◌^◌, ◌<◌, ◌≤◌, ◌++◌, [], ◌∷◌, min, length, List, ℕ, Option, None, Ok, Err, IfOk, IfErr, IsOkAnd, option_map};
ghost use Rattle.std.specs.Io.Take.{take_inner};
ghost use Rattle.std.specs.IoError.{error_kind};
ghost use Rattle.sim_base.specs.Folder.{KeepsLimit, NotesRead, folder_view};
ghost use Rattle.sim_base.specs.ReadNotes.{told_answer};
ghost use Rattle.host_edge.specs.Reading.{Opens, ReadsUpTo, ReadsWithin, unopened, unread};

use sim_base::{Folder, ReadBook, ReadFault, SharedBytes};
use std::alloc::Global;
use std::fs;
use std::io::{self, ErrorKind, Read, Take};
use std::rt::Files;

/// A file that was opened.
pub trait OpenedFile {
    ghost use Rattle.host_edge.specs.Reading.{FileView};

    /// What it tells: the bytes that are left, and the kinds of the errors that it answered.
    ghost view: { Self → FileView };

    /// Appends what is left to the bytes, up to a limit.
    fn read_up_to(&mut self, limit: u64, bytes: &mut Vec<u8>) -> io::Result<usize>
        ensures { ReadsUpTo (view self.old) (view self.new) limit bytes.old.items bytes.new.items result };
}

/// A reader as an opened file. It tells the bytes that the reader tells, and no errors.
#[derive(Drop)]
pub struct ReaderFile<R> {
    reader: Take<R>,
}

impl<R: Read> ReaderFile<R> {
    /// A file of which the reader is to be read.
    pub fn new(reader: R) -> ReaderFile<R>
        ensures { take_inner result.reader ≡ reader }
    {
        ReaderFile {
            reader: reader.take(0),
        }
    }
}

impl<R: Read> OpenedFile for ReaderFile<R> {
    ghost view = { λ s. record { left = R.remaining (take_inner s.reader); errors = None } };

    fn read_up_to(&mut self, limit: u64, bytes: &mut Vec<u8>) -> io::Result<usize> {
        self.reader.set_limit(limit);
        self.reader.read_to_end(bytes)
    }
}

/// What opens files to read.
pub trait OpenFiles {
    type File: OpenedFile + Drop;

    /// The paths that it was asked to open, in order, where it tells them.
    ghost opened: { Self → Option (List (List ℕ)) };

    /// Opens the file at a path.
    fn open(&mut self, path: &str) -> io::Result<Self::File>
        ensures { opened self.new ≡ option_map (λ paths. paths ++ path.now ∷ []) (opened self.old) };
}

/// The files of the host. It tells nothing.
#[derive(Drop)]
pub struct HostFiles<'a, R> {
    runtime: &'a R,
}

impl<'a, R: Files> HostFiles<'a, R> {
    /// The files that a runtime opens.
    pub fn new(runtime: &'a R) -> HostFiles<'a, R> {
        HostFiles { runtime }
    }
}

impl<'a, R: Files> OpenFiles for HostFiles<'a, R> {
    type File = ReaderFile<R::File>;

    ghost opened = { λ f. None };

    fn open(&mut self, path: &str) -> io::Result<ReaderFile<R::File>> {
        Ok(ReaderFile::new(fs::open(self.runtime, path)?))
    }
}

/// A folder over what opens files. It tells no files, but what each read answered.
#[derive(Drop)]
pub struct OpenedFolder<H> {
    host: H,
    book: ReadBook,
}

impl<H: OpenFiles> OpenedFolder<H> {
    /// A folder before its first read.
    pub fn new(alloc: Global, host: H) -> OpenedFolder<H>
        ensures host { result.host ≡ host }
        ensures quiet { (result.book.reads ≡ []) × (result.book.faults ≡ 0) }
    {
        OpenedFolder {
            host,
            book: ReadBook::new(alloc),
        }
    }
}

impl<H: OpenFiles> Folder for OpenedFolder<H> {
    ghost view = { λ f. folder_view None f.book };

    fn read(&mut self, alloc: Global, path: &str, limit: u64) -> Result<SharedBytes, ReadFault>
        ensures within { KeepsLimit limit result }
        ensures noted { NotesRead (folder_view None self.old.book)
            (folder_view None self.new.book) path.now result }

        // The host is asked for what is told, once, and for no other file.
        ensures opened { Opens (H.opened self.old.host) (H.opened self.new.host) self.old.book
            self.new.book }
    {
        let Ok(()) = self.book.ask(alloc, path) else {
            return Err(ReadFault::Memory);
        };
        let mut opened = self.host.open(path);
        let answer = read_opened(&mut opened, alloc, limit);
        self.book.answer(alloc, answer)
    }
}

/// The answer to the opening of a file, by its error or by what was read of it.
pub fn read_opened<S: OpenedFile>(
    opened: &mut io::Result<S>,
    alloc: Global,
    limit: u64,
) -> Result<Vec<u8>, ReadFault>
    ensures ok { IfOk opened.old
        (λ old. IsOkAnd opened.new (λ new. ReadsWithin (S.view old) (S.view new) limit result)) }
    ensures err { IfErr opened.old (λ error. result ≡ Err (unopened (error_kind error))) }
    ensures bound { KeepsLimit limit (told_answer result) }
{
    match opened {
        Ok(file) => read_within(file, alloc, limit),
        Err(error) => Err(open_fault(error)),
    }
}

// All that a file has left, where it is no more than the limit. It reads one byte more and no further.
fn read_within<S: OpenedFile>(
    source: &mut S,
    alloc: Global,
    limit: u64,
) -> Result<Vec<u8>, ReadFault>
    ensures told { ReadsWithin (S.view source.old) (S.view source.new) limit result }
    ensures bound { KeepsLimit limit (told_answer result) }
{
    let mut bytes = Vec::new(alloc);
    match source.read_up_to(limit.saturating_add(1), &mut bytes) {
        Ok(_) => within(bytes, limit),
        Err(error) => Err(read_fault(&error)),
    }
}

// The bytes, where they are no more than the limit.
fn within(bytes: Vec<u8>, limit: u64) -> Result<Vec<u8>, ReadFault>
    ensures fits { length bytes.items ≤ limit → result ≡ Ok bytes }
    ensures big { limit < length bytes.items →
        result ≡ Err (ReadFault.TooBig (length bytes.items)) }
{
    let length = bytes.len() as u64;
    if length > limit {
        Err(ReadFault::TooBig { length })
    } else {
        Ok(bytes)
    }
}

fn open_fault(error: &io::Error) -> ReadFault
    ensures { result ≡ unopened (error_kind error.now) }
{
    match error.kind() {
        ErrorKind::NotFound => ReadFault::Missing,
        ErrorKind::OutOfMemory => ReadFault::Memory,
        _ => ReadFault::Failed,
    }
}

// A file that was opened is there, whatever the error says.
fn read_fault(error: &io::Error) -> ReadFault
    ensures { result ≡ unread (error_kind error.now) }
{
    match error.kind() {
        ErrorKind::OutOfMemory => ReadFault::Memory,
        _ => ReadFault::Failed,
    }
}
