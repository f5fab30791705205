ghost use Rattle.std.specs.Prelude.{◌≡◌, ◌↔◌, None, IsTrue};
ghost use Rattle.std.specs.IoError.{error_kind};
ghost use Rattle.sim_base.specs.Source.{NotesTake, source_view};
ghost use Rattle.host_edge.specs.InStreams.{GivesPrefix, Retries};

use sim_base::{Source, SourceFault};
use std::io::{self, ErrorKind, Read};

/// A stream that bytes are read from.
pub trait InStream {
    ghost use Rattle.host_edge.specs.InStreams.{InStreamView, Gives};

    /// What it tells: the bytes that are still to come, how many of its reads went wrong, and how many a signal broke off.
    ghost view: { Self → InStreamView };

    /// Moves bytes from the start of those to come to the start of `into`, and answers how many: none exactly at the end of
    /// all bytes, where `into` isn't empty.
    fn read(&mut self, into: &mut [u8]) -> io::Result<usize>
        ensures { Gives (view self.old) (view self.new) into.new result };
}

/// A reader as a stream. It tells the bytes that the reader tells, and counts no reads.
#[derive(Drop)]
pub struct ReaderStream<R> {
    pub reader: R,
}

impl<R: Read> InStream for ReaderStream<R> {
    ghost view = { λ s. record { left = R.remaining s.reader; counts = record { errors = None; signals = None } } };

    fn read(&mut self, into: &mut [u8]) -> io::Result<usize> {
        self.reader.read(into)
    }
}

/// A source over a stream. It tells the bytes that the stream tells.
#[derive(Drop)]
pub struct StreamSource<R> {
    pub stream: R,
    pub faults: u64,
}

impl<R: InStream> StreamSource<R> {
    /// A source before its first take.
    pub fn new(stream: R) -> StreamSource<R>
        ensures stream { result.stream ≡ stream }
        ensures quiet { result.faults ≡ 0 }
    {
        StreamSource { stream, faults: 0 }
    }
}

impl<R: InStream> Source for StreamSource<R> {
    ghost view = { λ s. source_view (R.view s.stream).left s.faults };

    fn take(&mut self, into: &mut [u8]) -> Result<usize, SourceFault>
        ensures noted { NotesTake (source_view (R.view self.old.stream).left self.old.faults)
            (source_view (R.view self.new.stream).left self.new.faults) into.new result }

        // It fails only where a read went wrong, and stops there, or where signals broke off all of them.
        ensures retried { Retries (R.view self.old.stream).counts
            (R.view self.new.stream).counts result }
    {
        match read_prefix(&mut self.stream, into) {
            Ok(count) => Ok(count),
            Err(_) => {
                self.faults = self.faults.saturating_add(1);
                Err(SourceFault)
            }
        }
    }
}

// One read, tried again while signals break it off.
fn read_prefix<R: InStream>(stream: &mut R, into: &mut [u8]) -> io::Result<usize>
    ensures { GivesPrefix (R.view stream.old) (R.view stream.new) into.new result }
{
    'reads: for _ in 0..u64::MAX {
        match stream.read(into) {
            Ok(count) => return Ok(count),
            Err(error) => {
                if !is_interrupted(&error) {
                    return Err(error);
                }
            }
        }
    }
    Err(ErrorKind::TimedOut.into())
}

fn is_interrupted(error: &io::Error) -> bool
    ensures { IsTrue result ↔ (error_kind error.now ≡ ErrorKind.Interrupted) }
{
    error.kind() == ErrorKind::Interrupted
}
