ghost use Rattle.std.specs.Prelude.{◌≡◌, ◌+◌, ◌^◌, ◌≤◌, length, take, None, IfOk, OnErr, is_some, refl};
ghost use Rattle.sim_base.specs.Sink.{NotesPut};
ghost use Rattle.host_edge.specs.Streams.{Flushes, TakesBytes, Writes, WritesSome};

use sim_base::{Sink, SinkFault};
use std::io::{self, ErrorKind, Stderr, Stdout, Write};

/// A stream that bytes are written to.
pub trait Stream {
    ghost use Rattle.host_edge.specs.Streams.{StreamView};

    /// What it tells: its bytes, how many of its calls went wrong, and how many a signal broke off.
    ghost view: { Self → StreamView };

    /// Writes a prefix of the bytes, and answers its length.
    fn write(&mut self, bytes: &[u8]) -> io::Result<usize>
        ensures { Writes (view self.old) (view self.new) bytes.now result };

    /// Hands on what was written.
    fn flush(&mut self) -> io::Result<()>
        ensures { Flushes (view self.old) (view self.new) result };
}

/// A writer that tells its bytes at all times or at none.
pub trait SteadyWrite: Write {
    ghost steady: { (v w : Self) → is_some (Self.contents v) ≡ is_some (Self.contents w) };
}

impl SteadyWrite for Stdout {
    ghost steady = { λ v w. refl };
}

impl SteadyWrite for Stderr {
    ghost steady = { λ v w. refl };
}

/// A writer as a stream. It tells the bytes that the writer tells, and counts no calls.
#[derive(Drop)]
pub struct WriterStream<W> {
    pub writer: W,
}

impl<W: SteadyWrite> Stream for WriterStream<W> {
    ghost view = { λ s. record { content = W.contents s.writer; errors = None; signals = None } };

    fn write(&mut self, bytes: &[u8]) -> io::Result<usize> {
        self.writer.write(bytes)
    }

    fn flush(&mut self) -> io::Result<()> {
        self.writer.flush()
    }
}

/// A sink over a stream. It tells the bytes that the stream tells, and no puts.
#[derive(Drop)]
pub struct StreamSink<W> {
    pub stream: W,
    pub faults: u64,
}

impl<W: Stream> StreamSink<W> {
    /// A sink before its first put.
    pub fn new(stream: W) -> StreamSink<W>
        ensures stream { result.stream ≡ stream }
        ensures quiet { result.faults ≡ 0 }
    {
        StreamSink { stream, faults: 0 }
    }
}

impl<W: Stream> Sink for StreamSink<W> {
    ghost view = { λ s. record { content = (W.view s.stream).content; puts = None; faults = s.faults } };

    ghost joined = { λ sink. tt };

    fn put(&mut self, bytes: &[u8]) -> Result<(), SinkFault>
        ensures noted { NotesPut
            (record { content = (W.view self.old.stream).content; puts = None; faults = self.old.faults })
            (record { content = (W.view self.new.stream).content; puts = None; faults = self.new.faults }) bytes.now result }

        // It fails only where a call of the stream went wrong, and stops there, or after 2^63 signals.
        ensures takes { TakesBytes (W.view self.old.stream) (W.view self.new.stream) bytes.now
            result }
    {
        match write_through(&mut self.stream, bytes) {
            Ok(()) => Ok(()),
            Err(_) => {
                self.faults = self.faults.saturating_add(1);
                Err(SinkFault)
            }
        }
    }
}

// Writes all of the bytes and flushes them. After an error the stream may have them all, or a prefix of them.
fn write_through<W: Stream>(stream: &mut W, bytes: &[u8]) -> io::Result<()>
    ensures { TakesBytes (W.view stream.old) (W.view stream.new) bytes.now result }
{
    match write_bytes(stream, bytes) {
        Ok(()) => stream.flush(),
        Err(error) => Err(error),
    }
}

// Writes all of the bytes, or before an error a prefix of them.
fn write_bytes<W: Stream>(stream: &mut W, bytes: &[u8]) -> io::Result<()>
    ensures { TakesBytes (W.view stream.old) (W.view stream.new) bytes.now result }
{
    let mut rest = bytes;
    'writes: for _ in 0..u64::MAX {
        if rest.is_empty() {
            return Ok(());
        }
        match write_some(stream, rest) {
            Ok(count) => rest = &rest[count..],
            Err(error) => return Err(error),
        }
    }
    Err(ErrorKind::TimedOut.into())
}

// One write, and how many of the first bytes it took: none where a signal came between.
fn write_some<W: Stream>(stream: &mut W, bytes: &[u8]) -> io::Result<usize>
    ensures bound { IfOk result (λ n. n ≤ length bytes.now) }
    ensures some { WritesSome (W.view stream.old) (W.view stream.new) bytes.now result }
{
    match stream.write(bytes) {
        Ok(0) => Err(ErrorKind::WriteZero.into()),
        Ok(count) => Ok(count),
        Err(error) => {
            if error.kind() == ErrorKind::Interrupted {
                Ok(0)
            } else {
                Err(error)
            }
        }
    }
}
