ghost use Rattle.std.specs.Prelude.{◌≡◌, ◌+◌, ◌<◌, ◌≤◌, IfOk, is_some, length, take};
ghost use Rattle.sim_base.specs.Causes.{one_more};
ghost use Rattle.child_hosts.specs.Filling.{Fills, FillsMore};
ghost use Rattle.fmu_link.specs.Wire.{wire_view};

use fmu_link::{Wire, WireFault};
use host_edge::{ReaderStream, SteadyWrite, StreamSink, StreamSource, WriterStream};
use sim_base::{Sink, Source};
use std::io::{self, Read, Write};
use std::process::{ChildStdin, ChildStdout};

/// A reader that tells its bytes at all times or at none.
pub trait SteadyRead: Read {
    ghost steady: { (r s : Self) → is_some (Self.remaining r) ≡ is_some (Self.remaining s) };
}

impl SteadyRead for ChildStdout {
    ghost use Rattle.std.specs.Prelude.{refl};

    ghost steady = { λ r s. refl };
}

/// The input of a child process as a writer that tells no bytes at any time.
#[derive(Drop)]
pub struct ChildInput {
    pub pipe: ChildStdin,
}

impl Write for ChildInput {
    fn write(&mut self, bytes: &[u8]) -> io::Result<usize> {
        self.pipe.write(bytes)
    }

    fn flush(&mut self) -> io::Result<()> {
        self.pipe.flush()
    }
}

impl SteadyWrite for ChildInput {
    ghost use Rattle.std.specs.Prelude.{refl};

    ghost steady = { λ v w. refl };
}

/// A wire over a reader and a writer. It tells the bytes that these tell: all over memory, none over a pipe.
#[derive(Drop)]
pub struct PipeWire<R, W> {
    pub source: StreamSource<ReaderStream<R>>,
    pub sink: StreamSink<WriterStream<W>>,
    pub faults: u64,
}

impl<R: SteadyRead, W: SteadyWrite> PipeWire<R, W> {
    /// A wire before its first call.
    pub fn new(reader: R, writer: W) -> PipeWire<R, W>
        ensures reader { result.source.stream.reader ≡ reader }
        ensures writer { result.sink.stream.writer ≡ writer }
        ensures quiet { result.faults ≡ 0 }
    {
        PipeWire {
            source: StreamSource::new(ReaderStream { reader }),
            sink: StreamSink::new(WriterStream { writer }),
            faults: 0,
        }
    }

    // Counts a fault.
    fn fail(&mut self)
        ensures rose { self.new.faults ≡ one_more self.old.faults }
        ensures kept { (self.new.source ≡ self.old.source) × (self.new.sink ≡ self.old.sink) }
    {
        self.faults = self.faults.saturating_add(1);
    }
}

impl<R: SteadyRead, W: SteadyWrite> Wire for PipeWire<R, W> {
    ghost view = { λ w. wire_view (W.contents w.sink.stream.writer) (R.remaining w.source.stream.reader) w.faults };

    fn send(&mut self, bytes: &[u8]) -> Result<(), WireFault> {
        match self.sink.put(bytes) {
            Ok(()) => Ok(()),
            Err(_) => {
                self.fail();
                Err(WireFault::Failed)
            }
        }
    }

    fn receive(&mut self, into: &mut [u8]) -> Result<(), WireFault> {
        match fill(&mut self.source, into) {
            Ok(()) => Ok(()),
            Err(WireFault::Ended) => Err(WireFault::Ended),
            Err(WireFault::Failed) => {
                self.fail();
                Err(WireFault::Failed)
            }
        }
    }
}

// Fills the room by as many takes as it needs.
fn fill<S: Source>(source: &mut S, into: &mut [u8]) -> Result<(), WireFault>
    ensures { Fills (S.view source.old).left (S.view source.new).left into.new result }
{
    let mut filled = 0;
    'takes: while filled < into.len() {
        match take_after(source, into, filled) {
            Ok(count) => filled += count,
            Err(fault) => return Err(fault),
        }
    }
    Ok(())
}

// One take of some bytes after those at the start of the room.
fn take_after<S: Source>(source: &mut S, into: &mut [u8], filled: usize) -> Result<usize, WireFault>
    requires { filled < length into.old }
    ensures some { IfOk result (λ n. (1 ≤ n) × (filled + n ≤ length into.new)) }
    ensures prefix { take filled into.new ≡ take filled into.old }
    ensures taken { FillsMore (S.view source.old).left (S.view source.new).left filled into.new
        result }
{
    match source.take(&mut into[filled..]) {
        Ok(0) => Err(WireFault::Ended),
        Ok(count) => Ok(count),
        Err(_) => Err(WireFault::Failed),
    }
}
