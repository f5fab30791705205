ghost use Rattle.std.specs.Prelude.{None, refl};

use host_edge::{
    OpenFiles, OpenedFolder, ReaderFile, ReaderStream, SteadyWrite, StreamSink, StreamSource,
    WriterStream,
};
use sim_base::{Folder, ReadFault, Sink, Source};
use std::alloc::Global;
use std::io::{self, ErrorKind, Write};

// A host with one file.
#[derive(Drop)]
struct OneFile;

impl OpenFiles for OneFile {
    type File = ReaderFile<&'static [u8]>;

    ghost opened = { λ f. None };

    fn open(&mut self, path: &str) -> io::Result<ReaderFile<&'static [u8]>> {
        if path == "d/here" {
            Ok(ReaderFile::new(b"abc"))
        } else {
            Err(ErrorKind::NotFound.into())
        }
    }
}

// What is read of a path within a limit: the number of bytes, or why none are.
static READS: [(&str, u64, Result<usize, ReadFault>); 3] = [
    ("d/here", 3, Ok(3)),
    ("d/here", 2, Err(ReadFault::TooBig { length: 3 })),
    ("d/there", 3, Err(ReadFault::Missing)),
];

fn is_read_as(alloc: Global, row: &(&str, u64, Result<usize, ReadFault>)) -> bool {
    let mut folder = OpenedFolder::new(alloc, OneFile);
    match (folder.read(alloc, row.0, row.1), row.2) {
        (Ok(bytes), Ok(length)) => bytes.len() == length && bytes.as_slice() == b"abc".as_slice(),
        (Err(fault), Err(wanted)) => fault == wanted,
        _ => false,
    }
}

#[test]
fn opened_files_are_a_folder(rt: HostRuntime) {
    let alloc = rt.alloc();
    assert_eq!(rt; READS.iter().position(|row| !is_read_as(alloc, row)), None);
}

// A writer in memory.
#[derive(Drop)]
pub(crate) struct Written {
    pub(crate) bytes: Vec<u8>,
}

impl Write for Written {
    fn write(&mut self, bytes: &[u8]) -> io::Result<usize> {
        self.bytes.write(bytes)
    }

    fn flush(&mut self) -> io::Result<()> {
        self.bytes.flush()
    }
}

impl SteadyWrite for Written {
    ghost steady = { λ v w. refl };
}

fn is_put(sink: &mut StreamSink<WriterStream<Written>>) -> bool {
    sink.put(b"abc") == Ok(())
        && sink.put(b"de") == Ok(())
        && sink.stream.writer.bytes.as_slice() == b"abcde".as_slice()
        && sink.faults == 0
}

#[test]
fn a_writer_is_a_sink(rt: HostRuntime) {
    let writer = Written {
        bytes: Vec::new(rt.alloc()),
    };
    let mut sink = StreamSink::new(WriterStream { writer });
    assert!(rt; is_put(&mut sink));
}

fn is_taken(source: &mut StreamSource<ReaderStream<&'static [u8]>>) -> bool {
    let mut into = [0; 3];
    source.take(&mut into) == Ok(3)
        && into.as_slice() == b"abc".as_slice()
        && source.take(&mut into) == Ok(2)
        && into.as_slice() == b"dec".as_slice()
        && source.take(&mut into) == Ok(0)
        && source.faults == 0
}

#[test]
fn a_reader_is_a_source(rt: HostRuntime) {
    let bytes: &'static [u8] = b"abcde";
    let mut source = StreamSource::new(ReaderStream { reader: bytes });
    assert!(rt; is_taken(&mut source));
}
