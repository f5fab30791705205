//! The outside of the programs: files of the host as a folder, a stream that is written to as a sink, and one that is read from as a source.
#![tactic(auto)]

mod files;
mod in_streams;
mod streams;

pub use files::{HostFiles, OpenFiles, OpenedFile, OpenedFolder, ReaderFile, read_opened};
pub use in_streams::{InStream, ReaderStream, StreamSource};
pub use streams::{SteadyWrite, Stream, StreamSink, WriterStream};
