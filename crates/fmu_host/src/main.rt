//! The program: it serves a built-in machine, whose description it reads, to a master at the other end of its streams.
#![tactic(auto)]

mod hosting;
mod quiet;
#[cfg(test)]
mod tests;
mod words;

use host_edge::{HostFiles, OpenedFolder, ReaderStream, StreamSink, StreamSource, WriterStream};
use hosting::host_args;
use std::env;
use std::process::ExitCode;

fn main(rt: HostRuntime) -> ExitCode {
    let mut folder = OpenedFolder::new(rt.alloc(), HostFiles::new(&rt));
    let mut input = StreamSource::new(ReaderStream { reader: rt.stdin() });
    let mut output = StreamSink::new(WriterStream {
        writer: rt.stdout(),
    });
    ExitCode::from(host_args(
        rt.alloc(),
        env::args(&rt),
        &mut folder,
        &mut input,
        &mut output,
    ))
}
