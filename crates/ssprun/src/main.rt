//! The program: its arguments, files, streams and FMUs are those of the host.
#![tactic(auto)]

use child_hosts::Hosts;
use host_edge::{HostFiles, OpenedFolder, StreamSink, WriterStream};
use run_program::run_args;
use std::env;
use std::process::ExitCode;

fn main(rt: HostRuntime) -> ExitCode {
    let mut folder = OpenedFolder::new(rt.alloc(), HostFiles::new(&rt));
    let mut spawner = Hosts::new(rt.alloc(), &rt);
    let mut out = StreamSink::new(WriterStream {
        writer: rt.stdout(),
    });
    let mut err = StreamSink::new(WriterStream {
        writer: rt.stderr(),
    });
    ExitCode::from(run_args(
        &rt,
        rt.alloc(),
        env::args(&rt),
        &mut folder,
        &mut spawner,
        &mut out,
        &mut err,
    ))
}
