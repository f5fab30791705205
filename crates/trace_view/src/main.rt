//! The program: it shows a trace as a table, as waves or as a picture, and compares two traces.
#![tactic(auto)]

mod commands;
mod words;

use commands::run_args;
use host_edge::{StreamSink, WriterStream};
use std::env;
use std::process::ExitCode;
use trace_export::Output;

fn main(rt: HostRuntime) -> ExitCode {
    let mut out = Output::new(
        rt.alloc(),
        StreamSink::new(WriterStream {
            writer: rt.stdout(),
        }),
    );
    let mut err = Output::new(
        rt.alloc(),
        StreamSink::new(WriterStream {
            writer: rt.stderr(),
        }),
    );
    ExitCode::from(run_args(&rt, env::args(&rt), &mut out, &mut err))
}
