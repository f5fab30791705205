//! The command line of the program: the arguments that it takes, and the options that they denote.
#![tactic(auto)]

mod clap_command;
mod fault;
mod form;
mod lines;
mod values;
mod words;

pub use fault::WordsFault;
pub use values::read_count;
pub use words::{
    BUILT_IN_HOST, BenchOptions, CheckOptions, CheckpointOptions, CommandLine, Options, Request,
    ResumeOptions, TraceOptions, read_words,
};
