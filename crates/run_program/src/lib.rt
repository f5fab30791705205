//! The work of the program, from the arguments of its command line to its status: it reads the descriptions of a system of
//! FMUs, runs it, and writes the trace.
#![tactic(auto)]

mod args;
mod bench;
mod held;
mod message;
mod names;
mod naming;
mod outcome;
mod peers;
mod refusing;
mod report;
mod request;
mod run;
mod trace_verdict;

pub use args::run_args;
pub use run::run_words;
