//! Laws of the built-in machines along runs.
#![tactic(auto)]

mod laws;

pub use laws::{built_in_runs, built_ins_read_back};
