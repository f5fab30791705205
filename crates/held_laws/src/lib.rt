//! Runs of FMUs that behave well, held and resumed.
#![tactic(auto)]

mod laws;

pub use laws::{asks_within, built_ins_keep, resumes_from_bytes, steps_within};
