//! The public calls of the crates of the engine and of the master under their own contracts, over which wrong bodies are tried.
#![tactic(auto)]

mod sequence;
mod slots;
mod steps;
mod walks;

pub use sequence::{hold_all, resume_all, run_master};
pub use slots::{keep_state, send_each, send_round};
pub use steps::{do_round, step_together};
pub use walks::{set_all_inputs, take_instant, update_all};
