//! The verdict on a trace from its file and the files of its system.
#![tactic(auto)]

mod judging;

pub use judging::judge;
