//! Laws of the course of a run: what holds of its calls and answers, for any replies.
#![tactic(auto)]

mod laws;

pub use laws::calls_of_runs;
