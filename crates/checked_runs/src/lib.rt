//! What calls of the program say of one another: the check of a trace that a run wrote, and a run in two parts.
#![tactic(auto)]

mod laws;
mod parts;

pub use laws::runs_are_checked;
pub use parts::runs_in_parts;
