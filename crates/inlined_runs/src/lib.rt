//! What the program does with documents that stand in one another, and with the one document that says what they say together: the same.
#![tactic(auto)]

mod laws;

pub use laws::{inlined_runs, one_fixed_end, one_lost_value};
