//! Whether the trace of a run keeps the rules of its system, or the first line that breaks one.
#![tactic(auto)]

mod checking;
mod inputs;
mod instant;
mod laws;
mod ports;
mod reading;
mod sources;
mod ticks;
mod verdict;

pub use checking::check;
pub use laws::laws_of_checks;
pub use verdict::Verdict;
