//! A round of calls to the FMUs of a run: each is sent the call of its own job.
#![tactic(auto)]

mod answers;
mod rounds;
mod working;

pub use answers::{first_bad, has_bad};
pub use rounds::round;
