//! Calls to the FMUs of a run in their slots, and the one log of all calls with their answers.
#![tactic(auto)]

mod advancing;
mod ask;
mod bad_answer;
mod keeping;
mod sending;
mod stage;

pub use advancing::{advance, is_fatal, is_terminating};
pub use ask::Ask;
pub use bad_answer::BadAnswer;
pub use keeping::{keep, restore};
pub use sending::{send, send_many, value_in};
pub use stage::{each, round};
