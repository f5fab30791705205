//! The public calls of the crates of words, types, orders, paths and the schedule under their own contracts, over which wrong bodies are tried.
#![tactic(auto)]

mod fractions;
mod orders;
mod paths;
mod schedule;
mod types;
mod words;

pub use fractions::{counts_of, decimal_of, next_tick};
pub use orders::{order_of, reached};
pub use paths::{make_ready, paths_before, sources};
pub use schedule::{go_on, resume_at, set_event, ticks_at};
pub use types::{find_place, how_joined, value_of_word};
pub use words::{hand_on, put_in_memory, read_in_memory};
