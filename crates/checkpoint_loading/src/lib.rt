//! What a run goes on from, by the file of a checkpoint and the files of its system.
#![tactic(auto)]

mod loading;
mod rest;

pub use loading::load_rest;
pub use rest::{HeldRun, RestEnd};
