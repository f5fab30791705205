//! The documents that the simulator reads: their grammar, the faults of a text that is none, and a machine that tells both.
#![tactic(auto)]

mod characters;
mod laws;
mod reasons;

pub use characters::{Class, class_of};
pub use laws::document_laws;
pub use reasons::{Rule, Why};
