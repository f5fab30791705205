//! Laws of what a sound system structure description says of its systems.
#![tactic(auto)]

mod laws;

pub use laws::{named_trees, orderly_trees};
