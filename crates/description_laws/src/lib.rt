//! Laws of what a sound model description says of its FMU.
#![tactic(auto)]

mod laws;

pub use laws::read_shapes;
