//! The values of a system's ports in an instant, of which only those are walked that are there.
#![tactic(auto)]

mod values;

pub use values::PortValues;
