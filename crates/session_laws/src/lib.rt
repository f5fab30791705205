//! Laws of a system whose peers tell machines: what is put is their one trace.
#![tactic(auto)]

mod laws;

pub use laws::runs_of_machines;
