//! A step on whose end the FMUs of a run agree, as a log: what it is, and the laws of it.
#![tactic(auto)]

mod laws;

pub use laws::laws_of_agreed_steps;
