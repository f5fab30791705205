//! Laws of told machines along the course of a run: a log of them is their run, and those that behave well get no bad
//! answer.
#![tactic(auto)]

mod laws;

pub use laws::{logs_of_machines, logs_of_rests};
