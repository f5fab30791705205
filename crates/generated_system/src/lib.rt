//! A system of built-in machines, generated from a seed: what a speed is measured over.
#![tactic(auto)]

mod components;
mod counts;
mod drawn;
mod draws;
mod generated;
mod laws;
mod parts;
mod ports;
mod run;
mod shapes;

pub use counts::{CallCounts, call_counts};
pub use generated::{GeneratedSystem, bench_system};
pub use laws::{counted_talks, generated_systems};
pub use run::{EmptySink, bench_plan};
