//! FMUs in child processes: a wire over a child's pipes, and the spawner of the program.
#![tactic(auto)]

mod child_fmu;
mod hosts;
mod link;
mod pipe_wire;

pub use child_fmu::{ChildFmu, Pipes};
pub use hosts::Hosts;
pub use link::HostLink;
pub use pipe_wire::{ChildInput, PipeWire, SteadyRead};
