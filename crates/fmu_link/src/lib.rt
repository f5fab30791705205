//! An FMU in a process of its own as a peer: calls and replies are frames over a wire.
#![tactic(auto)]

mod batches;
mod instance;
mod mem_wire;
mod piped;
mod wire;

pub use instance::Instance;
pub use mem_wire::MemWire;
pub use piped::{Piped, Unmade};
pub use wire::{Wire, WireFault};
