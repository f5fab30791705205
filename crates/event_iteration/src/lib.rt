//! The walks through the ports of a system that find the values of Initialization Mode and of instants, and what its Clocks
//! are asked for.
#![tactic(auto)]

mod clocks;
mod initialization;
mod inputs;
mod instants;
mod intervals;
mod laws;
mod lost;
mod participants;
mod reads;
mod skips;
mod turn;
mod updates;
mod walk;
mod walk_laws;

pub use clocks::{clock_of, fix_clocks, schedule_of};
pub use initialization::initialize;
pub use inputs::set_inputs;
pub use instants::instant;
pub use intervals::ask_intervals;
pub use laws::parts_of_machines;
pub use lost::{LostValue, lost_in_instant, lost_initially};
pub use participants::{Participants, await_unfed};
pub use reads::InitialReads;
pub use skips::Skips;
pub use updates::{Updated, update};
pub use walk::NO_ANSWER;
pub use walk_laws::walk_calls;
