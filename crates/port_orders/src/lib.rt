//! The two stored orders of a system: each port after all that it needs, in instants and in Initialization Mode; or a loop.
#![tactic(auto)]

mod gathering;
mod index;
mod needs;
mod orders;
mod placed;
mod roles;

pub use orders::{OrderFault, Orders, order_system};
pub use placed::are_placed;
