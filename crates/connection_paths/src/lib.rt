//! From where a path of connections leads to each connector.
#![tactic(auto)]

mod firsts;
mod links;
mod point;
mod sources;

pub use point::{Connection, Point};
pub use sources::sources_of;
