//! The calls of an FMU, which of them FMI 3.0 permits when, and what a reply is worth.
#![tactic(auto)]

mod call;
mod kind_facts;
mod marks;
mod next;
mod permission;
mod phase;
mod worth;

pub use call::{BadStatus, Call, Content, Grade, Interval, Kind, Reply, Status};
pub use kind_facts::{KindFacts, Part};
pub use marks::Marks;
pub use next::next_phase;
pub use permission::permitted;
pub use phase::{InstanceState, Phase, SavedPhase};
pub use worth::{grade, valid};
