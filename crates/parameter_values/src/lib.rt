//! Values of parameters as sets and mappings give them, and what a mapping makes of them.
#![tactic(auto)]

mod change;
mod judgement;
mod linear;
mod ready;
mod set;

pub use change::{BooleanPair, Change, IntegerPair};
pub use judgement::Judgement;
pub use linear::scale;
pub use ready::ReadyChange;
pub use set::{Mapping, MappingEntry, Parameter, ParameterSet, ParameterValue, Transformation};
