//! What a model description says of its FMU, or the first rule that it breaks.
#![tactic(auto)]

mod absent;
mod clock_rules;
mod dependencies;
mod distinct;
mod elements;
mod ignored;
mod indexed;
mod intervals;
mod law;
mod misread;
mod names;
mod places;
mod reader;
mod rules;
mod shape;
mod texts;
mod timings;
mod variables;

pub use distinct::distinct_references;
pub use reader::read_description;
