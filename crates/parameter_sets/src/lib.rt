//! What a set of parameter values or a mapping of parameters says, in a file or in a binding, or the first rule that it breaks.
#![tactic(auto)]

mod elements;
mod entries;
mod law;
mod parameters;
mod part;
mod reader;
mod rules;

pub use reader::{read_mapping_in, read_ssm, read_ssv, read_values_in};
