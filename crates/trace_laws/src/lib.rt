//! Laws of the traces that runs have: each keeps the rules of its system.
#![tactic(auto)]

mod laws;

pub use laws::traces_keep_rules;
