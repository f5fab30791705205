//! Which of some paths begin a name.
#![tactic(auto)]

mod prefixes;

pub use prefixes::Prefixes;
