//! Laws of documents that are put into one another.
#![tactic(auto)]

mod laws;

pub use laws::{inlined_laws, nest_laws, one_nest};
