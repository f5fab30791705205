//! Laws of documents that are put into one another: what one document gets that says what they say together.
#![tactic(auto)]

mod laws;

pub use laws::inlined_answers;
