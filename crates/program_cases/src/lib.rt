//! The contract of the program's call over a body of its own, in whose place wrong bodies are tried.
#![tactic(auto)]

mod answering;

pub use answering::answer_words;
