//! A plain program that says which short texts are documents, as the grammar does and as slow as it likes, with which tests compare the reader.
#![tactic(auto)]

mod document;
mod parts;
mod tags;

pub use document::is_document;
