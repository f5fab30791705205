//! An exact reader of the simulator's documents, an XML 1.0 subset, character by character: what each completes, or why no document goes on with it.
#![tactic(auto)]

mod attributes;
mod declaration;
mod error;
mod markup;
mod reader;
mod references;
mod state;
mod tags;

pub use attributes::{Attribute, Attributes, text_of};
pub use doc_grammar::Rule;
pub use error::DocError;
pub use reader::refusal;
pub use state::{Reader, Stop, Token};
