//! What the readers of documents share: accessors of elements, tables of the first element of each name, and refusals.
#![tactic(auto)]

mod elements;
mod names;
mod refusals;
mod scopes;

pub use elements::{
    attribute, children, is_in_root, is_named, lacks, lacks_text, name, parent, text_of,
    unless_empty,
};
pub use names::NamePlaces;
pub use refusals::refusal;
pub use scopes::ScopedPlaces;
