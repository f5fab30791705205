//! What a system structure description says of its systems, components and connections, or the first rule that it breaks.
#![tactic(auto)]

mod elements;
mod ends;
mod indexed;
mod kinds;
mod law;
mod listings;
mod lists;
mod names;
mod nested;
mod parts;
mod reader;
mod rules;
mod sorts;
mod sources;
mod tree;

pub use indexed::MOST_COMPONENTS;
pub use law::{one_nested, one_tree, plain_paths};
pub use lists::{DocumentParts, Parts};
pub use names::LONGEST_NAME;
pub use reader::{read_document, read_ssd};
pub use tree::{
    Binding, ComponentPart, Connection, Connector, ConnectorKind, NestedComponent, NestedKind,
    Origin, Owner, Setting, SourceBase, SystemPart, SystemTree, TypeChild,
};
