//! What the bindings of parameters give.
use doc_tree::Tree;
use parameter_values::{Mapping, ParameterSet};

/// A set of parameter values, and the document that it was read from. One that stands in a document of the
/// outline has none.
#[derive(Drop)]
pub struct GivenSet {
    pub set: ParameterSet,
    pub document: Option<Tree>,
}

/// A mapping of parameters, and the document that it was read from. One that stands in a document of the
/// outline has none.
#[derive(Drop)]
pub struct GivenMapping {
    pub mapping: Mapping,
    pub document: Option<Tree>,
}

/// What a binding gives: its values, and the mapping of their names, where it has one (SSP 1.0, ParameterBinding).
#[derive(Drop)]
pub struct GivenBinding {
    pub values: GivenSet,
    pub mapping: Option<GivenMapping>,
}

/// The documents of a binding's set and of its mapping, where these are files of their own.
#[derive(Drop)]
pub(crate) struct Documents {
    pub values: Option<Tree>,
    pub mapping: Option<Tree>,
}
