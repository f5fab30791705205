use crate::Change;
use sim_base::{Items, Text};

/// The value of a Parameter, by its first typed child (SSP 1.0, Parameter).
#[derive(Clone, Copy, Debug, PartialEq, Eq)]
pub enum ParameterValue {
    /// from -2^63 to 2^64 - 1
    Integer(i128),
    Boolean(bool),
    /// of another type, or of none: no parameter of this profile takes it
    Other,
}

/// A Parameter of a set. `node` is the number of its element in its document, as it is of all parts.
#[derive(Debug, Drop)]
pub struct Parameter {
    pub node: usize,
    pub name: Text,
    pub value: ParameterValue,
}

/// A set of parameter values, in document order (SSP 1.0, ParameterSet).
#[derive(Debug, Drop)]
pub struct ParameterSet {
    pub parameters: Items<Parameter>,
}

/// What an entry of a mapping does to a value.
#[derive(Debug, Drop)]
pub struct Transformation {
    pub node: usize,
    pub change: Change,
}

/// An entry of a mapping: the parameters of the name `source` are given under the name `target`.
#[derive(Debug, Drop)]
pub struct MappingEntry {
    pub node: usize,
    pub source: Text,
    pub target: Text,
    /// the first transformation that it has
    pub transformation: Option<Transformation>,
}

/// A mapping of parameters, in document order (SSP 1.0, ParameterMapping).
#[derive(Debug, Drop)]
pub struct Mapping {
    pub entries: Items<MappingEntry>,
}
