use parameter_values::{Mapping, ParameterSet};

/// The values of a binding. `file` is the place of their file in the order of reading.
#[derive(Debug, Drop)]
pub struct ValuesOf {
    pub file: usize,
    pub set: ParameterSet,
}

/// The mapping of a binding. `file` is the place of its file in the order of reading.
#[derive(Debug, Drop)]
pub struct MappingOf {
    pub file: usize,
    pub mapping: Mapping,
}

/// What a binding gives: its values, and the mapping of their names, where it has one.
#[derive(Debug, Drop)]
pub struct BindingSets {
    pub values: ValuesOf,
    pub mapping: Option<MappingOf>,
}
