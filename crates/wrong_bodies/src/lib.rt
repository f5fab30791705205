//! The public calls of the readers and of what puts their files together under their own contracts, over which wrong bodies are tried.
#![tactic(auto)]

mod descriptions;
mod documents;
mod elements;
mod flattening;
mod loading;
mod parameters;
mod structures;
mod traces;
mod values;

pub use descriptions::read_fmu;
pub use documents::{read_document, take_character};
pub use elements::{class_in, find_in, path_of, repeats};
pub use flattening::flatten_tree;
pub use loading::{assemble_system, bind_values, shape_of};
pub use parameters::{read_mapping_file, read_set_file, read_set_within};
pub use structures::{read_one_document, read_structure};
pub use traces::{check_trace, read_text};
pub use values::{bind_sets, judgement_of, orders_of, seen, value_along};
