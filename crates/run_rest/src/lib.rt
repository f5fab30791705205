//! A run that is held and resumed.
#![tactic(auto)]

mod laws;

pub use laws::{
    bytes_read_back, held_once, joins, lasting_reads_back, one_rest, resumes, resumption, splits,
    steps_in_two,
};
