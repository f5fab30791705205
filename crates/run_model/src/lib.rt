//! What a run is: the equations of its instants, what follows them, and its one trace.
#![tactic(auto)]

mod laws;

pub use laws::{
    always_behaves, one_next, one_solution, one_trace, plain_traces, situation_laws, type_laws,
    walk_laws,
};
