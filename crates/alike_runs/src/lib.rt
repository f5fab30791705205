//! Runs that differ alone in the orders of their ports and in the number of workers: the same run.
#![tactic(auto)]

mod laws;

pub use laws::orders_and_workers_are_free;
