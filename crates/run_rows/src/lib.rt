//! Worked examples of runs: each is a law on a small system, its machines and its one trace.
#![tactic(auto)]

mod rows;

pub use rows::{
    alarmed_trace, calls_trace, counted_trace, events_trace, fixed_trace, gains_trace, limit_trace,
    pulsed_trace, quiet_laws, relayed_trace, samplers_trace, steps_trace, ticks_trace, timer_trace,
    woken_trace,
};
