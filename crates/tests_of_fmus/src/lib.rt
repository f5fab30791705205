//! Tests of the crates about one FMU and of those at the edge: calls and replies, frames, machines, wires and streams.
#![tactic(auto)]

#[cfg(test)]
mod batch_tests;
#[cfg(test)]
mod clock_tests;
#[cfg(test)]
mod counter_state_tests;
#[cfg(test)]
mod counter_tests;
#[cfg(test)]
mod driving;
#[cfg(test)]
mod edge_tests;
#[cfg(test)]
mod event_tests;
#[cfg(test)]
mod frame_tests;
#[cfg(test)]
mod gain_tests;
#[cfg(test)]
mod link_tests;
#[cfg(test)]
mod many_tests;
#[cfg(test)]
mod paths;
#[cfg(test)]
mod phase_tests;
#[cfg(test)]
mod pipe_tests;
#[cfg(test)]
mod reply_tests;
#[cfg(test)]
mod start_tests;
#[cfg(test)]
mod state_tests;
