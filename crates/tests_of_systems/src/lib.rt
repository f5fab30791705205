//! Tests of the crates of systems: orders and loops, paths of connections and the values that come along them, orders of ports, generated systems.
#![tactic(auto)]

#[cfg(test)]
mod carrying_tests;
#[cfg(test)]
mod generated_tests;
#[cfg(test)]
mod order_tests;
#[cfg(test)]
mod path_tests;
#[cfg(test)]
mod port_tests;
