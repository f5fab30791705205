//! Tests of the crates of words, types and the schedule: texts, lists and the outside in memory, fractions, values, ticks.
#![tactic(auto)]

#[cfg(test)]
mod base_tests;
#[cfg(test)]
mod fraction_tests;
#[cfg(test)]
mod tick_tests;
#[cfg(test)]
mod type_tests;
