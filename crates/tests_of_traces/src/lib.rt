//! Tests of the crates of traces: the text, the reader and the check.
#![tactic(auto)]

#[cfg(test)]
mod check_tests;
#[cfg(test)]
mod checkpoint_tests;
#[cfg(test)]
mod reading_tests;
#[cfg(test)]
mod text_tests;
