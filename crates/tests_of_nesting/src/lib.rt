//! Tests of documents that stand in one another.
#![tactic(auto)]

#[cfg(test)]
mod documents;
#[cfg(test)]
mod nesting_tests;
#[cfg(test)]
mod reader_tests;
#[cfg(test)]
mod same;
