//! Tests of the command line: arguments that ask for something, and arguments that are no command line.
#![tactic(auto)]

#[cfg(test)]
mod line_tests;
