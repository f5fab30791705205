//! Tests of the crates of documents: the reader, also beside a plain program, trees and what the readers of files share.
#![tactic(auto)]

#[cfg(test)]
mod plain_tests;
#[cfg(test)]
mod table_tests;
#[cfg(test)]
mod tree_tests;
