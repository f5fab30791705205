//! Tests of the readers of files: descriptions, structures, names of parameters, sets and mappings.
#![tactic(auto)]

#[cfg(test)]
mod description_tests;
#[cfg(test)]
mod prefix_tests;
#[cfg(test)]
mod set_tests;
#[cfg(test)]
mod shape_tests;
#[cfg(test)]
mod structure_tests;
#[cfg(test)]
mod text_tests;
#[cfg(test)]
mod value_tests;
