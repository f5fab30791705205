//! Tests that cross crates. What they show of a crate below says its README.
#![tactic(auto)]

#[cfg(test)]
mod chain;
#[cfg(test)]
mod chain_master_tests;
#[cfg(test)]
mod closing;
mod counted;
#[cfg(test)]
mod driver;
#[cfg(test)]
mod exchanges;
#[cfg(test)]
mod family_tests;
#[cfg(test)]
mod master_tests;
mod own_counter;
#[cfg(test)]
mod own_machine_tests;
#[cfg(test)]
mod scripts;
#[cfg(test)]
mod talk_tests;
mod ticker;
#[cfg(test)]
mod ticking;
#[cfg(test)]
mod trio;
