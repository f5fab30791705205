//! Tests of rounds and agreed steps by any number of workers, over FMUs from scripts and over peers that wait for one another.
#![tactic(auto)]

#[cfg(test)]
mod agreed_tests;
#[cfg(test)]
mod exchanges;
#[cfg(test)]
mod meeting;
#[cfg(test)]
mod meeting_tests;
#[cfg(test)]
mod round_tests;
#[cfg(test)]
mod scripts;
#[cfg(test)]
mod slots;
