//! Types of variables, their values and words, and what a description says of an FMU.
#![tactic(auto)]

mod by_reference;
mod joint;
mod listed;
mod reading;
mod shape;
mod values;

pub use by_reference::{ByReference, Referenced};
pub use clock_fraction::Fraction;
pub use joint::{Class, Joint, class_of, connectable};
pub use reading::read_value;
pub use shape::{Causality, ClockTiming, Dependency, IntervalVariability, Knowns, Shape, Variable};
pub use values::{PortType, fits, from_word, greatest_value, least_value, to_word};
