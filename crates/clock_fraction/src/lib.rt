//! Fractions of seconds, the decimals that a description gives them by, and the points at which a clock ticks.
#![tactic(auto)]

mod decimal;
mod digits;
mod fraction;
mod law;
mod shortest;
mod ticks;

pub use decimal::from_decimal;
pub use fraction::{Fraction, to_counts};
pub use law::one_decimal;
pub use ticks::{next_tick_after, ticks_at};
