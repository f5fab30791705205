//! When the time-based Clocks of a run tick: which is due at a point, and which point comes next.
#![tactic(auto)]

mod clock;
mod heap;
mod laws;
mod pending;
pub mod plain;
mod points;
mod schedule;
mod sift;
mod steps;

pub use clock::{ClockState, TimeClock};
pub use laws::resumed_ticks;
pub use pending::Pending;
pub use schedule::Schedule;
pub use steps::Steps;
