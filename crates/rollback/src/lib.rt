//! A step on whose end all FMUs of a run agree: they are saved, put back and asked again until they meet.
#![tactic(auto)]

mod agreeing;
mod asking;
mod places;
mod step_end;
mod stepping;

pub use step_end::{Agreed, StepEnd};
pub use stepping::agreed_step;
