//! The run over slots: the calling sequence from instances that were made to the end line of the trace.
#![tactic(auto)]

mod bounds;
mod buffers;
mod ending;
mod experiment;
mod holding;
mod initialization;
mod instants;
mod kept;
mod parameters;
mod resuming;
mod resumption;
mod run;
mod run_end;
mod steps;
mod text;

pub use buffers::{Buffers, NoMemory};
pub use ending::{Break, Ending};
pub use experiment::Experiment;
pub use holding::{Keeping, hold_slots};
pub use resuming::resume_slots;
pub use run::run_slots;
pub use run_end::RunEnd;
pub use slot_calls::BadAnswer;
