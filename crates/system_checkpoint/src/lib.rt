//! A checkpoint of a run: what a run that is held keeps, as bytes, exactly both ways.
#![tactic(auto)]

mod first;
mod laws;
mod lists;
mod parts;
mod plans;
mod putting;
mod snapshot;
mod whole;

pub use first::read_plan;
pub use laws::checkpoint_laws;
pub use plans::plan_laws;
pub use putting::{
    checkpoint_len, put_arming, put_checkpoint, put_first, put_option, put_sized, put_times,
};
pub use snapshot::{Arming, CheckpointFault, ClockTimes, Snapshot};
pub use whole::read_checkpoint;
