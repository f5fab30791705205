use sim_base::{Items, SharedBytes};
use system_model::Plan;
use thiserror::Error;

/// What a run that is held keeps, at a point that is done: all FMUs are in Step Mode.
#[derive(Debug, Drop)]
pub struct Snapshot {
    /// the plan, with one worker and the first version of the link
    pub plan: Plan,
    /// where the run is held, in counts
    pub point: u64,
    /// the state of each component, as fmi3SerializeFMUState gives it: a part of the bytes that were read
    pub states: Items<SharedBytes>,
    /// the word of each port, if it has had a value
    pub words: Items<Option<u64>>,
    /// of each port the interval and the shift that its Clock was asked for
    pub times: Items<Option<ClockTimes>>,
    /// of each port what its Clock is armed for
    pub armings: Items<Arming>,
    /// the event time of each component, in counts
    pub events: Items<Option<u64>>,
}

/// The interval and the shift of a Clock that was asked for them, in counts.
#[derive(Clone, Copy, Debug, PartialEq, Eq)]
pub struct ClockTimes {
    pub interval: u128,
    pub shift: u128,
}

/// What the Clock of a port is armed for.
#[derive(Clone, Copy, Debug, PartialEq, Eq)]
pub enum Arming {
    /// the port is no countdown or changing Clock
    NoClock,
    Unarmed,
    /// the point of its next tick, in counts
    At(u64),
}

/// Why bytes aren't read as a checkpoint.
#[derive(Clone, Copy, Debug, Drop, Error, PartialEq, Eq)]
pub enum CheckpointFault {
    /// They are none. The byte at this place is the first that continues none, or they end there.
    #[error("no checkpoint of this system, at byte {at}")]
    Bad { at: u64 },
    #[error("no memory is left")]
    Memory,
}
