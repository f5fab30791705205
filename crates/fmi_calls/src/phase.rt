ghost use Rattle.std.specs.Prelude.{◌≡◌, IfOk};
ghost use Rattle.fmi_calls.specs.Permission.{can_be_freed, is_running};
ghost use Rattle.fmi_calls.specs.Next.{fresh, HasMarks};

use crate::Marks;
use std::alloc::{AllocError, Global};
use value_types::Shape;

/// Where an instance stands (FMI 3.0, 4.2.1). A dead one may only be freed, a lost one may be sent nothing more.
#[derive(Clone, Copy, Debug, PartialEq, Eq)]
pub enum InstanceState {
    Fresh,
    Instantiated,
    Initialization,
    Event,
    Step,
    Terminated,
    Dead,
    Lost,
    Gone,
}

/// What a saved state brings back of the phase: the point, a count, and the marks. Where no state is saved, both are left
/// over.
#[derive(Debug, Drop)]
pub struct SavedPhase {
    pub is_full: bool,
    pub point: u64,
    pub marks: Marks,
}

/// The phase of an FMU: its state and what else decides which call is permitted. Points are counts.
#[derive(Debug, Drop)]
pub struct Phase {
    pub state: InstanceState,
    /// the current point
    pub point: u64,
    pub stop: u64,
    /// the size of the first step
    pub first_size: Option<u64>,
    /// in Event Mode, whether an Update comes after its beginning and the last one asked for no other
    pub settled: bool,
    /// which variables were set, and which output Clocks were asked, in Event Mode in this instant, in Step Mode since the
    /// last step
    pub marks: Marks,
    /// which Clocks are active in this instant
    pub active: Marks,
    /// where Save or Deserialize keeps a state
    pub slot: SavedPhase,
    /// how many exchanges there were; it stays at its last value
    pub exchanges: u64,
    /// how many of them were Restore calls; it stays at its last value
    pub restores: u64,
}

impl InstanceState {
    /// Whether the instance is past Initialization Mode and not terminated.
    pub(crate) fn is_running(self) -> bool
        ensures { result ≡ is_running self }
    {
        match self {
            InstanceState::Event | InstanceState::Step => true,
            _ => false,
        }
    }

    /// Whether the instance may be freed, with a saved state or without one.
    pub fn can_be_freed(self, has_saved: bool) -> bool
        ensures { result ≡ can_be_freed self has_saved }
    {
        match self {
            InstanceState::Instantiated
            | InstanceState::Initialization
            | InstanceState::Event
            | InstanceState::Step
            | InstanceState::Terminated => { !has_saved }
            InstanceState::Dead => true,
            InstanceState::Fresh | InstanceState::Lost | InstanceState::Gone => false,
        }
    }
}

impl Phase {
    /// The phase before any call, with the room for the marks of the FMU's variables.
    pub fn fresh(alloc: Global, shape: &Shape) -> Result<Phase, AllocError>
        ensures fresh { IfOk result (λ phase. phase ≡ fresh shape.now) }
        ensures room { IfOk result (HasMarks shape.now) }
    {
        let count = shape.variables.len();
        Ok(Phase {
            state: InstanceState::Fresh,
            point: 0,
            stop: 0,
            first_size: None,
            settled: false,
            marks: Marks::none(alloc, count)?,
            active: Marks::none(alloc, count)?,
            slot: SavedPhase {
                is_full: false,
                point: 0,
                marks: Marks::none(alloc, count)?,
            },
            exchanges: 0,
            restores: 0,
        })
    }

    /// The number of exchanges so far; it stays at its last value.
    pub fn exchanges(&self) -> u64
        ensures { result ≡ self.now.exchanges }
    {
        self.exchanges
    }

    /// The number of Restore calls so far; it stays at its last value.
    pub fn restores(&self) -> u64
        ensures { result ≡ self.now.restores }
    {
        self.restores
    }
}
