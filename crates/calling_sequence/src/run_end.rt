use crate::BadAnswer;
use event_iteration::LostValue;
use sim_base::CompId;

/// How a run ends. Points are counts over the plan's resolution.
#[derive(Clone, Copy, Debug, PartialEq, Eq)]
pub enum RunEnd {
    /// at the stop
    Stop,
    /// at the point that a step reached in which an FMU asked for the end
    Asked {
        point: u64,
    },
    /// at a point whose instants reach their limit
    EventLimit {
        point: u64,
    },
    /// before a step from `at` to `end`, whose size the component can't take, the least of those
    FixedStep {
        component: CompId,
        at: u64,
        end: u64,
    },
    /// at a point where the value of a source is lost on its way to an input, the least of those
    Range {
        lost: LostValue,
        point: u64,
    },
    /// at a point where the run is held, and its checkpoint was put
    Held {
        point: u64,
    },
    /// by the first answer that isn't good
    Bad(BadAnswer),
    /// by a put that failed
    WriteFault,
}
