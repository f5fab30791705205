use sim_base::CompId;
use slot_calls::BadAnswer;

/// The point that all FMUs of a step have reached, a count, and whether an answer to one of their last steps asks for the
/// end of the run (FMI 3.0, 4.2.1.2: terminateSimulation of fmi3DoStep).
#[derive(Clone, Copy, Debug, PartialEq, Eq)]
pub struct Agreed {
    pub point: u64,
    pub asked: bool,
}

/// Why a step isn't made.
#[derive(Clone, Copy, Debug, PartialEq, Eq)]
pub enum StepEnd {
    /// The component, the least, would be asked to step from a point to an end, and takes steps of the plan's size alone.
    FixedStep {
        component: CompId,
        at: u64,
        end: u64,
    },
    /// The first answer that isn't good, that of the least component.
    Bad(BadAnswer),
}
