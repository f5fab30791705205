use fmu_peer::Why;
use sim_base::{PartedText, Text};
use system_files::FileFault;

/// How a command ends.
#[derive(Debug, Drop)]
pub(crate) enum Outcome {
    /// The arguments are no command line.
    Words,
    /// Memory ran out before any FMU was called.
    Memory,
    /// A file wasn't taken.
    File {
        path: Text,
        fault: FileFault,
    },
    /// The peer of the component of this name wasn't started.
    Start {
        component: PartedText,
        fault: StartCause,
    },
    /// All peers were started, and the run ended so.
    Ran {
        end: End,
    },
    /// The size of a system, or the numbers of a run, were told.
    Checked,
    /// They couldn't be put.
    Untold,
}

/// How many instants a run had, how many exchanges there were with its FMUs, and how many of these were calls of Restore.
#[derive(Clone, Copy, Debug, PartialEq, Eq)]
pub(crate) struct Numbers {
    pub instants: u128,
    pub calls: u128,
    pub rollbacks: u128,
}

/// Why a peer wasn't started.
#[derive(Clone, Copy, Debug, PartialEq, Eq)]
pub(crate) enum StartCause {
    Failed,
    /// Its model identifier isn't known.
    Unknown,
}

/// How a run ends, with the name of the component that it ends by. Points are counts.
#[derive(Debug, Drop)]
pub(crate) enum End {
    /// at the stop
    Stop,
    /// where a component asked for the end
    Asked,
    /// at a point whose instants reach the most that the plan allows
    EventLimit {
        point: u64,
    },
    /// before the step from a point to an end, whose size isn't the plan's, where this component takes no other
    FixedStep {
        component: PartedText,
        at: u64,
        end: u64,
    },
    /// where a value of a source is lost on its way to this variable of a component, the least of those
    Range {
        component: PartedText,
        variable: Text,
        value: i128,
    },
    /// at a point where the run is held, and its checkpoint was put
    Held {
        point: u64,
    },
    /// by the first answer that isn't good, of this component
    Bad {
        component: PartedText,
        why: Why,
    },
    /// by a put that failed
    WriteFault,
}
