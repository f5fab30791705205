use crate::RunEnd;

/// How a run ends, before its end line.
#[derive(Clone, Copy, Debug, PartialEq, Eq)]
pub struct Ending {
    pub end: RunEnd,
    /// The point that the end line names, a count over the plan's resolution: where the run stands.
    pub point: u64,
}

/// What breaks a run off.
#[derive(Clone, Copy, Debug, PartialEq, Eq)]
pub enum Break {
    /// The end of the run, whose end line is still to be put.
    Ends(Ending),
    /// A put that failed: nothing is put after it.
    Write,
}
