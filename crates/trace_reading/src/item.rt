use crate::trace::TraceLine;
use system_model::EndKind;

/// A line after the ports.
#[derive(Clone, Copy, Debug, PartialEq, Eq)]
pub enum Item {
    /// a line of an instant
    Row(TraceLine),
    /// the last line: the run ended so at the point `t`
    End { kind: EndKind, t: u64 },
}

/// Where the reading of the lines after the ports stands.
#[derive(Clone, Copy, Debug, PartialEq, Eq)]
pub enum Place {
    /// before the first instant
    Between,
    /// in an instant; the next value is that of this port or of a later one
    Within { next: usize },
    /// after the end line
    Ended { kind: EndKind, t: u64 },
}
