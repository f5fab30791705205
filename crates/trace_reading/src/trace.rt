use sim_base::Items;
use system_model::EndKind;
use value_types::PortType;

/// A port as the header of a trace tells it. Its names are bytes as they are, not escaped.
#[derive(Debug, Drop)]
pub struct TracePort {
    pub kind: PortType,
    /// The full name of its component.
    pub component: Items<u8>,
    /// The name of its variable there.
    pub variable: Items<u8>,
}

/// What the first line of a trace tells: counts in a second, and the points from and up to which the run goes, in counts.
#[derive(Clone, Copy, Debug, PartialEq, Eq)]
pub struct Header {
    pub resolution: u64,
    pub start: u64,
    pub stop: u64,
}

/// A line of an instant.
#[derive(Clone, Copy, Debug, PartialEq, Eq)]
pub enum TraceLine {
    /// The n-th instant at the point `t`, in counts, begins.
    At { t: u64, n: u64 },
    /// The port with this number has this value in the instant.
    Value { port: u64, value: i128 },
}

/// A trace as its text tells it. Resolution is counts in a second; start, stop and point are counts.
#[derive(Debug, Drop)]
pub struct Trace {
    pub resolution: u64,
    pub start: u64,
    pub stop: u64,
    /// in the order of their numbers, from 0
    pub ports: Items<TracePort>,
    /// the lines of the instants, in order
    pub lines: Items<TraceLine>,
    /// how the run ended
    pub kind: EndKind,
    /// the point at which it ended
    pub point: u64,
}
