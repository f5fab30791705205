use crate::BadAnswer;
use fmu_peer::Peer;

/// Why a system wasn't prepared.
#[derive(Clone, Copy, Debug, PartialEq, Eq)]
pub enum PrepareFault {
    Memory,
    /// The answer to an Instantiate isn't good.
    Bad(BadAnswer),
}

/// The peers of a system that wasn't prepared, closed and in their order, and why.
pub struct PrepareEnd<L: Peer> {
    pub peers: Vec<L>,
    pub fault: PrepareFault,
}
