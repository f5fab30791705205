use fmu_peer::Why;
use sim_base::CompId;

/// An answer that isn't good, and of which component.
#[derive(Clone, Copy, Debug, PartialEq, Eq)]
pub struct BadAnswer {
    pub component: CompId,
    pub why: Why,
}
