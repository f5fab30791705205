use sim_base::{Items, Text};
use system_model::{Bound, System};

/// A system that files describe, the values that its bindings give to parameters, and the folder of each component's FMU, in
/// the order of the components.
#[derive(Debug, Drop)]
pub struct Loaded {
    pub system: System,
    pub bound: Bound,
    pub folders: Items<Text>,
}
