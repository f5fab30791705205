use system_model::{Bound, Plan, System};

/// What is run: a system, the values that its parameters are bound to, and a plan by which it is run.
#[derive(Drop)]
pub struct Experiment {
    pub system: System,
    pub bound: Bound,
    pub plan: Plan,
}
