//! Peers that need no FMU: built-in machines, and scripts of given answers, with the spawners that start them.
#![tactic(auto)]

mod alarm;
mod bench;
mod built_in;
mod built_in_state;
mod counter;
mod gain;
mod laws;
mod model;
mod origin;
mod packed;
mod pulse;
mod relay;
mod retired;
mod sampler;
mod saved_state;
mod script;
mod scripts;
mod settle;
mod start_plan;
mod timer;
mod waker;
mod wrap;

pub use bench::{Bench, FailingCall};
pub use built_in::BuiltIn;
pub use built_in_state::{BuiltInState, Numbers};
pub use laws::states_read_back;
pub use model::Model;
pub use origin::Origin;
pub use retired::Retired;
pub use saved_state::SavedState;
pub use script::Script;
pub use scripts::Scripts;
pub use start_plan::StartPlan;
