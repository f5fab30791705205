//! What is run: a system of components, ports and connections, when it is sound, the values of its parameters, a plan, and the text of a trace.
#![tactic(auto)]

mod bound;
mod carrying;
mod laws;
mod plan;
mod system;

pub use bound::{Bound, BoundValue};
pub use carrying::carried;
pub use laws::sound_systems;
pub use plan::{EndKind, Plan};
pub use system::{Component, Feed, Port, Role, System, Timing};
