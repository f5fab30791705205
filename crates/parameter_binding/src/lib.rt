//! Which value binds each parameter of the components of a system, or the first rule that a binding breaks.
#![tactic(auto)]

mod binding;
mod bound;
mod fault;
mod gathered;
mod laws;
mod sets;
mod visit;
mod walk;
mod winners;

pub use binding::bind;
pub use laws::binding_laws;
pub use sets::{BindingSets, MappingOf, ValuesOf};
