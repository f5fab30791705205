//! The parameters that a System or a Component of a tree of systems sees, by their names.
#![tactic(auto)]

mod chains;
mod levels;
mod names;
mod paths;
mod shared;
mod target;
mod targets;

pub use chains::NameChains;
pub use levels::Levels;
pub use paths::full_names;
pub use target::Target;
pub use targets::Targets;
