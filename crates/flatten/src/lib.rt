//! A system of components, ports and feeds from a tree of systems and the shapes of its components, or the first rule that they break.
#![tactic(auto)]

mod components;
mod connectors;
mod feeds;
mod flat;
mod law;
mod marks;
mod names;
mod ports;
mod roles;
mod rules;

pub use flat::flatten;
pub use law::whole_documents;
pub use rules::MOST_PORTS;
