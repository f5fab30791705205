use crate::Rule;
use sim_base::{Items, PortId};
use thiserror::Error;

/// Why a document isn't a description, a system or parameters: the rule that it breaks at one of its elements.
#[derive(Debug, Drop, Error)]
pub enum Refusal {
    /// `file` is the place in the order of reading, and `ports` are those of a loop.
    #[error("rule {} is broken at element {node} of file {file}", rule.number())]
    At {
        file: usize,
        node: usize,
        rule: Rule,
        ports: Items<PortId>,
    },
    #[error("no memory is left")]
    Memory,
}
