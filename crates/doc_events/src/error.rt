use doc_grammar::Rule;
use thiserror::Error;

/// Why there is no tree.
#[derive(Clone, Copy, Debug, Drop, Error, PartialEq, Eq)]
pub enum DocError {
    /// The bytes are no document: the rule that they break, and the byte where.
    #[error("the bytes are no document, at byte {byte}")]
    At { rule: Rule, byte: usize },
    #[error("no memory is left")]
    Memory,
}
