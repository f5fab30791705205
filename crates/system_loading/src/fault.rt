use doc_tree::{Place, Rule};

/// Why the bytes of a description aren't taken.
#[derive(Debug, Drop)]
pub enum Fault {
    /// They break this rule first, at this place.
    Broken { rule: Rule, place: Place },
    /// Out of memory.
    Memory,
}
