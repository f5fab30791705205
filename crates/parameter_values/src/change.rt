ghost use Rattle.std.specs.Prelude.{◌≡◌, IfOk};

use sim_base::Items;
use std::alloc::{AllocError, Global};

/// An entry of an integer mapping. Both are from -2^63 to 2^64 - 1.
#[derive(Clone, Copy, Debug, PartialEq, Eq)]
pub struct IntegerPair {
    pub source: i128,
    pub target: i128,
}

/// An entry of a Boolean mapping.
#[derive(Clone, Copy, Debug, PartialEq, Eq)]
pub struct BooleanPair {
    pub source: bool,
    pub target: bool,
}

/// How a mapping or a connection changes a value (SSP 1.0, transformations). Of several pairs of one source the last counts.
#[derive(Debug, Drop)]
pub enum Change {
    /// `factor * value + offset`
    Linear { factor: i64, offset: i64 },
    Integers { pairs: Items<IntegerPair> },
    Booleans { pairs: Items<BooleanPair> },
}

// The same pairs in a list of their own.
fn copied<T: Copy>(alloc: Global, pairs: &[T]) -> Result<Items<T>, AllocError>
    ensures { IfOk result (λ items. items ≡ pairs.now) }
{
    let mut items = Vec::with_capacity(alloc, pairs.len())?;
    for pair in pairs {
        items.push(*pair)?;
    }
    Ok(Items::from_vec(items))
}

impl Change {
    /// The same change with lists of its own.
    pub fn copy(&self, alloc: Global) -> Result<Change, AllocError>
        ensures { IfOk result (λ change. change ≡ self.now) }
    {
        match self {
            Change::Linear { factor, offset } => Ok(Change::Linear {
                factor: *factor,
                offset: *offset,
            }),
            Change::Integers { pairs } => Ok(Change::Integers {
                pairs: copied(alloc, pairs.as_slice())?,
            }),
            Change::Booleans { pairs } => Ok(Change::Booleans {
                pairs: copied(alloc, pairs.as_slice())?,
            }),
        }
    }
}
