//! How long full names are.
ghost use Rattle.std.specs.Prelude.{◌≡◌, ◌↔◌, ◌+◌, ◌^◌, ◌<◌, ℕ, List, IsTrue, IfOk, MatchOption};
ghost use Rattle.ssd_tree.specs.Indexed.{IsIndexed};
ghost use Rattle.ssd_tree.specs.Names.{HasNameLength};
ghost use Rattle.ssd_tree.specs.Parts.{IsFullName};
ghost use Rattle.ssd_tree.specs.Rules.{IsTooLong};

use crate::elements::holder;
use crate::indexed::IndexedTree;
use doc_tables::{attribute, is_in_root, parent};
use doc_tree::Tree;
use std::alloc::AllocError;

/// The greatest number of bytes of a Component's full name.
pub const LONGEST_NAME: usize = 16_777_216;

// A sum that is a number of this machine.
fn sum(a: usize, b: usize) -> Result<usize, AllocError>
    ensures { IfOk result (λ n. n ≡ a + b) }
{
    a.checked_add(b).ok_or(AllocError)
}

// How many bytes the full name of an element has, where it has one.
fn name_length(tree: &Tree, node: usize) -> Result<Option<usize>, AllocError>
    ensures { IfOk result (λ found. MatchOption found
        ((name : List ℕ) → IsFullName tree.now node name → ⊥)
        (HasNameLength tree.now node)) }
{
    let _above = parent(tree, 0);
    let mut current = node;
    let mut after = 0;
    while let Some(outer) = holder(tree, current, "Elements") {
        let Some(own) = attribute(tree, current, "name") else {
            return Ok(None);
        };
        if is_in_root(tree, outer) {
            return Ok(Some(sum(own.len(), after)?));
        }
        after = sum(sum(own.len(), 1)?, after)?;
        current = outer;
    }
    Ok(None)
}

fn is_longer(above: usize, length: usize) -> bool
    ensures { IsTrue result ↔ (2 ^ 24 < above + length) }
{
    above.saturating_add(length) > LONGEST_NAME
}

impl IndexedTree<'_> {
    /// Whether the full name of a Component, with what stands before it, is too long.
    pub(crate) fn is_too_long(&self, node: usize) -> Result<bool, AllocError>
        requires { IsIndexed self.now }
        ensures { IfOk result (λ b. IsTrue b ↔ IsTooLong self.now.setting self.now.tree.now node) }
    {
        if !self.is_component(node) {
            return Ok(false);
        }
        match name_length(self.tree, node)? {
            Some(length) => Ok(is_longer(self.setting.name_above, length)),
            None => Ok(false),
        }
    }
}
