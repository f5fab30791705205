//! What is reached along links.
ghost use Rattle.std.specs.Prelude.{◌≡◌, ◌↔◌, ◌<◌, ◌++◌, ◌∷◌, [], ℕ, List, Some, All, IfOk, OnOk, Contains, length};
ghost use Rattle.dependency_order.specs.Graph.{IsClosed};
ghost use Rattle.dependency_order.specs.Paths.{IsMarked, IsReached, IsSingle, IsSpread, at};
ghost use Rattle.dependency_order.specs.Spreading.{Spreads};

use crate::lists::Lists;
use std::alloc::{AllocError, Global};

// From where each node is reached, and the nodes that are reached and whose links aren't followed yet.
#[derive(Drop)]
struct Spreading {
    found: Vec<Option<usize>>,
    work: Vec<usize>,
}

impl Spreading {
    // A link leads to this node.
    fn reach(&mut self, through: &[bool], node: usize, from: usize) -> Result<(), AllocError>
        requires { length through.now ≡ length self.old.found.items }
        ensures { OnOk result (Spreads through.now from (node ∷ []) self.old.found.items
            self.new.found.items self.old.work.items self.new.work.items) }
    {
        if node < self.found.len() && self.found[node].is_none() {
            self.found[node] = Some(from);
            if through[node] {
                self.work.push(node)?;
            }
        }
        Ok(())
    }

    // Links lead to these nodes.
    fn reach_all(
        &mut self,
        through: &[bool],
        nodes: &[usize],
        from: usize,
    ) -> Result<(), AllocError>
        requires { length through.now ≡ length self.old.found.items }
        ensures { OnOk result (Spreads through.now from nodes.now self.old.found.items
            self.new.found.items self.old.work.items self.new.work.items) }
    {
        for node in nodes {
            self.reach(through, *node, from)?;
        }
        Ok(())
    }

    // Follows the links from a node, and from those that are reached.
    fn spread(&mut self, links: &Lists, through: &[bool], from: usize) -> Result<(), AllocError>
        requires closed { IsClosed links.now }
        requires marks { length through.now ≡ length links.now }
        requires from { from < length links.now }
        requires work { self.old.work.items ≡ [] }
        requires len { length self.old.found.items ≡ length links.now }
        ensures work { OnOk result (self.new.work.items ≡ []) }
        ensures len { OnOk result (length self.new.found.items ≡ length links.now) }
        ensures spread { OnOk result ((starts : List ℕ) →
            IsSpread links.now through.now starts self.old.found.items →
            IsSpread links.now through.now (starts ++ from ∷ []) self.new.found.items) }
    {
        self.reach_all(through, links.row(from), from)?;
        while let Some(node) = self.work.pop() {
            self.reach_all(through, links.row(node), from)?;
        }
        Ok(())
    }
}

/// For each node a start from which it is reached, through marked nodes alone: the first of them, where there are several.
pub fn reached_from(
    alloc: Global,
    links: &Lists,
    through: &[bool],
    starts: &[usize],
) -> Result<Vec<Option<usize>>, AllocError>
    requires closed { IsClosed links.now }
    requires marks { length through.now ≡ length links.now }
    requires starts { All (λ s. s < length links.now) starts.now }
    ensures spread { IfOk result (λ found. IsSpread links.now through.now starts.now found.items) }
    ensures len { IfOk result (λ found. length found.items ≡ length links.now) }
{
    let mut spreading = Spreading {
        found: vec![in alloc; None; links.len()]?,
        work: Vec::new(alloc),
    };
    for start in starts {
        spreading.spread(links, through, *start)?;
    }
    Ok(spreading.found)
}

/// For each node the start from which it is reached, through marked nodes alone. Where each node has one link into it at
/// most and no start is marked, there is one start at most.
pub fn one_source(
    alloc: Global,
    links: &Lists,
    through: &[bool],
    starts: &[usize],
) -> Result<Vec<Option<usize>>, AllocError>
    requires closed { IsClosed links.now }
    requires marks { length through.now ≡ length links.now }
    requires starts { All (λ s. s < length links.now) starts.now }
    requires single { IsSingle links.now }
    requires apart { (s : ℕ) → Contains starts.now s → IsMarked through.now s → ⊥ }
    ensures exact { IfOk result (λ found. (x s : ℕ) →
        (at found.items x ≡ Some s) ↔ (Contains starts.now s ×
        IsReached links.now through.now s x)) }
    ensures len { IfOk result (λ found. length found.items ≡ length links.now) }
{
    reached_from(alloc, links, through, starts)
}
