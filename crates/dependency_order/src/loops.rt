//! A loop of nodes, begun at its least.
ghost use Rattle.std.specs.Prelude.{◌≡◌, ◌<◌, ◌≤◌, ℕ, IfOk, drop, length, slice_index_or};
ghost use Rattle.dependency_order.specs.Graph.{BeginsLeast, IsClosed, IsLoop, IsRotated, Needs};
ghost use Rattle.dependency_order.specs.Sorting.{IsStuck};
ghost use Rattle.dependency_order.specs.Paths.{IsMarked};

use crate::lists::Lists;
use std::alloc::{AllocError, Global};

// A node that this one needs and that isn't placed.
fn missing_need(needs: &Lists, placed: &[bool], node: usize) -> usize
    requires closed { IsClosed needs.now }
    requires marks { length placed.now ≡ length needs.now }
    requires stuck { IsStuck needs.now placed.now }
    requires node { node < length needs.now }
    requires unplaced { IsMarked placed.now node → ⊥ }
    ensures needed { Needs needs.now node result }
    ensures unplaced { IsMarked placed.now result → ⊥ }
{
    for need in needs.row(node) {
        if !placed[*need] {
            return *need;
        }
    }
    unreachable!()
}

// What stands from a place on.
fn after(alloc: Global, path: &[usize], place: usize) -> Result<Vec<usize>, AllocError>
    requires { place < length path.now }
    ensures { IfOk result (λ nodes. nodes.items ≡ drop place path.now) }
{
    Vec::from_slice(alloc, &path[place..])
}

/// A loop of nodes that aren't placed, where each of them needs another.
pub(crate) fn find_loop(
    alloc: Global,
    needs: &Lists,
    placed: &[bool],
    start: usize,
) -> Result<Vec<usize>, AllocError>
    requires closed { IsClosed needs.now }
    requires marks { length placed.now ≡ length needs.now }
    requires stuck { IsStuck needs.now placed.now }
    requires start { start < length needs.now }
    requires unplaced { IsMarked placed.now start → ⊥ }
    ensures { IfOk result (λ nodes. IsLoop (Needs needs.now) nodes.items) }
{
    let mut path = Vec::new(alloc);
    let mut places: Vec<Option<usize>> = vec![in alloc; None; needs.len()]?;
    let mut node = start;
    loop {
        if let Some(place) = places[node] {
            return after(alloc, path.as_slice(), place);
        }
        places[node] = Some(path.len());
        path.push(node)?;
        node = missing_need(needs, placed, node);
    }
}

// The place of the least.
fn least_place(nodes: &[usize]) -> usize
    requires { 0 < length nodes.now }
    ensures within { result < length nodes.now }
    ensures least { (k : ℕ) → k < length nodes.now →
        slice_index_or nodes.now result 0 ≤ slice_index_or nodes.now k 0 }
{
    let mut least = 0;
    for place in 0..nodes.len() {
        if nodes[place] < nodes[least] {
            least = place;
        }
    }
    least
}

/// The same loop, begun at its least node.
pub(crate) fn begin_least(nodes: Vec<usize>) -> Vec<usize>
    requires { 0 < length nodes.items }
    ensures rotated { IsRotated nodes.items result.items }
    ensures least { BeginsLeast result.items }
{
    let mut nodes = nodes;
    let place = least_place(nodes.as_slice());
    nodes.rotate_left(place);
    nodes
}
