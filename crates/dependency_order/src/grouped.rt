//! An order of nodes of which some need whole groups of others, without writing these needs out.
ghost use Rattle.std.specs.Prelude.{◌≡◌, ◌↔◌, ◌<◌, IfOk, IsTrue, filter, length, nat_lt};
ghost use Rattle.dependency_order.specs.Answers.{IsFound};
ghost use Rattle.dependency_order.specs.Grouped.{AreNamed, IsExpanded, IsGrouped, NeedsGrouped};

use crate::lists::Lists;
use crate::sorting::{Found, find_order};
use std::alloc::{AllocError, Global};

/// What nodes need: each those of its list, and some all nodes of a group.
#[derive(Debug, Drop)]
pub struct GroupedNeeds {
    pub listed: Lists,
    /// for each node its group, where it has one
    pub group_of: Vec<Option<usize>>,
    pub groups: Lists,
}

impl GroupedNeeds {
    /// Whether lists and groups name nodes alone, and each node that has a group one of the groups.
    pub fn is_grouped(&self) -> bool
        ensures { IsTrue result ↔ IsGrouped self.now }
    {
        let nodes = self.listed.len();
        if self.group_of.len() != nodes {
            return false;
        }
        if !self.listed.are_below(nodes) {
            return false;
        }
        if !self.groups.are_below(nodes) {
            return false;
        }
        if !are_named(self.group_of.as_slice(), self.groups.len()) {
            return false;
        }
        self.groups.len() <= usize::MAX - nodes
    }
}

fn are_named(group_of: &[Option<usize>], count: usize) -> bool
    ensures { IsTrue result ↔ AreNamed group_of.now count }
{
    for node in 0..group_of.len() {
        if let Some(group) = group_of[node] {
            if group >= count {
                return false;
            }
        }
    }
    true
}

// A graph in which each group is one more node, which needs the nodes of the group.
fn expand(needs: GroupedNeeds) -> Result<Lists, AllocError>
    requires { IsGrouped needs }
    ensures { IfOk result (IsExpanded needs) }
{
    let GroupedNeeds {
        mut listed,
        group_of,
        groups,
    } = needs;
    let nodes = listed.len();
    for node in 0..nodes {
        if let Some(group) = group_of[node] {
            listed.push(node, nodes + group)?;
        }
    }
    listed.append(groups)?;
    Ok(listed)
}

// Those below a number.
fn nodes_below(alloc: Global, nodes: &[usize], limit: usize) -> Result<Vec<usize>, AllocError>
    ensures { IfOk result (λ kept. kept.items ≡ filter (λ p. nat_lt p limit) nodes.now) }
{
    let mut kept = Vec::new(alloc);
    for node in nodes {
        if *node < limit {
            kept.push(*node)?;
        }
    }
    Ok(kept)
}

/// An order of all nodes, each after those that it needs by its list or its group, or a loop where there is none, in time
/// linear in lists and groups.
pub fn order_grouped(alloc: Global, needs: GroupedNeeds) -> Result<Found, AllocError>
    requires grouped { IsGrouped needs }
    ensures { IfOk result (IsFound (λ p. p < length needs.listed) (NeedsGrouped needs)) }
{
    let count = needs.listed.len();
    let graph = expand(needs)?;
    match find_order(alloc, &graph)? {
        Found::Order(nodes) => {
            let order = nodes_below(alloc, nodes.as_slice(), count)?;
            Ok(Found::Order(order))
        }
        Found::Loop(nodes) => {
            let kept = nodes_below(alloc, nodes.as_slice(), count)?;
            Ok(Found::Loop(kept))
        }
    }
}
