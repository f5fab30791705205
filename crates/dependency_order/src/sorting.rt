//! An order of nodes. A node that needs one that isn't placed yet waits in the list of that one, and is looked at again
//! once it is placed: so each need is passed over once.
ghost use Rattle.std.specs.Prelude.{◌≡◌, ◌<◌, ◌≤◌, ◌+◌, ℕ, List, IfOk, OnOk, Contains, MatchOption, length, slice_index_or};
ghost use Rattle.dependency_order.specs.Graph.{IsClosed, Needs};
ghost use Rattle.dependency_order.specs.Answers.{IsFound};
ghost use Rattle.dependency_order.specs.Sorting.{IsFurther, IsHeld, IsSorting, IsStuck};
ghost use Rattle.dependency_order.specs.Paths.{IsMarked};

use crate::lists::Lists;
use crate::loops::{begin_least, find_loop};
use std::alloc::{AllocError, Global};

/// What a search for an order finds.
#[derive(Debug, Drop)]
pub enum Found {
    /// each node once, after all that it needs
    Order(Vec<usize>),
    /// where there is no order, nodes of which each needs the next, the last the first, from the least on
    Loop(Vec<usize>),
}

// The order so far, its marks, how many of its needs each node has passed over, and who waits for each node.
#[derive(Drop)]
struct Sorting {
    order: Vec<usize>,
    placed: Vec<bool>,
    passed: Vec<usize>,
    waiting: Lists,
}

impl Sorting {
    fn new(alloc: Global, len: usize) -> Result<Sorting, AllocError>
        ensures { IfOk result (λ s. (g : List (List ℕ)) → length g ≡ len →
            IsSorting g s.order.items s.placed.items s.passed.items s.waiting) }
    {
        Ok(Sorting {
            order: Vec::new(alloc),
            placed: vec![in alloc; false; len]?,
            passed: vec![in alloc; 0; len]?,
            waiting: Lists::new(alloc, len)?,
        })
    }

    // The next of its needs that isn't placed.
    fn pass(&mut self, needs: &Lists, node: usize) -> Option<usize>
        requires sorting { IsSorting needs.now self.old.order.items self.old.placed.items
            self.old.passed.items self.old.waiting }
        requires closed { IsClosed needs.now }
        requires node { node < length needs.now }
        ensures sorting { IsSorting needs.now self.new.order.items self.new.placed.items
            self.new.passed.items self.new.waiting }
        ensures order { self.new.order.items ≡ self.old.order.items }
        ensures placed { self.new.placed.items ≡ self.old.placed.items }
        ensures waiting { self.new.waiting ≡ self.old.waiting }
        ensures found { MatchOption result ((q : ℕ) → Needs needs.now node q →
            IsMarked self.old.placed.items q) (λ q. Needs needs.now node q ×
            (IsMarked self.old.placed.items q → ⊥)) }
    {
        let row = needs.row(node);
        let at = next_unplaced(self.placed.as_slice(), row, self.passed[node]);
        self.passed[node] = at;
        if at < row.len() { Some(row[at]) } else { None }
    }

    // Places a node, or has it wait.
    fn examine(&mut self, needs: &Lists, node: usize) -> Result<(), AllocError>
        requires sorting { IsSorting needs.now self.old.order.items self.old.placed.items
            self.old.passed.items self.old.waiting }
        requires closed { IsClosed needs.now }
        requires node { node < length needs.now }
        ensures sorting { OnOk result
            (IsSorting needs.now self.new.order.items self.new.placed.items self.new.passed.items
            self.new.waiting) }
        ensures further { OnOk result
            (IsFurther needs.now self.old.order.items self.new.order.items self.old.placed.items
            self.new.placed.items self.old.waiting self.new.waiting) }
        ensures held { OnOk result ((at : ℕ) → at ≤ length self.old.order.items →
            IsHeld needs.now self.new.order.items self.new.placed.items self.new.waiting at node) }
    {
        if self.placed[node] {
            return Ok(());
        }
        match self.pass(needs, node) {
            Some(need) => self.waiting.push(need, node)?,
            None => {
                self.order.push(node)?;
                self.placed[node] = true;
            }
        }
        Ok(())
    }

    // Examines nodes, one after another.
    fn examine_all(&mut self, needs: &Lists, nodes: &[usize]) -> Result<(), AllocError>
        requires sorting { IsSorting needs.now self.old.order.items self.old.placed.items
            self.old.passed.items self.old.waiting }
        requires closed { IsClosed needs.now }
        requires nodes { (p : ℕ) → Contains nodes.now p → p < length needs.now }
        ensures sorting { OnOk result
            (IsSorting needs.now self.new.order.items self.new.placed.items self.new.passed.items
            self.new.waiting) }
        ensures further { OnOk result
            (IsFurther needs.now self.old.order.items self.new.order.items self.old.placed.items
            self.new.placed.items self.old.waiting self.new.waiting) }
        ensures held { OnOk result ((at p : ℕ) → at ≤ length self.old.order.items →
            Contains nodes.now p → IsHeld needs.now self.new.order.items self.new.placed.items
            self.new.waiting at p) }
    {
        for node in nodes {
            self.examine(needs, *node)?;
        }
        Ok(())
    }

    // Examines the nodes that wait for the one at a place of the order.
    fn release(&mut self, alloc: Global, needs: &Lists, at: usize) -> Result<(), AllocError>
        requires sorting { IsSorting needs.now self.old.order.items self.old.placed.items
            self.old.passed.items self.old.waiting }
        requires closed { IsClosed needs.now }
        requires at { at < length self.old.order.items }
        requires held { (p : ℕ) → p < length needs.now →
            IsHeld needs.now self.old.order.items self.old.placed.items self.old.waiting at p }
        ensures sorting { OnOk result
            (IsSorting needs.now self.new.order.items self.new.placed.items self.new.passed.items
            self.new.waiting) }
        ensures held { OnOk result ((p : ℕ) → p < length needs.now →
            IsHeld needs.now self.new.order.items self.new.placed.items self.new.waiting
            (at + 1) p) }
        ensures longer { OnOk result (length self.old.order.items ≤ length self.new.order.items) }
    {
        let node = self.order[at];
        let nodes = self.waiting.take(alloc, node);
        self.examine_all(needs, nodes.as_slice())
    }

    // Places what can be placed.
    fn place_all(&mut self, alloc: Global, needs: &Lists) -> Result<(), AllocError>
        requires sorting { IsSorting needs.now self.old.order.items self.old.placed.items
            self.old.passed.items self.old.waiting }
        requires closed { IsClosed needs.now }
        ensures sorting { OnOk result
            (IsSorting needs.now self.new.order.items self.new.placed.items self.new.passed.items
            self.new.waiting) }
        ensures stuck { OnOk result (IsStuck needs.now self.new.placed.items) }
    {
        for node in 0..needs.len() {
            self.examine(needs, node)?;
        }
        let mut at = 0;
        while at < self.order.len() {
            self.release(alloc, needs, at)?;
            at += 1;
        }
        Ok(())
    }
}

// The place of the next node in the list that isn't placed, or one past its end.
fn next_unplaced(placed: &[bool], row: &[usize], from: usize) -> usize
    requires { (k : ℕ) → k < length row.now → slice_index_or row.now k 0 < length placed.now }
    ensures passed { (k : ℕ) → from ≤ k → k < result → k < length row.now →
        IsMarked placed.now (slice_index_or row.now k 0) }
    ensures found { result < length row.now → IsMarked placed.now
        (slice_index_or row.now result 0) → ⊥ }
{
    for at in from..row.len() {
        if !placed[row[at]] {
            return at;
        }
    }
    row.len()
}

// The first node that isn't placed.
fn first_unplaced(placed: &[bool]) -> Option<usize>
    ensures { MatchOption result ((p : ℕ) → p < length placed.now → IsMarked placed.now p)
        (λ p. (p < length placed.now) × (IsMarked placed.now p → ⊥)) }
{
    for node in 0..placed.len() {
        if !placed[node] {
            return Some(node);
        }
    }
    None
}

/// An order of all nodes, each after those that it needs, or a loop where there is none, in linear time.
pub fn find_order(alloc: Global, needs: &Lists) -> Result<Found, AllocError>
    requires closed { IsClosed needs.now }
    ensures { IfOk result (IsFound (λ p. p < length needs.now) (Needs needs.now)) }
{
    let mut sorting = Sorting::new(alloc, needs.len())?;
    sorting.place_all(alloc, needs)?;
    match first_unplaced(sorting.placed.as_slice()) {
        None => Ok(Found::Order(sorting.order)),
        Some(start) => {
            let nodes = find_loop(alloc, needs, sorting.placed.as_slice(), start)?;
            Ok(Found::Loop(begin_least(nodes)))
        }
    }
}
