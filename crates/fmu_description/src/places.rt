//! Where the elements with keys stand.
ghost use Rattle.std.specs.Prelude.{◌≡◌, ◌↔◌, ℕ, ◌+◌, Option, IfOk, IsTrue, OnOk, false, nat_lt, slice_get, true};
ghost use Rattle.std.specs.List.Sorted.{IsPartitionPoint, IsSorted};
ghost use Rattle.value_types.specs.Index.{pair_cmp};
ghost use Rattle.doc_tables.specs.Tables.{IsRepeated, IsTable};
ghost use Rattle.fmu_description.specs.Elements.{clock_key, initial_key, output_key, variable_key};
ghost use Rattle.fmu_description.specs.Places.{AreListed, AreListedBelow, FindsCoSimulation, found};

use crate::elements;
use doc_tree::Tree;
use std::alloc::{AllocError, Global};
use std::marker::Model;

/// Elements by their value references. A clause sees the list of both, in the order of the references; those of one
/// reference are in the order of the elements.
#[derive(Drop)]
pub(crate) struct Places {
    entries: Vec<(u32, usize)>,
}

impl Model for Places {
    ghost use Rattle.std.specs.Prelude.{List, ℕ};
    ghost use Rattle.std.specs.List.Sorted.{IsSorted};
    ghost use Rattle.value_types.specs.Index.{pair_cmp};

    ghost Value = { List (ℕ × ℕ) };

    ghost view = { λ p. p.entries.items };

    ghost invariant = { λ p. IsSorted pair_cmp p.entries.items };
}

// Adds the next element, where it has a reference.
fn add(
    entries: &mut Vec<(u32, usize)>,
    reference: Option<u32>,
    node: usize,
) -> Result<(), AllocError>
    ensures { OnOk result ((key : ℕ → Option ℕ) → reference ≡ key node →
        AreListedBelow key node entries.old.items →
        AreListedBelow key (node + 1) entries.new.items) }
{
    if let Some(reference) = reference {
        entries.push((reference, node))?;
    }
    Ok(())
}

// Where the entries of a reference begin, or would.
fn first_entry(entries: &[(u32, usize)], reference: u32) -> usize
    ensures { IsSorted pair_cmp entries.now → IsPartitionPoint
        (λ e. nat_lt e.0 reference ≡ true) (λ e. nat_lt e.0 reference ≡ false) entries.now result }
{
    entries.partition_point(|entry| entry.0 < reference)
}

fn entry_at(entries: &[(u32, usize)], at: usize) -> Option<(u32, usize)>
    ensures { result ≡ slice_get entries.now at }
{
    entries.get(at).copied()
}

// The first element of a reference.
fn node_in(entries: &[(u32, usize)], reference: u32) -> Option<usize>
    ensures { IsSorted pair_cmp entries.now → result ≡ found entries.now reference }
{
    match entry_at(entries, first_entry(entries, reference)) {
        Some((other, node)) => if other == reference { Some(node) } else { None },
        None => None,
    }
}

impl Places {
    // The elements that are listed.
    fn new(entries: Vec<(u32, usize)>) -> Places
        ensures { (key : ℕ → Option ℕ) → AreListed key entries.items → IsTable key (found result) }
    {
        let mut entries = entries;
        entries.sort_unstable();
        Places { entries }
    }

    /// The first element with the reference.
    pub(crate) fn find(&self, reference: u32) -> Option<usize>
        ensures { result ≡ found self.now reference }
    {
        node_in(self.entries.as_slice(), reference)
    }

    /// Whether an element before this one has its reference, where it has one.
    pub(crate) fn is_repeated(&self, reference: Option<u32>, node: usize) -> bool
        ensures { (key : ℕ → Option ℕ) → IsTable key (found self.now) → reference ≡ key node →
            (IsTrue result ↔ IsRepeated key node) }
    {
        let Some(reference) = reference else {
            return false;
        };
        match self.find(reference) {
            Some(first) => first < node,
            None => false,
        }
    }
}

/// The first elements of each value reference.
#[derive(Drop)]
pub(crate) struct KindPlaces {
    pub(crate) variables: Places,
    pub(crate) clocks: Places,
    pub(crate) outputs: Places,
    pub(crate) initial_unknowns: Places,
}

/// The first variable, Clock, Output and InitialUnknown of each value reference.
pub(crate) fn kind_places(alloc: Global, tree: &Tree) -> Result<KindPlaces, AllocError>
    ensures variables { IfOk result (λ all. IsTable (variable_key tree.now) (found all.variables)) }
    ensures clocks { IfOk result (λ all. IsTable (clock_key tree.now) (found all.clocks)) }
    ensures outputs { IfOk result (λ all. IsTable (output_key tree.now) (found all.outputs)) }
    ensures initial_unknowns { IfOk result (λ all. IsTable (initial_key tree.now) (found all.initial_unknowns)) }
{
    let mut variables = Vec::new(alloc);
    let mut clocks = Vec::new(alloc);
    let mut outputs = Vec::new(alloc);
    let mut unknowns = Vec::new(alloc);
    for node in 0..tree.len() {
        add(&mut variables, elements::variable_key(tree, node), node)?;
        add(&mut clocks, elements::clock_key(tree, node), node)?;
        add(&mut outputs, elements::output_key(tree, node), node)?;
        add(&mut unknowns, elements::initial_key(tree, node), node)?;
    }
    Ok(KindPlaces {
        variables: Places::new(variables),
        clocks: Places::new(clocks),
        outputs: Places::new(outputs),
        initial_unknowns: Places::new(unknowns),
    })
}

/// The element CoSimulation that counts.
pub(crate) fn co_simulation(tree: &Tree) -> Option<usize>
    ensures { FindsCoSimulation tree.now result }
{
    for node in 0..tree.len() {
        if elements::is_co_simulation(tree, node) {
            return Some(node);
        }
    }
    None
}
