//! The elements whose name an element before them has.
ghost use Rattle.std.specs.Prelude.{◌≡◌, ◌↔◌, ℕ, ◌+◌, ◌<◌, List, Option, All, IfOk, IsTrue, OnOk, option_copied, slice_index_or, false};
ghost use Rattle.std.specs.List.Sorted.{IsSorted};
ghost use Rattle.fmu_description.specs.Elements.{name_key};
ghost use Rattle.fmu_description.specs.Names.{AreNamed, AreNamedBelow, IsAfter, MarksRepeated, Named, StandsAfter, is_repeated, named_cmp};

use crate::elements::name_key;
use doc_tree::Tree;
use std::alloc::{AllocError, Global};

/// The marks of the variables and aliases with a name that an element before them has.
#[derive(Drop)]
pub(crate) struct RepeatedNames {
    marks: Vec<bool>,
}

impl RepeatedNames {
    /// The repeated names of a tree.
    pub(crate) fn new(alloc: Global, tree: &Tree) -> Result<RepeatedNames, AllocError>
        ensures { IfOk result (λ names. MarksRepeated tree.now (is_repeated names)) }
    {
        let named = named_in_order(alloc, tree)?;
        Ok(RepeatedNames {
            marks: marks(alloc, tree.len(), named.as_slice())?,
        })
    }

    /// Whether an element before this one has its name.
    pub(crate) fn is_repeated(&self, node: usize) -> bool
        ensures { result ≡ is_repeated self.now node }
    {
        node < self.marks.len() && self.marks[node]
    }
}

// Adds the name of the next element, where it has one.
fn add<'a>(
    named: &mut Vec<(&'a str, usize)>,
    name: Option<&'a str>,
    node: usize,
) -> Result<(), AllocError>
    ensures { OnOk result ((key : ℕ → Option (List ℕ)) → option_copied name.entry ≡ key node →
        AreNamedBelow key node named.old.items → AreNamedBelow key (node + 1) named.new.items) }
{
    if let Some(name) = name {
        named.push((name, node))?;
    }
    Ok(())
}

// The names in order, each with its element; those that are the same in the order of the elements.
fn named_in_order(alloc: Global, tree: &Tree) -> Result<Vec<(&str, usize)>, AllocError>
    ensures named { IfOk result (λ named. AreNamed (name_key tree.now) named.items) }
    ensures sorted { IfOk result (λ named. IsSorted named_cmp named.items) }
{
    let mut named = Vec::new(alloc);
    for node in 0..tree.len() {
        add(&mut named, name_key(tree, node), node)?;
    }
    named.sort_unstable();
    Ok(named)
}

// Whether an element comes after one of its name.
fn is_after(one: (&str, usize), other: (&str, usize)) -> bool
    ensures { IsTrue result ↔ IsAfter one.entry other.entry }
{
    one.0 == other.0 && one.1 < other.1
}

// Marks the elements that come after the one before them in the list.
fn marks(alloc: Global, len: usize, named: &[(&str, usize)]) -> Result<Vec<bool>, AllocError>
    requires { All (λ (e : Named). e.1 < len) named.now }
    ensures { IfOk result (λ marks. (k : ℕ) →
        IsTrue (slice_index_or marks.items k false) ↔ StandsAfter named.now k) }
{
    let mut marks = vec![in alloc; false; len]?;
    for place in 1..named.len() {
        if is_after(named[place - 1], named[place]) {
            marks[named[place].1] = true;
        }
    }
    Ok(marks)
}
