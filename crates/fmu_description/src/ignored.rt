//! Which variables are ignored.
ghost use Rattle.std.specs.Prelude.{◌≡◌, ◌↔◌, ℕ, ◌<◌, ◌∷◌, [], ◌++◌, if◌then◌else◌, ◌==◌, true, false, Contains, IfOk, IsTrue, OnOk, length, replicate};
ghost use Rattle.doc_tables.specs.Elements.{parent};
ghost use Rattle.fmu_description.specs.Elements.{causality_of, is_clock, is_dimension};
ghost use Rattle.fmu_description.specs.Clocks.{IsIgnoredItself};
ghost use Rattle.fmu_description.specs.Places.{is_ignored, MarksIgnored};
ghost use Rattle.fmu_description.specs.Marks.{IsSource, ListsFollowers, Marks, PutsUnder, listed_at};

use crate::{elements, texts};
use doc_tables::name;
use doc_tree::Tree;
use std::alloc::{AllocError, Global};
use std::collections::BTreeMap;
use value_types::Causality;

/// The marks of the ignored variables.
#[derive(Drop)]
pub(crate) struct Ignored {
    marks: Vec<bool>,
}

impl Ignored {
    /// Whether the element describes an ignored variable.
    pub(crate) fn is_ignored(&self, node: usize) -> bool
        ensures { result ≡ is_ignored self.now node }
    {
        node < self.marks.len() && self.marks[node]
    }
}

fn has_dimension(tree: &Tree, node: usize) -> bool
    requires { node < length tree.now }
    ensures { IsTrue result ↔ ((j : ℕ) × (is_dimension tree.now j ≡ true) ×
        (parent tree.now j ≡ Some node)) }
{
    for child in tree.children(node) {
        if elements::is_dimension(tree, *child) {
            return true;
        }
    }
    false
}

fn is_local_clock(tree: &Tree, node: usize) -> bool
    ensures { IsTrue result ↔ ((is_clock tree.now node ≡ true) ×
        (causality_of tree.now node ≡ Causality.Local)) }
{
    elements::is_clock(tree, node) && elements::causality_of(tree, node) == Causality::Local
}

// Whether a variable is ignored by what its own element says.
fn is_ignored_itself(tree: &Tree, node: usize) -> bool
    requires { node < length tree.now }
    ensures { IsTrue result ↔ IsIgnoredItself tree.now node }
{
    texts::is_unsupported_type(name(tree, node))
        || is_local_clock(tree, node)
        || has_dimension(tree, node)
        || elements::causality_of(tree, node) == Causality::Other
}

// The variables that are ignored by themselves.
fn sources(alloc: Global, tree: &Tree) -> Result<Vec<usize>, AllocError>
    ensures { IfOk result (λ all. (k : ℕ) → Contains all.items k ↔ IsSource tree.now k) }
{
    let mut all = Vec::new(alloc);
    for node in 0..tree.len() {
        if elements::is_variable(tree, node) && is_ignored_itself(tree, node) {
            all.push(node)?;
        }
    }
    Ok(all)
}

// Puts an element under a reference.
fn put(table: &mut BTreeMap<u32, Vec<usize>>, reference: u32, node: usize) -> Result<(), AllocError>
    ensures { OnOk result ((q : ℕ) → listed_at table.new q ≡
        (if q == reference then listed_at table.old q ++ node ∷ [] else listed_at table.old q)) }
{
    table.entry(reference)?.or_default().push(node)?;
    Ok(())
}

// Puts an element under references.
fn put_under(
    table: &mut BTreeMap<u32, Vec<usize>>,
    references: &[u32],
    node: usize,
) -> Result<(), AllocError>
    ensures { OnOk result (PutsUnder references.now node (listed_at table.old)
        (listed_at table.new)) }
{
    for reference in references {
        put(table, *reference, node)?;
    }
    Ok(())
}

// The variables that name each reference in `clocks`.
fn followers(alloc: Global, tree: &Tree) -> Result<BTreeMap<u32, Vec<usize>>, AllocError>
    ensures { IfOk result (λ table. ListsFollowers tree.now (listed_at table)) }
{
    let mut table = BTreeMap::new(alloc);
    for node in 0..tree.len() {
        if elements::is_variable(tree, node) {
            let references = elements::references_of(alloc, tree, node, "clocks")?;
            put_under(&mut table, references.as_slice(), node)?;
        }
    }
    Ok(table)
}

// Marks an element that isn't marked yet.
fn mark(
    tree: &Tree,
    marks: &mut Vec<bool>,
    work: &mut Vec<u32>,
    node: usize,
) -> Result<(), AllocError>
    ensures { OnOk result (Marks tree.now (node ∷ []) marks.old.items marks.new.items work.old.items
        work.new.items) }
{
    if node < marks.len() && !marks[node] {
        marks[node] = true;
        if let Some(reference) = elements::clock_key(tree, node) {
            work.push(reference)?;
        }
    }
    Ok(())
}

// Marks elements, those that aren't marked yet.
fn mark_all(
    tree: &Tree,
    marks: &mut Vec<bool>,
    work: &mut Vec<u32>,
    nodes: &[usize],
) -> Result<(), AllocError>
    ensures { OnOk result (Marks tree.now nodes.now marks.old.items marks.new.items work.old.items
        work.new.items) }
{
    for node in nodes {
        mark(tree, marks, work, *node)?;
    }
    Ok(())
}

fn no_marks(alloc: Global, len: usize) -> Result<Vec<bool>, AllocError>
    ensures { IfOk result (λ marks. marks.items ≡ replicate len false) }
{
    Ok(vec![in alloc; false; len]?)
}

/// The ignored variables of a description.
pub(crate) fn ignored_variables(alloc: Global, tree: &Tree) -> Result<Ignored, AllocError>
    ensures { IfOk result (λ ignored. MarksIgnored tree.now (is_ignored ignored)) }
{
    let mut marks = no_marks(alloc, tree.len())?;
    let mut work = Vec::new(alloc);
    let mut followers = followers(alloc, tree)?;
    mark_all(
        tree,
        &mut marks,
        &mut work,
        sources(alloc, tree)?.as_slice(),
    )?;
    while let Some(reference) = work.pop() {
        if let Some(nodes) = followers.remove(&reference) {
            mark_all(tree, &mut marks, &mut work, nodes.as_slice())?;
        }
    }
    Ok(Ignored { marks })
}
