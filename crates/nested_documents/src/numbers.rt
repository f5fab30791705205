//! Where the elements of documents stand that were put into one another.
ghost use Rattle.std.specs.Prelude.{◌≡◌, ◌+◌, ◌-◌, ◌++◌, [], IfOk, OnOk, drop, min, slice_get, take};
ghost use Rattle.nested_documents.specs.Numbers.{elements_in, run, with_elements};

use crate::run::Run;
use std::alloc::{AllocError, Global};
use std::marker::Model;

/// An element of a document, by its number there; the documents are numbered in the order in which they are read.
#[derive(Clone, Copy, Debug, Drop, PartialEq, Eq)]
pub struct Place {
    pub document: usize,
    pub node: usize,
}

/// The elements of the whole: those of one document, with the elements of others between them. A clause sees the list of
/// their places.
#[derive(Drop)]
pub struct Numbers {
    runs: Vec<Run>,
}

impl Model for Numbers {
    ghost use Rattle.std.specs.Prelude.{List};
    ghost use Rattle.nested_documents.specs.declared.numbers.Place.{Place};
    ghost use Rattle.nested_documents.specs.Numbers.{elements_in};

    ghost Value = { List Place };

    ghost view = { λ a. elements_in a.runs.items };
}

// The first elements of a run after others, at most so many.
fn push_first(runs: &mut Vec<Run>, one: &Run, most: usize) -> Result<(), AllocError>
    ensures { OnOk result (elements_in runs.new.items ≡ elements_in runs.old.items
        ++ run one.now.document one.now.node (min one.now.count most)) }
{
    if most == 0 {
        return Ok(());
    }
    runs.push(Run {
        document: one.document,
        node: one.node,
        count: one.count.min(most),
    })?;
    Ok(())
}

// The elements of a run but the first, so many, after others.
fn push_after(runs: &mut Vec<Run>, one: &Run, less: usize) -> Result<(), AllocError>
    ensures { OnOk result (elements_in runs.new.items ≡ elements_in runs.old.items
        ++ run one.now.document (one.now.node + less) (one.now.count - less)) }
{
    if one.count <= less {
        return Ok(());
    }
    runs.push(Run {
        document: one.document,
        node: one.node + less,
        count: one.count - less,
    })?;
    Ok(())
}

// The element with a number among those of these runs.
fn place_among(runs: &[Run], number: usize) -> Option<Place>
    ensures { result ≡ slice_get (elements_in runs.now) number }
{
    let mut left = number;
    for run in runs {
        if left < run.count {
            return Some(Place {
                document: run.document,
                node: run.node + left,
            });
        }
        left -= run.count;
    }
    None
}

// The first elements of these runs, so many, and those after them.
fn split(alloc: Global, runs: &[Run], at: usize) -> Result<(Vec<Run>, Vec<Run>), AllocError>
    ensures prefix { IfOk result
        (λ both. elements_in both.0.items ≡ take at (elements_in runs.now)) }
    ensures back { IfOk result
        (λ both. elements_in both.1.items ≡ drop at (elements_in runs.now)) }
{
    let mut prefix = Vec::with_capacity(alloc, runs.len())?;
    let mut back = Vec::with_capacity(alloc, runs.len())?;
    let mut left = at;
    for run in runs {
        push_first(&mut prefix, run, left)?;
        push_after(&mut back, run, left)?;
        left = left.saturating_sub(run.count);
    }
    Ok((prefix, back))
}

// The elements of a document before the one with a number.
fn with_run(
    alloc: Global,
    runs: &[Run],
    at: usize,
    document: usize,
    count: usize,
) -> Result<Vec<Run>, AllocError>
    ensures { IfOk result (λ all. elements_in all.items ≡
        with_elements at document count (elements_in runs.now)) }
{
    let (mut all, mut back) = split(alloc, runs, at)?;
    all.push(Run {
        document,
        node: 0,
        count,
    })?;
    all.append(&mut back)?;
    Ok(all)
}

impl Numbers {
    /// No elements.
    pub fn none(alloc: Global) -> Numbers
        ensures { result ≡ [] }
    {
        Numbers {
            runs: Vec::new(alloc),
        }
    }

    /// The elements of one document, in their order.
    pub fn new(alloc: Global, document: usize, count: usize) -> Result<Numbers, AllocError>
        ensures { IfOk result (λ numbers. numbers ≡ run document 0 count) }
    {
        let mut runs = Vec::with_capacity(alloc, 1)?;
        runs.push_reserved(Run {
            document,
            node: 0,
            count,
        });
        Ok(Numbers { runs })
    }

    /// The element with a number of the whole.
    pub fn place(&self, number: usize) -> Option<Place>
        ensures { result ≡ slice_get self.now number }
    {
        place_among(&self.runs, number)
    }

    /// The elements of a document before the one with a number.
    pub fn insert(
        &mut self,
        alloc: Global,
        at: usize,
        document: usize,
        count: usize,
    ) -> Result<(), AllocError>
        ensures { OnOk result (self.new ≡ with_elements at document count self.old) }
    {
        self.runs = with_run(alloc, &self.runs, at, document, count)?;
        Ok(())
    }
}
