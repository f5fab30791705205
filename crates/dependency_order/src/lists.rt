//! A list of lists of numbers.
ghost use Rattle.std.specs.Prelude.{◌≡◌, ◌↔◌, ◌<◌, All, IsTrue, ◌++◌, ◌∷◌, [], IfOk, OnOk, length, replicate, slice_index_or, slice_set};
ghost use Rattle.dependency_order.specs.Graph.{AreBelow, IsClosed, lists_of};

use std::alloc::{AllocError, Global};
use std::marker::Model;
use std::mem;

/// A list of lists of numbers. A clause sees it as that.
#[derive(Debug, Drop)]
pub struct Lists {
    rows: Vec<Vec<usize>>,
}

impl Model for Lists {
    ghost use Rattle.std.specs.Prelude.{List, ℕ};
    ghost use Rattle.dependency_order.specs.Graph.{lists_of};

    ghost Value = { List (List ℕ) };

    ghost view = { λ a. lists_of a.rows.items };
}

impl Lists {
    /// So many empty lists.
    pub fn new(alloc: Global, len: usize) -> Result<Lists, AllocError>
        ensures { IfOk result (λ a. a ≡ replicate len []) }
    {
        let mut rows = Vec::new(alloc);
        for _ in 0..len {
            rows.push(Vec::new(alloc))?;
        }
        Ok(Lists { rows })
    }

    /// How many lists there are.
    pub fn len(&self) -> usize
        ensures { result ≡ length self.now }
    {
        self.rows.len()
    }

    /// The list at a place.
    pub fn row(&self, at: usize) -> &[usize]
        requires { at < length self.now }
        ensures { result.now ≡ slice_index_or self.now at [] }
    {
        self.rows[at].as_slice()
    }

    /// Whether all the numbers are below a limit.
    pub fn are_below(&self, limit: usize) -> bool
        ensures { IsTrue result ↔ AreBelow self.now limit }
    {
        for at in 0..self.len() {
            if !all_below(self.row(at), limit) {
                return false;
            }
        }
        true
    }

    /// Whether they are a graph: whether each number is that of a list.
    pub fn is_closed(&self) -> bool
        ensures { IsTrue result ↔ IsClosed self.now }
    {
        self.are_below(self.len())
    }

    /// Appends a number to the list at a place.
    pub fn push(&mut self, at: usize, number: usize) -> Result<(), AllocError>
        requires { at < length self.old }
        ensures pushed { OnOk result (self.new ≡ slice_set self.old at
            (slice_index_or self.old at [] ++ number ∷ [])) }
    {
        self.rows[at].push(number)?;
        Ok(())
    }

    /// Takes the list at a place out; an empty one stands there then.
    pub fn take(&mut self, alloc: Global, at: usize) -> Vec<usize>
        requires { at < length self.old }
        ensures taken { result.items ≡ slice_index_or self.old at [] }
        ensures left { self.new ≡ slice_set self.old at [] }
    {
        mem::replace(&mut self.rows[at], Vec::new(alloc))
    }

    /// Appends the other lists to these.
    pub fn append(&mut self, other: Lists) -> Result<(), AllocError>
        ensures all { OnOk result (self.new ≡ self.old ++ other) }
    {
        let Lists { mut rows } = other;
        self.rows.append(&mut rows)?;
        Ok(())
    }
}

fn all_below(numbers: &[usize], limit: usize) -> bool
    ensures { IsTrue result ↔ All (λ q. q < limit) numbers.now }
{
    numbers.iter().all(|number| *number < limit)
}
