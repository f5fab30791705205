ghost use Rattle.std.specs.Prelude.{◌≡◌, ◌<◌, IfOk, length, replicate, slice_index_or, set, false, true};
ghost use Rattle.std.specs.List.{list_any};

use std::alloc::{AllocError, Global};
use std::marker::Model;

/// A flag for each variable of an FMU, in the order of its shape.
#[derive(Debug, Drop)]
pub struct Marks {
    flags: Vec<bool>,
    /// how many are set
    count: usize,
}

impl Model for Marks {
    ghost use Rattle.std.specs.Prelude.{◌≡◌, List, Bool, count_by};

    ghost Value = { List Bool };

    ghost view = { λ m. m.flags.items };

    ghost invariant = { λ m. m.count ≡ count_by (λ flag. flag) m.flags.items };
}

impl Marks {
    /// No mark on any of so many variables.
    pub fn none(alloc: Global, count: usize) -> Result<Marks, AllocError>
        ensures { IfOk result (λ marks. marks ≡ replicate count false) }
    {
        Ok(Marks {
            flags: vec![in alloc; false; count]?,
            count: 0,
        })
    }

    /// Whether the variable at a place is marked.
    pub fn has(&self, place: usize) -> bool
        ensures { result ≡ slice_index_or self.now place false }
    {
        self.flags.get(place).copied().unwrap_or(false)
    }

    /// Whether any variable is marked.
    pub fn any(&self) -> bool
        ensures { result ≡ list_any (λ flag. flag) self.now }
    {
        self.count > 0
    }

    /// Marks the variable at a place.
    pub(crate) fn mark(&mut self, place: usize)
        requires { place < length self.old }
        ensures { self.new ≡ set self.old place true }
    {
        if !self.flags[place] {
            self.flags[place] = true;
            self.count += 1;
        }
    }

    /// Clears every mark.
    pub(crate) fn clear(&mut self)
        ensures { self.new ≡ replicate (length self.old) false }
    {
        if self.count > 0 {
            self.flags.fill(false);
            self.count = 0;
        }
    }

    /// Takes over the marks of as many variables.
    pub(crate) fn copy_from(&mut self, other: &Marks)
        requires { length self.old ≡ length other.now }
        ensures { self.new ≡ other.now }
    {
        self.flags.copy_from_slice(&other.flags);
        self.count = other.count;
    }
}
