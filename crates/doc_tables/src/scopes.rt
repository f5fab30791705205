//! Where the elements with a name in a scope stand.
ghost use Rattle.std.specs.Prelude.{◌≡◌, ◌↔◌, ℕ, ◌+◌, List, Option, None, IsTrue, OnOk};
ghost use Rattle.doc_tables.specs.Tables.{IsRepeated, IsTable, IsTableBelow};
ghost use Rattle.doc_tables.specs.Places.{found_in, scoped};

use std::alloc::{AllocError, Global};
use std::collections::BTreeMap;

/// The first element of each name in each scope, as the elements that stand in one element.
#[derive(Drop)]
pub struct ScopedPlaces<'a> {
    first: BTreeMap<(usize, &'a str), usize>,
}

impl<'a> ScopedPlaces<'a> {
    /// No names.
    pub fn new(alloc: Global) -> ScopedPlaces<'a>
        ensures { (scope : ℕ) (name : List ℕ) → found_in result (scope, name) ≡ None }
    {
        ScopedPlaces {
            first: BTreeMap::new(alloc),
        }
    }

    /// Puts in the next element, unless one with its name is there in its scope.
    pub fn put(&mut self, key: Option<(usize, &'a str)>, node: usize) -> Result<(), AllocError>
        ensures { OnOk result ((wanted : ℕ → Option (ℕ × List ℕ)) → scoped key.entry ≡ wanted node →
            IsTableBelow wanted node (found_in self.old) →
            IsTableBelow wanted (node + 1) (found_in self.new)) }
    {
        let Some((scope, name)) = key else {
            return Ok(());
        };
        if let Some(first) = self.first.insert((scope, name), node)? {
            // The first one stays.
            self.first.insert((scope, name), first)?;
        }
        Ok(())
    }

    /// The first element with the name in the scope.
    pub fn find(&self, scope: usize, name: &'a str) -> Option<usize>
        ensures { result ≡ found_in self.now (scope, name.now) }
    {
        self.first.get(&(scope, name)).copied()
    }

    /// Whether an element before this one has its name in its scope, where it has one.
    pub fn is_repeated(&self, key: Option<(usize, &'a str)>, node: usize) -> bool
        ensures { (wanted : ℕ → Option (ℕ × List ℕ)) → IsTable wanted (found_in self.now) →
            scoped key.entry ≡ wanted node → (IsTrue result ↔ IsRepeated wanted node) }
    {
        let Some((scope, name)) = key else {
            return false;
        };
        match self.find(scope, name) {
            Some(first) => first < node,
            None => false,
        }
    }
}
