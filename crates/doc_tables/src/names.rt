//! Where the elements with names stand.
ghost use Rattle.std.specs.Prelude.{◌≡◌, ◌↔◌, ℕ, ◌+◌, List, Option, None, IsTrue, OnOk, option_copied};
ghost use Rattle.doc_tables.specs.Tables.{IsRepeated, IsTable, IsTableBelow};
ghost use Rattle.doc_tables.specs.Places.{found_name};

use std::alloc::{AllocError, Global};
use std::collections::BTreeMap;

/// The first element of each name.
#[derive(Drop)]
pub struct NamePlaces<'a> {
    first: BTreeMap<&'a str, usize>,
}

impl<'a> NamePlaces<'a> {
    /// No names.
    pub fn new(alloc: Global) -> NamePlaces<'a>
        ensures { (name : List ℕ) → found_name result name ≡ None }
    {
        NamePlaces {
            first: BTreeMap::new(alloc),
        }
    }

    /// Puts in the next element, unless one with its name is there.
    pub fn put(&mut self, name: Option<&'a str>, node: usize) -> Result<(), AllocError>
        ensures { OnOk result ((key : ℕ → Option (List ℕ)) → option_copied name.entry ≡ key node →
            IsTableBelow key node (found_name self.old) →
            IsTableBelow key (node + 1) (found_name self.new)) }
    {
        let Some(name) = name else {
            return Ok(());
        };
        self.first.entry(name)?.or_insert(node);
        Ok(())
    }

    /// The first element with the name.
    pub fn find(&self, name: &str) -> Option<usize>
        ensures { result ≡ found_name self.now name.now }
    {
        self.first.get(name).copied()
    }

    /// Whether an element before this one has its name, where it has one.
    pub fn is_repeated(&self, name: Option<&str>, node: usize) -> bool
        ensures { (key : ℕ → Option (List ℕ)) → IsTable key (found_name self.now) →
            option_copied name.entry ≡ key node → (IsTrue result ↔ IsRepeated key node) }
    {
        let Some(name) = name else {
            return false;
        };
        match self.find(name) {
            Some(first) => first < node,
            None => false,
        }
    }
}
