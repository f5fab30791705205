//! The places of each name.
ghost use Rattle.std.specs.Prelude.{◌≡◌, ◌<◌, ◌+◌, ℕ, List, IfOk, OnOk, length, map};
ghost use Rattle.parameter_targets.specs.Chains.{AreChains, IsChainedFrom, first_of, next_of, text_at};
ghost use Rattle.parameter_targets.specs.Tables.{text_of};

use std::alloc::{AllocError, Global};
use std::collections::BTreeMap;

/// The places of each name in a list, ascending: the first, and for each place the next with its name.
#[derive(Drop)]
pub struct NameChains<'a> {
    first: BTreeMap<&'a str, usize>,
    next: Vec<Option<usize>>,
}

impl<'a> NameChains<'a> {
    fn new(alloc: Global, len: usize) -> Result<NameChains<'a>, AllocError>
        ensures { IfOk result (λ c. (texts : List (List ℕ)) → length texts ≡ len →
            IsChainedFrom texts len c) }
    {
        Ok(NameChains {
            first: BTreeMap::new(alloc),
            next: vec![in alloc; None; len]?,
        })
    }

    // Puts a place first.
    fn put(&mut self, name: &'a str, place: usize) -> Result<(), AllocError>
        requires within { place < length self.old.next.items }
        ensures chained { OnOk result ((texts : List (List ℕ)) → name.now ≡ text_at texts place →
            IsChainedFrom texts (place + 1) self.old → IsChainedFrom texts place self.new) }
        ensures len { OnOk result (length self.new.next.items ≡ length self.old.next.items) }
    {
        let later = self.first.insert(name, place)?;
        self.next[place] = later;
        Ok(())
    }

    /// The places of these names.
    pub fn of(alloc: Global, entries: &[(&'a str, usize)]) -> Result<NameChains<'a>, AllocError>
        ensures { IfOk result (AreChains (map text_of entries.now)) }
    {
        let len = entries.len();
        let mut chains = NameChains::new(alloc, len)?;
        for i in 0..len {
            let place = len - 1 - i;
            chains.put(entries[place].0, place)?;
        }
        Ok(chains)
    }

    /// The first place of the name.
    pub fn find(&self, name: &str) -> Option<usize>
        ensures { result ≡ first_of self.now name.now }
    {
        self.first.get(name).copied()
    }

    /// The next place with the name of this one.
    pub fn next(&self, place: usize) -> Option<usize>
        requires { place < length self.now.next.items }
        ensures { result ≡ next_of self.now place }
    {
        self.next[place]
    }
}
