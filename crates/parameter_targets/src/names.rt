//! The parameters of a component by their names.
ghost use Rattle.std.specs.Prelude.{◌≡◌, ◌⊎◌, ◌↔◌, ◌≤◌, ℕ, List, ◌++◌, Some, IfOk, IfSome, OnOk, IsTrue, Contains, length, map, slice_get, take};
ghost use Rattle.std.specs.Borrow.{Bor};
ghost use Rattle.value_types.specs.declared.shape.Variable.{Variable};
ghost use Rattle.parameter_targets.specs.Chains.{AreChains};
ghost use Rattle.parameter_targets.specs.Tables.{AreEntries, AreNames, IsNamed, entry_of, text_of};

use crate::chains::NameChains;
use std::alloc::{AllocError, Global};
use value_types::Variable;

/// The parameters of a component by their names.
#[derive(Drop)]
pub struct ParameterNames<'a> {
    /// each name, aliases included, with the place of its variable in the description
    entries: Vec<(&'a str, usize)>,
    chains: NameChains<'a>,
}

// The names of a variable, where it is a parameter that isn't ignored.
fn put_names<'a>(
    entries: &mut Vec<(&'a str, usize)>,
    place: usize,
    variable: &'a Variable,
) -> Result<(), AllocError>
    ensures { OnOk result ((name : List ℕ) (at : ℕ) → Contains (map entry_of entries.new.items) (name, at) ↔ (Contains (map entry_of entries.old.items) (name, at) ⊎ ((at ≡ place) × IsNamed variable.now name))) }
{
    if variable.is_parameter() && variable.kind.is_some() {
        entries.push((variable.name.as_str(), place))?;
        for alias in variable.aliases.as_slice() {
            entries.push((alias.as_str(), place))?;
        }
    }
    Ok(())
}

// All names of parameters.
fn entries_of<'a>(
    alloc: Global,
    variables: &'a [Variable],
) -> Result<Vec<(&'a str, usize)>, AllocError>
    ensures { IfOk result (λ entries. AreEntries variables.now entries.items) }
{
    let mut entries = Vec::new(alloc);
    for place in 0..variables.len() {
        put_names(&mut entries, place, &variables[place])?;
    }
    Ok(entries)
}

// Whether this name stands at a place, with the place of its variable.
fn is_entry(entries: &[(&str, usize)], at: usize, name: &str, place: usize) -> bool
    ensures { IsTrue result → (e : Bor (List ℕ) × ℕ) × (slice_get entries.now at ≡ Some e) × (e.0.now ≡ name.now) × (e.1 ≡ place) }
{
    match entries.get(at) {
        Some(entry) => {
            if entry.1 != place {
                return false;
            }
            is_same(entry.0, name)
        }
        None => false,
    }
}

fn is_same(name: &str, other: &str) -> bool
    ensures { IsTrue result → name.now ≡ other.now }
{
    name == other
}

// Where the names of a variable end that stand from a place on; none where others stand there.
fn end_of_names(
    entries: &[(&str, usize)],
    next: usize,
    place: usize,
    variable: &Variable,
) -> Option<usize>
    requires { next ≤ length entries.now }
    ensures within { IfSome result (λ end. end ≤ length entries.now) }
    ensures names { IfSome result (λ end. (name : List ℕ) (at : ℕ) → Contains (map entry_of (take end entries.now)) (name, at) ↔ (Contains (map entry_of (take next entries.now)) (name, at) ⊎ ((at ≡ place) × IsNamed variable.now name))) }
{
    if !variable.is_parameter() {
        return Some(next);
    }
    if !variable.kind.is_some() {
        return Some(next);
    }
    if !is_entry(entries, next, variable.name.as_str(), place) {
        return None;
    }
    let mut end = next + 1;
    for alias in variable.aliases.as_slice() {
        if !is_entry(entries, end, alias.as_str(), place) {
            return None;
        }
        end += 1;
    }
    Some(end)
}

impl<'a> ParameterNames<'a> {
    /// Whether these are the names of the parameters among these variables, too.
    pub(crate) fn are_of(&self, variables: &[Variable]) -> bool
        ensures { IsTrue result → AreEntries variables.now self.now.entries.items }
    {
        let entries = self.entries.as_slice();
        let mut next = 0;
        for place in 0..variables.len() {
            match end_of_names(entries, next, place, &variables[place]) {
                Some(end) => next = end,
                None => return false,
            }
        }
        if next < entries.len() {
            return false;
        }
        true
    }

    /// The names of the parameters among these variables.
    pub(crate) fn of(
        alloc: Global,
        variables: &'a [Variable],
    ) -> Result<ParameterNames<'a>, AllocError>
        ensures { IfOk result (AreNames variables.now) }
    {
        let entries = entries_of(alloc, variables)?;
        let chains = NameChains::of(alloc, entries.as_slice())?;
        Ok(ParameterNames { entries, chains })
    }

    /// The places of the parameters with the name.
    pub(crate) fn places_of(&self, alloc: Global, name: &str) -> Result<Vec<usize>, AllocError>
        requires { AreChains (map text_of self.now.entries.items) self.now.chains }
        ensures { IfOk result (λ v. (place : ℕ) → Contains v.items place ↔ Contains (map entry_of self.now.entries.items) (name.now, place)) }
    {
        let mut places = Vec::new(alloc);
        let mut next = self.chains.find(name);
        while let Some(at) = next {
            places.push(self.entries[at].1)?;
            next = self.chains.next(at);
        }
        Ok(places)
    }
}
