ghost use Rattle.std.specs.Prelude.{◌≡◌, ◌≤◌, ◌<◌, IfOk, None, is_some, length, replicate, slice_index_or, slice_set, take, true};
ghost use Rattle.std.specs.List.{slice_get};
ghost use Rattle.port_values.specs.Valued.{valued, valued_ports};

use std::alloc::{AllocError, Global};
use std::marker::Model;

/// A value or none for each port of a system, by its number. A clause sees it as the list of these; which of them are there it
/// keeps beside them, so that a walk through those looks at no others.
#[derive(Debug, Drop)]
pub struct PortValues {
    all: Vec<Option<i128>>,
    /// in the first `count` places the ports that have a value, in order, unless it is stale
    there: Vec<usize>,
    count: usize,
    is_stale: bool,
}

impl Model for PortValues {
    ghost use Rattle.std.specs.Prelude.{List, Option, ℤ};
    ghost use Rattle.port_values.specs.Valued.{KnowsValued};

    ghost Value = { List (Option ℤ) };

    ghost view = { λ v. v.all.items };

    ghost invariant = { λ v. KnowsValued v.all.items v.there.items v.count v.is_stale };
}

impl PortValues {
    /// So many ports, none of which has a value. Nothing else of them takes memory.
    pub fn none(alloc: Global, ports: usize) -> Result<PortValues, AllocError>
        ensures { IfOk result (λ values. values ≡ replicate ports None) }
    {
        Ok(PortValues {
            all: vec![in alloc; None; ports]?,
            there: vec![in alloc; 0; ports]?,
            count: 0,
            is_stale: true,
        })
    }

    /// How many ports there are.
    pub fn len(&self) -> usize
        ensures { result ≡ length self.now }
    {
        self.all.len()
    }

    /// The value of a port, if there is such a port and it has one.
    pub fn at(&self, port: usize) -> Option<i128>
        ensures { result ≡ slice_index_or self.now port None }
    {
        match self.all.get(port) {
            Some(value) => *value,
            None => None,
        }
    }

    /// Gives a port a value, or takes it away.
    pub fn put(&mut self, port: usize, value: Option<i128>)
        requires { port < length self.old }
        ensures { self.new ≡ slice_set self.old port value }
    {
        if !are_alike(&self.all[port], &value) {
            self.is_stale = true;
        }
        self.all[port] = value;
    }

    /// Takes all values away.
    pub fn clear(&mut self)
        ensures { self.new ≡ replicate (length self.old) None }
    {
        self.is_stale = true;
        self.all.as_mut_slice().fill(None);
    }

    /// Of the ports that have a value the k-th in order, from 0 on, with it. Where a port came to have its value, or lost it, since
    /// it was last asked, it looks at all ports once.
    pub fn nth(&mut self, k: usize) -> Option<(usize, i128)>
        ensures found { result ≡ slice_get (valued self.old) k }
        ensures same { self.new ≡ self.old }
    {
        if self.is_stale {
            self.count = note(self.there.as_mut_slice(), self.all.as_slice());
            self.is_stale = false;
        }
        entry(self.all.as_slice(), &self.there[..self.count], k)
    }
}

// Of these ports, which are those that have a value, the k-th with it.
fn entry(values: &[Option<i128>], there: &[usize], k: usize) -> Option<(usize, i128)>
    requires { there.now ≡ valued_ports values.now }
    ensures { result ≡ slice_get (valued values.now) k }
{
    if k >= there.len() {
        return None;
    }
    let port = there[k];
    match values[port] {
        Some(value) => Some((port, value)),
        None => None,
    }
}

// Whether both are there, or neither is.
fn are_alike(old: &Option<i128>, new: &Option<i128>) -> bool
    ensures { result ≡ true → is_some new.now ≡ is_some old.now }
{
    match (old, new) {
        (Some(_), Some(_)) | (None, None) => true,
        (Some(_), None) | (None, Some(_)) => false,
    }
}

// Writes the ports that have a value, in order, and tells how many there are.
fn note(there: &mut [usize], values: &[Option<i128>]) -> usize
    requires { length there.old ≡ length values.now }
    ensures room { length there.new ≡ length there.old }
    ensures within { result ≤ length there.new }
    ensures noted { take result there.new ≡ valued_ports values.now }
{
    let mut count = 0;
    for port in 0..values.len() {
        if values[port].is_some() {
            there[count] = port;
            count += 1;
        }
    }
    count
}
