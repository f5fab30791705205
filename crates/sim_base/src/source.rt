ghost use Rattle.std.specs.Prelude.{◌≡◌, ◌↔◌, ◌+◌, ◌-◌, ◌^◌, min, drop, take, length, IsErr, IfOk, Contains, Some};
ghost use Rattle.sim_base.specs.Source.{NotesTake};

use crate::Items;
use crate::items::is_listed;
use thiserror::Error;

/// A take that failed.
#[derive(Clone, Copy, Debug, Drop, Error, PartialEq, Eq)]
#[error("the read failed")]
pub struct SourceFault;

/// A place that bytes come from, in their order.
pub trait Source {
    ghost use Rattle.sim_base.specs.Source.{SourceView};

    /// What it tells: the bytes that are still to come, if it tells them, and how often a take has failed.
    ghost view: { Self → SourceView };

    /// Moves bytes from the start of those to come to the start of `into`, and answers how many: none exactly at the end of
    /// all bytes, where `into` isn't empty. It allocates no memory.
    fn take(&mut self, into: &mut [u8]) -> Result<usize, SourceFault>
        ensures noted { NotesTake (view self.old) (view self.new) into.new result };
}

/// A source in memory. The takes whose numbers, counted from 0, are in `failing` fail and take nothing, and no others
/// fail; each other one takes as much as there is and as fits.
#[derive(Debug, Drop)]
pub struct MemSource {
    pub bytes: Items<u8>,
    /// How many of the bytes were taken.
    pub taken: usize,
    pub failing: Items<u64>,
    pub takes: u64,
    pub faults: u64,
}

impl MemSource {
    /// A source of these bytes, before its first take.
    pub fn new(bytes: Vec<u8>, failing: Vec<u64>) -> MemSource
        ensures bytes { result.bytes ≡ bytes.items }
        ensures failing { result.failing ≡ failing.items }
        ensures quiet { (result.taken ≡ 0) × (result.takes ≡ 0) × (result.faults ≡ 0) }
    {
        MemSource {
            bytes: Items::from_vec(bytes),
            taken: 0,
            failing: Items::from_vec(failing),
            takes: 0,
            faults: 0,
        }
    }
}

impl Source for MemSource {
    ghost use Rattle.sim_base.specs.Source.{source_view};

    ghost view = { λ s. source_view (Some (drop s.taken s.bytes)) s.faults };

    fn take(&mut self, into: &mut [u8]) -> Result<usize, SourceFault>
        ensures noted { NotesTake (source_view (Some (drop self.old.taken self.old.bytes)) self.old.faults)
            (source_view (Some (drop self.new.taken self.new.bytes)) self.new.faults) into.new result }
        ensures kept { (self.new.bytes ≡ self.old.bytes) × (self.new.failing ≡ self.old.failing) }
        ensures counted { self.new.takes ≡ min (self.old.takes + 1) (2 ^ 64 - 1) }
        ensures exact { IsErr result ↔ Contains self.old.failing self.old.takes }
        ensures all { IfOk result (λ n. n ≡ min (length into.old)
            (length (drop self.old.taken self.old.bytes))) }
    {
        let is_failing = is_listed(self.failing.as_slice(), self.takes);
        self.takes = self.takes.saturating_add(1);
        if is_failing {
            self.faults = self.faults.saturating_add(1);
            return Err(SourceFault);
        }
        let count = copy_prefix(self.bytes.as_slice(), self.taken, into);
        self.taken += count;
        Ok(count)
    }
}

// Copies the bytes from a place on to the start of `into`, as many as there are and as fit.
fn copy_prefix(bytes: &[u8], from: usize, into: &mut [u8]) -> usize
    ensures count { result ≡ min (length into.old) (length (drop from bytes.now)) }
    ensures copied { take result into.new ≡ take result (drop from bytes.now) }
{
    let rest = bytes.get(from..).unwrap_or(&[]);
    let count = into.len().min(rest.len());
    into[..count].copy_from_slice(&rest[..count]);
    count
}
