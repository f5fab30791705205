ghost use Rattle.std.specs.Prelude.{◌≡◌, ◌≢◌, ℕ, [], List, Some, Err, OnOk};
ghost use Rattle.trace_stream.specs.declared.fault.StreamFault.TheVariants.{Line};
ghost use Rattle.trace_stream.specs.Cut.{next_number, HasNoLine, IsSpent, TakesLine};

use crate::fault::StreamFault;
use std::alloc::Global;
use std::io::{self, BufRead, ErrorKind};

/// The lines of a text, one at a time.
#[derive(Drop)]
pub(crate) struct Lines<B> {
    pub(crate) input: B,
    /// the line, without its line feed
    pub(crate) bytes: Vec<u8>,
    /// its number, from 1; 0 before the first
    pub(crate) number: u64,
}

impl<B: BufRead> Lines<B> {
    /// Before the first line.
    pub(crate) fn new(alloc: Global, input: B) -> Lines<B>
        ensures input { result.input ≡ input }
        ensures number { result.number ≡ 0 }
    {
        Lines {
            input,
            bytes: Vec::new(alloc),
            number: 0,
        }
    }

    /// Goes to the next line; one that is missing or has no line feed is out of form.
    pub(crate) fn advance(&mut self) -> Result<(), StreamFault>
        ensures number { self.new.number ≡ next_number self.old.number }
        ensures taken { OnOk result (TakesLine (B.remaining self.old.input)
            (B.remaining self.new.input) self.new.bytes.items) }
        ensures fault { (n : ℕ) → result ≡ Err (Line n) → n ≡ next_number self.old.number }
        ensures none { (n : ℕ) → result ≡ Err (Line n) → HasNoLine (B.remaining self.old.input) }
    {
        self.number = self.number.saturating_add(1);
        self.bytes.clear();
        match self.input.read_until(b'\n', &mut self.bytes) {
            Ok(_) => {}
            Err(error) => return Err(read_fault(&error)),
        }
        match self.bytes.pop() {
            Some(b'\n') => Ok(()),
            _ => Err(StreamFault::Line(self.number)),
        }
    }

    /// Looks whether nothing comes after the line; else the next one is out of form.
    pub(crate) fn finish(&mut self) -> Result<(), StreamFault>
        ensures number { self.new.number ≡ self.old.number }
        ensures spent { OnOk result (IsSpent (B.remaining self.old.input)
            (B.remaining self.new.input)) }
        ensures fault { (n : ℕ) → result ≡ Err (Line n) → n ≡ next_number self.old.number }
        ensures more { (n : ℕ) → result ≡ Err (Line n) → (rest : List ℕ) →
            B.remaining self.old.input ≡ Some rest → rest ≢ [] }
    {
        self.bytes.clear();
        match self.input.read_until(b'\n', &mut self.bytes) {
            Ok(0) => Ok(()),
            Ok(_) => Err(StreamFault::Line(self.number.saturating_add(1))),
            Err(error) => Err(read_fault(&error)),
        }
    }
}

fn read_fault(error: &io::Error) -> StreamFault
    ensures { (n : ℕ) → result ≢ Line n }
{
    match error.kind() {
        ErrorKind::OutOfMemory => StreamFault::Memory,
        _ => StreamFault::Read,
    }
}
