ghost use Rattle.std.specs.Prelude.{◌≡◌, ◌↔◌, ◌⊎◌, ◌+◌, ◌-◌, ◌^◌, ◌<◌, ◌≤◌, ◌++◌, min, [], OnOk, OnErr, IfOk, IsErr, IsTrue, Contains, length, sum, vec_len, vec_capacity};
ghost use Rattle.sim_base.specs.Sink.{NotesPut};

use crate::Items;
use crate::items::is_listed;
use std::alloc::{AllocError, Global};
use thiserror::Error;

/// A put that failed.
#[derive(Clone, Copy, Debug, Drop, Error, PartialEq, Eq)]
#[error("the write failed")]
pub struct SinkFault;

/// A place that bytes are put to, one piece after another.
pub trait Sink {
    ghost use Rattle.sim_base.specs.Sink.{SinkView, IsJoined};

    /// What it tells: its bytes and its pieces, if it tells them, and how often a put has failed.
    ghost view: { Self → SinkView };

    /// Adds all of the bytes as one piece, or after a fault a prefix of them. It allocates no memory.
    fn put(&mut self, bytes: &[u8]) -> Result<(), SinkFault>
        ensures noted { NotesPut (view self.old) (view self.new) bytes.now result };

    /// The pieces make up the bytes.
    ghost joined: { (sink : Self) → IsJoined (view sink) };
}

/// A sink in memory. Its room, in bytes and in puts, is fixed when it is made. A put that passes the room fails, and
/// so do the puts whose numbers, counted from 0, are in `failing`; no others do. A put that fails adds no bytes.
#[derive(Debug, Drop)]
pub struct MemSink {
    pub bytes: Vec<u8>,
    pub room: usize,
    /// The lengths of the pieces.
    pub lengths: Vec<usize>,
    pub most_puts: usize,
    /// The puts past the room for lengths: each failed, and its piece is empty.
    pub beyond: u64,
    pub failing: Items<u64>,
    pub puts: u64,
    pub faults: u64,
    ghost has_room: { room ≤ vec_capacity bytes },
    ghost has_puts: { most_puts ≤ vec_capacity lengths },
    ghost is_cut: { sum lengths.items ≡ length bytes.items },
    ghost are_faults: { beyond ≤ faults },
    ghost is_full: { 0 < beyond → most_puts ≤ vec_len lengths },
}

impl MemSink {
    ghost use Rattle.sim_base.specs.Sink.{with_fault};
    ghost use Rattle.sim_base.specs.MemSink.{mem_view};

    /// An empty sink with room for so many bytes, and for so many puts.
    pub fn with_room(
        alloc: Global,
        room: usize,
        most_puts: usize,
        failing: Vec<u64>,
    ) -> Result<MemSink, AllocError>
        ensures empty { IfOk result (λ s. (s.bytes.items ≡ []) × (s.lengths.items ≡ []) ×
            (s.beyond ≡ 0)) }
        ensures room { IfOk result (λ s. (s.room ≡ room) × (s.most_puts ≡ most_puts)) }
        ensures failing { IfOk result (λ s. s.failing ≡ failing.items) }
        ensures quiet { IfOk result (λ s. (s.puts ≡ 0) × (s.faults ≡ 0)) }
    {
        Ok(MemSink {
            bytes: Vec::with_capacity(alloc, room)?,
            room,
            lengths: Vec::with_capacity(alloc, most_puts)?,
            most_puts,
            beyond: 0,
            failing: Items::from_vec(failing),
            puts: 0,
            faults: 0,
        })
    }

    fn fails_to_put(&self, count: usize) -> bool
        ensures { IsTrue result ↔ (Contains self.now.failing self.now.puts
            ⊎ (self.now.room < vec_len self.now.bytes + count)
            ⊎ (self.now.most_puts ≤ vec_len self.now.lengths)) }
    {
        let taken = self.bytes.len();
        is_listed(self.failing.as_slice(), self.puts)
            || taken > self.room
            || count > self.room - taken
            || self.lengths.len() >= self.most_puts
    }

    // Notes a put that failed, and added no bytes.
    fn note_fault(&mut self)
        ensures noted { mem_view self.new ≡ with_fault (mem_view self.old) [] }
        ensures bytes { self.new.bytes.items ≡ self.old.bytes.items }
        ensures room { (self.new.room ≡ self.old.room) × (self.new.most_puts ≡ self.old.most_puts) }
        ensures puts { (self.new.puts ≡ self.old.puts) × (self.new.failing ≡ self.old.failing) }
    {
        if self.faults == u64::MAX {
            return;
        }
        self.faults += 1;
        if self.lengths.len() < self.most_puts {
            self.lengths.push_reserved(0);
        } else {
            self.beyond += 1;
        }
    }
}

impl Sink for MemSink {
    ghost use Rattle.sim_base.specs.MemSink.{mem_view};
    ghost use Rattle.sim_base.specs.Pieces.{concat-cut};

    ghost view = { mem_view };

    ghost joined = { λ sink. concat-cut sink.lengths.items sink.bytes.items sink.beyond sink.is_cut };

    #[tactic(auto, using(crate::proofs::SinkLemmas::pieces_push))]
    fn put(&mut self, bytes: &[u8]) -> Result<(), SinkFault>
        ensures noted { NotesPut (mem_view self.old) (mem_view self.new) bytes.now result }
        ensures kept { (self.new.room ≡ self.old.room) × (self.new.most_puts ≡ self.old.most_puts) ×
            (self.new.failing ≡ self.old.failing) }
        ensures counted { self.new.puts ≡ min (self.old.puts + 1) (2 ^ 64 - 1) }
        ensures exact { IsErr result ↔ (Contains self.old.failing self.old.puts
            ⊎ (self.old.room < length self.old.bytes.items + length bytes.now)
            ⊎ (self.old.most_puts ≤ length self.old.lengths.items)) }
        ensures full { OnErr result (self.new.bytes.items ≡ self.old.bytes.items) }
    {
        let fails = self.fails_to_put(bytes.len());
        self.puts = self.puts.saturating_add(1);
        if fails {
            self.note_fault();
            return Err(SinkFault);
        }
        self.lengths.push_reserved(bytes.len());
        match self.bytes.extend_from_slice(bytes) {
            Ok(()) => Ok(()),
            Err(_) => unreachable!(),
        }
    }
}
