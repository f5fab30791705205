ghost use Rattle.std.specs.Prelude.{◌≡◌, ◌↔◌, ◌⊎◌, ◌+◌, ◌-◌, ◌^◌, ◌<◌, ◌≤◌, min, [], IfOk, OnErr, IsErr, IsTrue, drop, ◌++◌, Contains, length, vec_len, vec_capacity, Err};
ghost use Rattle.fmu_link.specs.Wire.{NotesSend, NotesReceive};

use crate::{Wire, WireFault};
use sim_base::Items;
use std::alloc::{AllocError, Global};

/// A wire in memory. Its calls, sends and receives together, are counted from 0. Those whose numbers are in `failing`
/// fail, as does a send that passes the room, which is fixed when the wire is made, and no others do. A call that fails
/// sends nothing, and takes nothing of what is to come.
#[derive(Debug, Drop)]
pub struct MemWire {
    pub sent: Vec<u8>,
    pub room: usize,
    /// All bytes that come.
    pub coming: Items<u8>,
    /// How many of them were taken.
    pub taken: usize,
    pub failing: Items<u64>,
    pub calls: u64,
    pub faults: u64,
    ghost has_room: { room ≤ vec_capacity sent },
}

impl MemWire {
    /// A wire before its first call, with room for so many bytes to be sent. These bytes come.
    pub fn with_room(
        alloc: Global,
        room: usize,
        coming: Vec<u8>,
        failing: Vec<u64>,
    ) -> Result<MemWire, AllocError>
        ensures empty { IfOk result (λ w. (w.sent.items ≡ []) × (w.room ≡ room)) }
        ensures coming { IfOk result (λ w. (w.coming ≡ coming.items) × (w.taken ≡ 0)) }
        ensures failing { IfOk result (λ w. w.failing ≡ failing.items) }
        ensures quiet { IfOk result (λ w. (w.calls ≡ 0) × (w.faults ≡ 0)) }
    {
        Ok(MemWire {
            sent: Vec::with_capacity(alloc, room)?,
            room,
            coming: Items::from_vec(coming),
            taken: 0,
            failing: Items::from_vec(failing),
            calls: 0,
            faults: 0,
        })
    }

    // Whether so many bytes more pass the room.
    fn is_past_room(&self, count: usize) -> bool
        ensures { IsTrue result ↔ (self.now.room < vec_len self.now.sent + count) }
    {
        let sent = self.sent.len();
        sent > self.room || count > self.room - sent
    }
}

impl Wire for MemWire {
    ghost use Rattle.fmu_link.specs.MemWire.{mem_view};
    ghost use Rattle.fmu_link.specs.declared.wire.WireFault.TheVariants.{Failed};

    ghost view = { mem_view };

    fn send(&mut self, bytes: &[u8]) -> Result<(), WireFault>
        ensures noted { NotesSend (mem_view self.old) (mem_view self.new) bytes.now result }
        ensures kept { (self.new.room ≡ self.old.room) × (self.new.failing ≡ self.old.failing) }
        ensures coming { (self.new.coming ≡ self.old.coming) × (self.new.taken ≡ self.old.taken) }
        ensures counted { self.new.calls ≡ min (self.old.calls + 1) (2 ^ 64 - 1) }
        ensures exact { IsErr result ↔ (Contains self.old.failing self.old.calls
            ⊎ (self.old.room < vec_len self.old.sent + length bytes.now)) }
        ensures err { OnErr result (self.new.sent.items ≡ self.old.sent.items) }
    {
        let fails = is_listed(self.failing.as_slice(), self.calls)
            || self.is_past_room(bytes.len());
        self.calls = self.calls.saturating_add(1);
        if fails {
            self.faults = self.faults.saturating_add(1);
            return Err(WireFault::Failed);
        }
        match self.sent.extend_from_slice(bytes) {
            Ok(()) => Ok(()),
            Err(_) => unreachable!(),
        }
    }

    fn receive(&mut self, into: &mut [u8]) -> Result<(), WireFault>
        ensures noted { NotesReceive (mem_view self.old) (mem_view self.new) into.new result }
        ensures kept { (self.new.room ≡ self.old.room) × (self.new.failing ≡ self.old.failing) }
        ensures sent { (self.new.sent.items ≡ self.old.sent.items) ×
            (self.new.coming ≡ self.old.coming) }
        ensures counted { self.new.calls ≡ min (self.old.calls + 1) (2 ^ 64 - 1) }
        ensures exact { (result ≡ Err Failed) ↔ Contains self.old.failing self.old.calls }
        ensures failed { result ≡ Err Failed → self.new.taken ≡ self.old.taken }
    {
        let fails = is_listed(self.failing.as_slice(), self.calls);
        self.calls = self.calls.saturating_add(1);
        if fails {
            self.faults = self.faults.saturating_add(1);
            return Err(WireFault::Failed);
        }
        if !fill(into, self.coming.as_slice(), self.taken) {
            self.taken = self.coming.len();
            return Err(WireFault::Ended);
        }
        self.taken += into.len();
        Ok(())
    }
}

// Whether a call's number is on a list.
fn is_listed(calls: &[u64], call: u64) -> bool
    ensures { IsTrue result ↔ Contains calls.now call }
{
    calls.contains(&call)
}

// Fills all of `into` with the first of the bytes from a place on, if they are as many.
fn fill(into: &mut [u8], bytes: &[u8], from: usize) -> bool
    ensures enough { IsTrue result ↔ (length into.old ≤ length (drop from bytes.now)) }
    ensures filled { IsTrue result → drop from bytes.now ≡ into.new ++ drop
        (from + length into.new) bytes.now }
{
    let rest = bytes.get(from..).unwrap_or(&[]);
    let count = into.len();
    if rest.len() < count {
        return false;
    }
    into.copy_from_slice(&rest[..count]);
    true
}
