ghost use Rattle.std.specs.Prelude.{◌≡◌, ◌≤◌, ◌<◌, ◌^◌, IfOk, drop, length, take};

use std::alloc::{AllocError, Global};
use std::marker::Model;
use std::rc::Rc;

/// Bytes that several owners in one thread share: each has all of them or a part, and they stand in memory once. A clause sees
/// the bytes of this owner alone.
#[derive(Debug, Drop)]
pub struct SharedBytes {
    whole: Rc<Vec<u8>>,
    start: usize,
    count: usize,
}

impl Model for SharedBytes {
    ghost use Rattle.std.specs.Prelude.{◌≤◌, ◌+◌, List, ℕ, drop, length, take};

    ghost Value = { List ℕ };

    ghost view = { λ b. take b.count (drop b.start b.whole.value.items) };

    ghost invariant = { λ b. b.start + b.count ≤ length b.whole.value.items };
}

impl SharedBytes {
    /// These bytes, with their first owner. They aren't copied.
    pub fn new(alloc: Global, bytes: Vec<u8>) -> Result<SharedBytes, AllocError>
        ensures { IfOk result (λ shared. shared ≡ bytes.items) }
    {
        let count = bytes.len();
        let whole = Rc::new(alloc, bytes)?;
        Ok(SharedBytes {
            whole,
            start: 0,
            count,
        })
    }

    /// The bytes.
    pub fn as_slice(&self) -> &[u8]
        ensures { result.now ≡ self.now }
    {
        &self.whole[self.start..self.start + self.count]
    }

    /// The number of bytes.
    pub fn len(&self) -> usize
        ensures { result ≡ length self.now }
    {
        self.count
    }

    /// One owner more of the same bytes.
    pub fn share(&self) -> Result<SharedBytes, AllocError>
        ensures { IfOk result (λ other. other ≡ self.now) }
    {
        self.prefix(self.count)
    }

    /// An owner of the first bytes, so many of them.
    pub fn prefix(&self, count: usize) -> Result<SharedBytes, AllocError>
        requires { count ≤ length self.now }
        ensures { IfOk result (λ prefix. prefix ≡ take count self.now) }
    {
        Ok(SharedBytes {
            whole: self.whole.clone()?,
            start: self.start,
            count,
        })
    }

    /// An owner of the bytes after the first so many. There are never as many as 2^63.
    pub fn after(&self, count: usize) -> Result<SharedBytes, AllocError>
        requires { count ≤ length self.now }
        ensures rest { IfOk result (λ rest. rest ≡ drop count self.now) }
        ensures small { length self.now < 2 ^ 63 }
    {
        Ok(SharedBytes {
            whole: self.whole.clone()?,
            start: self.start + count,
            count: self.count - count,
        })
    }
}
