ghost use Rattle.std.specs.Prelude.{◌≡◌, ℕ, IfOk, false, length, slice_index_or};
ghost use Rattle.event_iteration.specs.Participants.{AreSkips};

use std::alloc::{AllocError, Global};

/// For each place of a list the first from it on that isn't left out.
#[derive(Debug, Drop)]
pub struct Skips {
    pub next: Vec<usize>,
}

impl Skips {
    /// Those of the places that are kept. Nothing else of them takes memory.
    pub(crate) fn of(alloc: Global, keeps: &[bool]) -> Result<Skips, AllocError>
        ensures { IfOk result (λ skips. AreSkips (length keeps.now)
            (λ (j : ℕ). slice_index_or keeps.now j false ≡ false) skips.next.items) }
    {
        let mut next = vec![in alloc; 0; keeps.len()]?;
        fill(&mut next, keeps);
        Ok(Skips { next })
    }

    /// The first place from this on that isn't left out, or the one after the last.
    pub(crate) fn from(&self, k: usize) -> usize
        ensures { result ≡ slice_index_or self.now.next.items k k }
    {
        match self.next.get(k) {
            Some(place) => *place,
            None => k,
        }
    }
}

// Writes to each place the first from it on that is kept.
fn fill(next: &mut [usize], keeps: &[bool])
    requires { length next.old ≡ length keeps.now }
    ensures { AreSkips (length keeps.now) (λ (j : ℕ). slice_index_or keeps.now j false ≡ false)
        next.new }
{
    let mut first = keeps.len();
    for i in 0..keeps.len() {
        let k = keeps.len() - 1 - i;
        if keeps[k] {
            first = k;
        }
        next[k] = first;
    }
}
