ghost use Rattle.std.specs.Prelude.{◌≡◌, ℕ, ◌<◌, ◌≤◌, All, IfNone, IfOk, IfSome, Some, SomeIndex, false, true, length, replicate, slice_index, slice_index_or, slice_set};
ghost use Rattle.std.specs.List.{slice_get};
ghost use Rattle.tick_schedule.specs.Pending.{place_of};

use crate::clock::PAST;
use crate::heap::Heap;
use crate::steps::Steps;
use std::alloc::{AllocError, Global};
use std::marker::{Brand, Model};
use std::sync::ledger::{Blank, Ledger};

/// Places, of so many, that are still to be taken, the first of them first. A clause sees a flag for each place.
#[derive(Drop)]
pub struct Pending {
    /// the point of a place is its own number, or `PAST` where it isn't to be taken
    heap: Heap,
}

impl Model for Pending {
    ghost use Rattle.std.specs.Prelude.{◌<◌, ◌^◌, List, Bool, length, map};
    ghost use Rattle.tick_schedule.specs.Pending.{AreOwnNumbers, is_to_take};

    ghost Value = { List Bool };

    ghost view = { λ p. map is_to_take p.heap };

    ghost invariant = { λ p. AreOwnNumbers p.heap × (length p.heap < 2 ^ 63) };
}

impl Pending {
    /// So many places, none of which is to be taken. Nothing else of them takes memory.
    pub fn none(alloc: Global, places: usize) -> Result<Pending, AllocError>
        ensures { IfOk result (λ pending. pending ≡ replicate places false) }
    {
        Ok(Pending {
            heap: Heap::none(alloc, places)?,
        })
    }

    /// The place is to be taken.
    pub fn add(&mut self, place: usize)
        requires { place < length self.old }
        ensures { self.new ≡ slice_set self.old place true }
    {
        put_by::<Brand>(&mut self.heap, place, place as u64, Blank::new(1));
    }

    /// The place isn't to be taken any more.
    pub fn take(&mut self, place: usize)
        requires { place < length self.old }
        ensures { self.new ≡ slice_set self.old place false }
    {
        put_by::<Brand>(&mut self.heap, place, PAST, Blank::new(1));
    }

    /// The first of those that are to be taken.
    pub fn first(&self) -> Option<usize>
        ensures found { IfSome result (λ place. slice_get self.now place ≡ Some true) }
        ensures first { IfSome result (λ place. (other : ℕ) → other < place →
            slice_index_or self.now other false ≡ false) }
        ensures none { IfNone result ((place : ℕ) →
            slice_index_or self.now place false ≡ false) }
    {
        match least_by::<Brand>(&self.heap, Blank::new(1)) {
            Some(point) => place_of(point),
            None => None,
        }
    }
}

// The place of a point, where it is one.
fn place_of(point: u64) -> Option<usize>
    ensures { result ≡ place_of point }
{
    if point == PAST {
        None
    } else {
        Some(point as usize)
    }
}

fn put_by<L: Ledger>(heap: &mut Heap, place: usize, point: u64, blank: Blank)
    requires name { blank.name ≡ L.name }
    requires parts { blank.parts ≡ L.parts }
    requires some { 0 < blank.parts }
    requires place { place < length heap.old }
    ensures { heap.new ≡ slice_set heap.old place point }
{
    heap.put(place, point, &mut Steps::<L>::new(blank));
}

fn least_by<L: Ledger>(heap: &Heap, blank: Blank) -> Option<u64>
    requires name { blank.name ≡ L.name }
    requires parts { blank.parts ≡ L.parts }
    requires some { 0 < blank.parts }
    ensures none { IfNone result (length heap.now ≡ 0) }
    ensures found { IfSome result (λ p. SomeIndex heap.now (λ c. slice_index heap.now c ≡ p)) }
    ensures least { IfSome result (λ p. All (λ q. p ≤ q) heap.now) }
{
    heap.least_point(&mut Steps::<L>::new(blank))
}
