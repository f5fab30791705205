ghost use Rattle.std.specs.Prelude.{◌≡◌, ℕ, ◌<◌, ◌≤◌, ◌+◌, ◌^◌, All, IfSome, IfNone, IfOk, SomeIndex, length, replicate, slice_index, slice_set};
ghost use Rattle.std.specs.List.{range_with_len};
ghost use Rattle.tick_schedule.specs.Cost.{TakesTurns};
ghost use Rattle.tick_schedule.specs.Points.{past};

use crate::clock::PAST;
use crate::points::Points;
use crate::sift::{first_point, put};
use crate::steps::Steps;
use std::alloc::{AllocError, Global};
use std::marker::Model;
use std::sync::ledger::Ledger;

/// The next point of each Clock, by the Clock's number. All Clocks stay in it; one that doesn't tick has `PAST`.
#[derive(Drop)]
pub(crate) struct Heap {
    points: Points,
    /// the Clock at each place: the one at `i` isn't later than those at `2 * i + 1` and `2 * i + 2`
    order: Vec<usize>,
    /// the place of each Clock
    places: Vec<usize>,
}

impl Model for Heap {
    ghost use Rattle.std.specs.Prelude.{ℕ, List, ◌<◌, ◌^◌, length};
    ghost use Rattle.tick_schedule.specs.HeapOrder.{IsHeap};

    ghost Value = { List ℕ };

    ghost view = { λ h. h.points };

    ghost invariant = { λ h. IsHeap h.points h.order.items h.places.items × (length h.points < 2 ^ 63) };
}

impl Heap {
    /// So many Clocks, none of which ticks.
    pub(crate) fn none(alloc: Global, count: usize) -> Result<Heap, AllocError>
        ensures same { IfOk result (λ heap. heap ≡ replicate count past) }
        ensures few { IfOk result (λ heap. length heap < 2 ^ 63) }
    {
        Ok(Heap {
            points: Points::all(alloc, PAST, count)?,
            order: in_order(alloc, count)?,
            places: in_order(alloc, count)?,
        })
    }

    /// Gives a Clock another point.
    pub(crate) fn put<L: Ledger>(&mut self, clock: usize, point: u64, steps: &mut Steps<L>)
        requires { clock < length self.old }
        ensures points { self.new ≡ slice_set self.old clock point }
        ensures cost { TakesTurns 2 (length self.old) (steps.old + 1) steps.new }
    {
        put(
            &mut self.points,
            self.order.as_mut_slice(),
            self.places.as_mut_slice(),
            clock,
            point,
            steps,
        );
    }

    /// The point of a Clock.
    pub(crate) fn point<L: Ledger>(&self, clock: usize, steps: &mut Steps<L>) -> u64
        requires { clock < length self.now }
        ensures point { result ≡ slice_index self.now clock }
        ensures cost { steps.new ≡ steps.old + 1 }
    {
        self.points.at(clock, steps)
    }

    /// The least point.
    pub(crate) fn least_point<L: Ledger>(&self, steps: &mut Steps<L>) -> Option<u64>
        ensures none { IfNone result (length self.now ≡ 0) }
        ensures found { IfSome result (λ p. SomeIndex self.now (λ c. slice_index self.now c ≡ p)) }
        ensures least { IfSome result (λ p. All (λ q. p ≤ q) self.now) }
        ensures one { IfSome result (λ _. steps.new ≡ steps.old + 1) }
        ensures no_step { IfNone result (steps.new ≡ steps.old) }
    {
        if self.points.len() == 0 {
            return None;
        }
        Some(first_point(
            &self.points,
            self.order.as_slice(),
            self.places.as_slice(),
            steps,
        ))
    }
}

/// The numbers below a count, in order.
fn in_order(alloc: Global, count: usize) -> Result<Vec<usize>, AllocError>
    ensures { IfOk result (λ numbers. numbers.items ≡ range_with_len 0 count) }
{
    (0..count).collect(alloc)
}
