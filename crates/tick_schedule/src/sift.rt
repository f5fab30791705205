ghost use Rattle.std.specs.Prelude.{◌≡◌, ◌≢◌, ◌<◌, ◌≤◌, ◌+◌, ◌*◌, ◌^◌, ℕ, length, slice_index, slice_set, All, SomeIndex};
ghost use Rattle.tick_schedule.specs.Cost.{TakesTurns};
ghost use Rattle.tick_schedule.specs.HeapOrder.{IsHeap, IsBelow, IsPlaced, IsOrdered, IsOrderedButDown, IsOrderedButUp, key_at};

use crate::points::Points;
use crate::steps::Steps;
use std::sync::ledger::Ledger;

/// An entry of the heap: a Clock and its point.
#[derive(Clone, Copy)]
struct Entry {
    clock: usize,
    point: u64,
}

/// Reads the entry at a place, which is one step.
fn read<L: Ledger>(points: &Points, order: &[usize], place: usize, steps: &mut Steps<L>) -> Entry
    requires place { place < length order.now }
    requires clock { slice_index order.now place < length points.now }
    ensures clock { result.clock ≡ slice_index order.now place }
    ensures point { result.point ≡ key_at points.now order.now place }
    ensures cost { steps.new ≡ steps.old + 1 }
{
    let clock = order[place];
    Entry {
        clock,
        point: points.at(clock, steps),
    }
}

/// Exchanges the Clocks at two places.
fn exchange(order: &mut [usize], places: &mut [usize], a: usize, at_a: usize, b: usize, at_b: usize)
    requires placed { IsPlaced (length order.old) order.old places.old }
    requires a { a < length order.old }
    requires b { b < length order.old }
    requires two { a ≢ b }
    requires at_a { slice_index order.old a ≡ at_a }
    requires at_b { slice_index order.old b ≡ at_b }
    ensures placed { IsPlaced (length order.old) order.new places.new }
    ensures at_a { slice_index order.new a ≡ at_b }
    ensures at_b { slice_index order.new b ≡ at_a }
    ensures others { (k : ℕ) → k ≢ a → k ≢ b → slice_index order.new k ≡ slice_index order.old k }
{
    order[a] = at_b;
    order[b] = at_a;
    places[at_a] = b;
    places[at_b] = a;
}

/// Which of two places below the hole has the earlier entry, with this entry.
fn least_below<L: Ledger>(
    points: &Points,
    order: &[usize],
    hole: usize,
    steps: &mut Steps<L>,
) -> (usize, Entry)
    requires len { length order.now ≡ length points.now }
    requires clocks { (i : ℕ) → i < length points.now →
        slice_index order.now i < length points.now }
    requires some { 2 * hole + 1 < length points.now }
    requires few { length points.now < 2 ^ 63 }
    ensures below { IsBelow hole result.0 }
    ensures within { result.0 < length points.now }
    ensures clock { result.1.clock ≡ slice_index order.now result.0 }
    ensures point { result.1.point ≡ key_at points.now order.now result.0 }
    ensures least { (j : ℕ) → j < length points.now → IsBelow hole j →
        result.1.point ≤ key_at points.now order.now j }
    ensures cost { steps.new ≤ steps.old + 2 }
{
    let left = 2 * hole + 1;
    let on_left = read(points, order, left, steps);
    if left + 1 == order.len() {
        return (left, on_left);
    }
    let on_right = read(points, order, left + 1, steps);
    if on_left.point <= on_right.point {
        (left, on_left)
    } else {
        (left + 1, on_right)
    }
}

/// Moves the Clock at the hole down until none below it is earlier.
fn sift_down<L: Ledger>(
    points: &Points,
    order: &mut [usize],
    places: &mut [usize],
    hole: usize,
    moved: Entry,
    steps: &mut Steps<L>,
)
    requires placed { IsPlaced (length points.now) order.old places.old }
    requires hole { hole < length points.now }
    requires few { length points.now < 2 ^ 63 }
    requires clock { slice_index order.old hole ≡ moved.clock }
    requires point { slice_index points.now moved.clock ≡ moved.point }
    requires ordered { IsOrderedButDown (length points.now) hole (key_at points.now order.old) }
    ensures placed { IsPlaced (length points.now) order.new places.new }
    ensures ordered { IsOrdered (length points.now) (key_at points.now order.new) }
    ensures cost { TakesTurns 2 (length points.now) steps.old steps.new }
{
    let mut hole = hole;
    while 2 * hole + 1 < order.len() {
        let (below, entry) = least_below(points, order, hole, steps);
        if moved.point <= entry.point {
            return;
        }
        exchange(order, places, hole, moved.clock, below, entry.clock);
        hole = below;
    }
}

/// Moves the Clock at the hole up until none above it is later.
fn sift_up<L: Ledger>(
    points: &Points,
    order: &mut [usize],
    places: &mut [usize],
    hole: usize,
    moved: Entry,
    steps: &mut Steps<L>,
)
    requires placed { IsPlaced (length points.now) order.old places.old }
    requires hole { hole < length points.now }
    requires few { length points.now < 2 ^ 63 }
    requires clock { slice_index order.old hole ≡ moved.clock }
    requires point { slice_index points.now moved.clock ≡ moved.point }
    requires ordered { IsOrderedButUp (length points.now) hole (key_at points.now order.old) }
    ensures placed { IsPlaced (length points.now) order.new places.new }
    ensures ordered { IsOrdered (length points.now) (key_at points.now order.new) }
    ensures cost { TakesTurns 1 (length points.now) steps.old steps.new }
{
    let mut hole = hole;
    while hole > 0 {
        let above = (hole - 1) / 2;
        let entry = read(points, order, above, steps);
        if entry.point <= moved.point {
            return;
        }
        exchange(order, places, above, entry.clock, hole, moved.clock);
        hole = above;
    }
}

/// Gives a Clock another point, and moves it to its place.
pub(crate) fn put<L: Ledger>(
    points: &mut Points,
    order: &mut [usize],
    places: &mut [usize],
    clock: usize,
    point: u64,
    steps: &mut Steps<L>,
)
    requires heap { IsHeap points.old order.old places.old }
    requires clock { clock < length points.old }
    requires few { length points.old < 2 ^ 63 }
    ensures points { points.new ≡ slice_set points.old clock point }
    ensures heap { IsHeap points.new order.new places.new }
    ensures cost { TakesTurns 2 (length points.old) (steps.old + 1) steps.new }
{
    let hole = places[clock];
    let old = points.at(clock, steps);
    points.set(clock, point);
    let moved = Entry { clock, point };
    if point < old {
        sift_up(points, order, places, hole, moved, steps);
    } else {
        sift_down(points, order, places, hole, moved, steps);
    }
}

/// The least point.
pub(crate) fn first_point<L: Ledger>(
    points: &Points,
    order: &[usize],
    places: &[usize],
    steps: &mut Steps<L>,
) -> u64
    requires heap { IsHeap points.now order.now places.now }
    requires some { 0 < length points.now }
    ensures found { SomeIndex points.now (λ c. slice_index points.now c ≡ result) }
    ensures least { All (λ q. result ≤ q) points.now }
    ensures cost { steps.new ≡ steps.old + 1 }
{
    read(points, order, 0, steps).point
}
