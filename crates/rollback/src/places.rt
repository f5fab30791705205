ghost use Rattle.std.specs.Prelude.{◌≡◌, ◌==◌, ◌&&◌, ◌<◌, count_by, map, min, not, position, length, IfSome};
ghost use Rattle.std.specs.List.{list_all, reduce};
ghost use Rattle.run_model.specs.Steps.{least_or};
ghost use Rattle.step_agreement.specs.Agreement.{end_at};
ghost use Rattle.rollback.specs.Places.{passes, stand_in};

use fmu_peer::{Peer, Slot};

/// Which FMUs are selected, by their shapes and the points where they stand.
#[derive(Clone, Copy, Debug, PartialEq, Eq)]
pub(crate) enum Who {
    Everyone,
    /// all where two or more might return early, and none else, of `early` that might
    Saved { early: usize },
    /// those that might return early
    Early,
    /// those that don't stand at a point
    Elsewhere { m: u64 },
    /// those that don't end at m, when they are asked for the bound
    EndElsewhere { t: u64, bound: u64, m: u64 },
}

pub(crate) fn point_of<L: Peer>(slot: &Slot<L>) -> u64
    ensures { result ≡ (stand_in L.view slot.now).point }
{
    slot.held.peer().phase().point
}

// One that wasn't asked counts as ending at the bound.
fn end_at<L: Peer>(slot: &Slot<L>, t: u64, bound: u64) -> u64
    ensures { result ≡ end_at t bound (stand_in L.view slot.now) }
{
    let point = point_of(slot);
    if point == t { bound } else { point }
}

pub(crate) fn passes<L: Peer>(slot: &Slot<L>, who: Who) -> bool
    ensures { result ≡ passes who (stand_in L.view slot.now) }
{
    match who {
        Who::Everyone => true,
        Who::Saved { early } => early > 1,
        Who::Early => might_return_early(slot),
        Who::Elsewhere { m } => point_of(slot) != m,
        Who::EndElsewhere { t, bound, m } => end_at(slot, t, bound) != m,
    }
}

fn might_return_early<L: Peer>(slot: &Slot<L>) -> bool
    ensures { result ≡ (stand_in L.view slot.now).shape.might_return_early }
{
    slot.held.peer().shape().might_return_early
}

/// How many FMUs might return early.
pub(crate) fn early_count<L: Peer>(slots: &[Slot<L>]) -> usize
    ensures { result ≡ count_by (λ slot. (stand_in L.view slot).shape.might_return_early)
        slots.now }
{
    slots
        .iter()
        .filter(|slot| might_return_early(*slot))
        .count()
}

/// The least end, or the bound where there is no FMU.
pub(crate) fn reached<L: Peer>(slots: &[Slot<L>], t: u64, bound: u64) -> u64
    ensures { result ≡ least_or bound
        (map (λ slot. end_at t bound (stand_in L.view slot)) slots.now) }
{
    match least_end(slots, t, bound) {
        Some(end) => end,
        None => bound,
    }
}

fn least_end<L: Peer>(slots: &[Slot<L>], t: u64, bound: u64) -> Option<u64>
    ensures { result ≡ reduce min
        (map (λ slot. end_at t bound (stand_in L.view slot)) slots.now) }
{
    slots.iter().map(|slot| end_at(slot, t, bound)).min()
}

/// Whether all stand at a point.
pub(crate) fn are_at<L: Peer>(slots: &[Slot<L>], m: u64) -> bool
    ensures { result ≡ list_all (λ slot. (stand_in L.view slot).point == m) slots.now }
{
    slots.iter().all(|slot| point_of(slot) == m)
}

/// Of those that are selected, the first that takes steps of one size alone.
#[inline(never)]
pub(crate) fn first_unvaried<L: Peer>(slots: &[Slot<L>], who: Who) -> Option<usize>
    ensures first { result ≡ position (λ slot. passes who (stand_in L.view slot) &&
        not (stand_in L.view slot).shape.has_variable_steps) slots.now }
    ensures within { IfSome result (λ place. place < length slots.now) }
{
    slots.iter().position(|slot| is_unvaried(slot, who))
}

fn is_unvaried<L: Peer>(slot: &Slot<L>, who: Who) -> bool
    ensures { result ≡ (passes who (stand_in L.view slot.now) &&
        not (stand_in L.view slot.now).shape.has_variable_steps) }
{
    passes(slot, who) && !slot.held.peer().shape().has_variable_steps
}
