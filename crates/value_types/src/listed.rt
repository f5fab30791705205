ghost use Rattle.std.specs.Prelude.{◌≡◌, ◌<◌, ◌==◌, IfOk, IfSome, false, length, map, nat_lt, position, true};
ghost use Rattle.std.specs.List.{slice_get};
ghost use Rattle.std.specs.Option.{option_copied};
ghost use Rattle.std.specs.List.Sorted.{IsPartitionPoint, IsSorted};
ghost use Rattle.value_types.specs.Index.{IsIndex, pair_cmp};

use crate::Referenced;
use std::alloc::{AllocError, Global};
use std::marker::Model;

// A list with its index. A clause sees the list.
#[derive(Debug, Drop)]
pub(crate) struct Listed<T: Referenced> {
    items: Vec<T>,
    // each reference with its place, in their order
    index: Vec<(u32, usize)>,
}

impl<T: Referenced> Model for Listed<T> {
    ghost use Rattle.std.specs.Prelude.{List, map};
    ghost use Rattle.std.specs.Coded.{coded_list};
    ghost use Rattle.value_types.specs.Index.{IsIndex};

    ghost Value = { List T };

    ghost coded = { coded_list T.code };

    ghost view = { λ b. b.items.items };

    ghost invariant = { λ b. IsIndex (map T.reference b.items.items) b.index.items };
}

impl<T: Referenced> Listed<T> {
    pub(crate) fn new(alloc: Global, items: Vec<T>) -> Result<Listed<T>, AllocError>
        ensures { IfOk result (λ list. list ≡ items.items) }
    {
        let index = index_of(alloc, items.as_slice())?;
        Ok(Listed { items, index })
    }

    pub(crate) fn as_slice(&self) -> &[T]
        ensures { result.now ≡ self.now }
    {
        self.items.as_slice()
    }

    pub(crate) fn place_of(&self, reference: u32) -> Option<usize>
        ensures place { result ≡ position (λ x. T.reference x == reference) self.now }
        ensures within { IfSome result (λ place. place < length self.now) }
    {
        place_in(self.index.as_slice(), reference)
    }
}

// Each reference with its place, in their order.
fn index_of<T: Referenced>(alloc: Global, items: &[T]) -> Result<Vec<(u32, usize)>, AllocError>
    ensures { IfOk result (λ index. IsIndex (map T.reference items.now) index.items) }
{
    let mut index = Vec::with_capacity(alloc, items.len())?;
    for (place, item) in items.iter().enumerate() {
        index.push((item.reference(), place))?;
    }
    index.sort_unstable();
    Ok(index)
}

// The first place of a reference.
fn place_in(index: &[(u32, usize)], reference: u32) -> Option<usize>
    ensures { (references : _) → IsIndex references index.now →
        result ≡ position (λ r. r == reference) references }
{
    match entry_at(index, first_entry(index, reference)) {
        Some((found, place)) => if found == reference {
            Some(place)
        } else {
            None
        },
        None => None,
    }
}

// Where the entries of a reference begin, or would.
fn first_entry(index: &[(u32, usize)], reference: u32) -> usize
    ensures { IsSorted pair_cmp index.now → IsPartitionPoint (λ e. nat_lt e.0 reference ≡ true)
        (λ e. nat_lt e.0 reference ≡ false) index.now result }
{
    index.partition_point(|entry| entry.0 < reference)
}

fn entry_at(index: &[(u32, usize)], at: usize) -> Option<(u32, usize)>
    ensures { result ≡ slice_get index.now at }
{
    index.get(at).copied()
}
