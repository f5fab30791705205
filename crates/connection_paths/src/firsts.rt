//! The first connector of each point.
ghost use Rattle.std.specs.Prelude.{◌≡◌, ◌⊎◌, ℕ, Some, IfOk, OnOk};
ghost use Rattle.connection_paths.specs.Firsts.{AreFirsts, at};

use crate::point::Point;
use std::alloc::{AllocError, Global};
use std::collections::BTreeMap;

// The first place of a number, which is this one where there was none.
fn first_of(
    table: &mut BTreeMap<usize, usize>,
    number: usize,
    place: usize,
) -> Result<usize, AllocError>
    ensures found { IfOk result (λ c. at table.new number ≡ Some c) }
    ensures kept { OnOk result ((v c : ℕ) → at table.old v ≡ Some c → at table.new v ≡ Some c) }
    ensures only { OnOk result ((v c : ℕ) → at table.new v ≡ Some c → (at table.old v ≡ Some c) ⊎
        ((v ≡ number) × (c ≡ place))) }
{
    if let Some(first) = table.get(&number).copied() {
        return Ok(first);
    }
    table.insert(number, place)?;
    Ok(place)
}

/// For each connector the first of its point.
pub(crate) fn firsts(alloc: Global, points: &[Point]) -> Result<Vec<usize>, AllocError>
    ensures { IfOk result (λ all. AreFirsts points.now all.items) }
{
    let mut variables = BTreeMap::new(alloc);
    let mut systems = BTreeMap::new(alloc);
    let mut all = Vec::new(alloc);
    for place in 0..points.len() {
        let first = match points[place] {
            Point::Variable(number) => first_of(&mut variables, number, place)?,
            Point::OfSystem(number) => first_of(&mut systems, number, place)?,
        };
        all.push(first)?;
    }
    Ok(all)
}
