//! An order of nodes, and what is reached along links.
ghost use Rattle.std.specs.Prelude.{◌≡◌, ◌<◌, All, IfOk, length};
ghost use Rattle.dependency_order.specs.Answers.{IsFound};
ghost use Rattle.dependency_order.specs.Graph.{IsClosed, Needs};
ghost use Rattle.dependency_order.specs.Paths.{IsSpread};

use dependency_order::{Found, Lists, find_order, reached_from};
use std::alloc::{AllocError, Global};

/// An order of all nodes, each after those that it needs, or a loop where there is none.
pub fn order_of(alloc: Global, needs: &Lists) -> Result<Found, AllocError>
    requires closed { IsClosed needs.now }
    ensures { IfOk result (IsFound (λ p. p < length needs.now) (Needs needs.now)) }
{
    find_order(alloc, needs)
}

/// For each node a start from which it is reached, through marked nodes alone.
pub fn reached(
    alloc: Global,
    links: &Lists,
    through: &[bool],
    starts: &[usize],
) -> Result<Vec<Option<usize>>, AllocError>
    requires closed { IsClosed links.now }
    requires marks { length through.now ≡ length links.now }
    requires starts { All (λ s. s < length links.now) starts.now }
    ensures spread { IfOk result (λ found. IsSpread links.now through.now starts.now found.items) }
    ensures len { IfOk result (λ found. length found.items ≡ length links.now) }
{
    reached_from(alloc, links, through, starts)
}
