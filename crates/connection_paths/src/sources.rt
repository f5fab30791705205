//! The source of each connector.
ghost use Rattle.std.specs.Prelude.{◌≡◌, ℕ, ◌<◌, IfOk, All, length, map, slice_index_or, slice_get, Some, None};
ghost use Rattle.connection_paths.specs.Paths.{FindsSource, IsWithin};
ghost use Rattle.connection_paths.specs.declared.point.Point.{Point};

use crate::firsts::firsts;
use crate::links::{first_at, links, system_marks};
use crate::point::{Connection, Point};
use dependency_order::reached_from;
use std::alloc::{AllocError, Global};

// The first connectors of some points.
fn firsts_of(
    alloc: Global,
    firsts: &[usize],
    connectors: &[usize],
) -> Result<Vec<usize>, AllocError>
    requires { All (λ c. c < length firsts.now) connectors.now }
    ensures { IfOk result (λ all. all.items ≡ map (λ c. slice_index_or firsts.now c 0)
        connectors.now) }
{
    let mut all = Vec::new(alloc);
    for connector in connectors {
        all.push(first_at(firsts, *connector))?;
    }
    Ok(all)
}

// What was found at the first connector of each point.
fn found_at(
    alloc: Global,
    found: &[Option<usize>],
    firsts: &[usize],
) -> Result<Vec<Option<usize>>, AllocError>
    requires { (c : ℕ) → c < length firsts.now → slice_index_or firsts.now c 0 < length found.now }
    ensures { IfOk result (λ all. all.items ≡ map (λ c. slice_index_or found.now c None)
        firsts.now) }
{
    let mut all = Vec::new(alloc);
    for first in firsts {
        all.push(found[*first])?;
    }
    Ok(all)
}

/// For each connector a connector of one of the starts from which a path of connections leads to its point, through
/// connectors of systems only. Paths are followed from the starts, each connection once.
pub fn sources_of(
    alloc: Global,
    points: &[Point],
    connections: &[Connection],
    starts: &[usize],
) -> Result<Vec<Option<usize>>, AllocError>
    requires ends { All (IsWithin (length points.now)) connections.now }
    requires starts { All (λ c. c < length points.now) starts.now }
    ensures found { IfOk result (λ found. (c : ℕ) (p : Point) → slice_get points.now c ≡ Some p →
        FindsSource points.now connections.now starts.now p (slice_index_or found.items c None)) }
    ensures len { IfOk result (λ found. length found.items ≡ length points.now) }
{
    let firsts = firsts(alloc, points)?;
    let links = links(alloc, firsts.as_slice(), connections)?;
    let through = system_marks(alloc, points)?;
    let begins = firsts_of(alloc, firsts.as_slice(), starts)?;
    let found = reached_from(alloc, &links, through.as_slice(), begins.as_slice())?;
    found_at(alloc, found.as_slice(), firsts.as_slice())
}
