//! Paths of connections, and paths that begin names.
ghost use Rattle.std.specs.Prelude.{All, IfOk, None, Some, length, slice_get, slice_index_or, ℕ, ◌<◌, ◌≡◌};
ghost use Rattle.connection_paths.specs.Paths.{FindsSource, IsWithin};
ghost use Rattle.connection_paths.specs.declared.point.Point.{Point};
ghost use Rattle.name_prefixes.specs.Prefixes.{ArePrefixes, texts};

use connection_paths::{Connection, Point, sources_of};
use name_prefixes::Prefixes;
use std::alloc::{AllocError, Global};

/// For each connector a connector of one of the starts from which a path of connections leads to its point.
pub fn sources(
    alloc: Global,
    points: &[Point],
    connections: &[Connection],
    starts: &[usize],
) -> Result<Vec<Option<usize>>, AllocError>
    requires ends { All (IsWithin (length points.now)) connections.now }
    requires starts { All (λ c. c < length points.now) starts.now }
    ensures found { IfOk result (λ found. (c : ℕ) (p : Point) → slice_get points.now c ≡ Some p →
        FindsSource points.now connections.now starts.now p (slice_index_or found.items c None)) }
    ensures len { IfOk result (λ found. length found.items ≡ length points.now) }
{
    sources_of(alloc, points, connections, starts)
}

/// Paths made ready.
pub fn make_ready<'a>(alloc: Global, paths: Vec<&'a [u8]>) -> Result<Prefixes<'a>, AllocError>
    ensures { IfOk result (λ prefixes. prefixes ≡ texts paths.entry.items) }
{
    Prefixes::new(alloc, paths)
}

/// The places of all paths that begin the name, each once.
pub fn paths_before(
    ready: &Prefixes<'_>,
    alloc: Global,
    name: &[u8],
) -> Result<Vec<usize>, AllocError>
    ensures { IfOk result (λ places. ArePrefixes ready.now name.now places.items) }
{
    ready.prefixes(alloc, name)
}
