//! Links between the first connectors of points.
ghost use Rattle.std.specs.Prelude.{◌≡◌, ◌↔◌, ℕ, ◌<◌, IfOk, All, IsTrue, length, map, slice_index_or, slice_get, Some};
ghost use Rattle.connection_paths.specs.Firsts.{AreLinks};
ghost use Rattle.connection_paths.specs.Paths.{IsOfSystem, IsWithin};
ghost use Rattle.dependency_order.specs.Paths.{IsMarked};
ghost use Rattle.connection_paths.specs.declared.point.Point.{Point};

use crate::point::{Connection, Point};
use dependency_order::Lists;
use std::alloc::{AllocError, Global};

/// The first connector of a connector's point.
pub(crate) fn first_at(firsts: &[usize], connector: usize) -> usize
    requires { connector < length firsts.now }
    ensures { result ≡ slice_index_or firsts.now connector 0 }
{
    firsts[connector]
}

/// A link for each connection.
pub(crate) fn links(
    alloc: Global,
    firsts: &[usize],
    connections: &[Connection],
) -> Result<Lists, AllocError>
    requires ends { All (IsWithin (length firsts.now)) connections.now }
    requires firsts { (c : ℕ) → c < length firsts.now →
        slice_index_or firsts.now c 0 < length firsts.now }
    ensures links { IfOk result (AreLinks firsts.now connections.now) }
    ensures len { IfOk result (λ links. length links ≡ length firsts.now) }
{
    let mut links = Lists::new(alloc, firsts.len())?;
    for connection in connections {
        let start = first_at(firsts, connection.start);
        let end = first_at(firsts, connection.end);
        links.push(start, end)?;
    }
    Ok(links)
}

fn is_of_system(point: Point) -> bool
    ensures { IsTrue result ↔ IsOfSystem point }
{
    match point {
        Point::Variable(_) => false,
        Point::OfSystem(_) => true,
    }
}

/// Which connectors are of a system.
pub(crate) fn system_marks(alloc: Global, points: &[Point]) -> Result<Vec<bool>, AllocError>
    ensures len { IfOk result (λ marks. length marks.items ≡ length points.now) }
    ensures marks { IfOk result (λ marks. (c : ℕ) (p : Point) → slice_get points.now c ≡ Some p →
        (IsMarked marks.items c ↔ IsOfSystem p)) }
{
    let mut marks = Vec::new(alloc);
    for point in points {
        marks.push(is_of_system(*point))?;
    }
    Ok(marks)
}
