use connection_paths::{Connection, Point, sources_of};
use std::alloc::{AllocError, Global};

fn connections(alloc: Global, ends: &[(usize, usize)]) -> Result<Vec<Connection>, AllocError> {
    let mut all = Vec::new(alloc);
    for (start, end) in ends {
        all.push(Connection {
            start: *start,
            end: *end,
        })?;
    }
    Ok(all)
}

static POINTS: [Point; 9] = [
    Point::Variable(0),
    Point::Variable(1),
    Point::OfSystem(0),
    Point::OfSystem(1),
    Point::Variable(1),
    Point::Variable(2),
    Point::Variable(3),
    Point::OfSystem(2),
    Point::OfSystem(3),
];

static ENDS: [(usize, usize); 7] = [(3, 1), (2, 3), (0, 2), (6, 5), (1, 5), (7, 8), (8, 7)];

static SOURCES: [Option<usize>; 9] = [
    None,
    Some(0),
    Some(0),
    Some(0),
    Some(0),
    Some(6),
    None,
    None,
    None,
];

fn are_sources(alloc: Global, connections: &[Connection]) -> bool {
    if !connections.iter().all(|connection| connection.is_within(9)) {
        return false;
    }
    match sources_of(alloc, &POINTS, connections, &[0, 6]) {
        Ok(found) => found.as_slice() == SOURCES.as_slice(),
        Err(_) => false,
    }
}

// A counter's output 0 feeds the gain's input 1 through the connectors 2 of its system and 3 of the outer one; 4 names the
// same input as 1. The input 5 is fed by the gain's output 6 alone, though 0 leads to 1. 7 and 8 feed each other, and no
// output them.
#[test]
fn paths_lead_through_systems(rt: HostRuntime) -> Result<(), AllocError> {
    let connections = connections(rt.alloc(), &ENDS)?;
    assert!(rt; are_sources(rt.alloc(), connections.as_slice()));
    Ok(())
}

fn long_points(alloc: Global) -> Result<Vec<Point>, AllocError> {
    let mut points = vec![in alloc; Point::Variable(7)]?;
    for place in 1..100_001 {
        points.push(Point::OfSystem(place))?;
    }
    Ok(points)
}

fn long_connections(alloc: Global) -> Result<Vec<Connection>, AllocError> {
    let mut connections = Vec::new(alloc);
    for place in 1..100_001 {
        connections.push(Connection {
            start: 100_000 - place,
            end: 100_001 - place,
        })?;
    }
    Ok(connections)
}

fn is_reached_last(alloc: Global, points: &[Point], connections: &[Connection]) -> bool {
    let count = points.len();
    if count == 0
        || !connections
            .iter()
            .all(|connection| connection.is_within(count))
    {
        return false;
    }
    match sources_of(alloc, points, connections, &[0]) {
        Ok(found) => found.as_slice().last() == Some(&Some(0)),
        Err(_) => false,
    }
}

// An output, and 100,000 connectors of systems in one path from it, the connections in the order that is worst.
#[test]
fn a_long_path(rt: HostRuntime) -> Result<(), AllocError> {
    let points = long_points(rt.alloc())?;
    let connections = long_connections(rt.alloc())?;
    assert!(rt; is_reached_last(rt.alloc(), points.as_slice(), connections.as_slice()));
    Ok(())
}
