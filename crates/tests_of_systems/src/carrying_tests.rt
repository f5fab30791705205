use parameter_values::{BooleanPair, Change, IntegerPair};
use sim_base::{Items, PortId};
use std::alloc::{AllocError, Global};
use system_model::{Feed, carried};
use value_types::PortType;

/// The changes of a path by factors and offsets, a type, a value, and what comes to an input of the type.
type Row = (&'static [(i64, i64)], PortType, i128, Option<i128>);

static LINEAR: [Row; 12] = [
    (&[], PortType::Int8, 127, Some(127)),
    (&[], PortType::Int8, 128, None),
    (&[(30, 0)], PortType::Int8, 4, Some(120)),
    (&[(100, 0)], PortType::Int8, 2, None),
    (&[(2, 1), (3, 0)], PortType::Int8, 10, Some(63)),
    (&[(3, 0), (2, 1)], PortType::Int8, 10, Some(61)),
    (&[(100, 0), (0, 5)], PortType::Int8, 2, Some(5)),
    (&[(i64::MAX, 0), (0, 5)], PortType::Int8, 2, Some(5)),
    (&[(i64::MAX, 0), (0, 5)], PortType::Int8, 3, None),
    (
        &[(1, 1)],
        PortType::UInt64,
        (1 << 64) - 2,
        Some((1 << 64) - 1),
    ),
    (&[(1, 1)], PortType::UInt64, (1 << 64) - 1, None),
    (&[(1, -1)], PortType::Int64, -(1 << 63), None),
];

fn factors(alloc: Global, pairs: &[(i64, i64)]) -> Result<Vec<Change>, AllocError> {
    let mut changes = Vec::new(alloc);
    for (factor, offset) in pairs {
        changes.push(Change::Linear {
            factor: *factor,
            offset: *offset,
        })?;
    }
    Ok(changes)
}

fn is_carried(alloc: Global, row: &Row) -> bool {
    let (pairs, kind, value, wanted) = *row;
    match factors(alloc, pairs) {
        Ok(changes) => carried(changes.as_slice(), kind, value) == wanted,
        Err(_) => false,
    }
}

// The first change of a path comes first, each result is one of 64 bits, and the type of the input is asked at the end.
#[test]
fn factors_are_made_along_the_path(rt: HostRuntime) {
    let alloc = rt.alloc();
    assert_eq!(rt; LINEAR.iter().position(|row| !is_carried(alloc, row)), None);
}

fn mapped(alloc: Global) -> Result<Feed, AllocError> {
    let numbers = vec![in alloc;
        IntegerPair {
            source: 0,
            target: 1,
        },
        IntegerPair {
            source: 1,
            target: 0,
        },
        IntegerPair {
            source: 0,
            target: -7,
        },
    ]?;
    let changes = vec![in alloc;
        Change::Integers {
            pairs: Items::from_vec(numbers),
        },
    ]?;
    Ok(Feed {
        from: PortId(3),
        changes: Items::from_vec(changes),
    })
}

// Of two pairs with one source the later counts, and a value without a pair is lost; a copy says the same.
#[test]
fn the_later_pair_counts(rt: HostRuntime) -> Result<(), AllocError> {
    let feed = mapped(rt.alloc())?.copy(rt.alloc())?;
    let changes = feed.changes.as_slice();
    assert_eq!(rt; feed.from, PortId(3));
    assert_eq!(rt; carried(changes, PortType::Int8, 0), Some(-7));
    assert_eq!(rt; carried(changes, PortType::Int8, 1), Some(0));
    assert_eq!(rt; carried(changes, PortType::Int8, 2), None);
    assert_eq!(rt; carried(changes, PortType::UInt8, 0), None);
    Ok(())
}

#[test]
fn booleans_are_mapped(rt: HostRuntime) -> Result<(), AllocError> {
    let pairs = vec![in rt.alloc();
        BooleanPair {
            source: false,
            target: true,
        },
    ]?;
    let change = Change::Booleans {
        pairs: Items::from_vec(pairs),
    };
    let changes = [change];
    assert_eq!(rt; carried(&changes, PortType::Boolean, 0), Some(1));
    assert_eq!(rt; carried(&changes, PortType::Boolean, 1), None);
    Ok(())
}
