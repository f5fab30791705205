use parameter_values::{BooleanPair, Change, IntegerPair, Judgement, ParameterValue, ReadyChange};
use sim_base::Items;
use std::alloc::{AllocError, Global};
use std::test::Fail;
use value_types::PortType;

/// A factor, an offset, a type, and what is made of 126: the number, or none where the type doesn't hold it.
static LINEAR: [(i64, i64, PortType, Option<i128>); 8] = [
    (1, 1, PortType::Int8, Some(127)),
    (1, 2, PortType::Int8, None),
    (-1, -2, PortType::Int8, Some(-128)),
    (-1, -3, PortType::Int8, None),
    (1, -126, PortType::UInt64, Some(0)),
    (1, -127, PortType::UInt64, None),
    (2, 3, PortType::UInt8, Some(255)),
    (3, 0, PortType::UInt8, None),
];

fn is_judged(
    ready: &ReadyChange,
    value: ParameterValue,
    kind: PortType,
    wanted: Judgement,
) -> bool {
    let is_in_range = match value {
        ParameterValue::Integer(number) => number >= -(1 << 63) && number < 1 << 64,
        _ => true,
    };
    is_in_range && ready.judge(value, kind) == wanted
}

fn is_linear(alloc: Global, row: &(i64, i64, PortType, Option<i128>)) -> bool {
    let (factor, offset, kind, expected) = *row;
    let change = Change::Linear { factor, offset };
    let wanted = match expected {
        Some(number) => Judgement::Taken(number),
        None => Judgement::Outside,
    };
    match ReadyChange::of(alloc, Some(&change)) {
        Ok(ready) => is_judged(&ready, ParameterValue::Integer(126), kind, wanted),
        Err(_) => false,
    }
}

#[test]
fn the_factor_comes_before_the_offset(rt: HostRuntime) {
    let alloc = rt.alloc();
    assert_eq!(rt; LINEAR.iter().position(|row| !is_linear(alloc, row)), None);
}

// A value, a type, and what is made of it.
type Row = (ParameterValue, PortType, Judgement);

static OF_INTEGERS: [Row; 5] = [
    (
        ParameterValue::Integer(1),
        PortType::Int8,
        Judgement::Taken(11),
    ),
    (
        ParameterValue::Integer(2),
        PortType::Int8,
        Judgement::Taken(20),
    ),
    (
        ParameterValue::Integer(3),
        PortType::Int8,
        Judgement::NoPair,
    ),
    (
        ParameterValue::Boolean(true),
        PortType::Int8,
        Judgement::OtherClass,
    ),
    (
        ParameterValue::Boolean(true),
        PortType::Boolean,
        Judgement::OtherChange,
    ),
];

static OF_BOOLEANS: [Row; 4] = [
    (
        ParameterValue::Boolean(true),
        PortType::Boolean,
        Judgement::Taken(0),
    ),
    (
        ParameterValue::Boolean(false),
        PortType::Boolean,
        Judgement::NoPair,
    ),
    (
        ParameterValue::Other,
        PortType::Boolean,
        Judgement::OtherClass,
    ),
    (
        ParameterValue::Integer(1),
        PortType::Enumeration,
        Judgement::OtherClass,
    ),
];

fn first_wrong(alloc: Global, change: &Change, rows: &[Row]) -> Option<usize> {
    match ReadyChange::of(alloc, Some(change)) {
        Ok(ready) => rows
            .iter()
            .position(|row| !is_judged(&ready, row.0, row.1, row.2)),
        Err(_) => Some(rows.len()),
    }
}

fn integers(alloc: Global) -> Result<Change, AllocError> {
    let mut list = Vec::new(alloc);
    for (source, target) in &[(1, 10), (2, 20), (1, 11)] {
        list.push(IntegerPair {
            source: *source,
            target: *target,
        })?;
    }
    Ok(Change::Integers {
        pairs: Items::from_vec(list),
    })
}

#[test]
fn the_last_pair_of_a_source_counts(rt: HostRuntime) -> Result<(), Fail> {
    let change = integers(rt.alloc())?;
    assert_eq!(rt; first_wrong(rt.alloc(), &change, &OF_INTEGERS), None);
    Ok(())
}

fn booleans(alloc: Global) -> Result<Change, AllocError> {
    let pair = BooleanPair {
        source: true,
        target: false,
    };
    Ok(Change::Booleans {
        pairs: Items::from_vec(vec![in alloc; pair]?),
    })
}

#[test]
fn booleans_are_mapped(rt: HostRuntime) -> Result<(), Fail> {
    let change = booleans(rt.alloc())?;
    assert_eq!(rt; first_wrong(rt.alloc(), &change, &OF_BOOLEANS), None);
    Ok(())
}
