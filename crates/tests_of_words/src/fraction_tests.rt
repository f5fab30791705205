use clock_fraction::{Fraction, from_decimal, next_tick_after, ticks_at, to_counts};

static DECIMALS: [(&str, Option<(u64, u64)>); 45] = [
    (".5", Some((5, 10))),
    ("1.", Some((1, 1))),
    ("0.010", Some((1, 100))),
    ("0.01", Some((1, 100))),
    ("1e-2", Some((1, 100))),
    ("1E-02", Some((1, 100))),
    ("+2E+1", Some((20, 1))),
    ("+.5", Some((5, 10))),
    ("1.5e1", Some((15, 1))),
    ("10e-1", Some((1, 1))),
    ("00.10", Some((1, 10))),
    ("0.0", Some((0, 1))),
    ("1e18", Some((1_000_000_000_000_000_000, 1))),
    ("1000000000000000000", Some((1_000_000_000_000_000_000, 1))),
    ("1e-18", Some((1, 1_000_000_000_000_000_000))),
    (
        "0.123456789012345678",
        Some((123_456_789_012_345_678, 1_000_000_000_000_000_000)),
    ),
    ("100000000000000000000e-20", Some((1, 1))),
    ("0.1000000000000000000000000000000", Some((1, 10))),
    ("1e000000000000000000000000000002", Some((100, 1))),
    ("0e999999999999999999999999999999", Some((0, 1))),
    ("0e-999999999999999999999999999999", Some((0, 1))),
    ("1e999999999999999999999999999999", None),
    ("1e-999999999999999999999999999999", None),
    ("1e19", None),
    ("1e-19", None),
    ("1000000000000000001", None),
    ("1234567890123456789", None),
    ("0.1234567890123456789", None),
    ("-1", None),
    ("-0", None),
    ("", None),
    (".", None),
    ("+", None),
    ("-", None),
    ("+e1", None),
    ("e5", None),
    (".e1", None),
    ("1e", None),
    ("1e+", None),
    ("1e-", None),
    ("++1", None),
    ("1.2.3", None),
    ("1e2e3", None),
    ("1e1.0", None),
    (" 1", None),
];

// a fraction, a resolution, and the fraction in counts
static COUNTS: [(u64, u64, u64, Option<u128>); 7] = [
    (1, 100, 1000, Some(10)),
    (1, 3, 3000, Some(1000)),
    (1, 3, 1000, None),
    (0, 7, 1000, Some(0)),
    (1, 0, 1000, None),
    (0, 0, 1000, None),
    (
        u64::MAX,
        1,
        u64::MAX,
        Some(340_282_366_920_938_463_426_481_119_284_349_108_225),
    ),
];

const FAR: u64 = 1 << 62;

const FARTHEST: u128 = 1 << 126;

// start, shift, interval, a point, whether it is a tick, and the next
static TICKS: [(u64, u128, u128, u64, bool, u128); 10] = [
    (0, 0, 10, 0, true, 10),
    (0, 0, 10, 9, false, 10),
    (0, 0, 10, 10, true, 20),
    (5, 3, 10, 5, false, 8),
    (5, 3, 10, 8, true, 18),
    (5, 3, 10, 17, false, 18),
    (0, 0, 1 << 63, 1, false, 1 << 63),
    (FAR, 0, 1, FAR, true, (1 << 62) + 1),
    (0, 0, FARTHEST, FAR, false, FARTHEST),
    (FAR, FARTHEST, FARTHEST, FAR, false, (1 << 62) + (1 << 126)),
];

fn is_read_as(row: &(&str, Option<(u64, u64)>)) -> bool {
    from_decimal(row.0).map(|f| (f.counter, f.resolution)) == row.1
}

#[test]
fn decimals_are_read(rt: HostRuntime) {
    assert_eq!(rt; DECIMALS.iter().position(|row| !is_read_as(row)), None);
}

fn is_counted_as(row: &(u64, u64, u64, Option<u128>)) -> bool {
    let fraction = Fraction {
        counter: row.0,
        resolution: row.1,
    };
    to_counts(fraction, row.2) == row.3
}

#[test]
fn fractions_are_counted(rt: HostRuntime) {
    assert_eq!(rt; COUNTS.iter().position(|row| !is_counted_as(row)), None);
}

// Whether a Clock within the limits ticks, or doesn't, at a point and comes next as is expected.
fn ticks_as(row: &(u64, u128, u128, u64, bool, u128)) -> bool {
    let (start, shift, interval, t, ticks, next) = *row;
    start <= FAR
        && t <= FAR
        && shift <= FARTHEST
        && 0 < interval
        && interval <= FARTHEST
        && ticks_at(start, shift, interval, t) == ticks
        && next_tick_after(start, shift, interval, t) == next
}

#[test]
fn clocks_tick(rt: HostRuntime) {
    assert_eq!(rt; TICKS.iter().position(|row| !ticks_as(row)), None);
}
