ghost use Rattle.std.specs.Prelude.{◌≡◌, ◌≤◌, ◌<◌, ◌^◌, ◌↔◌, IsTrue, length, take};
ghost use Rattle.exact_parts.specs.Field.{Field, InSpan, InSpans, IsSane, Stands, StandsIn, number, worth};
ghost use Rattle.exact_parts.specs.Taking.{Takes};

use crate::Taken;

/// The numbers from `low` to `high`.
#[derive(Clone, Copy, Debug, PartialEq, Eq)]
pub struct Span {
    pub low: u64,
    pub high: u64,
}

/// The numbers of two spans, which may be the same.
#[derive(Clone, Copy, Debug, PartialEq, Eq)]
pub struct Spans {
    pub one: Span,
    pub other: Span,
}

// 256 to this power.
fn worth(size: usize) -> u128
    requires { size ≤ 8 }
    ensures value { result ≡ worth size }
    ensures top { result ≤ 2 ^ 64 }
{
    match size {
        0 => 1,
        1 => 0x100,
        2 => 0x1_0000,
        3 => 0x100_0000,
        4 => 0x1_0000_0000,
        5 => 0x100_0000_0000,
        6 => 0x1_0000_0000_0000,
        7 => 0x100_0000_0000_0000,
        _ => 0x1_0000_0000_0000_0000,
    }
}

// Whether some number of the span begins so, where so many bytes follow.
fn stands_in(after: usize, span: Span, prefix: u64) -> bool
    requires { after ≤ 8 }
    ensures { IsTrue result ↔ StandsIn (worth after) span prefix }
{
    let worth = worth(after);
    let least = u128::from(prefix) * worth;
    least <= u128::from(span.high) && u128::from(span.low) < least + worth
}

fn stands(after: usize, spans: Spans, prefix: u64) -> bool
    requires { after ≤ 8 }
    ensures yes { IsTrue result → Stands (worth after) spans prefix }
    ensures no { Stands (worth after) spans prefix → IsTrue result }
{
    stands_in(after, spans.one, prefix) || stands_in(after, spans.other, prefix)
}

/// The number that the first bytes are.
pub fn number_of(bytes: &[u8], size: usize) -> u64
    requires few { size ≤ 8 }
    requires within { size ≤ length bytes.now }
    ensures { result ≡ number 0 (take size bytes.now) }
{
    let mut value: u64 = 0;
    for place in 0..size {
        value = value * 256 + u64::from(bytes[place]);
    }
    value
}

/// Whether a number lies in one of the spans.
pub fn is_in(spans: Spans, value: u64) -> bool
    ensures yes { IsTrue result → InSpans spans value }
    ensures no { InSpans spans value → IsTrue result }
{
    is_within(spans.one, value) || is_within(spans.other, value)
}

fn is_within(span: Span, value: u64) -> bool
    ensures { IsTrue result ↔ InSpan span value }
{
    span.low <= value && value <= span.high
}

/// Takes a number of so many bytes in the spans. A good one is read at once; else each byte is looked at.
pub fn take_number(bytes: &[u8], size: usize, spans: Spans) -> Taken<u64>
    requires few { size ≤ 8 }
    requires sane { IsSane size spans }
    ensures { Takes (Field size spans) bytes.now result }
{
    if size <= bytes.len() {
        let value = number_of(bytes, size);
        if is_in(spans, value) {
            return Taken::Got {
                value,
                length: size,
            };
        }
    }
    take_by_bytes(bytes, size, spans)
}

// Takes it byte by byte, up to the first that begins no number of the spans.
fn take_by_bytes(bytes: &[u8], size: usize, spans: Spans) -> Taken<u64>
    requires few { size ≤ 8 }
    requires sane { IsSane size spans }
    ensures { Takes (Field size spans) bytes.now result }
{
    let mut prefix: u64 = 0;
    for place in 0..bytes.len().min(size) {
        prefix = prefix * 256 + u64::from(bytes[place]);
        if !stands(size - 1 - place, spans, prefix) {
            return Taken::Bad { at: place };
        }
    }
    if bytes.len() < size {
        Taken::NeedMore
    } else {
        Taken::Got {
            value: prefix,
            length: size,
        }
    }
}
