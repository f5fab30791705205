ghost use Rattle.std.specs.Prelude.{◌≡◌, ◌≤◌, ◌<◌, ◌^◌, ◌↔◌, IfOk, IsTrue, length};
ghost use Rattle.exact_parts.specs.Taking.{Takes};
ghost use Rattle.exact_parts.specs.Field.{AreBytes, Field, IsSane};
ghost use Rattle.exact_parts.specs.Each.{Block, IsText, remade};
ghost use Rattle.system_checkpoint.specs.Parts.{Known, Low, Optional, Shift, State, Times, Wide, Word, any, between, joined, low_span, option_of, spans_after, words};

use crate::ClockTimes;
use exact_parts::{Span, Spans, Taken, take_number};
use sim_base::SharedBytes;
use std::alloc::AllocError;
use value_types::PortType;

pub(crate) fn between(low: u64, high: u64) -> Spans
    ensures { result ≡ between low high }
{
    let span = Span { low, high };
    Spans {
        one: span,
        other: span,
    }
}

fn any() -> Spans
    ensures { result ≡ any }
{
    between(0, u64::MAX)
}

fn around_zero(half: u64) -> Spans
    requires some { 0 < half }
    requires few { half ≤ 2 ^ 31 }
    ensures { result ≡ Rattle.system_checkpoint.specs.Parts.around_zero half }
{
    Spans {
        one: Span {
            low: 0,
            high: half - 1,
        },
        other: Span {
            low: u64::MAX - (half - 1),
            high: u64::MAX,
        },
    }
}

/// The words that are right for a type.
pub(crate) fn words(kind: PortType) -> Spans
    ensures { result ≡ words kind }
{
    match kind {
        PortType::Int8 => around_zero(1 << 7),
        PortType::Int16 => around_zero(1 << 15),
        PortType::Int32 => around_zero(1 << 31),
        PortType::UInt8 => between(0, 0xFF),
        PortType::UInt16 => between(0, 0xFFFF),
        PortType::UInt32 => between(0, 0xFFFF_FFFF),
        PortType::Boolean | PortType::Clock => between(0, 1),
        PortType::Int64 | PortType::UInt64 | PortType::Enumeration => any(),
    }
}

fn spans_after(spans: Spans, flag: u64) -> Spans
    ensures { result ≡ spans_after spans flag }
{
    if flag == 1 { spans } else { between(0, 0) }
}

fn option_of(flag: u64, word: u64) -> Option<u64>
    ensures { result ≡ option_of flag word }
{
    if flag == 1 { Some(word) } else { None }
}

fn remake(flag: u64, taken: Taken<u64>) -> Taken<Option<u64>>
    ensures { result ≡ remade (option_of flag) taken }
{
    match taken {
        Taken::Got { value, length } => Taken::Got {
            value: option_of(flag, value),
            length,
        },
        Taken::NeedMore => Taken::NeedMore,
        Taken::Bad { at } => Taken::Bad { at },
    }
}

// Takes what comes after the flag.
fn take_word(bytes: &[u8], spans: Spans, flag: u64) -> Taken<Option<u64>>
    requires { IsSane 8 spans }
    ensures { Takes (Word spans flag) bytes.now result }
{
    remake(flag, take_number(bytes, 8, spans_after(spans, flag)))
}

/// Takes a number of so many bytes within a span.
pub(crate) fn take_between(bytes: &[u8], size: usize, low: u64, high: u64) -> Taken<u64>
    requires few { size ≤ 8 }
    requires sane { IsSane size (between low high) }
    ensures { Takes (Field size (between low high)) bytes.now result }
{
    take_number(bytes, size, between(low, high))
}

/// Takes a number of the spans, or none; where the greatest flag is 0, none.
pub(crate) fn take_optional(bytes: &[u8], most: u64, spans: Spans) -> Taken<Option<u64>>
    requires { IsSane 8 spans }
    ensures { Takes (Optional most spans) bytes.now result }
{
    match take_between(bytes, 1, 0, most) {
        Taken::Got { value, length } => exact_parts::after(
            length,
            take_word(&bytes[length..], spans, value),
        ),
        Taken::NeedMore => Taken::NeedMore,
        Taken::Bad { at } => Taken::Bad { at },
    }
}

/// Takes a text that is known.
pub(crate) fn take_text(bytes: &[u8], text: &[u8]) -> Taken<()>
    ensures { Takes (IsText text.now) bytes.now result }
{
    for place in 0..text.len() {
        if place == bytes.len() {
            return Taken::NeedMore;
        }
        if bytes[place] != text[place] {
            return Taken::Bad { at: place };
        }
    }
    Taken::Got {
        value: (),
        length: text.len(),
    }
}

/// Takes a text that is known, after its length.
pub(crate) fn take_known(bytes: &[u8], text: &[u8]) -> Taken<()>
    requires { length text.now < 2 ^ 32 }
    ensures { Takes (Known text.now) bytes.now result }
{
    let size = text.len() as u64;
    match take_between(bytes, 4, size, size) {
        Taken::Got { value: _, length } => exact_parts::after(
            length,
            take_text(&bytes[length..], text),
        ),
        Taken::NeedMore => Taken::NeedMore,
        Taken::Bad { at } => Taken::Bad { at },
    }
}

// Whether there are so many bytes.
fn has_bytes(bytes: &[u8], size: usize) -> bool
    ensures enough { IsTrue result ↔ size ≤ length bytes.now }
    ensures are_bytes { AreBytes bytes.now }
{
    size <= bytes.len()
}

// Takes so many bytes.
fn take_block(bytes: &SharedBytes, size: usize) -> Result<Taken<SharedBytes>, AllocError>
    ensures { IfOk result (λ taken. Takes (Block size) bytes.now taken) }
{
    if !has_bytes(bytes.as_slice(), size) {
        return Ok(Taken::NeedMore);
    }
    let value = bytes.prefix(size)?;
    Ok(Taken::Got {
        value,
        length: size,
    })
}

/// Takes a state, which comes after its length. It isn't copied.
pub(crate) fn take_state(bytes: &SharedBytes) -> Result<Taken<SharedBytes>, AllocError>
    ensures { IfOk result (λ taken. Takes State bytes.now taken) }
{
    match take_between(bytes.as_slice(), 4, 0, 1 << 20) {
        Taken::Got { value, length } => {
            let after = bytes.after(length)?;
            let rest = take_block(&after, value as usize)?;
            let whole = exact_parts::after(length, rest);
            Ok(whole)
        }
        Taken::NeedMore => Ok(Taken::NeedMore),
        Taken::Bad { at } => Ok(Taken::Bad { at }),
    }
}

/// Takes the interval and the shift of a Clock.
pub(crate) fn take_times(bytes: &[u8]) -> Taken<ClockTimes>
    ensures { Takes Times bytes.now result }
{
    match take_wide(bytes, 1) {
        Taken::Got { value, length } => exact_parts::after(
            length,
            take_shift(&bytes[length..], value),
        ),
        Taken::NeedMore => Taken::NeedMore,
        Taken::Bad { at } => Taken::Bad { at },
    }
}

// Takes the shift after the interval.
fn take_shift(bytes: &[u8], interval: u128) -> Taken<ClockTimes>
    ensures { Takes (Shift interval) bytes.now result }
{
    match take_wide(bytes, 0) {
        Taken::Got { value, length } => Taken::Got {
            value: ClockTimes {
                interval,
                shift: value,
            },
            length,
        },
        Taken::NeedMore => Taken::NeedMore,
        Taken::Bad { at } => Taken::Bad { at },
    }
}

// Takes a number of 16 bytes up to 2^126, at least 0 or 1.
fn take_wide(bytes: &[u8], least: u64) -> Taken<u128>
    requires { least ≤ 1 }
    ensures { Takes (Wide least) bytes.now result }
{
    match take_between(bytes, 8, 0, 1 << 62) {
        Taken::Got { value, length } => exact_parts::after(
            length,
            take_low(&bytes[length..], least, value),
        ),
        Taken::NeedMore => Taken::NeedMore,
        Taken::Bad { at } => Taken::Bad { at },
    }
}

// Takes the lower half after the higher.
fn take_low(bytes: &[u8], least: u64, high: u64) -> Taken<u128>
    requires { least ≤ 1 }
    ensures { Takes (Low least high) bytes.now result }
{
    match take_number(bytes, 8, low_span(least, high)) {
        Taken::Got { value, length } => Taken::Got {
            value: joined(high, value),
            length,
        },
        Taken::NeedMore => Taken::NeedMore,
        Taken::Bad { at } => Taken::Bad { at },
    }
}

// The number of two halves.
fn joined(high: u64, low: u64) -> u128
    ensures { result ≡ joined high low }
{
    u128::from(high) * 0x1_0000_0000_0000_0000 + u128::from(low)
}

fn low_span(least: u64, high: u64) -> Spans
    ensures { result ≡ low_span least high }
{
    if high == 1 << 62 {
        between(0, 0)
    } else {
        between(if high == 0 { least } else { 0 }, u64::MAX)
    }
}
