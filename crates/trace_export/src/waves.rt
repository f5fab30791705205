use crate::cells::{Cell, Form, low_64_bits};
use crate::columns::{Column, columns_of};
use crate::fault::ViewFault;
use crate::fields::append_field;
use crate::output::Output;
use crate::reals::RealPort;
use crate::text::{append_escaped, append_number};
use sim_base::Sink;
use std::alloc::{AllocError, Global};
use std::io::BufRead;
use trace_reading::TracePort;
use trace_stream::{Moment, TraceStream};
use value_types::PortType;

// Each as many seconds as the power of ten that its place tells, below one.
const SCALES: [&str; 16] = [
    "1 s", "100 ms", "10 ms", "1 ms", "100 us", "10 us", "1 us", "100 ns", "10 ns", "1 ns",
    "100 ps", "10 ps", "1 ps", "100 fs", "10 fs", "1 fs",
];

/// How many digits the numbers of a trace's instants have at most, none where all are 0. It reads the trace to its end.
pub fn count_digits<B: BufRead + Drop>(alloc: Global, input: B) -> Result<u32, ViewFault> {
    let mut stream = TraceStream::open(alloc, input)?;
    let mut moment = Moment::new(alloc, 0)?;
    let mut greatest = 0;
    for _ in 0..u64::MAX {
        if !stream.read(&mut moment)? {
            return Ok(digits_of(greatest));
        }
        greatest = moment.n.max(greatest);
    }
    Err(ViewFault::Read)
}

fn digits_of(number: u64) -> u32 {
    match number {
        0 => 0,
        1..=9 => 1,
        10..=99 => 2,
        100..=999 => 3,
        _ => 4,
    }
}

// So many units are a count.
fn units_of(digits: u32) -> u64 {
    match digits {
        0 => 1,
        1 => 10,
        2 => 100,
        3 => 1000,
        _ => 10000,
    }
}

/// Writes a trace as waves (Value Change Dump, IEEE 1364). With k digits a count is 10^k units, and the n-th instant at the
/// point t stands at t * 10^k + n. The ports of the list are reals.
pub fn write_waves<B: BufRead + Drop, S: Sink>(
    alloc: Global,
    input: B,
    reals: &[RealPort],
    digits: u32,
    out: &mut Output<S>,
) -> Result<(), ViewFault> {
    let mut stream = TraceStream::open(alloc, input)?;
    append_waves(alloc, &mut stream, reals, units_of(digits), out)
}

fn append_waves<B: BufRead, S: Sink>(
    alloc: Global,
    stream: &mut TraceStream<B>,
    reals: &[RealPort],
    units: u64,
    out: &mut Output<S>,
) -> Result<(), ViewFault> {
    let columns = columns_of(alloc, stream.ports(), reals)?;
    append_head(stream.resolution(), units, &mut out.bytes)?;
    append_variables(stream.ports(), &columns, &mut out.bytes)?;
    let mut moment = Moment::new(alloc, columns.len())?;
    let mut before = Moment::new(alloc, columns.len())?;
    append_instants(stream, &columns, &mut moment, &mut before, units, out)
}

// The instants, of which the one that was read last stands in `moment`, and what was written last in `before`.
fn append_instants<B: BufRead, S: Sink>(
    stream: &mut TraceStream<B>,
    columns: &[Column],
    moment: &mut Moment,
    before: &mut Moment,
    units: u64,
    out: &mut Output<S>,
) -> Result<(), ViewFault> {
    let mut reached = None;
    for _ in 0..u64::MAX {
        if !stream.read(moment)? {
            if let (Some((_, point)), Some(reached)) = (stream.end(), reached) {
                append_end(place_of(point, 0, units)?, reached, &mut out.bytes)?;
            }
            return out.flush();
        }
        let time = place_of(moment.t, moment.n, units)?;
        append_time(time, &mut out.bytes)?;
        let is_first = reached.is_none();
        append_changes(columns, before, moment, is_first, &mut out.bytes)?;
        reached = Some(time);
        out.spill()?;
    }
    Err(ViewFault::Read)
}

// The end of the run, where it lies beyond what was reached.
fn append_end(time: u64, reached: u64, out: &mut Vec<u8>) -> Result<(), AllocError> {
    if reached < time {
        append_time(time, out)
    } else {
        Ok(())
    }
}

// Where an instant stands.
fn place_of(t: u64, n: u64, units: u64) -> Result<u64, ViewFault> {
    let place = u128::from(t) * u128::from(units) + u128::from(n);
    match i64::try_from(place) {
        Ok(place) => Ok(place.unsigned_abs()),
        Err(_) => Err(ViewFault::Scale),
    }
}

fn append_time(time: u64, out: &mut Vec<u8>) -> Result<(), AllocError> {
    out.push(b'#')?;
    append_number(time, out)?;
    out.push(b'\n')?;
    Ok(())
}

// The time scale at which the units are exact, or that there is none.
fn append_head(resolution: u64, units: u64, out: &mut Vec<u8>) -> Result<(), AllocError> {
    out.extend_from_slice(b"$version trace_view $end\n$comment ")?;
    append_number(units, out)?;
    out.extend_from_slice(b" units are a count, and ")?;
    append_number(resolution, out)?;
    out.extend_from_slice(b" counts a second")?;
    let scale = match scale_of(resolution, units) {
        Some(scale) => scale,
        None => {
            out.extend_from_slice(b"; no time scale is exact, so a second here is no second")?;
            "1 s"
        }
    };
    out.extend_from_slice(b" $end\n$timescale ")?;
    out.extend_from_slice(scale.as_bytes())?;
    out.extend_from_slice(b" $end\n")
}

fn scale_of(resolution: u64, units: u64) -> Option<&'static str> {
    let wanted = u128::from(resolution) * u128::from(units);
    let mut power = 1u64;
    for scale in SCALES {
        if u128::from(power) == wanted {
            return Some(scale);
        }
        power = power.saturating_mul(10);
    }
    None
}

// ---- variables

fn append_variables(
    ports: &[TracePort],
    columns: &[Column],
    out: &mut Vec<u8>,
) -> Result<(), AllocError> {
    let mut open: Option<&TracePort> = None;
    for (number, (port, column)) in ports.iter().zip(columns).enumerate() {
        let is_open = match open {
            Some(other) => other.component.as_slice() == port.component.as_slice(),
            None => false,
        };
        if !is_open {
            if open.is_some() {
                out.extend_from_slice(b"$upscope $end\n")?;
            }
            out.extend_from_slice(b"$scope module ")?;
            append_escaped(port.component.as_slice(), out)?;
            out.extend_from_slice(b" $end\n")?;
        }
        open = Some(port);
        append_variable(number, port, column, out)?;
    }
    if open.is_some() {
        out.extend_from_slice(b"$upscope $end\n")?;
    }
    out.extend_from_slice(b"$enddefinitions $end\n")
}

fn append_variable(
    number: usize,
    port: &TracePort,
    column: &Column,
    out: &mut Vec<u8>,
) -> Result<(), AllocError> {
    out.extend_from_slice(b"$var ")?;
    out.extend_from_slice(match column.form {
        Form::Whole => type_of(column.kind).as_bytes(),
        Form::Float64 | Form::Float32 => b"real 64",
    })?;
    out.push(b' ')?;
    append_id(number, out)?;
    out.push(b' ')?;
    append_escaped(port.variable.as_slice(), out)?;
    out.extend_from_slice(b" $end\n")
}

fn type_of(kind: PortType) -> &'static str {
    match kind {
        PortType::Int8 => "integer 8",
        PortType::Int16 => "integer 16",
        PortType::Int32 => "integer 32",
        PortType::Int64 | PortType::Enumeration => "integer 64",
        PortType::UInt8 => "reg 8",
        PortType::UInt16 => "reg 16",
        PortType::UInt32 => "reg 32",
        PortType::UInt64 => "reg 64",
        PortType::Boolean => "reg 1",
        PortType::Clock => "event 1",
    }
}

// Digits of a number, the lowest first, each one of the 94 printable characters.
fn append_id(number: usize, out: &mut Vec<u8>) -> Result<(), AllocError> {
    let mut rest = number;
    for _ in 0..10 {
        out.push(b'!' + (rest % 94) as u8)?;
        rest /= 94;
        if rest == 0 {
            break;
        }
    }
    Ok(())
}

// ---- values

// Each value that isn't the one before, and at first each.
fn append_changes(
    columns: &[Column],
    before: &mut Moment,
    now: &Moment,
    is_first: bool,
    out: &mut Vec<u8>,
) -> Result<(), AllocError> {
    let values = before.values.iter_mut().zip(&now.values);
    for (number, (column, (old, value))) in columns.iter().zip(values).enumerate() {
        if column.kind == PortType::Clock {
            if *value == Some(1) {
                out.push(b'1')?;
                append_id(number, out)?;
                out.push(b'\n')?;
            }
        } else if is_first || *old != *value {
            append_change(column.kind, column.form, *value, out)?;
            append_id(number, out)?;
            out.push(b'\n')?;
        }
        *old = *value;
    }
    Ok(())
}

// A value, as far as the identifier after it. A real that has no value is written as one that is no number.
fn append_change(
    kind: PortType,
    form: Form,
    value: Option<i128>,
    out: &mut Vec<u8>,
) -> Result<(), AllocError> {
    match (form, value) {
        (Form::Whole, None) => match kind {
            PortType::Boolean => out.extend_from_slice(b"x"),
            _ => out.extend_from_slice(b"bx "),
        },
        (Form::Whole, Some(value)) => match kind {
            PortType::Boolean => out.extend_from_slice(if value == 0 { b"0" } else { b"1" }),
            _ => {
                out.push(b'b')?;
                append_bits(low_64_bits(value), width_of(kind), out)?;
                out.push(b' ')?;
                Ok(())
            }
        },
        (_, None) => out.extend_from_slice(b"rnan "),
        (_, Some(_)) => {
            out.push(b'r')?;
            append_field(Cell { form, value }, out)?;
            out.push(b' ')?;
            Ok(())
        }
    }
}

fn width_of(kind: PortType) -> u32 {
    match kind {
        PortType::Int8 | PortType::UInt8 => 8,
        PortType::Int16 | PortType::UInt16 => 16,
        PortType::Int32 | PortType::UInt32 => 32,
        PortType::Int64 | PortType::UInt64 | PortType::Enumeration => 64,
        PortType::Boolean | PortType::Clock => 1,
    }
}

// The lowest bits, without leading zeros.
fn append_bits(bits: u64, width: u32, out: &mut Vec<u8>) -> Result<(), AllocError> {
    let mut has_begun = false;
    for place in (0..64u32).rev() {
        let is_set = bits >> place & 1 == 1;
        if place < width && (is_set || has_begun || place == 0) {
            out.push(if is_set { b'1' } else { b'0' })?;
            has_begun = true;
        }
    }
    Ok(())
}
