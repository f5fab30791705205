use crate::cells::{Cell, Form, float32_of, float64_of};
use crate::columns::{append_name, columns_of, forms_of};
use crate::fault::{CompareFault, ViewFault};
use crate::fields::append_field;
use crate::output::Output;
use crate::reals::RealPort;
use crate::text::append_number;
use sim_base::Sink;
use std::alloc::{AllocError, Global};
use std::io::BufRead;
use std::num::f32_to_f64_with_nan;
use trace_reading::TracePort;
use trace_stream::{Moment, TraceStream};

/// How far two reals may lie apart: absolutely, or relative to the greater of the two.
#[derive(Clone, Copy, Debug)]
pub struct Tolerance(pub f64);

impl Tolerance {
    /// Whether two reals count as one. A NaN is as each other NaN.
    fn takes(self, a: f64, b: f64) -> bool {
        if a == b || (a.is_nan() && b.is_nan()) {
            return true;
        }
        let apart = (a - b).abs();
        apart.is_finite() && (apart <= self.0 || apart <= self.0 * a.abs().max(b.abs()))
    }

    /// Whether two values of a port count as one.
    fn takes_values(self, form: Form, a: Option<i128>, b: Option<i128>) -> bool {
        match (a, b) {
            (Some(x), Some(y)) => match form {
                Form::Whole => x == y,
                Form::Float64 => self.takes(float64_of(x), float64_of(y)),
                Form::Float32 => self.takes(
                    f32_to_f64_with_nan(float32_of(x)),
                    f32_to_f64_with_nan(float32_of(y)),
                ),
            },
            (None, None) => true,
            _ => false,
        }
    }
}

/// Writes the first difference of two traces, or `same`, and answers whether they are the same. The ports of the list are
/// reals.
pub fn compare<A: BufRead + Drop, B: BufRead + Drop, S: Sink>(
    alloc: Global,
    first: A,
    second: B,
    reals: &[RealPort],
    tolerance: Tolerance,
    out: &mut Output<S>,
) -> Result<bool, CompareFault> {
    let mut a = match TraceStream::open(alloc, first) {
        Ok(stream) => stream,
        Err(fault) => return Err(CompareFault::First(ViewFault::from(fault))),
    };
    let mut b = match TraceStream::open(alloc, second) {
        Ok(stream) => stream,
        Err(fault) => return Err(CompareFault::Second(ViewFault::from(fault))),
    };
    let is_same = compare_streams(alloc, &mut a, &mut b, reals, tolerance, &mut out.bytes)?;
    match out.flush() {
        Ok(()) => Ok(is_same),
        Err(fault) => Err(CompareFault::Shown(fault)),
    }
}

fn compare_streams<A: BufRead, B: BufRead>(
    alloc: Global,
    first: &mut TraceStream<A>,
    second: &mut TraceStream<B>,
    reals: &[RealPort],
    tolerance: Tolerance,
    out: &mut Vec<u8>,
) -> Result<bool, CompareFault> {
    if !compare_heads(first, second, out)? {
        return Ok(false);
    }
    let forms = forms_of(alloc, &columns_of(alloc, first.ports(), reals)?)?;
    let is_same = compare_instants(alloc, first, second, &forms, tolerance, out)?;
    if is_same {
        out.extend_from_slice(b"same\n")?;
    }
    Ok(is_same)
}

// Whether the resolutions and the ports are the same.
fn compare_heads<A: BufRead, B: BufRead>(
    first: &TraceStream<A>,
    second: &TraceStream<B>,
    out: &mut Vec<u8>,
) -> Result<bool, AllocError> {
    if first.resolution() != second.resolution() {
        append_two("resolution", first.resolution(), second.resolution(), out)?;
        return Ok(false);
    }
    compare_ports(first.ports(), second.ports(), out)
}

fn compare_instants<A: BufRead, B: BufRead>(
    alloc: Global,
    first: &mut TraceStream<A>,
    second: &mut TraceStream<B>,
    forms: &[Form],
    tolerance: Tolerance,
    out: &mut Vec<u8>,
) -> Result<bool, CompareFault> {
    let mut a = Moment::new(alloc, forms.len())?;
    let mut b = Moment::new(alloc, forms.len())?;
    compare_moments(first, second, &mut a, &mut b, forms, tolerance, out)
}

// The same, where the instants that were read last stand in `a` and `b`.
fn compare_moments<A: BufRead, B: BufRead>(
    first: &mut TraceStream<A>,
    second: &mut TraceStream<B>,
    a: &mut Moment,
    b: &mut Moment,
    forms: &[Form],
    tolerance: Tolerance,
    out: &mut Vec<u8>,
) -> Result<bool, CompareFault> {
    for _ in 0..u64::MAX {
        let has_first = match first.read(a) {
            Ok(more) => more,
            Err(fault) => return Err(CompareFault::First(ViewFault::from(fault))),
        };
        let has_second = match second.read(b) {
            Ok(more) => more,
            Err(fault) => return Err(CompareFault::Second(ViewFault::from(fault))),
        };
        if !has_first && !has_second {
            return Ok(compare_ends(first, second, out)?);
        }
        let is_before = has_first && (!has_second || (a.t, a.n) < (b.t, b.n));
        let is_after = has_second && (!has_first || (b.t, b.n) < (a.t, a.n));
        if is_before {
            append_only("first", a, out)?;
            return Ok(false);
        }
        if is_after {
            append_only("second", b, out)?;
            return Ok(false);
        }
        if !compare_values(first.ports(), forms, a, b, tolerance, out)? {
            return Ok(false);
        }
    }
    Err(CompareFault::First(ViewFault::Read))
}

fn compare_ends<A: BufRead, B: BufRead>(
    first: &TraceStream<A>,
    second: &TraceStream<B>,
    out: &mut Vec<u8>,
) -> Result<bool, AllocError> {
    if first.end() == second.end() {
        return Ok(true);
    }
    out.extend_from_slice(b"end\n")?;
    Ok(false)
}

fn append_two(what: &str, a: u64, b: u64, out: &mut Vec<u8>) -> Result<(), AllocError> {
    out.extend_from_slice(what.as_bytes())?;
    out.push(b' ')?;
    append_number(a, out)?;
    out.push(b' ')?;
    append_number(b, out)?;
    out.push(b'\n')?;
    Ok(())
}

// The first port that only one has, or that isn't the same in both.
fn compare_ports(
    first: &[TracePort],
    second: &[TracePort],
    out: &mut Vec<u8>,
) -> Result<bool, AllocError> {
    let mut same = 0usize;
    for (a, b) in first.iter().zip(second) {
        let is_same = a.kind == b.kind
            && a.component.as_slice() == b.component.as_slice()
            && a.variable.as_slice() == b.variable.as_slice();
        if !is_same {
            break;
        }
        same = same.saturating_add(1);
    }
    if same == first.len() && same == second.len() {
        return Ok(true);
    }
    out.extend_from_slice(b"port ")?;
    append_number(same as u64, out)?;
    out.push(b'\n')?;
    Ok(false)
}

fn append_at(moment: &Moment, out: &mut Vec<u8>) -> Result<(), AllocError> {
    out.extend_from_slice(b"at ")?;
    append_number(moment.t, out)?;
    out.push(b' ')?;
    append_number(moment.n, out)
}

fn append_only(which: &str, moment: &Moment, out: &mut Vec<u8>) -> Result<(), AllocError> {
    append_at(moment, out)?;
    out.extend_from_slice(b" only in the ")?;
    out.extend_from_slice(which.as_bytes())?;
    out.push(b'\n')?;
    Ok(())
}

// The first port whose values don't count as one.
fn compare_values(
    ports: &[TracePort],
    forms: &[Form],
    first: &Moment,
    second: &Moment,
    tolerance: Tolerance,
    out: &mut Vec<u8>,
) -> Result<bool, AllocError> {
    let values = first.values.iter().zip(&second.values);
    for ((port, form), (a, b)) in ports.iter().zip(forms).zip(values) {
        if !tolerance.takes_values(*form, *a, *b) {
            append_difference(first, port, *form, (*a, *b), out)?;
            return Ok(false);
        }
    }
    Ok(true)
}

fn append_difference(
    moment: &Moment,
    port: &TracePort,
    form: Form,
    values: (Option<i128>, Option<i128>),
    out: &mut Vec<u8>,
) -> Result<(), AllocError> {
    append_at(moment, out)?;
    out.push(b' ')?;
    append_name(port, out)?;
    append_value(form, values.0, out)?;
    append_value(form, values.1, out)?;
    out.push(b'\n')?;
    Ok(())
}

fn append_value(form: Form, value: Option<i128>, out: &mut Vec<u8>) -> Result<(), AllocError> {
    out.push(b' ')?;
    match value {
        Some(_) => append_field(Cell { form, value }, out),
        None => out.extend_from_slice(b"none"),
    }
}
