ghost use Rattle.std.specs.Prelude.{◌≡◌, ◌≤◌, ◌++◌, ◌||◌, ◌==◌, ◌∷◌, ℕ, List, [], Some, Err, false, not, if◌then◌else◌, length, IfOk, OnOk, OnErr};
ghost use Rattle.trace_stream.specs.Reading.{IsFaultAt};
ghost use Rattle.trace_stream.specs.Streams.{instant_of, ports_in, Stands};
ghost use Rattle.trace_export.specs.declared.fault.ViewFault.TheVariants.{Line, Memory};
ghost use Rattle.trace_export.specs.Tables.{takes_place, written, IsInstantRow, TellsEach};
ghost use Rattle.trace_export.specs.Columns.{forms_in};
ghost use Rattle.trace_export.specs.Fields.{AddsField, AddsFields, AddsRow};

use crate::cells::{Cell, Form};
use crate::columns::{append_name, columns_of, forms_of};
use crate::fault::ViewFault;
use crate::fields::append_field;
use crate::output::Output;
use crate::reals::RealPort;
use crate::seconds::append_seconds;
use crate::text::append_number;
use csv::{ByteRecord, WriterBuilder};
use sim_base::Sink;
use std::alloc::{AllocError, Global};
use std::io::BufRead;
use trace_reading::TracePort;
use trace_stream::{Moment, TraceStream};

/// Writes a trace as a table of comma-separated values: a header, and a row for each instant, or with `last` for the last
/// instant at each point. The ports of the list are reals.
pub fn write_table<B: BufRead + Drop, S: Sink>(
    alloc: Global,
    input: B,
    reals: &[RealPort],
    last: bool,
    out: &mut Output<S>,
) -> Result<(), ViewFault>
    ensures rows { OnOk result ((bytes before : List ℕ) →
        B.remaining input ≡ Some bytes → written S.view out.old ≡ Some before →
        (header : List ℕ) ×
        TellsEach (forms_in reals.now) last bytes (before ++ header) (written S.view out.new)) }
    ensures fault { (n : ℕ) (bytes : List ℕ) → result ≡ Err (Line n) →
        B.remaining input ≡ Some bytes → IsFaultAt bytes n }
{
    let mut stream = TraceStream::open(alloc, input)?;
    let columns = columns_of(alloc, stream.ports(), reals)?;
    let forms = forms_of(alloc, &columns)?;
    append_header(alloc, stream.ports(), &mut out.bytes)?;
    write_rows(alloc, &mut stream, &forms, last, out)
}

// The rows after the header.
fn write_rows<B: BufRead, S: Sink>(
    alloc: Global,
    stream: &mut TraceStream<B>,
    forms: &[Form],
    last: bool,
    out: &mut Output<S>,
) -> Result<(), ViewFault>
    requires { length forms.now ≡ length (ports_in stream.old) }
    ensures rows { OnOk result ((told : List TracePort → List Form) (bytes before : List ℕ) →
        forms.now ≡ told (ports_in stream.old) →
        Stands B.remaining stream.old bytes [] → written S.view out.old ≡ Some before →
        TellsEach told last bytes before (written S.view out.new)) }
    ensures fault { (n : ℕ) (bytes : List ℕ) → result ≡ Err (Line n) →
        Stands B.remaining stream.old bytes [] → IsFaultAt bytes n }
{
    let mut moment = Moment::new(alloc, forms.len())?;
    let mut time = Vec::new(alloc);
    let mut row = Vec::new(alloc);
    let mut point = None;
    'instants: for _ in 0..u64::MAX {
        let has_more = stream.read(&mut moment)?;
        if !has_more {
            out.bytes.extend_from_slice(&row)?;
            return out.flush();
        }
        pass_row(&row, takes_place(last, point, moment.t), &mut out.bytes)?;
        out.spill()?;
        point = Some(moment.t);
        time.clear();
        append_seconds(moment.t, stream.resolution(), &mut time)?;
        row.clear();
        append_instant(&time, &moment, forms, &mut row)?;
    }
    Err(ViewFault::Read)
}

// Whether the instant at this point takes the place of the one before.
fn takes_place(last: bool, point: Option<u64>, t: u64) -> bool
    ensures { result ≡ takes_place last point t }
{
    last && point == Some(t)
}

// A row that waited, where no other takes its place.
fn pass_row(row: &[u8], is_replaced: bool, out: &mut Vec<u8>) -> Result<(), AllocError>
    ensures { OnOk result (out.new.items ≡ out.old.items ++ (if is_replaced then [] else row.now)) }
{
    if is_replaced {
        Ok(())
    } else {
        out.extend_from_slice(row)
    }
}

// The row of an instant.
fn append_instant(
    time: &[u8],
    moment: &Moment,
    forms: &[Form],
    out: &mut Vec<u8>,
) -> Result<(), AllocError>
    requires { length forms.now ≡ length moment.now.values.items }
    ensures { OnOk result ((text : List ℕ) × IsInstantRow forms.now (instant_of moment.now) text ×
        (out.new.items ≡ out.old.items ++ text)) }
{
    out.extend_from_slice(time)?;
    out.push(b',')?;
    append_row(moment.n, forms, &moment.values, out)
}

// The names of the columns, quoted where they have to be.
fn append_header(alloc: Global, ports: &[TracePort], out: &mut Vec<u8>) -> Result<(), ViewFault>
    ensures header { OnOk result ((header : List ℕ) × (out.new.items ≡ out.old.items ++ header)) }
    ensures fault { OnErr result (result ≡ Err Memory) }
{
    let mut names = ByteRecord::new(alloc);
    names.push_field(b"time")?;
    names.push_field(b"instant")?;
    let mut name = Vec::new(alloc);
    for port in ports {
        name.clear();
        append_name(port, &mut name)?;
        names.push_field(&name)?;
    }
    let mut writer = WriterBuilder::new().from_writer(Vec::new(alloc));
    match writer.write_byte_record(&names) {
        Ok(()) => {}
        Err(_) => return Err(ViewFault::Memory),
    }
    match writer.into_inner() {
        Ok(text) => Ok(out.extend_from_slice(&text)?),
        Err(_) => Err(ViewFault::Memory),
    }
}

/// Puts an instant's row after its time: its number at its point, and each port's value in it, by what the port's number
/// stands for.
pub fn append_row(
    n: u64,
    forms: &[Form],
    values: &[Option<i128>],
    out: &mut Vec<u8>,
) -> Result<(), AllocError>
    requires { length forms.now ≡ length values.now }
    ensures { OnOk result (AddsRow n forms.now values.now out.old.items out.new.items) }
{
    append_number(n, out)?;
    append_fields(forms, values, out)?;
    out.push(b'\n')?;
    Ok(())
}

fn append_fields(
    forms: &[Form],
    values: &[Option<i128>],
    out: &mut Vec<u8>,
) -> Result<(), AllocError>
    requires { length forms.now ≡ length values.now }
    ensures { OnOk result (AddsFields forms.now values.now out.old.items out.new.items) }
{
    'fields: for (port, form) in forms.iter().enumerate() {
        append_after_comma(
            Cell {
                form: *form,
                value: values[port],
            },
            out,
        )?;
    }
    Ok(())
}

fn append_after_comma(cell: Cell, out: &mut Vec<u8>) -> Result<(), AllocError>
    ensures { OnOk result (AddsField cell.form cell.value out.old.items out.new.items) }
{
    out.push(b',')?;
    append_field(cell, out)
}
