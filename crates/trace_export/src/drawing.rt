ghost use Rattle.std.specs.Prelude.{◌≤◌};

use crate::cells::Cell;
use crate::columns::{Column, append_name, columns_of};
use crate::fault::ViewFault;
use crate::fields::append_field;
use crate::output::Output;
use crate::panels::{PLACES, Panel, Place};
use crate::reals::RealPort;
use crate::seconds::append_seconds;
use crate::text::{append_number, append_xml};
use sim_base::Sink;
use std::alloc::{AllocError, Global};
use std::io::BufRead;
use std::num::saturating_f64_to_u64;
use trace_reading::{Header, TracePort};
use trace_stream::{Moment, TraceStream};
use value_types::PortType;

// Without names a picture has at most so many panels.
const MOST_PANELS: usize = 16;
// What stands left of the panels, and how high a panel and what it shows are.
const LEFT: u64 = 150;

const ROW: u64 = 76;

const HEIGHT: u64 = 44;

const TOP: u64 = 22;

const TICKS: u64 = 4;

const STYLE: &str = "<style>
svg{color-scheme:light dark;background:#fff;font:11px sans-serif}
text{fill:#222}.dim{fill:#666}.axis{stroke:#bbb;fill:none}.line{stroke:#0b62c4;fill:none;stroke-width:1.5}
@media(prefers-color-scheme:dark){svg{background:#16181c}text{fill:#e6e6e6}.dim{fill:#9aa0a6}.axis{stroke:#4a4f57}.line{stroke:#6cb2ff}}
</style>
";

/// Writes a trace as a picture (SVG 1.1), one panel for each port of these names, or for each up to 16 where there are none.
/// The ports of the list are reals.
pub fn write_plot<B: BufRead + Drop, S: Sink>(
    alloc: Global,
    input: B,
    reals: &[RealPort],
    names: &[&str],
    out: &mut Output<S>,
) -> Result<(), ViewFault> {
    let mut stream = TraceStream::open(alloc, input)?;
    append_plot(alloc, &mut stream, reals, names, &mut out.bytes)?;
    out.flush()
}

fn append_plot<B: BufRead>(
    alloc: Global,
    stream: &mut TraceStream<B>,
    reals: &[RealPort],
    names: &[&str],
    out: &mut Vec<u8>,
) -> Result<(), ViewFault> {
    let columns = columns_of(alloc, stream.ports(), reals)?;
    let mut panels = panels_of(alloc, stream.ports(), names)?;
    let end = fill_panels(alloc, stream, &columns, &mut panels)?;
    let picture = Picture {
        header: stream.header(),
        ports: stream.ports(),
        columns: &columns,
        panels: &panels,
        end,
    };
    append_picture(alloc, &picture, stream.resolution(), out)?;
    Ok(())
}

// Takes all instants into the panels, and tells the place up to which there are any.
fn fill_panels<B: BufRead>(
    alloc: Global,
    stream: &mut TraceStream<B>,
    columns: &[Column],
    panels: &mut [Panel],
) -> Result<usize, ViewFault> {
    let header = stream.header();
    let mut moment = Moment::new(alloc, columns.len())?;
    let mut end = 0;
    for _ in 0..u64::MAX {
        if !stream.read(&mut moment)? {
            return Ok(end);
        }
        end = place_of(&header, moment.t);
        for panel in panels.iter_mut() {
            if let (Some(column), Some(value)) = (
                columns.get(panel.port),
                moment.values.get(panel.port),
            ) {
                panel.take(
                    end,
                    Cell {
                        form: column.form,
                        value: *value,
                    },
                );
            }
        }
    }
    Err(ViewFault::Read)
}

/// What is drawn: the panels, and the place up to which there are instants.
#[derive(Clone, Copy)]
struct Picture<'a> {
    header: Header,
    ports: &'a [TracePort],
    columns: &'a [Column],
    panels: &'a [Panel],
    end: usize,
}

// ---- which ports

fn panels_of(alloc: Global, ports: &[TracePort], names: &[&str]) -> Result<Vec<Panel>, ViewFault> {
    let mut panels = Vec::new(alloc);
    if names.is_empty() {
        for (number, _) in ports.iter().enumerate() {
            if number < MOST_PANELS {
                panels.push(Panel::new(alloc, number)?)?;
            }
        }
        return Ok(panels);
    }
    for (place, name) in names.iter().enumerate() {
        match port_of(alloc, ports, name.as_bytes())? {
            Some(number) => panels.push(Panel::new(alloc, number)?)?,
            None => return Err(ViewFault::Port(place)),
        }
    }
    Ok(panels)
}

fn port_of(alloc: Global, ports: &[TracePort], name: &[u8]) -> Result<Option<usize>, AllocError> {
    let mut other = Vec::new(alloc);
    for (number, port) in ports.iter().enumerate() {
        other.clear();
        append_name(port, &mut other)?;
        if other.as_slice() == name {
            return Ok(Some(number));
        }
    }
    Ok(None)
}

// The place of a point, from side to side.
fn place_of(header: &Header, t: u64) -> usize {
    let span = header.stop.saturating_sub(header.start);
    if span == 0 {
        return 0;
    }
    let after = t.saturating_sub(header.start).min(span);
    (u128::from(after) * 719 / u128::from(span)) as usize
}

// ---- the picture

fn append_picture(
    alloc: Global,
    picture: &Picture<'_>,
    resolution: u64,
    out: &mut Vec<u8>,
) -> Result<(), AllocError>
    requires { 1 ≤ resolution }
{
    let height = (picture.panels.len() as u64)
        .saturating_mul(ROW)
        .saturating_add(50);
    out.extend_from_slice(b"<svg xmlns=\"http://www.w3.org/2000/svg\" viewBox=\"0 0 900 ")?;
    append_number(height, out)?;
    out.extend_from_slice(b"\" width=\"900\" height=\"")?;
    append_number(height, out)?;
    out.extend_from_slice(b"\" role=\"img\">\n<title>A trace over time</title>\n")?;
    out.extend_from_slice(STYLE.as_bytes())?;
    let mut top = TOP;
    for panel in picture.panels {
        let port = picture.ports.get(panel.port);
        let column = picture.columns.get(panel.port);
        if let (Some(port), Some(column)) = (port, column) {
            append_panel(port, column, panel, picture.end, top, out)?;
        }
        top = top.saturating_add(ROW);
    }
    append_axis(alloc, &picture.header, resolution, top, out)?;
    out.extend_from_slice(b"</svg>\n")
}

fn append_panel(
    port: &TracePort,
    column: &Column,
    panel: &Panel,
    end: usize,
    top: u64,
    out: &mut Vec<u8>,
) -> Result<(), AllocError> {
    append_title(port, column, top, out)?;
    append_base(top, out)?;
    if column.kind == PortType::Clock {
        return append_marks(panel, top, out);
    }
    if let (Some((low, least)), Some((high, greatest))) = (panel.low, panel.high) {
        if low < high {
            append_label(greatest, top.saturating_add(9), out)?;
            append_label(least, top.saturating_add(HEIGHT), out)?;
        } else {
            append_label(greatest, top.saturating_add(HEIGHT / 2 + 4), out)?;
        }
        append_steps(panel, Heights { low, high, top }, end, out)?;
    }
    Ok(())
}

fn append_title(
    port: &TracePort,
    column: &Column,
    top: u64,
    out: &mut Vec<u8>,
) -> Result<(), AllocError> {
    out.extend_from_slice(b"<text x=\"")?;
    append_number(LEFT, out)?;
    out.extend_from_slice(b"\" y=\"")?;
    append_number(top.saturating_sub(6), out)?;
    out.extend_from_slice(b"\">")?;
    append_xml(port.component.as_slice(), out)?;
    out.push(b'.')?;
    append_xml(port.variable.as_slice(), out)?;
    if !column.unit.is_empty() {
        out.extend_from_slice(b" [")?;
        append_xml(&column.unit, out)?;
        out.push(b']')?;
    }
    out.extend_from_slice(b"</text>\n")
}

fn append_base(top: u64, out: &mut Vec<u8>) -> Result<(), AllocError> {
    out.extend_from_slice(b"<path class=\"axis\" d=\"M")?;
    append_number(LEFT, out)?;
    out.push(b' ')?;
    append_number(top, out)?;
    out.push(b'V')?;
    append_number(top.saturating_add(HEIGHT), out)?;
    out.push(b'H')?;
    append_number(LEFT.saturating_add(PLACES as u64), out)?;
    out.extend_from_slice(b"\"/>\n")
}

fn append_label(cell: Cell, y: u64, out: &mut Vec<u8>) -> Result<(), AllocError> {
    out.extend_from_slice(b"<text class=\"dim\" text-anchor=\"end\" x=\"")?;
    append_number(LEFT.saturating_sub(5), out)?;
    out.extend_from_slice(b"\" y=\"")?;
    append_number(y, out)?;
    out.extend_from_slice(b"\">")?;
    append_field(cell, out)?;
    out.extend_from_slice(b"</text>\n")
}

// ---- steps and marks

/// Where values stand: the least and the greatest, and the greatest's place in the picture.
#[derive(Clone, Copy)]
struct Heights {
    low: f64,
    high: f64,
    top: u64,
}

// A value's place, in tenths.
fn append_height(heights: Heights, value: f64, out: &mut Vec<u8>) -> Result<(), AllocError> {
    let part = if heights.low < heights.high {
        (heights.high / 2.0 - value / 2.0) / (heights.high / 2.0 - heights.low / 2.0)
    } else {
        0.5
    };
    let tenths = saturating_f64_to_u64(part * 440.0 + 0.5).min(440);
    append_number(heights.top.saturating_add(tenths / 10), out)?;
    out.push(b'.')?;
    append_number(tenths % 10, out)
}

// Lines from value to value, each as long as it lasts.
fn append_steps(
    panel: &Panel,
    heights: Heights,
    end: usize,
    out: &mut Vec<u8>,
) -> Result<(), AllocError> {
    out.extend_from_slice(b"<path class=\"line\" d=\"")?;
    let mut is_down = false;
    for (at, place) in panel.places.iter().enumerate() {
        if place.is_reached {
            append_place(at, place, heights, is_down, out)?;
            is_down = place.last.is_some();
        }
    }
    if is_down {
        append_across(end, out)?;
    }
    out.extend_from_slice(b"\"/>\n")
}

fn append_place(
    at: usize,
    place: &Place,
    heights: Heights,
    is_down: bool,
    out: &mut Vec<u8>,
) -> Result<(), AllocError> {
    if is_down {
        append_across(at, out)?;
    }
    let Some(first) = place.first else {
        return Ok(());
    };
    if is_down {
        append_up(heights, first, out)?;
    } else {
        out.push(b'M')?;
        append_number(LEFT.saturating_add(at as u64), out)?;
        out.push(b' ')?;
        append_height(heights, first, out)?;
        out.push(b'h')?;
        out.push(b'0')?;
    }
    if place.low < place.high {
        append_up(heights, place.low, out)?;
        append_up(heights, place.high, out)?;
        if let Some(last) = place.last {
            append_up(heights, last, out)?;
        }
    }
    Ok(())
}

fn append_across(at: usize, out: &mut Vec<u8>) -> Result<(), AllocError> {
    out.push(b'H')?;
    append_number(LEFT.saturating_add(at as u64), out)
}

fn append_up(heights: Heights, value: f64, out: &mut Vec<u8>) -> Result<(), AllocError> {
    out.push(b'V')?;
    append_height(heights, value, out)
}

// A mark at each place where a Clock ticks.
fn append_marks(panel: &Panel, top: u64, out: &mut Vec<u8>) -> Result<(), AllocError> {
    out.extend_from_slice(b"<path class=\"line\" d=\"")?;
    for (at, place) in panel.places.iter().enumerate() {
        if place.is_reached && 0.5 < place.high {
            out.push(b'M')?;
            append_number(LEFT.saturating_add(at as u64), out)?;
            out.push(b' ')?;
            append_number(top.saturating_add(10), out)?;
            out.push(b'V')?;
            append_number(top.saturating_add(HEIGHT), out)?;
        }
    }
    out.extend_from_slice(b"\"/>\n")
}

// ---- the axis of time

fn append_axis(
    alloc: Global,
    header: &Header,
    resolution: u64,
    top: u64,
    out: &mut Vec<u8>,
) -> Result<(), AllocError>
    requires { 1 ≤ resolution }
{
    let span = header.stop.saturating_sub(header.start);
    let mut label = Vec::new(alloc);
    for tick in 0..TICKS + 1 {
        let after = (u128::from(span) * u128::from(tick) / 4) as u64;
        let t = header.start.saturating_add(after);
        label.clear();
        append_seconds(t, resolution, &mut label)?;
        append_tick(header, t, &label, top, out)?;
        if span == 0 {
            break;
        }
    }
    append_unit(top, out)
}

fn append_tick(
    header: &Header,
    t: u64,
    label: &[u8],
    top: u64,
    out: &mut Vec<u8>,
) -> Result<(), AllocError> {
    let x = LEFT.saturating_add(place_of(header, t) as u64);
    out.extend_from_slice(b"<text class=\"dim\" text-anchor=\"middle\" x=\"")?;
    append_number(x, out)?;
    out.extend_from_slice(b"\" y=\"")?;
    append_number(top.saturating_add(4), out)?;
    out.extend_from_slice(b"\">")?;
    out.extend_from_slice(label)?;
    out.extend_from_slice(b"</text>\n")
}

fn append_unit(top: u64, out: &mut Vec<u8>) -> Result<(), AllocError> {
    out.extend_from_slice(b"<text x=\"")?;
    append_number(LEFT.saturating_add(PLACES as u64 / 2), out)?;
    out.extend_from_slice(b"\" y=\"")?;
    append_number(top.saturating_add(20), out)?;
    out.extend_from_slice(b"\" text-anchor=\"middle\">time in s</text>\n")
}
