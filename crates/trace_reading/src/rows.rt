ghost use Rattle.std.specs.Prelude.{◌≡◌, ◌+◌, ◌≤◌, ℕ, [], Err, None, IfOk, IfSome, OnOk, count_by, map, length, nat_le, ◌&&◌, ◌==◌};
ghost use Rattle.system_model.specs.declared.plan.EndKind.{EndKind};
ghost use Rattle.trace_reading.specs.declared.fault.TraceFault.TheVariants.{Line};
ghost use Rattle.trace_reading.specs.Form.{kinds_of};
ghost use Rattle.system_model.specs.Text.{lines_text};
ghost use Rattle.trace_reading.specs.Walk.{clocks_before, fits_at, is_closed, is_next, is_start, items_in, place_after, rows_with, IsClockTable, IsFirstFaultOf, IsRows};

use crate::cut::split_once;
use crate::fault::TraceFault;
use crate::item::{Item, Place};
use crate::lines::read_item;
use crate::trace::{TraceLine, TracePort};
use sim_base::{MOST_COUNTS, MOST_INSTANTS};
use std::alloc::{AllocError, Global};
use system_model::EndKind;
use value_types::fits;

/// What comes after the ports: the lines of the instants, and how and where the run ended.
#[derive(Debug, Drop)]
pub struct Rows {
    pub lines: Vec<TraceLine>,
    pub kind: EndKind,
    pub point: u64,
}

/// The lines after the ports, each read. The number of a fault's line counts from 1 after the ports.
pub(crate) fn read_rows(
    alloc: Global,
    ports: &[TracePort],
    clocks: &[usize],
    text: &[u8],
) -> Result<Rows, TraceFault>
    requires { IsClockTable (kinds_of ports.now) clocks.now }
    ensures found { IfOk result
        (λ rows. IsRows (kinds_of ports.now) text.now rows.lines.items rows.kind rows.point) }
    ensures fault { (n : ℕ) → result ≡ Err (Line n) →
        IsFirstFaultOf (kinds_of ports.now) text.now n }
{
    let mut lines = Vec::with_capacity(alloc, count_lines(text))?;
    let mut place = Place::Between;
    let mut rest = text;
    while let Some((line, after)) = split_once(rest, b'\n') {
        let Some(item) = read_item(line) else {
            return Err(TraceFault::Line(next_number(&lines, place)));
        };
        let Some(next) = place_after(ports, clocks, place, item) else {
            return Err(TraceFault::Line(next_number(&lines, place)));
        };
        push_row(&mut lines, item)?;
        place = next;
        rest = after;
    }
    match ending(place, rest) {
        Some((kind, point)) => Ok(Rows { lines, kind, point }),
        None => Err(TraceFault::Line(next_number(&lines, place))),
    }
}

// The end line, where it stands last.
fn ending(place: Place, rest: &[u8]) -> Option<(EndKind, u64)>
    ensures found { IfSome result (λ e. (place ≡ Place.Ended e.0 e.1) × (rest.now ≡ [])) }
    ensures none { (kind : EndKind) (t : ℕ) → place ≡ Place.Ended kind t → rest.now ≡ [] →
        result ≡ None → ⊥ }
{
    match place {
        Place::Ended { kind, t } => {
            if rest.is_empty() {
                Some((kind, t))
            } else {
                None
            }
        }
        _ => None,
    }
}

// The room for the lines is made at once, so that it isn't twice what they need.
fn count_lines(text: &[u8]) -> usize
    ensures { result ≡ count_by (λ byte. byte == 10) text.now }
{
    text.iter().filter(|byte| **byte == b'\n').count()
}

fn push_row(lines: &mut Vec<TraceLine>, item: Item) -> Result<(), AllocError>
    ensures { OnOk result (lines.new.items ≡ rows_with lines.old.items item) }
{
    match item {
        Item::Row(line) => {
            lines.push(line)?;
            Ok(())
        }
        Item::End { .. } => Ok(()),
    }
}

// The number of the line after those that were read.
fn next_number(lines: &Vec<TraceLine>, place: Place) -> u64
    ensures { result ≡ length (items_in lines.now.items place) + 1 }
{
    match place {
        Place::Ended { .. } => lines.len() as u64 + 2,
        _ => lines.len() as u64 + 1,
    }
}

// Where the reading stands after the line; none where the line may not stand there.
pub(crate) fn place_after(
    ports: &[TracePort],
    clocks: &[usize],
    place: Place,
    item: Item,
) -> Option<Place>
    requires { IsClockTable (kinds_of ports.now) clocks.now }
    ensures { result ≡ place_after (kinds_of ports.now) place item }
{
    match item {
        Item::Row(TraceLine::At { t, n }) => {
            if is_closed(ports, clocks, place) && is_start(t, n) {
                Some(Place::Within { next: 0 })
            } else {
                None
            }
        }
        Item::Row(TraceLine::Value { port, value }) => match place {
            Place::Within { next } => {
                if is_next(ports, clocks, next, port, value) {
                    Some(Place::Within {
                        next: port as usize + 1,
                    })
                } else {
                    None
                }
            }
            Place::Between | Place::Ended { .. } => None,
        },
        Item::End { kind, t } => {
            if is_closed(ports, clocks, place) && t <= MOST_COUNTS {
                Some(Place::Ended { kind, t })
            } else {
                None
            }
        }
    }
}

// Whether an instant's point and number are within their limits.
fn is_start(t: u64, n: u64) -> bool
    ensures { result ≡ is_start t n }
{
    t <= MOST_COUNTS && n < MOST_INSTANTS
}

// Whether an instant may end here.
fn is_closed(ports: &[TracePort], clocks: &[usize], place: Place) -> bool
    requires { IsClockTable (kinds_of ports.now) clocks.now }
    ensures { result ≡ is_closed (kinds_of ports.now) place }
{
    match place {
        Place::Between => true,
        Place::Within { next } => next >= ports.len()
            || has_no_clock(ports, clocks, next, ports.len()),
        Place::Ended { .. } => false,
    }
}

// Whether the value of the port may stand where the next port is this one.
fn is_next(ports: &[TracePort], clocks: &[usize], next: usize, port: u64, value: i128) -> bool
    requires { IsClockTable (kinds_of ports.now) clocks.now }
    ensures { result ≡ is_next (kinds_of ports.now) next port value }
{
    next <= port as usize
        && fits_at(ports, port as usize, value)
        && has_no_clock(ports, clocks, next, port as usize)
}

fn fits_at(ports: &[TracePort], port: usize, value: i128) -> bool
    ensures { result ≡ fits_at (kinds_of ports.now) port value }
{
    match ports.get(port) {
        Some(port) => fits(port.kind, value),
        None => false,
    }
}

// Whether none of the ports from the first number up to the second is a Clock.
fn has_no_clock(ports: &[TracePort], clocks: &[usize], from: usize, to: usize) -> bool
    requires table { IsClockTable (kinds_of ports.now) clocks.now }
    requires order { from ≤ to }
    requires within { to ≤ length ports.now }
    ensures { result ≡ (clocks_before (kinds_of ports.now) from == clocks_before
        (kinds_of ports.now) to) }
{
    let _ports = ports;
    clocks[from] == clocks[to]
}
