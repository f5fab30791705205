ghost use Rattle.std.specs.Prelude.{◌≡◌, ◌≤◌, ℕ, List, [], ◌∷◌, ◌++◌, Some, None, Err, IfOk, OnOk, OnErr};
ghost use Rattle.trace_reading.specs.declared.item.Item.{Item};
ghost use Rattle.trace_reading.specs.declared.trace.Header.{Header};
ghost use Rattle.trace_reading.specs.Form.{kinds_of};
ghost use Rattle.trace_reading.specs.Walk.{item_line, place_after, IsShortItem};
ghost use Rattle.trace_stream.specs.declared.fault.StreamFault.TheVariants.{Line};
ghost use Rattle.trace_stream.specs.Cut.{next_number};
ghost use Rattle.trace_stream.specs.Reading.{item_ahead, HasPorts, HasRead, IsAfterPorts, IsFaultAt, IsLast, IsOpen, IsWrongAhead};

use crate::fault::StreamFault;
use crate::lines::Lines;
use std::alloc::Global;
use std::io::BufRead;
use system_model::EndKind;
use trace_reading::{
    Header, Item, RowReader, TraceLine, TracePort, read_header_line, read_port_line,
};

/// The line that was read ahead.
#[derive(Clone, Copy, Debug)]
pub enum Ahead {
    /// The n-th instant at the point `t` begins.
    Begin { t: u64, n: u64 },
    /// The run ended so at the point `t`.
    Finish { kind: EndKind, t: u64 },
}

/// The header and the ports. The reading stands at the line after them.
pub(crate) fn read_prefix<B: BufRead>(
    alloc: Global,
    lines: &mut Lines<B>,
) -> Result<(Header, Vec<TracePort>), StreamFault>
    ensures read { IfOk result (λ p. (bytes : List ℕ) → B.remaining lines.old.input ≡ Some bytes →
        lines.old.number ≡ 0 → IsAfterPorts bytes p.0 p.1.items lines.new.bytes.items
        (B.remaining lines.new.input) lines.new.number) }
    ensures counts { IfOk result (λ p. 1 ≤ p.0.resolution) }
    ensures fault { (n : ℕ) (bytes : List ℕ) → result ≡ Err (Line n) →
        B.remaining lines.old.input ≡ Some bytes → lines.old.number ≡ 0 → IsFaultAt bytes n }
{
    lines.advance()?;
    let Some(header) = read_header_line(&lines.bytes) else {
        return Err(StreamFault::Line(lines.number));
    };
    let ports = read_ports(alloc, lines)?;
    Ok((header, ports))
}

// The ports, up to the first line that is none's.
fn read_ports<B: BufRead>(
    alloc: Global,
    lines: &mut Lines<B>,
) -> Result<Vec<TracePort>, StreamFault>
    ensures read { IfOk result (λ ports. (bytes : List ℕ) (header : Header) →
        HasPorts bytes header [] (B.remaining lines.old.input) lines.old.number →
        IsAfterPorts bytes header ports.items lines.new.bytes.items
        (B.remaining lines.new.input) lines.new.number) }
    ensures fault { (n : ℕ) (bytes : List ℕ) (header : Header) → result ≡ Err (Line n) →
        HasPorts bytes header [] (B.remaining lines.old.input) lines.old.number → IsFaultAt bytes n }
{
    let mut ports = Vec::new(alloc);
    'ports: for _ in 0..u64::MAX {
        let number = ports.len() as u64;
        lines.advance()?;
        match read_port_line(alloc, number, &lines.bytes)? {
            Some(port) => ports.push(port)?,
            None => return Ok(ports),
        }
    }
    Err(StreamFault::Memory)
}

/// What the next line after the ports tells.
pub(crate) fn next_item<B: BufRead>(
    lines: &mut Lines<B>,
    rows: &mut RowReader,
) -> Result<Item, StreamFault>
    ensures ports { rows.new.ports ≡ rows.old.ports }
    ensures place { IfOk result
        (λ item. place_after (kinds_of rows.old.ports) rows.old.place item ≡ Some rows.new.place) }
    ensures read { IfOk result (λ item. (bytes : List ℕ) (header : Header) (items : List Item) →
        HasRead bytes header rows.old.ports items rows.old.place (B.remaining lines.old.input)
        lines.old.number → HasRead bytes header rows.old.ports (items ++ (item ∷ []))
        rows.new.place (B.remaining lines.new.input) lines.new.number) }
    ensures fault { (n : ℕ) (bytes : List ℕ) (header : Header) (items : List Item) →
        result ≡ Err (Line n) → HasRead bytes header rows.old.ports items rows.old.place
        (B.remaining lines.old.input) lines.old.number → IsOpen rows.old.place → IsFaultAt bytes n }
{
    lines.advance()?;
    match rows.read(&lines.bytes) {
        Some(item) => Ok(item),
        None => Err(StreamFault::Line(lines.number)),
    }
}

/// The line that was read ahead, of what it tells. After the last one nothing may stand.
pub(crate) fn ahead_of<B: BufRead>(lines: &mut Lines<B>, item: Item) -> Result<Ahead, StreamFault>
    ensures number { OnOk result (lines.new.number ≡ lines.old.number) }
    ensures item { IfOk result (λ ahead. item ≡ item_ahead ahead) }
    ensures last { IfOk result (λ ahead. (rest : List ℕ) →
        B.remaining lines.old.input ≡ Some rest →
        (B.remaining lines.new.input ≡ Some rest) × IsLast ahead rest) }
    ensures fault { (n : ℕ) → result ≡ Err (Line n) →
        IsWrongAhead item n lines.old.number (B.remaining lines.old.input) }
{
    match item {
        Item::Row(TraceLine::At { t, n }) => Ok(Ahead::Begin { t, n }),
        Item::Row(TraceLine::Value { .. }) => Err(StreamFault::Line(lines.number)),
        Item::End { kind, t } => {
            lines.finish()?;
            Ok(Ahead::Finish { kind, t })
        }
    }
}
