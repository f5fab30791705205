ghost use Rattle.std.specs.Prelude.{◌≡◌, List, ℕ, ◌∷◌, ◌++◌, Ok, None, IfOk, IfSome, if◌then◌else◌};
ghost use Rattle.trace_reading.specs.declared.trace.TracePort.{TracePort};
ghost use Rattle.trace_reading.specs.Form.{kinds_of, IsNamed};
ghost use Rattle.trace_reading.specs.Lines.{line_of_port};
ghost use Rattle.trace_reading.specs.Parts.{StandBefore};
ghost use Rattle.trace_reading.specs.Walk.{is_clock, IsClockTable};

use crate::cut::split_once;
use crate::lines::read_port_fields;
use crate::names::name;
use crate::trace::TracePort;
use sim_base::Items;
use std::alloc::{AllocError, Global};
use value_types::PortType;

/// The ports whose lines stand at the start of a text, and what is left after them.
pub(crate) fn read_ports(alloc: Global, text: &[u8]) -> Result<(Vec<TracePort>, &[u8]), AllocError>
    ensures { IfOk result (λ p. StandBefore text.now p.0.items p.1.now) }
{
    let mut ports = Vec::new(alloc);
    let mut rest = text;
    while let Some((port, after)) = port_before(alloc, ports.len() as u64, rest)? {
        ports.push(port)?;
        rest = after;
    }
    Ok((ports, rest))
}

// The port of this number, whose line stands at the start of a text, and what is left after it.
fn port_before(
    alloc: Global,
    number: u64,
    text: &[u8],
) -> Result<Option<(TracePort, &[u8])>, AllocError>
    ensures found { IfOk result
        (λ o. IfSome o (λ p. IsNamed p.0 × (text.now ≡ line_of_port number p.0 ++ (10 ∷ p.1.now)))) }
    ensures none { (port : TracePort) (rest : List ℕ) → IsNamed port →
        text.now ≡ line_of_port number port ++ (10 ∷ rest) → result ≡ Ok None → ⊥ }
{
    let Some((line, after)) = split_once(text, b'\n') else {
        return Ok(None);
    };
    match read_port_line(alloc, number, line)? {
        Some(port) => Ok(Some((port, after))),
        None => Ok(None),
    }
}

/// The port of this number whose line this is, where it is in form. The line is without its line feed.
pub fn read_port_line(
    alloc: Global,
    number: u64,
    line: &[u8],
) -> Result<Option<TracePort>, AllocError>
    ensures found { IfOk result
        (λ o. IfSome o (λ port. IsNamed port × (line.now ≡ line_of_port number port))) }
    ensures none { (port : TracePort) → IsNamed port → line.now ≡ line_of_port number port →
        result ≡ Ok None → ⊥ }
{
    let Some((k, kind, component, variable)) = read_port_fields(line) else {
        return Ok(None);
    };
    if k != number {
        return Ok(None);
    }
    let Some(component) = name(alloc, component)? else {
        return Ok(None);
    };
    let Some(variable) = name(alloc, variable)? else {
        return Ok(None);
    };
    Ok(Some(TracePort {
        kind,
        component: Items::from_vec(component),
        variable: Items::from_vec(variable),
    }))
}

/// For each port the number of Clocks before it, and after these the number of all.
pub(crate) fn clock_table(alloc: Global, ports: &[TracePort]) -> Result<Vec<usize>, AllocError>
    ensures { IfOk result (λ table. IsClockTable (kinds_of ports.now) table.items) }
{
    let mut table = Vec::with_capacity(alloc, ports.len() + 1)?;
    let mut clocks = 0;
    for port in ports {
        table.push(clocks)?;
        clocks += clock_count(port.kind);
    }
    table.push(clocks)?;
    Ok(table)
}

// 1 for a Clock, else 0.
fn clock_count(kind: PortType) -> usize
    ensures { result ≡ (if is_clock kind then 1 else 0) }
{
    match kind {
        PortType::Clock => 1,
        _ => 0,
    }
}
