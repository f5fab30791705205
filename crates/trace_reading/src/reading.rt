ghost use Rattle.std.specs.Prelude.{◌≡◌, ◌≤◌, ◌+◌, ◌⊎◌, ◌∷◌, ◌++◌, ℕ, List, Ok, Err, IfOk, IfSome, IfNone, IsTrue, length, ◌↔◌};
ghost use Rattle.trace_reading.specs.declared.trace.Trace.{Trace};
ghost use Rattle.trace_reading.specs.Faults.{IsFirstFault};
ghost use Rattle.trace_reading.specs.Form.{IsRange, IsTextOf};
ghost use Rattle.system_model.specs.Text.{header_line};

use crate::cut::split_once;
use crate::fault::TraceFault;
use crate::lines::read_header;
use crate::ports::{clock_table, read_ports};
use crate::rows::read_rows;
use crate::trace::{Header, Trace};
use sim_base::{Items, MOST_COUNTS};
use std::alloc::Global;

/// The trace whose text these bytes are, or the first line that is out of form: no text of the form begins with the
/// lines up to it, it has no line feed, or it is missing. The memory that this takes is below twenty times the text's.
pub fn read_trace(alloc: Global, bytes: &[u8]) -> Result<Trace, TraceFault>
    ensures found { IfOk result (IsTextOf bytes.now) }
    ensures exact { (t : Trace) → IsTextOf bytes.now t → (result ≡ Ok t) ⊎
        (result ≡ Err TraceFault.Memory) }
    ensures lines { IfOk result (λ t. length t.ports + length t.lines + 2 ≤ length bytes.now) }
    ensures fault { (n : ℕ) → result ≡ Err (TraceFault.Line n) → IsFirstFault bytes.now n }
{
    read(alloc, bytes)
}

fn read(alloc: Global, bytes: &[u8]) -> Result<Trace, TraceFault>
    ensures found { IfOk result (IsTextOf bytes.now) }
    ensures fault { (n : ℕ) → result ≡ Err (TraceFault.Line n) → IsFirstFault bytes.now n }
{
    let Some((header, rest)) = header_before(bytes) else {
        return Err(TraceFault::Line(1));
    };
    let (ports, rest) = read_ports(alloc, rest)?;
    let clocks = clock_table(alloc, &ports)?;
    match read_rows(alloc, &ports, &clocks, rest) {
        Ok(rows) => Ok(Trace {
            resolution: header.resolution,
            start: header.start,
            stop: header.stop,
            ports: Items::from_vec(ports),
            lines: Items::from_vec(rows.lines),
            kind: rows.kind,
            point: rows.point,
        }),
        Err(TraceFault::Line(n)) => Err(TraceFault::Line(1 + ports.len() as u64 + n)),
        Err(TraceFault::Memory) => Err(TraceFault::Memory),
    }
}

// The header whose line stands at the start of a text, and what is left after it.
fn header_before(text: &[u8]) -> Option<(Header, &[u8])>
    ensures found { IfSome result (λ p. text.now ≡ header_line p.0.resolution p.0.start p.0.stop ++
        (10 ∷ p.1.now)) }
    ensures range { IfSome result (λ p. IsRange p.0.resolution p.0.start p.0.stop) }
    ensures none { (resolution start stop : ℕ) (rest : List ℕ) → IsRange resolution start stop →
        text.now ≡ header_line resolution start stop ++ (10 ∷ rest) → IfNone result ⊥ }
{
    let (line, rest) = split_once(text, b'\n')?;
    let header = read_header_line(line)?;
    Some((header, rest))
}

/// What the first line of a trace tells, where it is in form. The line is without its line feed.
pub fn read_header_line(line: &[u8]) -> Option<Header>
    ensures found { IfSome result (λ h. line.now ≡ header_line h.resolution h.start h.stop) }
    ensures range { IfSome result (λ h. IsRange h.resolution h.start h.stop) }
    ensures none { (resolution start stop : ℕ) → IsRange resolution start stop →
        line.now ≡ header_line resolution start stop → IfNone result ⊥ }
{
    let (resolution, start, stop) = read_header(line)?;
    if is_range(resolution, start, stop) {
        Some(Header {
            resolution,
            start,
            stop,
        })
    } else {
        None
    }
}

// Whether a header's numbers are within their limits.
fn is_range(resolution: u64, start: u64, stop: u64) -> bool
    ensures { IsTrue result ↔ IsRange resolution start stop }
{
    1 <= resolution && resolution <= MOST_COUNTS && start <= stop && stop <= MOST_COUNTS
}
