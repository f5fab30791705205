//! The text of a trace, put and read instant by instant.
ghost use Rattle.std.specs.Prelude.{Err, IfOk, List, length, take, ℕ, ◌≡◌, ◌≤◌};
ghost use Rattle.system_model.specs.Text.{end_text, header_text, instant_text};
ghost use Rattle.trace_reading.specs.declared.item.Item.{Item};
ghost use Rattle.trace_stream.specs.Reading.{IsFaultAt};
ghost use Rattle.trace_stream.specs.Streams.{Stands, Tells};
ghost use Rattle.trace_stream.specs.declared.fault.StreamFault.TheVariants.{Line};

use port_values::PortValues;
use std::io::BufRead;
use system_model::{EndKind, System};
use trace_stream::{Moment, StreamFault, TraceStream};
use trace_text::{put_end, put_header, put_instant};

/// Puts the header of a trace.
pub fn put_head(system: &System, resolution: u64, start: u64, stop: u64, out: &mut [u8]) -> usize
    requires { length (header_text system.now resolution start stop) ≤ length out.old }
    ensures length { result ≡ length (header_text system.now resolution start stop) }
    ensures text { take result out.new ≡ header_text system.now resolution start stop }
{
    put_header(system, resolution, start, stop, out)
}

/// Puts an instant.
pub fn put_one_instant(
    system: &System,
    t: u64,
    n: u64,
    values: &mut PortValues,
    out: &mut [u8],
) -> usize
    requires { length (instant_text t n values.old) ≤ length out.old }
    ensures length { result ≡ length (instant_text t n values.old) }
    ensures text { take result out.new ≡ instant_text t n values.old }
    ensures values { values.new ≡ values.old }
{
    put_instant(system, t, n, values, out)
}

/// Puts the end line.
pub fn put_last_line(kind: EndKind, t: u64, out: &mut [u8]) -> usize
    requires { length (end_text kind t) ≤ length out.old }
    ensures length { result ≡ length (end_text kind t) }
    ensures text { take result out.new ≡ end_text kind t }
{
    put_end(kind, t, out)
}

/// Reads the next instant; false where there is none.
pub fn read_next<B: BufRead>(
    stream: &mut TraceStream<B>,
    moment: &mut Moment,
) -> Result<bool, StreamFault>
    ensures header { stream.new.header ≡ stream.old.header }
    ensures ports { stream.new.rows.ports ≡ stream.old.rows.ports }
    ensures size { length moment.new.values.items ≡ length moment.old.values.items }
    ensures told { IfOk result (λ more. (bytes : List ℕ) (before : List Item) →
        Stands B.remaining stream.old bytes before →
        length moment.old.values.items ≡ length stream.old.rows.ports →
        Tells B.remaining stream.old stream.new bytes before moment.new more) }
    ensures fault { (n : ℕ) (bytes : List ℕ) (before : List Item) → result ≡ Err (Line n) →
        Stands B.remaining stream.old bytes before → IsFaultAt bytes n }
{
    stream.read(moment)
}
