ghost use Rattle.std.specs.Prelude.{◌≡◌, ◌+◌, ◌≤◌, ◌++◌, length, take};
ghost use Rattle.sim_base.specs.Escape.{escaped};
ghost use Rattle.system_model.specs.Text.{component_name, header_line, header_text, port_line, type_name};
ghost use Rattle.trace_text.specs.Lines.{ended};

use crate::append::{append, append_name, append_number, append_parts};
use sim_base::CompId;
use system_model::{Component, Port, System};
use value_types::PortType;

/// Puts the header of a trace to the start of `out`, and answers its length.
pub fn put_header(system: &System, resolution: u64, start: u64, stop: u64, out: &mut [u8]) -> usize
    requires { length (header_text system.now resolution start stop) ≤ length out.old }
    ensures length { result ≡ length (header_text system.now resolution start stop) }
    ensures text { take result out.new ≡ header_text system.now resolution start stop }
{
    let components = system.components.as_slice();
    let ports = system.ports.as_slice();
    let mut at = put_first_line(resolution, start, stop, out);
    for (number, port) in ports.iter().enumerate() {
        at = append_port_line(components, number, port, out, at);
    }
    at
}

fn put_first_line(resolution: u64, start: u64, stop: u64, out: &mut [u8]) -> usize
    requires { length (ended (header_line resolution start stop)) ≤ length out.old }
    ensures length { result ≡ length (ended (header_line resolution start stop)) }
    ensures text { take result out.new ≡ ended (header_line resolution start stop) }
{
    let at = append(b"trace 1 ", out, 0);
    let at = append_number(resolution, out, at);
    let at = append(b" ", out, at);
    let at = append_number(start, out, at);
    let at = append(b" ", out, at);
    let at = append_number(stop, out, at);
    append(b"\n", out, at)
}

fn append_port_line(
    components: &[Component],
    number: usize,
    port: &Port,
    out: &mut [u8],
    at: usize,
) -> usize
    requires { at + length (ended (port_line components.now number port.now)) ≤ length out.old }
    ensures end { result ≡ at + length (ended (port_line components.now number port.now)) }
    ensures text { take result out.new ≡ take at out.old ++ ended (port_line components.now
        number port.now) }
{
    let at = append(b"port ", out, at);
    let at = append_number(number as u64, out, at);
    let at = append(b" ", out, at);
    let at = append(type_name(port.kind).as_bytes(), out, at);
    let at = append(b" ", out, at);
    let at = append_component_name(components, port.component, out, at);
    let at = append(b" ", out, at);
    let at = append_name(port.name.as_str(), out, at);
    append(b"\n", out, at)
}

// Puts a component's full name, escaped; nothing where there is no such component.
fn append_component_name(components: &[Component], id: CompId, out: &mut [u8], at: usize) -> usize
    requires { at + length (escaped (component_name components.now id.0)) ≤ length out.old }
    ensures end { result ≡ at + length (escaped (component_name components.now id.0)) }
    ensures text { take result out.new ≡ take at out.old ++ escaped
        (component_name components.now id.0) }
{
    match components.get(id.0 as usize) {
        Some(component) => append_parts(&component.name, out, at),
        None => at,
    }
}

// The name of a type in FMI 3.0.
pub(crate) fn type_name(kind: PortType) -> &'static str
    ensures { result.now ≡ type_name kind }
{
    match kind {
        PortType::Int8 => "Int8",
        PortType::UInt8 => "UInt8",
        PortType::Int16 => "Int16",
        PortType::UInt16 => "UInt16",
        PortType::Int32 => "Int32",
        PortType::UInt32 => "UInt32",
        PortType::Int64 => "Int64",
        PortType::UInt64 => "UInt64",
        PortType::Boolean => "Boolean",
        PortType::Enumeration => "Enumeration",
        PortType::Clock => "Clock",
    }
}
