ghost use Rattle.std.specs.Prelude.{◌≡◌, ◌≤◌, ◌*◌, ◌^◌, ℕ, None, IfSome, IsSomeAnd, length, decimal};
ghost use Rattle.sim_base.specs.Escape.{escaped};
ghost use Rattle.system_model.specs.Text.{component_name, header_line, header_text, port_line};
ghost use Rattle.trace_text.specs.Holding.{PassesWith, held_header_max};
ghost use Rattle.trace_text.specs.Lines.{ended};

use crate::header::type_name;
use itoa::Buffer;
use sim_base::{CompId, PartedText, escaped_byte};
use system_model::{Component, Plan, Port, System};

// The most bytes of a header for which a checkpoint has room.
const MOST_HEADER_BYTES: u128 = 1 << 27;

/// The component with whose port lines the header of a trace of the system by this plan passes 2^27 bytes, for which a
/// checkpoint has room; none where the header has no more. It allocates no memory.
pub fn passing_component(system: &System, plan: Plan) -> Option<CompId>
    ensures found { IfSome result (λ c. PassesWith system.now.components system.now.ports plan c.0) }
    ensures only { (i : ℕ) → PassesWith system.now.components system.now.ports plan i →
        IsSomeAnd result (λ c. c.0 ≡ i) }
    ensures none { result ≡ None →
        length (header_text system.now plan.resolution plan.start plan.stop) ≤ held_header_max }
{
    let components = system.components.as_slice();
    let ports = system.ports.as_slice();
    let mut length = first_line_length(plan);
    for (number, port) in ports.iter().enumerate() {
        length += port_line_length(components, number, port);
        if length > MOST_HEADER_BYTES {
            return Some(port.component);
        }
    }
    None
}

// The length of the line that stands first in the header.
fn first_line_length(plan: Plan) -> u128
    ensures length { result ≡ length (ended (header_line plan.resolution plan.start plan.stop)) }
    ensures short { result ≤ 128 }
{
    let numbers = number_length(plan.resolution)
        + number_length(plan.start)
        + number_length(plan.stop);
    b"trace 1 ".len() as u128 + numbers + 3
}

// The length of the line of a port.
fn port_line_length(components: &[Component], number: usize, port: &Port) -> u128
    ensures length { result ≡ length (ended (port_line components.now number port.now)) }
    ensures short { result ≤ 1000000000000000000000 }
{
    let fields = number_length(number as u64) + type_name(port.kind).len() as u128;
    let component = component_name_length(components, port.component);
    let names = component + name_length(port.name.as_str());
    b"port ".len() as u128 + fields + names + 4
}

// How many digits a number has.
fn number_length(number: u64) -> u128
    ensures length { result ≡ length (decimal number) }
    ensures short { result ≤ 20 }
{
    Buffer::new().format(number).len() as u128
}

// How many bytes a name has where it is escaped.
fn name_length(name: &str) -> u128
    ensures length { result ≡ length (escaped name.now) }
    ensures short { result ≤ 3 * length name.now }
{
    let mut length: u128 = 0;
    for byte in name.as_bytes() {
        length += escaped_byte(*byte).as_slice().len() as u128;
    }
    length
}

// The same for a name in parts.
fn parts_length(name: &PartedText) -> u128
    ensures length { result ≡ length (escaped name.now) }
    ensures short { result ≤ 3 * 2 ^ 64 }
{
    let mut length: u128 = 0;
    let mut parts = name.parts();
    while let Some(part) = parts.next() {
        length += name_length(part);
    }
    length
}

// The same for a component's full name; 0 where there is no such component.
fn component_name_length(components: &[Component], id: CompId) -> u128
    ensures length { result ≡ length (escaped (component_name components.now id.0)) }
    ensures short { result ≤ 3 * 2 ^ 64 }
{
    match components.get(id.0 as usize) {
        Some(component) => parts_length(&component.name),
        None => 0,
    }
}
