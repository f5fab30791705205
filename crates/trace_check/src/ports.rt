ghost use Rattle.std.specs.Prelude.{◌≡◌, ◌≢◌, ◌↔◌, ◌<◌, ◌≤◌, ℕ, Some, IfNone, IfSome, IsTrue, length, slice_get};
ghost use Rattle.std.specs.Option.{option_copied};
ghost use Rattle.system_model.specs.Text.{component_name};
ghost use Rattle.trace_reading.specs.Written.{port_told, ports_told};

use sim_base::CompId;
use system_model::{Component, Port, System};
use trace_reading::TracePort;

/// The number of the first port line that doesn't tell the system's port, or that is one too many or missing.
pub(crate) fn first_strange_port(system: &System, told: &[TracePort]) -> Option<usize>
    ensures strange { IfSome result (λ k. slice_get told.now k ≢ slice_get
        (ports_told system.now) k) }
    ensures first { IfSome result (λ k. (j : ℕ) → j < k →
        slice_get told.now j ≡ slice_get (ports_told system.now) j) }
    ensures within { IfSome result (λ k. k ≤ length told.now) }
    ensures none { IfNone result ((k : ℕ) → slice_get told.now k ≡
        slice_get (ports_told system.now) k) }
{
    let ports = system.ports.as_slice();
    for (k, port) in ports.iter().enumerate() {
        if !is_told(system.components.as_slice(), port, told.get(k)) {
            return Some(k);
        }
    }
    if told.len() > ports.len() {
        Some(ports.len())
    } else {
        None
    }
}

// Whether this is what a trace tells of a port.
fn is_told(components: &[Component], port: &Port, told: Option<&TracePort>) -> bool
    ensures { IsTrue result ↔ (option_copied told.entry ≡ Some
        (port_told components.now port.now)) }
{
    match told {
        Some(told) => is_port(components, port, told),
        None => false,
    }
}

fn is_port(components: &[Component], port: &Port, told: &TracePort) -> bool
    ensures { IsTrue result ↔ (told.now ≡ port_told components.now port.now) }
{
    told.kind == port.kind
        && is_component_name(told.component.as_slice(), components, port.component)
        && told.variable.as_slice() == port.name.as_str().as_bytes()
}

// Whether these bytes are a component's full name, which is empty where there is no such component.
fn is_component_name(bytes: &[u8], components: &[Component], id: CompId) -> bool
    ensures { IsTrue result ↔ (bytes.now ≡ component_name components.now id.0) }
{
    match components.get(id.0 as usize) {
        Some(component) => component.name.is(bytes),
        None => bytes.is_empty(),
    }
}
