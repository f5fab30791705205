ghost use Rattle.std.specs.Prelude.{◌≡◌, ◌≤◌, ◌<◌, ◌↔◌, ℕ, None, Contains, IfNone, IfSome, IsTrue, length};
ghost use Rattle.std.specs.List.{list_any};
ghost use Rattle.sim_base.specs.declared.numbers.PortId.{PortId};
ghost use Rattle.system_model.specs.Carried.{comes_to, fed};
ghost use Rattle.system_model.specs.Ports.{is_clock_role, source_of};
ghost use Rattle.trace_check.specs.Instants.{lines_to};
ghost use Rattle.system_model.specs.Values.{value, is_active, is_present};
ghost use Rattle.trace_reading.specs.Form.{told_values_from};
ghost use Rattle.trace_check.specs.Inputs.{HoldInputs};
ghost use Rattle.trace_check.specs.Steps.{IsOtherValue};
ghost use Rattle.trace_check.specs.Values.{DiffersFromSource};

use crate::inputs::FedInputs;
use sim_base::PortId;
use system_model::{Feed, Port, Role, System, carried};
use trace_reading::TraceLine;
use value_types::PortType;

/// The value of a port, or none.
pub(crate) fn value(values: &[Option<i128>], p: usize) -> Option<i128>
    ensures { result ≡ value values.now p }
{
    match values.get(p) {
        Some(value) => *value,
        None => None,
    }
}

/// Whether a Clock with this value is active.
pub(crate) fn is_active(value: Option<i128>) -> bool
    ensures { result ≡ is_active value }
{
    match value {
        Some(value) => value == 1,
        None => false,
    }
}

pub(crate) fn is_clock(role: &Role) -> bool
    ensures { result ≡ is_clock_role role.now }
{
    match role {
        Role::Input { .. } | Role::Output => false,
        Role::ClockInput { .. } | Role::ClockOutput | Role::TimeClock { .. } => true,
    }
}

// What comes to an input of a type from its source, along its path.
fn fed(kind: PortType, feed: &Feed, values: &[Option<i128>]) -> Option<i128>
    ensures { result ≡ fed kind feed.now values.now }
{
    match value(values, feed.from.0 as usize) {
        Some(value) => carried(feed.changes.as_slice(), kind, value),
        None => None,
    }
}

// What comes to a port that is fed.
fn comes_to(port: &Port, values: &[Option<i128>]) -> Option<Option<i128>>
    ensures { result ≡ comes_to port.now.role port.now.kind values.now }
{
    match &port.role {
        Role::Input { feed: Some(feed) } => Some(fed(port.kind, feed, values)),
        Role::ClockInput { feed: Some(feed) } => Some(value(values, feed.from.0 as usize)),
        Role::Input { feed: None }
        | Role::ClockInput { feed: None }
        | Role::Output
        | Role::ClockOutput
        | Role::TimeClock { .. } => None,
    }
}

/// The port that feeds a port of this role.
pub(crate) fn source_of(role: &Role) -> Option<usize>
    ensures { result ≡ source_of role.now }
{
    match role {
        Role::Input { feed: Some(feed) } | Role::ClockInput { feed: Some(feed) } => {
            Some(feed.from.0 as usize)
        }
        Role::Input { feed: None }
        | Role::ClockInput { feed: None }
        | Role::Output
        | Role::ClockOutput
        | Role::TimeClock { .. } => None,
    }
}

// Whether a port is present in an instant with these values.
fn is_present(port: &Port, values: &[Option<i128>]) -> bool
    ensures { result ≡ is_present port.now values.now }
{
    is_clock(&port.role) || port.clocks.len() == 0 || some_active(port.clocks.as_slice(), values)
}

fn some_active(clocks: &[PortId], values: &[Option<i128>]) -> bool
    ensures { result ≡ list_any (λ (c : PortId). is_active (value values.now c.0)) clocks.now }
{
    clocks
        .iter()
        .any(|clock| is_active(value(values, clock.0 as usize)))
}

// Whether a port is an input that is present and hasn't what comes to it from its source.
fn differs(system: &System, values: &[Option<i128>], p: usize) -> bool
    ensures { IsTrue result ↔ DiffersFromSource system.now values.now p }
{
    let Some(port) = system.ports.get(p) else {
        return false;
    };
    match comes_to(port, values) {
        Some(comes) => is_present(port, values) && value(values, p) != comes,
        None => false,
    }
}

/// An input that is present and has no value, where one comes to it from its source. These lines tell the values. Of the inputs with
/// Clocks it looks at those of which a Clock is active.
pub(crate) fn first_without_value(
    system: &System,
    inputs: &FedInputs,
    told: &[TraceLine],
    values: &[Option<i128>],
) -> Option<usize>
    requires inputs { HoldInputs system.now.ports (length system.now.ports) inputs.now.steady.items
        inputs.now.at_ticks }
    requires told { told.now ≡ told_values_from 0 values.now }
    requires size { length values.now ≡ length system.now.ports }
    ensures found { IfSome result (λ p. DiffersFromSource system.now values.now p ×
        (value values.now p ≡ None)) }
    ensures none { IfNone result ((p : ℕ) → DiffersFromSource system.now values.now p →
        value values.now p ≡ None → ⊥) }
{
    if let Some(p) = first_lacking(system, inputs.steady.as_slice(), values) {
        return Some(p);
    }
    for line in told {
        if let Some(p) = first_lacking(system, inputs.at_tick(line), values) {
            return Some(p);
        }
    }
    None
}

// Of these ports the first input that is present and has no value, where one comes to it from its source.
fn first_lacking(system: &System, ports: &[usize], values: &[Option<i128>]) -> Option<usize>
    ensures found { IfSome result (λ p. DiffersFromSource system.now values.now p ×
        (value values.now p ≡ None)) }
    ensures none { IfNone result ((p : ℕ) → Contains ports.now p →
        DiffersFromSource system.now values.now p → value values.now p ≡ None → ⊥) }
{
    for p in ports {
        if value(values, *p).is_none() && differs(system, values, *p) {
            return Some(*p);
        }
    }
    None
}

/// Of the inputs that have a value, are present and haven't what comes to them from their source the first: how many lines its
/// line stands after the `at` line. These lines tell the values.
pub(crate) fn first_other_value(
    system: &System,
    told: &[TraceLine],
    values: &[Option<i128>],
) -> Option<u64>
    requires told { told.now ≡ told_values_from 0 values.now }
    ensures found { IfSome result (IsOtherValue system.now values.now) }
    ensures first { IfSome result (λ lines. (p : ℕ) → DiffersFromSource system.now values.now p →
        0 < lines_to values.now p → lines ≤ lines_to values.now p) }
    ensures none { IfNone result ((p : ℕ) → DiffersFromSource system.now values.now p →
        lines_to values.now p ≡ 0) }
{
    for (k, line) in told.iter().enumerate() {
        if let TraceLine::Value { port, .. } = line {
            if differs(system, values, *port as usize) {
                return Some(k as u64 + 1);
            }
        }
    }
    None
}
