//! Values of sources that are lost on their way to inputs.
ghost use Rattle.std.specs.Prelude.{◌≡◌, ◌<◌, ◌^◌, All, length};
ghost use Rattle.std.specs.Option.{option_map};
ghost use Rattle.system_model.specs.Ports.{feed_of};
ghost use Rattle.system_model.specs.Sound.{IsSound};
ghost use Rattle.run_model.specs.Equations.{is_bad, is_lost, source_value};
ghost use Rattle.run_model.specs.Initial.{is_bad_initially};
ghost use Rattle.run_model.specs.Machines.{AreFitting};
ghost use Rattle.event_iteration.specs.Initialization.{IsPlaced};
ghost use Rattle.event_iteration.specs.Instants.{HasPlacedClocks};
ghost use Rattle.event_iteration.specs.Lost.{FindsLost, IsLostAt};
ghost use Rattle.event_iteration.specs.Participants.{AreParticipants};

use crate::Participants;
use crate::initialization::{fed, is_set_from};
use crate::instants::is_present;
use port_values::PortValues;
use sim_base::PortId;
use system_model::{Feed, Port, Role, System};
use value_types::PortType;

/// A connected input that takes nothing though its source has a value, which is lost on the way to it: a transformation makes
/// none of it, or none that 64 bits or the type of the input hold.
#[derive(Clone, Copy, Debug, PartialEq, Eq)]
pub struct LostValue {
    pub port: PortId,
    /// that of the source; a Boolean is 0 or 1
    pub value: i128,
}

// Whether the source of an input of a type has a value that is lost on the way.
fn is_lost(kind: PortType, feed: &Feed, values: &PortValues) -> bool
    requires { feed.now.from.0 < length values.now }
    ensures { result ≡ is_lost kind feed.now values.now }
{
    values.at(feed.from.0 as usize).is_some() && fed(kind, feed, values).is_none()
}

// Whether a port is such an input in an instant with these values.
fn is_bad(port: &Port, values: &PortValues) -> bool
    requires placed { IsPlaced (length values.now) port.now }
    requires clocks { HasPlacedClocks (length values.now) port.now }
    ensures { result ≡ is_bad values.now port.now }
{
    match &port.role {
        Role::Input { feed: Some(feed) } => {
            is_present(port, values) && is_lost(port.kind, feed, values)
        }
        Role::Input { feed: None }
        | Role::Output
        | Role::ClockInput { .. }
        | Role::ClockOutput
        | Role::TimeClock { .. } => false,
    }
}

// Whether a port is such an input in Initialization Mode with these values.
fn is_bad_initially(system: &System, port: &Port, values: &PortValues) -> bool
    requires placed { IsPlaced (length system.now.ports) port.now }
    requires values { length values.now ≡ length system.now.ports }
    ensures { result ≡ is_bad_initially system.now values.now port.now }
{
    match &port.role {
        Role::Input { feed: Some(feed) } => {
            is_set_from(system.ports.as_slice(), port, feed) && is_lost(port.kind, feed, values)
        }
        Role::Input { feed: None }
        | Role::Output
        | Role::ClockInput { .. }
        | Role::ClockOutput
        | Role::TimeClock { .. } => false,
    }
}

// The value of the source of a port, if it is a connected input.
fn value_before(port: &Port, values: &PortValues) -> Option<i128>
    requires { IsPlaced (length values.now) port.now }
    ensures { (feed : Feed) → feed_of port.now.role ≡ Some feed →
        result ≡ source_value feed values.now }
{
    match &port.role {
        Role::Input { feed: Some(feed) } | Role::ClockInput { feed: Some(feed) } => {
            values.at(feed.from.0 as usize)
        }
        Role::Input { feed: None }
        | Role::Output
        | Role::ClockInput { feed: None }
        | Role::ClockOutput
        | Role::TimeClock { .. } => None,
    }
}

/// The least port that is a connected input of an instant whose source's value is lost on the way to it. Of the ports it looks at
/// the inputs whose path makes a change of values.
pub fn lost_in_instant(
    system: &System,
    participants: &Participants,
    values: &PortValues,
) -> Option<LostValue>
    requires sound { IsSound system.now }
    requires participants { AreParticipants system.now participants.now }
    requires values { length values.now ≡ length system.now.ports }
    requires fitting { AreFitting system.now values.now }
    ensures { FindsLost (is_bad values.now) system.now.ports values.now result }
{
    let ports = system.ports.as_slice();
    let mut p = participants.changed_inputs.from(0);
    while p < ports.len() {
        if is_bad(&ports[p], values) {
            return lost_at(ports, p, values);
        }
        p = participants.changed_inputs.from(p + 1);
    }
    None
}

/// The least port that is a connected input of Initialization Mode whose source's value is lost on the way to it.
pub fn lost_initially(system: &System, values: &PortValues) -> Option<LostValue>
    requires sound { IsSound system.now }
    requires values { length values.now ≡ length system.now.ports }
    ensures { FindsLost (is_bad_initially system.now values.now) system.now.ports values.now
        result }
{
    let ports = system.ports.as_slice();
    for p in 0..ports.len() {
        if is_bad_initially(system, &ports[p], values) {
            return lost_at(ports, p, values);
        }
    }
    None
}

// What is lost on the way to a port.
fn lost_at(ports: &[Port], p: usize, values: &PortValues) -> Option<LostValue>
    requires few { length ports.now < 2 ^ 32 }
    requires port { p < length ports.now }
    requires placed { All (IsPlaced (length ports.now)) ports.now }
    requires values { length values.now ≡ length ports.now }
    ensures { IsLostAt ports.now p values.now result }
{
    lost_value(p, value_before(&ports[p], values))
}

// What is lost at a port of this number by the value before it, if there is one.
fn lost_value(p: usize, value: Option<i128>) -> Option<LostValue>
    requires { p < 2 ^ 32 }
    ensures { result ≡ option_map (λ x. record { port = record { 0 = p }; value = x }) value }
{
    match value {
        Some(value) => Some(LostValue {
            port: PortId(p as u32),
            value,
        }),
        None => None,
    }
}
