//! What roles of ports tell.
ghost use Rattle.std.specs.Prelude.{◌≡◌, option_copied};
ghost use Rattle.std.specs.Option.{option_map};
ghost use Rattle.system_model.specs.Needs.{is_unclocked};
ghost use Rattle.system_model.specs.Ports.{is_clock_role, is_output_role, source_of};
ghost use Rattle.system_model.specs.declared.system.Feed.{Feed};
ghost use Rattle.port_orders.specs.Gathered.{has_part};

use system_model::{Feed, Port, Role};

fn place_from(feed: &Option<Feed>) -> Option<usize>
    ensures { result ≡ option_map (λ (f : Feed). f.from.0) feed.now }
{
    match feed {
        Some(feed) => Some(feed.from.0 as usize),
        None => None,
    }
}

/// The port that feeds a port of this role.
pub(crate) fn source_of(role: &Role) -> Option<usize>
    ensures { result ≡ source_of role.now }
{
    match role {
        Role::Input { feed } | Role::ClockInput { feed } => place_from(feed),
        Role::Output | Role::ClockOutput | Role::TimeClock { .. } => None,
    }
}

pub(crate) fn is_output(role: &Role) -> bool
    ensures { result ≡ is_output_role role.now }
{
    match role {
        Role::Output | Role::ClockOutput => true,
        Role::Input { .. } | Role::ClockInput { .. } | Role::TimeClock { .. } => false,
    }
}

fn is_clock(role: &Role) -> bool
    ensures { result ≡ is_clock_role role.now }
{
    match role {
        Role::Input { .. } | Role::Output => false,
        Role::ClockInput { .. } | Role::ClockOutput | Role::TimeClock { .. } => true,
    }
}

/// Whether a port takes part: in Initialization Mode those without Clocks do, in instants all.
pub(crate) fn has_part(port: &Port, initializing: bool) -> bool
    ensures { result ≡ has_part initializing port.now }
{
    if initializing {
        !is_clock(&port.role) && port.clocks.len() == 0
    } else {
        true
    }
}
