ghost use Rattle.std.specs.Prelude.{◌≡◌, ◌<◌, IfOk, IfSome, ℕ, Bool, All, false, length, replicate, slice_index_or};
ghost use Rattle.std.specs.Option.{option_map};
ghost use Rattle.system_model.specs.Sound.{IsSound};
ghost use Rattle.run_model.specs.Initial as I;
ghost use Rattle.event_iteration.specs.Initialization.{AreReads, IsPlaced, read_by};

use crate::initialization::is_set_from;
use sim_base::PortId;
use std::alloc::{AllocError, Global};
use std::marker::Model;
use system_model::{Port, Role, System};

/// For each port of a system, whether it is an output that Initialization Mode reads: one that feeds an input, both
/// without Clocks.
#[derive(Debug, Drop)]
pub struct InitialReads {
    flags: Vec<bool>,
}

impl Model for InitialReads {
    ghost use Rattle.std.specs.Prelude.{List, Bool};

    ghost Value = { List Bool };

    ghost view = { λ r. r.flags.items };
}

impl InitialReads {
    /// The outputs of a system that are read.
    pub fn of(alloc: Global, system: &System) -> Result<InitialReads, AllocError>
        requires { IsSound system.now }
        ensures { IfOk result (AreReads system.now) }
    {
        let ports = system.ports.as_slice();
        let mut flags = vec![in alloc; false; ports.len()]?;
        mark_reads(ports, &mut flags);
        Ok(InitialReads { flags })
    }

    /// A flag for each port.
    pub fn as_slice(&self) -> &[bool]
        ensures { result.now ≡ self.now }
    {
        self.flags.as_slice()
    }
}

// Marks the outputs that are read.
fn mark_reads(ports: &[Port], flags: &mut [bool])
    requires placed { All (IsPlaced (length ports.now)) ports.now }
    requires none { flags.old ≡ replicate (length ports.now) false }
    ensures { (p : ℕ) (d : Bool) → p < length ports.now →
        slice_index_or flags.new p d ≡ I.is_read ports.now p }
{
    for port in ports {
        if let Some(source) = read_by(ports, port) {
            flags[source.0 as usize] = true;
        }
    }
}

// The output that is read for a port.
fn read_by(ports: &[Port], port: &Port) -> Option<PortId>
    requires { IsPlaced (length ports.now) port.now }
    ensures source { option_map (λ q. q.0) result ≡ read_by ports.now port.now.role port.now }
    ensures within { IfSome result (λ q. q.0 < length ports.now) }
{
    match &port.role {
        Role::Input { feed: Some(feed) } => {
            if is_set_from(ports, port, feed) {
                Some(feed.from)
            } else {
                None
            }
        }
        Role::Input { feed: None }
        | Role::Output
        | Role::ClockInput { .. }
        | Role::ClockOutput
        | Role::TimeClock { .. } => None,
    }
}
