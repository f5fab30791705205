ghost use Rattle.std.specs.Prelude.{◌≡◌, ◌&&◌, ℕ, ◌<◌, IfOk, OnOk, All, Some, false, is_some, length, not, slice_index_or};
ghost use Rattle.std.specs.List.{slice_get};
ghost use Rattle.sim_base.specs.declared.numbers.PortId.{PortId};
ghost use Rattle.system_model.specs.Ports.{port_numbers};
ghost use Rattle.system_model.specs.Sound.{IsSound};
ghost use Rattle.event_iteration.specs.Intervals.{is_time_clock};
ghost use Rattle.event_iteration.specs.Participants.{AreAtTicks, AreMarks, AreParticipants, AreSkips, AreUnfedAwaited, Awaits, LacksAt, is_changed_input, is_fed_input, is_set_before_step, is_steady, is_unfed, waits_for_ticks};
ghost use Rattle.event_iteration.specs.Settings.{port_order};

use crate::Skips;
use crate::intervals::is_time_clock;
use crate::turn::has_event_mode;
use dependency_order::Lists;
use port_values::PortValues;
use sim_base::PortId;
use std::alloc::{AllocError, Global};
use system_model::{Port, Role, System};
use tick_schedule::Pending;

/// What takes part in the instants and steps of a run, so that none walks the other ports. An input that nothing feeds and that
/// is no Clock takes part in none.
#[derive(Debug, Drop)]
pub struct Participants {
    /// by place of the instants' order: those that take part in each instant
    pub steady: Skips,
    /// for each port, where it is a Clock, the places of those that take part where it ticks
    pub at_ticks: Lists,
    /// by port: the time-based Clocks
    pub time_clocks: Skips,
    /// by port: the connected inputs of FMUs without event mode
    pub set_before_steps: Skips,
    /// by port: the inputs that are no Clocks and whose path from their source makes a change of values
    pub changed_inputs: Skips,
}

impl Participants {
    /// Those of a system.
    pub fn of(alloc: Global, system: &System) -> Result<Participants, AllocError>
        requires { IsSound system.now }
        ensures { IfOk result (AreParticipants system.now) }
    {
        Ok(Participants {
            steady: steady_places(alloc, system)?,
            at_ticks: places_at_ticks(alloc, system)?,
            time_clocks: time_clocks(alloc, system)?,
            set_before_steps: set_before_steps(alloc, system)?,
            changed_inputs: changed_inputs(alloc, system)?,
        })
    }
}

/// Where an input that nothing feeds has a value, as a run may be resumed with one, its place is still to be taken: its turn
/// takes the value away.
pub fn await_unfed(system: &System, values: &PortValues, pending: &mut Pending)
    requires sound { IsSound system.now }
    requires places { length pending.old ≡ length system.now.instant_order }
    ensures places { length pending.new ≡ length pending.old }
    ensures awaited { AreUnfedAwaited system.now values.now pending.new }
{
    let order = system.instant_order.as_slice();
    let ports = system.ports.as_slice();
    for k in 0..order.len() {
        let p = order[k].0 as usize;
        if is_unfed_with(&ports[p].role, values.at(p)) {
            pending.add(k);
        }
    }
}

// The places of the instants' order whose ports take part in each instant.
fn steady_places(alloc: Global, system: &System) -> Result<Skips, AllocError>
    requires { IsSound system.now }
    ensures { IfOk result (λ skips. AreSkips (length system.now.instant_order)
        (LacksAt system.now (port_numbers system.now.instant_order) is_steady) skips.next.items) }
{
    let mut keeps = vec![in alloc; false; system.instant_order.len()]?;
    mark_places(system, &mut keeps);
    Skips::of(alloc, keeps.as_slice())
}

// Marks the places of the instants' order whose ports take part in each instant.
fn mark_places(system: &System, keeps: &mut [bool])
    requires sound { IsSound system.now }
    requires places { length keeps.old ≡ length system.now.instant_order }
    ensures places { length keeps.new ≡ length keeps.old }
    ensures marks { AreMarks system.now (port_numbers system.now.instant_order) is_steady keeps.new }
{
    let order = system.instant_order.as_slice();
    let ports = system.ports.as_slice();
    for k in 0..order.len() {
        let p = order[k].0 as usize;
        keeps[k] = is_steady(&ports[p]);
    }
}

// The time-based Clocks.
fn time_clocks(alloc: Global, system: &System) -> Result<Skips, AllocError>
    ensures { IfOk result (λ skips. AreSkips (length system.now.ports)
        (LacksAt system.now (port_order system.now) (λ (port : Port). is_time_clock port.role))
        skips.next.items) }
{
    let ports = system.ports.as_slice();
    let mut keeps = vec![in alloc; false; ports.len()]?;
    mark_time_clocks(ports, &mut keeps);
    Skips::of(alloc, keeps.as_slice())
}

// The connected inputs of FMUs without event mode.
fn set_before_steps(alloc: Global, system: &System) -> Result<Skips, AllocError>
    requires { IsSound system.now }
    ensures { IfOk result (λ skips. AreSkips (length system.now.ports)
        (LacksAt system.now (port_order system.now) (is_set_before_step system.now))
        skips.next.items) }
{
    let mut keeps = vec![in alloc; false; system.ports.len()]?;
    mark_inputs(system, &mut keeps);
    Skips::of(alloc, keeps.as_slice())
}

// The inputs whose path makes a change of values.
fn changed_inputs(alloc: Global, system: &System) -> Result<Skips, AllocError>
    ensures { IfOk result (λ skips. AreSkips (length system.now.ports)
        (LacksAt system.now (port_order system.now)
        (λ (port : Port). is_changed_input port.role)) skips.next.items) }
{
    let ports = system.ports.as_slice();
    let mut keeps = vec![in alloc; false; ports.len()]?;
    mark_changed_inputs(ports, &mut keeps);
    Skips::of(alloc, keeps.as_slice())
}

// Marks the time-based Clocks.
fn mark_time_clocks(ports: &[Port], keeps: &mut [bool])
    requires { length keeps.old ≡ length ports.now }
    ensures places { length keeps.new ≡ length keeps.old }
    ensures marks { (p : ℕ) (port : Port) → slice_get ports.now p ≡ Some port →
        slice_index_or keeps.new p false ≡ is_time_clock port.role }
{
    for p in 0..ports.len() {
        keeps[p] = is_time_clock(&ports[p].role);
    }
}

// Marks the inputs whose path makes a change of values.
fn mark_changed_inputs(ports: &[Port], keeps: &mut [bool])
    requires { length keeps.old ≡ length ports.now }
    ensures places { length keeps.new ≡ length keeps.old }
    ensures marks { (p : ℕ) (port : Port) → slice_get ports.now p ≡ Some port →
        slice_index_or keeps.new p false ≡ is_changed_input port.role }
{
    for p in 0..ports.len() {
        keeps[p] = is_changed_input(&ports[p].role);
    }
}

// Marks the connected inputs of FMUs without event mode.
fn mark_inputs(system: &System, keeps: &mut [bool])
    requires sound { IsSound system.now }
    requires places { length keeps.old ≡ length system.now.ports }
    ensures places { length keeps.new ≡ length keeps.old }
    ensures marks { (p : ℕ) (port : Port) → slice_get system.now.ports p ≡ Some port →
        slice_index_or keeps.new p false ≡ is_set_before_step system.now port }
{
    let ports = system.ports.as_slice();
    for p in 0..ports.len() {
        let port = &ports[p];
        let has_event_mode = has_event_mode(system, port.component);
        keeps[p] = is_set_by(&port.role, has_event_mode);
    }
}

// For each Clock the places of the ports that take part where it ticks.
fn places_at_ticks(alloc: Global, system: &System) -> Result<Lists, AllocError>
    requires { IsSound system.now }
    ensures { IfOk result (AreAtTicks system.now) }
{
    let order = system.instant_order.as_slice();
    let ports = system.ports.as_slice();
    let mut lists = Lists::new(alloc, ports.len())?;
    for k in 0..order.len() {
        let p = order[k].0 as usize;
        let port = &ports[p];
        if waits_for_ticks(port) {
            await_clocks(&mut lists, port.clocks.as_slice(), k)?;
        }
    }
    Ok(lists)
}

// The place waits for each of these Clocks.
fn await_clocks(lists: &mut Lists, clocks: &[PortId], k: usize) -> Result<(), AllocError>
    requires { All (λ (c : PortId). c.0 < length lists.old) clocks.now }
    ensures { OnOk result (Awaits clocks.now k lists.old lists.new) }
{
    for clock in clocks {
        lists.push(clock.0 as usize, k)?;
    }
    Ok(())
}

// Whether a port takes part in each instant: each Clock does, and what has no Clocks but an input that nothing feeds.
fn is_steady(port: &Port) -> bool
    ensures { result ≡ is_steady port.now }
{
    match &port.role {
        Role::ClockInput { .. } | Role::ClockOutput | Role::TimeClock { .. } => true,
        Role::Input { feed: Some(_) } | Role::Output => port.clocks.len() == 0,
        Role::Input { feed: None } => false,
    }
}

// Whether a port takes part where a Clock of it ticks.
fn waits_for_ticks(port: &Port) -> bool
    ensures { result ≡ waits_for_ticks port.now }
{
    match &port.role {
        Role::Input { feed: Some(_) } | Role::Output => port.clocks.len() > 0,
        Role::Input { feed: None }
        | Role::ClockInput { .. }
        | Role::ClockOutput
        | Role::TimeClock { .. } => false,
    }
}

// Whether a port is set before a step, of an FMU with or without event mode.
fn is_set_by(role: &Role, has_event_mode: bool) -> bool
    ensures { result ≡ (is_fed_input role.now && not has_event_mode) }
{
    is_fed_input(role) && !has_event_mode
}

// Whether a port is an input that nothing feeds and no Clock, with a value.
fn is_unfed_with(role: &Role, value: Option<i128>) -> bool
    ensures { result ≡ (is_unfed role.now && is_some value) }
{
    is_unfed(role) && value.is_some()
}

// Whether a port is an input that nothing feeds and no Clock.
fn is_unfed(role: &Role) -> bool
    ensures { result ≡ is_unfed role.now }
{
    match role {
        Role::Input { feed: None } => true,
        Role::Input { feed: Some(_) }
        | Role::Output
        | Role::ClockInput { .. }
        | Role::ClockOutput
        | Role::TimeClock { .. } => false,
    }
}

// Whether a port is an input, and no Clock, whose path makes a change of values.
fn is_changed_input(role: &Role) -> bool
    ensures { result ≡ is_changed_input role.now }
{
    match role {
        Role::Input { feed: Some(feed) } => feed.changes.len() > 0,
        Role::Input { feed: None }
        | Role::Output
        | Role::ClockInput { .. }
        | Role::ClockOutput
        | Role::TimeClock { .. } => false,
    }
}

// Whether a port is an input that is fed and no Clock.
fn is_fed_input(role: &Role) -> bool
    ensures { result ≡ is_fed_input role.now }
{
    match role {
        Role::Input { feed: Some(_) } => true,
        Role::Input { feed: None }
        | Role::Output
        | Role::ClockInput { .. }
        | Role::ClockOutput
        | Role::TimeClock { .. } => false,
    }
}
