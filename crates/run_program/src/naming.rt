ghost use Rattle.std.specs.Prelude.{◌≡◌, ◌<◌, ◌≤◌, ◌+◌, All, IfOk, Some, length, map, slice_get};
ghost use Rattle.run_program.specs.declared.naming.PortName.{PortName};
ghost use Rattle.system_files.specs.Rooms.{room_for};

use crate::outcome::{End, Outcome, StartCause};
use crate::report::Report;
use sim_base::{CompId, PartedText, PortId, Text};
use std::alloc::Global;
use step_master::RunEnd;
use system_files::{NoMemory, make_room};
use system_model::{Component, Port, System};

/// A port by its component and its name there.
#[derive(Debug, Drop)]
pub(crate) struct PortName {
    pub component: CompId,
    pub name: Text,
}

/// The names of a system's components and ports, and room for each line that names one of them.
#[derive(Drop)]
pub(crate) struct Naming {
    pub names: Vec<PartedText>,
    pub ports: Vec<PortName>,
    text: Vec<u8>,
    ghost holds: { All (λ name. All (λ (port : PortName).
        room_for (length name + length port.name) ≤ length text.items) ports.items) names.items },
    ghost each: { All (λ name. room_for (length name) ≤ length text.items) names.items },
}

/// The names of a port and its component, and room for each line that names them.
struct NamedPort {
    component: PartedText,
    name: Text,
    text: Vec<u8>,
    ghost holds: { room_for (length component + length name) ≤ length text.items },
}

/// A component's name, and room for each line that names it.
struct Named {
    name: PartedText,
    text: Vec<u8>,
    ghost holds: { room_for (length name) ≤ length text.items },
}

impl Naming {
    ghost use Rattle.run_program.specs.Runs.{IsEndOf, NamesOne, NamesPort, named_in, names_of};
    ghost use Rattle.run_program.specs.declared.outcome.Outcome.TheVariants.{Ran, Start};
    ghost use Rattle.run_program.specs.Message.{end_room};

    /// The names of a system's components and ports.
    pub fn new(alloc: Global, system: &System) -> Result<Naming, NoMemory>
        ensures { IfOk result (λ naming. named_in naming ≡ names_of system.now) }
    {
        let (names, longest_name) = component_names(alloc, system.components.as_slice())?;
        let (ports, longest_port) = PortName::of_ports(alloc, system.ports.as_slice())?;
        let Some(longest) = longest_name.checked_add(longest_port) else {
            return Err(NoMemory);
        };
        let text = make_room(alloc, longest, 0)?;
        Ok(Naming { names, ports, text })
    }

    /// The report of a component whose peer wasn't started.
    pub fn report_start_fault(self, component: CompId, fault: StartCause) -> Report
        requires { component.0 < length self.names.items }
        ensures { (name : _) × (slice_get self.names.items component.0 ≡ Some name) ×
            (result.outcome ≡ Start name fault) }
    {
        let Named { name, text } = self.take(component);
        Report {
            outcome: Outcome::Start {
                component: name,
                fault,
            },
            text,
        }
    }

    /// The report of a run's end.
    pub fn report_end(self, end: RunEnd) -> Report
        requires { NamesOne (named_in self) end }
        ensures { (e : _) × (result.outcome ≡ Ran e) × IsEndOf (named_in self) end e }
    {
        match end {
            RunEnd::Stop => self.report_bare_end(End::Stop),
            RunEnd::Asked { .. } => self.report_bare_end(End::Asked),
            RunEnd::EventLimit { point } => self.report_bare_end(End::EventLimit { point }),
            RunEnd::FixedStep { component, at, end } => {
                let Named { name, text } = self.take(component);
                Report {
                    outcome: Outcome::Ran {
                        end: End::FixedStep {
                            component: name,
                            at,
                            end,
                        },
                    },
                    text,
                }
            }
            RunEnd::Range { lost, .. } => {
                let NamedPort {
                    component,
                    name,
                    text,
                } = self.take_port(lost.port);
                Report {
                    outcome: Outcome::Ran {
                        end: End::Range {
                            component,
                            variable: name,
                            value: lost.value,
                        },
                    },
                    text,
                }
            }
            RunEnd::Bad(bad) => {
                let Named { name, text } = self.take(bad.component);
                Report {
                    outcome: Outcome::Ran {
                        end: End::Bad {
                            component: name,
                            why: bad.why,
                        },
                    },
                    text,
                }
            }
            RunEnd::Held { point } => self.report_bare_end(End::Held { point }),
            RunEnd::WriteFault => self.report_bare_end(End::WriteFault),
        }
    }

    // The report of an end that names no component.
    fn report_bare_end(self, end: End) -> Report
        requires { end_room end ≡ 0 }
        ensures { result.outcome ≡ Ran end }
    {
        Report {
            outcome: Outcome::Ran { end },
            text: self.text,
        }
    }

    // The name of a component.
    fn take(self, component: CompId) -> Named
        requires { component.0 < length self.names.items }
        ensures { slice_get self.names.items component.0 ≡ Some result.name }
    {
        let Naming {
            mut names,
            text,
            ..
        } = self;
        let name = names.swap_remove(component.0 as usize);
        Named { name, text }
    }

    // The name of a port, and that of its component.
    fn take_port(self, port: PortId) -> NamedPort
        requires { NamesPort (named_in self) port.0 }
        ensures { (p : _) × (slice_get self.ports.items port.0 ≡ Some p) × (result.name ≡ p.name) ×
            (slice_get self.names.items p.component.0 ≡ Some result.component) }
    {
        let Naming {
            mut names,
            mut ports,
            text,
        } = self;
        let PortName { component, name } = ports.swap_remove(port.0 as usize);
        let component = names.swap_remove(component.0 as usize);
        NamedPort {
            component,
            name,
            text,
        }
    }
}

// The names of components, which share their parts, and the greatest of their lengths.
fn component_names(
    alloc: Global,
    components: &[Component],
) -> Result<(Vec<PartedText>, usize), NoMemory>
    ensures names { IfOk result (λ found. found.0.items ≡ map (λ c. c.name) components.now) }
    ensures longest { IfOk result (λ found. All (λ name. length name ≤ found.1) found.0.items) }
{
    let mut names = Vec::with_capacity(alloc, components.len())?;
    let mut longest = 0;
    for component in components {
        longest = longer(longest, component.name.len());
        names.push_reserved(component.name.copy(alloc)?);
    }
    Ok((names, longest))
}

impl PortName {
    ghost use Rattle.run_program.specs.Runs.{port_name};

    // The names of ports, and the greatest of their lengths.
    fn of_ports(alloc: Global, ports: &[Port]) -> Result<(Vec<PortName>, usize), NoMemory>
        ensures names { IfOk result (λ found. found.0.items ≡ map port_name ports.now) }
        ensures longest { IfOk result (λ found.
            All (λ (port : PortName). length port.name ≤ found.1) found.0.items) }
    {
        let mut names = Vec::with_capacity(alloc, ports.len())?;
        let mut longest = 0;
        for port in ports {
            longest = longer(longest, port.name.as_str().len());
            names.push_reserved(PortName {
                component: port.component,
                name: port.name.copy(alloc)?,
            });
        }
        Ok((names, longest))
    }
}

// The greater of two lengths.
fn longer(a: usize, b: usize) -> usize
    ensures first { a ≤ result }
    ensures second { b ≤ result }
{
    if a < b { b } else { a }
}
