//! What a port depends on, by the description of its component.
ghost use Rattle.std.specs.Prelude.{◌≡◌, Some, option_copied};
ghost use Rattle.std.specs.Option.{option_map};
ghost use Rattle.value_types.specs.declared.shape.Dependency.{Dependency};
ghost use Rattle.port_orders.specs.Gathered.{group_in, is_input_in, knowns_in, knowns_of, place_in};

use crate::roles::{has_part, is_output};
use system_model::{Component, Port};
use value_types::{Dependency, Knowns, Shape};

/// The place of the variable with a reference in the description of the port's component.
pub(crate) fn place_in(components: &[Component], port: &Port, reference: u32) -> Option<usize>
    ensures { result ≡ place_in components.now port.now reference }
{
    match components.get(port.component.0 as usize) {
        Some(component) => component.shape.variables.place_of(reference),
        None => None,
    }
}

/// Whether its variable is an input that isn't ignored.
pub(crate) fn is_input_in(components: &[Component], port: &Port) -> bool
    ensures { result ≡ is_input_in components.now port.now }
{
    match components.get(port.component.0 as usize) {
        Some(component) => match component.shape.variables.find(port.reference) {
            Some(variable) => variable.is_input_port(),
            None => false,
        },
        None => false,
    }
}

fn knowns(dependency: Option<&Dependency>) -> Option<&Knowns>
    ensures { option_copied result ≡ option_map (λ (d : Dependency). d.on)
        (option_copied dependency.entry) }
{
    match dependency {
        Some(dependency) => Some(&dependency.on),
        None => None,
    }
}

fn knowns_of(shape: &Shape, initializing: bool, reference: u32) -> Option<&Knowns>
    ensures { option_copied result ≡ knowns_of shape.now initializing reference }
{
    if initializing {
        knowns(shape.initial_dependencies.find(reference))
    } else if shape.has_event_mode {
        knowns(shape.dependencies.find(reference))
    } else {
        None
    }
}

/// What the port depends on, where it is an output that takes part.
pub(crate) fn knowns_in<'a>(
    components: &'a [Component],
    initializing: bool,
    port: &Port,
) -> Option<&'a Knowns>
    ensures { option_copied result ≡ knowns_in components.now initializing port.now }
{
    if has_part(port, initializing) && is_output(&port.role) {
        match components.get(port.component.0 as usize) {
            Some(component) => knowns_of(&component.shape, initializing, port.reference),
            None => None,
        }
    } else {
        None
    }
}

/// The group of all inputs of its component, where the port depends on all.
pub(crate) fn group_in(components: &[Component], initializing: bool, port: &Port) -> Option<usize>
    ensures { result ≡ group_in components.now initializing port.now }
{
    match knowns_in(components, initializing, port) {
        Some(Knowns::AllInputs) => Some(port.component.0 as usize),
        Some(Knowns::Listed(_)) => None,
        None => None,
    }
}
