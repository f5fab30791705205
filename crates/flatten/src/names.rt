//! The variables that connectors name.
ghost use Rattle.std.specs.Prelude.{◌≡◌, ℕ, List, Option, IfOk, bytes_eq};
ghost use Rattle.std.specs.List.{position};
ghost use Rattle.ssd_tree.specs.declared.tree.Connector.{Connector};
ghost use Rattle.doc_tables.specs.Places.{found_in, scoped};
ghost use Rattle.doc_tables.specs.Tables.{IsTable};
ghost use Rattle.flatten.specs.Indexed.{AreNames, LeadTo, place_if, place_in, wanted_at, wanted_by, with_places};
ghost use Rattle.flatten.specs.Points.{has_name};

use doc_tables::ScopedPlaces;
use ssd_tree::{Connector, Owner};
use std::alloc::{AllocError, Global};
use value_types::{Shape, Variable};

/// The variables that the connectors of components name, aliases included.
#[derive(Drop)]
pub(crate) struct VariableNames<'a> {
    /// for each component and name the first connector that gives them
    wanted: ScopedPlaces<'a>,
    /// for each such connector the place of the variable in the description
    places: Vec<Option<usize>>,
}

// The component and the name that a connector gives; that of a System gives none.
fn wanted_by(connector: &Connector) -> Option<(usize, &str)>
    ensures { scoped result ≡ wanted_by connector.now.owner connector.now.name }
{
    match connector.owner {
        Owner::System(_) => None,
        Owner::Component(component) => Some((component, connector.name.as_str())),
    }
}

// For each component and name the first connector that gives them.
fn wanted_places(alloc: Global, connectors: &[Connector]) -> Result<ScopedPlaces<'_>, AllocError>
    ensures { IfOk result (λ wanted. IsTable (wanted_at connectors.now) (found_in wanted)) }
{
    let mut wanted = ScopedPlaces::new(alloc);
    for number in 0..connectors.len() {
        wanted.put(wanted_by(&connectors[number]), number)?;
    }
    Ok(wanted)
}

impl<'a> VariableNames<'a> {
    /// The names of all connectors, where each shape is a component's.
    pub(crate) fn new(
        alloc: Global,
        connectors: &'a [Connector],
        shapes: &'a [Shape],
    ) -> Result<VariableNames<'a>, AllocError>
        ensures { IfOk result (AreNames connectors.now shapes.now) }
    {
        let mut names = VariableNames {
            wanted: wanted_places(alloc, connectors)?,
            places: vec![in alloc; None; connectors.len()]?,
        };
        for component in 0..shapes.len() {
            names.note_component(component, shapes[component].variables.as_slice());
        }
        Ok(names)
    }

    fn note_component(&mut self, component: usize, variables: &'a [Variable])
        ensures { (connectors : List Connector) (places : ℕ → List ℕ → Option ℕ) →
            LeadTo connectors places self.old →
            LeadTo connectors (with_places places component
            (λ name. position (has_name name) variables.now)) self.new }
    {
        for place in 0..variables.len() {
            self.note_variable(component, place, &variables[place]);
        }
    }

    fn note_variable(&mut self, component: usize, place: usize, variable: &'a Variable)
        ensures { (connectors : List Connector) (places : ℕ → List ℕ → Option ℕ) →
            LeadTo connectors places self.old →
            LeadTo connectors (with_places places component
            (λ name. place_if (has_name name variable.now) place)) self.new }
    {
        self.note(component, variable.name.as_str(), place);
        for alias in variable.aliases.as_slice() {
            self.note(component, alias.as_str(), place);
        }
    }

    // Notes the place of the next name, where a connector gives it and it has none yet.
    fn note(&mut self, component: usize, name: &'a str, place: usize)
        ensures { (connectors : List Connector) (places : ℕ → List ℕ → Option ℕ) →
            LeadTo connectors places self.old →
            LeadTo connectors (with_places places component
            (λ other. place_if (bytes_eq name.now other) place)) self.new }
    {
        if let Some(connector) = self.wanted.find(component, name) {
            if connector < self.places.len() && self.places[connector].is_none() {
                self.places[connector] = Some(place);
            }
        }
    }

    /// The place of the first variable of a component with the name, where a connector gives it.
    pub(crate) fn find(&self, component: usize, name: &'a str) -> Option<usize>
        ensures { result ≡ place_in self.now component name.now }
    {
        match self.wanted.find(component, name) {
            Some(connector) => self.places.get(connector).copied().flatten(),
            None => None,
        }
    }
}
