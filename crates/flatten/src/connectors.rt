//! A tree of systems with the variables of its components, and what its connectors stand for.
ghost use Rattle.std.specs.Prelude.{◌≡◌, ◌↔◌, ◌<◌, ◌^◌, List, IfOk, IsTrue, length, map, option_copied};
ghost use Rattle.value_types.specs.declared.shape.Shape.{Shape};
ghost use Rattle.flatten.specs.Given.{AreShapesOf, IsWholeTree};
ghost use Rattle.flatten.specs.Indexed.{AreNumbered, AreVariables, IsIndexed, IsPlaceIn, ends_of, number_for, place_by};
ghost use Rattle.flatten.specs.Paths.{plain, turned};
ghost use Rattle.flatten.specs.Points.{IsOfSystem, Itself, variable_of};

use crate::names::VariableNames;
use connection_paths::{Connection, Point};
use ssd_tree::{Connector, Owner, SystemTree};
use std::alloc::{AllocError, Global};
use value_types::{Shape, Variable};

/// The variables of all components, by component and place in its description: the place of each here is its number.
#[derive(Drop)]
pub(crate) struct Variables<'a> {
    pub(crate) all: Vec<&'a Variable>,
    /// the number of the first variable of each component, and at the end that of all variables
    pub(crate) begins: Vec<usize>,
}

/// A tree of systems, the shapes of its components, and its connectors as points.
#[derive(Drop)]
pub(crate) struct FlatTree<'a> {
    pub(crate) tree: &'a SystemTree,
    pub(crate) shapes: &'a [Shape],
    pub(crate) variables: Variables<'a>,
    /// for each connector what it stands for: a variable by its number, with further numbers for those that name none
    pub(crate) points: Vec<Point>,
    pub(crate) connections: Vec<Connection>,
    /// those without a transformation alone
    pub(crate) plain: Vec<Connection>,
}

// How many variables there are.
fn variable_count(shapes: &[Shape]) -> usize {
    let mut count: usize = 0;
    for shape in shapes {
        count = count.saturating_add(shape.variables.len());
    }
    count
}

fn make_variables(alloc: Global, shapes: &[Shape]) -> Result<Variables<'_>, AllocError>
    ensures { IfOk result (AreVariables shapes.now) }
{
    let mut all = Vec::with_capacity(alloc, variable_count(shapes))?;
    let mut begins = Vec::with_capacity(alloc, shapes.len())?;
    for shape in shapes {
        begins.push(all.len())?;
        for variable in shape.variables.as_slice() {
            all.push(variable)?;
        }
    }
    begins.push(all.len())?;
    Ok(Variables { all, begins })
}

// The place in its description of the variable that a connector names.
fn place_named<'a>(names: &VariableNames<'a>, connector: &'a Connector) -> Option<usize>
    ensures { result ≡ place_by names.now connector.now.owner connector.now.name }
{
    match connector.owner {
        Owner::System(_) => None,
        Owner::Component(component) => names.find(component, connector.name.as_str()),
    }
}

// What a connector stands for; without a variable that of a component has a number after those of all variables.
fn point(number: usize, owner: Owner, place: Option<usize>, variables: &Variables) -> Point
    requires placed { IsPlaceIn variables.now owner place }
    requires small { number < 2 ^ 63 }
    ensures { (shapes : List Shape) → AreVariables shapes variables.now →
        result ≡ number_for shapes number owner place }
{
    match (owner, place) {
        (Owner::System(_), _) => Point::OfSystem(number),
        (Owner::Component(component), Some(place)) => {
            Point::Variable(variables.begins[component] + place)
        }
        (Owner::Component(_), None) => Point::Variable(variables.all.len() + number),
    }
}

fn points<'a>(
    alloc: Global,
    tree: &'a SystemTree,
    shapes: &'a [Shape],
    variables: &Variables<'a>,
) -> Result<Vec<Point>, AllocError>
    requires whole { IsWholeTree tree.now }
    requires shapes { AreShapesOf tree.now shapes.now }
    requires variables { AreVariables shapes.now variables.now }
    ensures { IfOk result (λ points. AreNumbered tree.now shapes.now points.items) }
{
    let connectors = tree.connectors.as_slice();
    let names = VariableNames::new(alloc, connectors, shapes)?;
    let mut points = Vec::with_capacity(alloc, connectors.len())?;
    for number in 0..connectors.len() {
        let connector = &connectors[number];
        let place = place_named(&names, connector);
        points.push(point(number, connector.owner, place, variables))?;
    }
    Ok(points)
}

fn connections(alloc: Global, tree: &SystemTree) -> Result<Vec<Connection>, AllocError>
    ensures { IfOk result (λ all. all.items ≡ map ends_of tree.now.connections) }
{
    let mut connections = Vec::with_capacity(alloc, tree.connections.len())?;
    for connection in tree.connections.as_slice() {
        connections.push(Connection {
            start: connection.start,
            end: connection.end,
        })?;
    }
    Ok(connections)
}

// The connections without a transformation.
fn plain_connections(alloc: Global, tree: &SystemTree) -> Result<Vec<Connection>, AllocError>
    ensures { IfOk result (λ all. all.items ≡ map ends_of (plain tree.now).connections) }
{
    let mut connections = Vec::new(alloc);
    for connection in tree.connections.as_slice() {
        if connection.change.is_none() {
            connections.push(Connection {
                start: connection.start,
                end: connection.end,
            })?;
        }
    }
    Ok(connections)
}

impl<'a> FlatTree<'a> {
    /// The tree with its connectors as points.
    pub(crate) fn new(
        alloc: Global,
        tree: &'a SystemTree,
        shapes: &'a [Shape],
    ) -> Result<FlatTree<'a>, AllocError>
        requires whole { IsWholeTree tree.now }
        requires shapes { AreShapesOf tree.now shapes.now }
        ensures indexed { IfOk result IsIndexed }
        ensures tree { IfOk result (λ f. f.tree.now ≡ tree.now) }
        ensures shapes { IfOk result (λ f. f.shapes.now ≡ shapes.now) }
    {
        let variables = make_variables(alloc, shapes)?;
        let points = points(alloc, tree, shapes, &variables)?;
        let connections = connections(alloc, tree)?;
        let plain = plain_connections(alloc, tree)?;
        Ok(FlatTree {
            tree,
            shapes,
            variables,
            points,
            connections,
            plain,
        })
    }

    /// The connections reversed: from where each ends to where it begins.
    pub(crate) fn turned(&self, alloc: Global) -> Result<Vec<Connection>, AllocError>
        requires indexed { IsIndexed self.now }
        ensures { IfOk result (λ all. all.items ≡ map ends_of (turned self.now.tree.now).connections) }
    {
        let mut connections = Vec::with_capacity(alloc, self.tree.connections.len())?;
        for connection in self.tree.connections.as_slice() {
            connections.push(Connection {
                start: connection.end,
                end: connection.start,
            })?;
        }
        Ok(connections)
    }

    /// The variable that a connector names.
    pub(crate) fn variable(&self, connector: usize) -> Option<&'a Variable>
        requires indexed { IsIndexed self.now }
        requires connector { connector < length self.now.tree.now.connectors }
        ensures { option_copied result ≡ variable_of self.now.tree.now self.now.shapes.now
            connector }
    {
        match self.points[connector] {
            Point::Variable(number) => self.variables.all.get(number).copied(),
            Point::OfSystem(_) => None,
        }
    }

    /// Whether the connector is that of a System.
    pub(crate) fn is_of_system(&self, connector: usize) -> bool
        requires indexed { IsIndexed self.now }
        requires connector { connector < length self.now.tree.now.connectors }
        ensures { IsTrue result ↔ IsOfSystem self.now.tree.now (Itself connector) }
    {
        match self.points[connector] {
            Point::OfSystem(_) => true,
            Point::Variable(_) => false,
        }
    }
}
