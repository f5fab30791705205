//! What leads to where connections begin: a few passes over all connections, each from many connectors at once.
ghost use Rattle.std.specs.Prelude.{◌≡◌, ◌<◌, ◌↔◌, ℕ, All, Contains, IfOk, IsSome, IsTrue, List, Some, length, map};
ghost use Rattle.std.specs.Option.{option_map};
ghost use Rattle.dependency_order.specs.Paths.{IsMarked};
ghost use Rattle.value_types.specs.Joint.{class_of};
ghost use Rattle.connection_paths.specs.Paths.{IsWithin};
ghost use Rattle.ssd_tree.specs.declared.tree.Connection as sides;
ghost use Rattle.flatten.specs.Indexed.{IsIndexed, ends_of, joined};
ghost use Rattle.flatten.specs.Marks.{AreClassMarks, AreLeadingOn, AreLedTo, AreMarked, AreShared, AreTypeMarks, GivesClass, HasMarks, IsInputBeside, IsOfClass, IsOutputAt, NamesOutput};
ghost use Rattle.flatten.specs.Paths.{plain};
ghost use Rattle.flatten.specs.Points.{IsOfSystem, Itself};
ghost use Rattle.flatten.specs.Rules.{child_class, class_at};

use crate::connectors::FlatTree;
use connection_paths::{Connection, sources_of};
use ssd_tree::TypeChild;
use std::alloc::{AllocError, Global};
use value_types::{Causality, Class, PortType, class_of};

/// The classes of variables and of the types of connectors; the last is that of ignored ones.
const CLASSES: [Option<Class>; 5] = [
    Some(Class::Integer),
    Some(Class::Boolean),
    Some(Class::Enumeration),
    Some(Class::Clock),
    None,
];

/// The types whose class has several ranges.
const INTEGER_TYPES: [PortType; 8] = [
    PortType::Int8,
    PortType::UInt8,
    PortType::Int16,
    PortType::UInt16,
    PortType::Int32,
    PortType::UInt32,
    PortType::Int64,
    PortType::UInt64,
];

/// The class of a variable of this type; an ignored one has none.
pub(crate) fn class_at(kind: Option<PortType>) -> Option<Class>
    ensures { result ≡ option_map class_of kind }
{
    match kind {
        Some(kind) => Some(class_of(kind)),
        None => None,
    }
}

/// The class of the variables that a connector of this type is for; there is none where only ignored ones are of the type.
pub(crate) fn child_class(child: TypeChild) -> Option<Class>
    ensures { result ≡ child_class child }
{
    match child {
        TypeChild::Integer => Some(Class::Integer),
        TypeChild::Boolean => Some(Class::Boolean),
        TypeChild::Enumeration => Some(Class::Enumeration),
        TypeChild::Other => None,
    }
}

/// The connectors to which outputs or connectors of one class lead.
#[derive(Drop)]
pub(crate) struct ClassMarks {
    pub(crate) class: Option<Class>,
    pub(crate) reached: Vec<bool>,
}

/// The connectors to which outputs of one type lead.
#[derive(Drop)]
pub(crate) struct TypeMarks {
    pub(crate) kind: PortType,
    pub(crate) reached: Vec<bool>,
}

/// For each connector what leads to it: a path of connections from there, or it is there itself.
#[derive(Drop)]
pub(crate) struct Marks {
    /// any output
    pub(crate) fed: Vec<bool>,
    /// for each class the outputs of this class, and the connectors of systems with a type of it that are fed
    pub(crate) classes: Vec<ClassMarks>,
    /// for each integer type the outputs of this type, along connections without a transformation alone
    pub(crate) types: Vec<TypeMarks>,
    /// what leads on to an input that is no integer
    pub(crate) no_integers: Vec<bool>,
    /// what leads on to an input that is no Boolean
    pub(crate) no_booleans: Vec<bool>,
}

fn marked_connectors(alloc: Global, marks: &[bool]) -> Result<Vec<usize>, AllocError>
    ensures { IfOk result (λ all. (c : ℕ) → Contains all.items c ↔ IsMarked marks.now c) }
{
    let mut all = Vec::new(alloc);
    for number in 0..marks.len() {
        if marks[number] {
            all.push(number)?;
        }
    }
    Ok(all)
}

impl<'a> FlatTree<'a> {
    // For each connector whether a path of these connections from one of the starts leads up to it: it is a start, or a
    // System's and reached.
    fn reached_marks(
        &self,
        alloc: Global,
        connections: &[Connection],
        starts: Vec<bool>,
    ) -> Result<Vec<bool>, AllocError>
        requires indexed { IsIndexed self.now }
        requires len { length starts.items ≡ length self.now.tree.now.connectors }
        requires shared { AreShared self.now.tree.now self.now.shapes.now starts.items }
        requires ends { All (IsWithin (length self.now.tree.now.connectors)) connections.now }
        ensures { IfOk result (λ reached. (ks : List sides.Connection) →
            connections.now ≡ map ends_of ks →
            AreLedTo (joined self.now.tree.now ks) self.now.shapes.now (IsMarked starts.items)
            reached.items) }
    {
        let begins = marked_connectors(alloc, starts.as_slice())?;
        let found = sources_of(
            alloc,
            self.points.as_slice(),
            connections,
            begins.as_slice(),
        )?;
        let mut reached = Vec::with_capacity(alloc, starts.len())?;
        for connector in 0..starts.len() {
            reached.push(starts[connector] || self.passes_found(connector, found[connector]))?;
        }
        Ok(reached)
    }

    // Whether the connector is a System's, and something was found that leads to it.
    fn passes_found(&self, connector: usize, found: Option<usize>) -> bool
        requires indexed { IsIndexed self.now }
        requires connector { connector < length self.now.tree.now.connectors }
        ensures { IsTrue result ↔ (IsOfSystem self.now.tree.now (Itself connector) × IsSome found) }
    {
        self.is_of_system(connector) && found.is_some()
    }

    /// Whether the connector names an output.
    pub(crate) fn is_output(&self, connector: usize) -> bool
        requires indexed { IsIndexed self.now }
        requires connector { connector < length self.now.tree.now.connectors }
        ensures { IsTrue result ↔ IsOutputAt self.now.tree.now self.now.shapes.now connector }
    {
        match self.variable(connector) {
            Some(variable) => variable.causality == Causality::Output,
            None => false,
        }
    }

    /// For each connector whether it names an output.
    pub(crate) fn outputs(&self, alloc: Global) -> Result<Vec<bool>, AllocError>
        requires { IsIndexed self.now }
        ensures { IfOk result (λ outputs. AreMarked self.now.tree.now
            (IsOutputAt self.now.tree.now self.now.shapes.now) outputs.items) }
    {
        let mut outputs = Vec::with_capacity(alloc, self.points.len())?;
        for connector in 0..self.points.len() {
            outputs.push(self.is_output(connector))?;
        }
        Ok(outputs)
    }

    // Whether the connector names an output of this class.
    fn is_output_of(&self, connector: usize, class: Option<Class>) -> bool
        requires indexed { IsIndexed self.now }
        requires connector { connector < length self.now.tree.now.connectors }
        ensures { IsTrue result ↔ NamesOutput (λ x. class_at x ≡ class) self.now.tree.now
            self.now.shapes.now connector }
    {
        match self.variable(connector) {
            Some(variable) => {
                variable.causality == Causality::Output && class_at(variable.kind) == class
            }
            None => false,
        }
    }

    // Whether the connector is a System's and gives a type of this class.
    fn passes(&self, connector: usize, class: Option<Class>) -> bool
        requires indexed { IsIndexed self.now }
        requires connector { connector < length self.now.tree.now.connectors }
        ensures { IsTrue result ↔ GivesClass self.now.tree.now class connector }
    {
        match self.tree.connectors.as_slice()[connector].child {
            Some(child) => self.is_of_system(connector) && child_class(child) == class,
            None => false,
        }
    }

    // Whether it names an output of this class, or is a System's that gives a type of it and is fed.
    fn is_of_class(&self, fed: &[bool], connector: usize, class: Option<Class>) -> bool
        requires indexed { IsIndexed self.now }
        requires connector { connector < length self.now.tree.now.connectors }
        requires fed { AreLedTo self.now.tree.now self.now.shapes.now
            (IsOutputAt self.now.tree.now self.now.shapes.now) fed.now }
        ensures { IsTrue result ↔ IsOfClass self.now.tree.now self.now.shapes.now class connector }
    {
        self.is_output_of(connector, class) || fed[connector] && self.passes(connector, class)
    }

    fn class_marks(
        &self,
        alloc: Global,
        fed: &[bool],
        class: Option<Class>,
    ) -> Result<ClassMarks, AllocError>
        requires indexed { IsIndexed self.now }
        requires fed { AreLedTo self.now.tree.now self.now.shapes.now
            (IsOutputAt self.now.tree.now self.now.shapes.now) fed.now }
        ensures { IfOk result (AreClassMarks self.now.tree.now self.now.shapes.now class) }
    {
        let mut starts = Vec::with_capacity(alloc, fed.len())?;
        for connector in 0..fed.len() {
            starts.push(self.is_of_class(fed, connector, class))?;
        }
        Ok(ClassMarks {
            class,
            reached: self.reached_marks(alloc, self.connections.as_slice(), starts)?,
        })
    }

    // Whether the connector names an output of this type.
    fn is_output_with(&self, connector: usize, kind: PortType) -> bool
        requires indexed { IsIndexed self.now }
        requires connector { connector < length self.now.tree.now.connectors }
        ensures { IsTrue result ↔ NamesOutput (λ x. x.kind ≡ Some kind) self.now.tree.now
            self.now.shapes.now connector }
    {
        match self.variable(connector) {
            Some(variable) => {
                variable.causality == Causality::Output && variable.kind == Some(kind)
            }
            None => false,
        }
    }

    fn type_marks(&self, alloc: Global, kind: PortType) -> Result<TypeMarks, AllocError>
        requires indexed { IsIndexed self.now }
        ensures { IfOk result (AreTypeMarks (plain self.now.tree.now) self.now.shapes.now kind) }
    {
        let mut starts = Vec::with_capacity(alloc, self.points.len())?;
        for connector in 0..self.points.len() {
            starts.push(self.is_output_with(connector, kind))?;
        }
        Ok(TypeMarks {
            kind,
            reached: self.reached_marks(alloc, self.plain.as_slice(), starts)?,
        })
    }

    // Whether the connector names an input whose class isn't this one.
    fn is_input_beside(&self, connector: usize, class: Class) -> bool
        requires indexed { IsIndexed self.now }
        requires connector { connector < length self.now.tree.now.connectors }
        ensures { IsTrue result ↔ IsInputBeside class self.now.tree.now self.now.shapes.now
            connector }
    {
        match self.variable(connector) {
            Some(variable) => {
                variable.causality == Causality::Input && class_at(variable.kind) != Some(class)
            }
            None => false,
        }
    }

    // For each connector whether it leads on to an input whose class isn't this one.
    fn leading_on(&self, alloc: Global, class: Class) -> Result<Vec<bool>, AllocError>
        requires indexed { IsIndexed self.now }
        ensures { IfOk result (λ marks. AreLeadingOn class self.now.tree.now self.now.shapes.now
            marks.items) }
    {
        let mut ends = Vec::with_capacity(alloc, self.points.len())?;
        for connector in 0..self.points.len() {
            ends.push(self.is_input_beside(connector, class))?;
        }
        let turned = self.turned(alloc)?;
        self.reached_marks(alloc, turned.as_slice(), ends)
    }

    /// For each connector what leads to it.
    pub(crate) fn marks(&self, alloc: Global) -> Result<Marks, AllocError>
        requires indexed { IsIndexed self.now }
        ensures { IfOk result (HasMarks self.now.tree.now self.now.shapes.now) }
    {
        let outputs = self.outputs(alloc)?;
        let fed = self.reached_marks(alloc, self.connections.as_slice(), outputs)?;
        let mut classes = Vec::new(alloc);
        for class in CLASSES {
            classes.push(self.class_marks(alloc, fed.as_slice(), class)?)?;
        }
        let mut types = Vec::new(alloc);
        for kind in INTEGER_TYPES {
            types.push(self.type_marks(alloc, kind)?)?;
        }
        Ok(Marks {
            fed,
            classes,
            types,
            no_integers: self.leading_on(alloc, Class::Integer)?,
            no_booleans: self.leading_on(alloc, Class::Boolean)?,
        })
    }
}
