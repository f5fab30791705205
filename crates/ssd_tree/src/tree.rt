use parameter_values::Change;
use sim_base::{Items, PartedText, Text};

/// What a connector is for (SSP 1.0, Connector: `kind`).
#[derive(Clone, Copy, Debug, PartialEq, Eq)]
pub enum ConnectorKind {
    Input,
    Output,
    Parameter,
    CalculatedParameter,
}

/// The type that a connector gives.
#[derive(Clone, Copy, Debug, PartialEq, Eq)]
pub enum TypeChild {
    Integer,
    Boolean,
    Enumeration,
    /// Real, String or Binary
    Other,
}

/// Whose a connector or a binding is: a System's or a Component's, by its place in the list of the tree.
#[derive(Clone, Copy, Debug, PartialEq, Eq)]
pub enum Owner {
    System(usize),
    Component(usize),
}

/// A System. `node` is the number of its element in the document, as it is of all parts.
#[derive(Debug, Drop)]
pub struct SystemPart {
    pub node: usize,
    /// the place of the System that it stands in; the outermost has none
    pub parent: Option<usize>,
    /// its own name
    pub name: Text,
}

/// What counts for a document of the system that it stands in.
#[derive(Clone, Copy, Debug, PartialEq, Eq)]
pub struct Setting {
    /// whether a Component may be a system of its own
    pub nests: bool,
    /// how many FMUs the documents name that are read before
    pub fmus: usize,
    /// how many bytes stand before the full names of its Components: the full name of the Component that it stands for, and
    /// a dot; none at the outermost document
    pub name_above: usize,
}

/// What the `source` of a Component names that is a system of its own (SSP 1.0, Component: `type`).
#[derive(Clone, Copy, Debug, PartialEq, Eq)]
pub enum NestedKind {
    /// a package: a directory with a `SystemStructure.ssd`
    Package,
    /// a system structure description
    Definition,
}

/// A Component that is a system of its own, and not an FMU.
#[derive(Debug, Drop)]
pub struct NestedComponent {
    /// its place among the Components of its document, and the number of its element there
    pub component: usize,
    pub node: usize,
    /// its own name
    pub own_name: Text,
    pub kind: NestedKind,
}

/// A Component: an FMU, or a system of its own.
#[derive(Debug, Drop)]
pub struct ComponentPart {
    pub node: usize,
    /// the place of the System that it stands in
    pub system: usize,
    /// the element names below the outermost System, joined with dots; it shares those of the Systems around
    pub name: PartedText,
    /// the path that it names without the segments that lead nowhere: two sources are one where these are equal
    pub source: Text,
}

/// A connector of a System or a Component.
#[derive(Debug, Drop)]
pub struct Connector {
    pub node: usize,
    pub owner: Owner,
    pub name: Text,
    pub kind: ConnectorKind,
    /// the first type that it gives
    pub child: Option<TypeChild>,
}

/// A connection between two connectors, by their places in the list of the tree, and what it does to values.
#[derive(Debug, Drop)]
pub struct Connection {
    pub node: usize,
    pub start: usize,
    pub end: usize,
    /// by the first of its transformations
    pub change: Option<Change>,
}

/// Below which folder a file of parameters stands (SSP 1.0, `sourceBase`).
#[derive(Clone, Copy, Debug, PartialEq, Eq)]
pub enum SourceBase {
    /// that of the system structure description
    Description,
    /// that of the component's FMU
    Component,
}

/// Where the values or the mapping of a binding are given.
#[derive(Debug, Drop)]
pub enum Origin {
    /// In a file. `path` is without the segments that lead nowhere.
    File { base: SourceBase, path: Text },
    /// Within the element with this number: the ParameterValues or the ParameterMapping of the binding.
    Inline { node: usize },
}

/// A binding of parameters, and whose it is (SSP 1.0, ParameterBinding).
#[derive(Debug, Drop)]
pub struct Binding {
    pub node: usize,
    pub owner: Owner,
    /// what stands before the name of each parameter; empty where it isn't given
    pub prefix: Text,
    pub values: Origin,
    pub mapping: Option<Origin>,
}

/// What a system structure description says. Each list is in document order; the outermost System is the first.
#[derive(Debug, Drop)]
pub struct SystemTree {
    pub systems: Items<SystemPart>,
    pub components: Items<ComponentPart>,
    pub connectors: Items<Connector>,
    pub connections: Items<Connection>,
    pub bindings: Items<Binding>,
}
