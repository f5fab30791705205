//! The parts of a system in lists that may grow, and what one of several documents says.
ghost use Rattle.std.specs.Prelude.{◌≡◌, vec_len};
ghost use Rattle.ssd_tree.specs.Lists.{AreBetween, AreBetween-prop, places_of, tree_of};

use crate::tree::{
    Binding, ComponentPart, Connection, Connector, NestedComponent, SystemPart, SystemTree,
};
use sim_base::Items;

/// What a document says of a system, or what documents say that were put into one another: a tree whose lists may grow.
#[derive(Debug, Drop)]
pub struct Parts {
    pub systems: Vec<SystemPart>,
    pub components: Vec<ComponentPart>,
    pub connectors: Vec<Connector>,
    pub connections: Vec<Connection>,
    pub bindings: Vec<Binding>,
}

impl Parts {
    /// The tree of these parts. It allocates no memory.
    pub fn into_tree(self) -> SystemTree
        ensures { result ≡ tree_of self }
    {
        let Parts {
            systems,
            components,
            connectors,
            connections,
            bindings,
        } = self;
        SystemTree {
            systems: Items::from_vec(systems),
            components: Items::from_vec(components),
            connectors: Items::from_vec(connectors),
            connections: Items::from_vec(connections),
            bindings: Items::from_vec(bindings),
        }
    }
}

/// What one of several documents says: its parts, which of its Components are systems of their own, in document order, and
/// how many elements it has.
#[derive(Debug, Drop)]
pub struct DocumentParts {
    pub parts: Parts,
    pub nested: Vec<NestedComponent>,
    pub elements: usize,
    ghost placed: { AreBetween 0 (vec_len parts.components) (places_of nested.items) } by { AreBetween-prop 0 (vec_len parts.components) (places_of nested.items) },
}
