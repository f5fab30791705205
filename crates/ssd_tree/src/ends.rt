//! The ends of connections.
ghost use Rattle.std.specs.Prelude.{◌≡◌, ◌↔◌, ℕ, IsTrue, MatchOption, codes, option_copied};
ghost use Rattle.ssd_tree.specs.Elements.{kind_of};
ghost use Rattle.ssd_tree.specs.Ends.{end_kind, IsEnd, IsPartNamed, IsStart, IsStop, start_kind};
ghost use Rattle.ssd_tree.specs.Indexed.{IsIndexed};
ghost use Rattle.ssd_tree.specs.Rules.{HasNoEnd, HasNoStart, HasNoStop, HasWrongEnd, StartsWrong, StopsWrong};

use crate::elements::{holder, kind_of};
use crate::indexed::IndexedTree;
use crate::tree::ConnectorKind;
use doc_tables::attribute;
use doc_tree::Tree;

fn start_kind(element: Option<&str>) -> ConnectorKind
    ensures { result ≡ start_kind (option_copied element.entry) }
{
    match element {
        None => ConnectorKind::Input,
        Some(_) => ConnectorKind::Output,
    }
}

fn end_kind(element: Option<&str>) -> ConnectorKind
    ensures { result ≡ end_kind (option_copied element.entry) }
{
    match element {
        None => ConnectorKind::Output,
        Some(_) => ConnectorKind::Input,
    }
}

fn is_of_kind(tree: &Tree, connector: usize, wanted: ConnectorKind) -> bool
    ensures { IsTrue result ↔ (kind_of tree.now connector ≡ Some wanted) }
{
    match kind_of(tree, connector) {
        Some(kind) => kind == wanted,
        None => false,
    }
}

impl<'a> IndexedTree<'a> {
    // The element of a System that has the name; without a name the System itself.
    fn part_named(&self, system: usize, name: Option<&'a str>) -> Option<usize>
        requires { IsIndexed self.now }
        ensures { MatchOption result
            ((part : ℕ) → IsPartNamed self.now.tree.now system (option_copied name.entry) part → ⊥)
            (IsPartNamed self.now.tree.now system (option_copied name.entry)) }
    {
        match name {
            None => Some(system),
            Some(name) => self.elements.find(system, name),
        }
    }

    // The connector that two attributes of a connection name.
    fn end(&self, connection: usize, element: &str, connector: &str) -> Option<usize>
        requires { IsIndexed self.now }
        ensures { MatchOption result
            ((k : ℕ) → IsEnd self.now.tree.now connection element.now connector.now k → ⊥)
            (IsEnd self.now.tree.now connection element.now connector.now) }
    {
        let system = holder(self.tree, connection, "Connections")?;
        let part = self.part_named(system, attribute(self.tree, connection, element))?;
        let name = attribute(self.tree, connection, connector)?;
        self.connectors.find(part, name)
    }

    /// The connector that a connection begins at.
    pub(crate) fn start(&self, connection: usize) -> Option<usize>
        requires { IsIndexed self.now }
        ensures { MatchOption result
            ((k : ℕ) → IsStart self.now.tree.now connection k → ⊥)
            (IsStart self.now.tree.now connection) }
    {
        self.end(connection, "startElement", "startConnector")
    }

    /// The connector that a connection ends at.
    pub(crate) fn stop(&self, connection: usize) -> Option<usize>
        requires { IsIndexed self.now }
        ensures { MatchOption result
            ((k : ℕ) → IsStop self.now.tree.now connection k → ⊥)
            (IsStop self.now.tree.now connection) }
    {
        self.end(connection, "endElement", "endConnector")
    }

    fn has_no_start(&self, node: usize) -> bool
        requires { IsIndexed self.now }
        ensures { IsTrue result ↔ HasNoStart self.now.tree.now node }
    {
        self.start(node).is_none()
    }

    fn has_no_stop(&self, node: usize) -> bool
        requires { IsIndexed self.now }
        ensures { IsTrue result ↔ HasNoStop self.now.tree.now node }
    {
        self.stop(node).is_none()
    }

    // Whether the connection begins at neither an element's output nor the System's own input.
    fn starts_wrong(&self, node: usize) -> bool
        requires { IsIndexed self.now }
        ensures { IsTrue result ↔ StartsWrong self.now.tree.now node }
    {
        match self.start(node) {
            Some(connector) => {
                let wanted = start_kind(attribute(self.tree, node, "startElement"));
                !is_of_kind(self.tree, connector, wanted)
            }
            None => false,
        }
    }

    // Whether the connection ends at neither an element's input nor the System's own output.
    fn stops_wrong(&self, node: usize) -> bool
        requires { IsIndexed self.now }
        ensures { IsTrue result ↔ StopsWrong self.now.tree.now node }
    {
        match self.stop(node) {
            Some(connector) => {
                let wanted = end_kind(attribute(self.tree, node, "endElement"));
                !is_of_kind(self.tree, connector, wanted)
            }
            None => false,
        }
    }

    /// Whether the connection begins or ends at no connector.
    pub(crate) fn has_no_end(&self, node: usize) -> bool
        requires { IsIndexed self.now }
        ensures { IsTrue result ↔ HasNoEnd self.now.tree.now node }
    {
        self.has_no_start(node) || self.has_no_stop(node)
    }

    /// Whether the connection begins or ends at a connector of the wrong kind.
    pub(crate) fn has_wrong_end(&self, node: usize) -> bool
        requires { IsIndexed self.now }
        ensures { IsTrue result ↔ HasWrongEnd self.now.tree.now node }
    {
        self.starts_wrong(node) || self.stops_wrong(node)
    }
}
