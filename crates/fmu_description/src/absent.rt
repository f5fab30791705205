ghost use Rattle.std.specs.Prelude.{◌≡◌, ◌↔◌, IsTrue};
ghost use Rattle.fmu_description.specs.Rules.{LacksOfRoot, LacksOfVariable, LacksOfAlias};

use crate::clock_rules::is_timed;
use crate::elements::{is_alias, is_variable};
use doc_tables::{lacks, lacks_text};
use doc_tree::Tree;

/// The root lacks an attribute.
pub(crate) fn lacks_of_root(tree: &Tree, node: usize) -> bool
    ensures { IsTrue result ↔ LacksOfRoot tree.now node }
{
    node == 0
        && (lacks(tree, node, "fmiVersion")
            || lacks(tree, node, "modelName")
            || lacks(tree, node, "instantiationToken"))
}

/// A variable lacks an attribute.
pub(crate) fn lacks_of_variable(tree: &Tree, node: usize) -> bool
    ensures { IsTrue result ↔ LacksOfVariable tree.now node }
{
    is_variable(tree, node)
        && (lacks_text(tree, node, "name")
            || lacks(tree, node, "valueReference")
            || (is_timed(tree, node) && lacks(tree, node, "intervalVariability")))
}

/// An alias lacks its name.
pub(crate) fn lacks_of_alias(tree: &Tree, node: usize) -> bool
    ensures { IsTrue result ↔ LacksOfAlias tree.now node }
{
    is_alias(tree, node) && lacks_text(tree, node, "name")
}
