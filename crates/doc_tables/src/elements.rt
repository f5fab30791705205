//! What elements are called, say and stand in, and what stands in them. Past the last element there is nothing of that.
ghost use Rattle.std.specs.Prelude.{◌≡◌, ◌<◌, ◌↔◌, IfSome, IsTrue, option_copied};
ghost use Rattle.doc_tables.specs.Elements.{Lacks, LacksText, attribute, children, unless_empty, is_in, is_named, is_root, name_of, parent, text_of};

use doc_tree::Tree;

/// The element's name, empty where there is no such element.
pub fn name(tree: &Tree, node: usize) -> &str
    ensures { result.now ≡ name_of tree.now node }
{
    if node < tree.len() {
        tree.name(node)
    } else {
        ""
    }
}

/// Whether the element has this name.
pub fn is_named(tree: &Tree, node: usize, wanted: &str) -> bool
    ensures { result ≡ is_named tree.now node wanted.now }
{
    name(tree, node) == wanted
}

/// The value of an attribute.
pub fn attribute<'a>(tree: &'a Tree, node: usize, name: &str) -> Option<&'a str>
    ensures { option_copied result ≡ attribute tree.now node name.now }
{
    if node < tree.len() {
        tree.attribute(node, name)
    } else {
        None
    }
}

/// The value of an attribute, empty where it is absent.
pub fn text_of<'a>(tree: &'a Tree, node: usize, name: &str) -> &'a str
    ensures { result.now ≡ text_of tree.now node name.now }
{
    attribute(tree, node, name).unwrap_or("")
}

/// The element that this one stands directly in, which is before it.
pub fn parent(tree: &Tree, node: usize) -> Option<usize>
    ensures parent { result ≡ parent tree.now node }
    ensures before { IfSome result (λ p. p < node) }
{
    if node < tree.len() {
        tree.parent(node)
    } else {
        None
    }
}

/// The elements that stand directly in this one, in document order.
pub fn children(tree: &Tree, node: usize) -> &[usize]
    ensures { result.now ≡ children tree.now node }
{
    if node < tree.len() {
        tree.children(node)
    } else {
        &[]
    }
}

/// Whether the element stands directly in the root.
pub fn is_in_root(tree: &Tree, node: usize) -> bool
    ensures { result ≡ is_in is_root tree.now node }
{
    match parent(tree, node) {
        Some(parent) => parent == 0,
        None => false,
    }
}

/// A text that isn't empty.
pub fn unless_empty(text: Option<&str>) -> Option<&str>
    ensures { option_copied result ≡ unless_empty (option_copied text.entry) }
{
    match text {
        Some(text) if !text.is_empty() => Some(text),
        _ => None,
    }
}

/// Whether the attribute isn't there.
pub fn lacks(tree: &Tree, node: usize, name: &str) -> bool
    ensures { IsTrue result ↔ Lacks tree.now node name.now }
{
    attribute(tree, node, name).is_none()
}

/// Whether the attribute isn't there, or is empty.
pub fn lacks_text(tree: &Tree, node: usize, name: &str) -> bool
    ensures { IsTrue result ↔ LacksText tree.now node name.now }
{
    match attribute(tree, node, name) {
        Some(text) => text.is_empty(),
        None => true,
    }
}
