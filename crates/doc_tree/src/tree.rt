ghost use Rattle.std.specs.Prelude.{◌≡◌, ◌<◌, ◌++◌, ◌∷◌, [], ℕ, List, length, slice_get, slice_index, IfSome, IfOk, OnOk, string_bytes, map};
ghost use Rattle.std.specs.Option.{option_map};
ghost use Rattle.doc_tree.specs.Elements.{children_of, value_at, pair_of, node_of, items_of, with_child, Adopts, IsBelow};

use std::alloc::{AllocError, Global};
use std::marker::Model;

/// An attribute that is kept.
#[derive(Drop)]
pub(crate) struct Named {
    pub name: String,
    pub value: String,
}

/// An element without its children.
#[derive(Drop)]
pub(crate) struct Element {
    pub name: String,
    pub attrs: Vec<Named>,
    pub parent: Option<usize>,
}

/// The elements of a document, numbered in document order. A clause sees the list of their names, attributes and parents.
#[derive(Drop)]
pub struct Tree {
    elements: Vec<Element>,
    children: Vec<Vec<usize>>,
}

impl Model for Tree {
    ghost use Rattle.std.specs.Prelude.{List, map};
    ghost use Rattle.doc_grammar.specs.Nodes.{Node};
    ghost use Rattle.doc_tree.specs.Elements.{node_of, Keeps};

    ghost Value = { List Node };

    ghost view = { λ a. map node_of a.elements.items };

    ghost invariant = { λ a. Keeps (map node_of a.elements.items) a.children.items };
}

/// The value of the attribute of this name.
fn find<'a>(attrs: &'a [Named], name: &str) -> Option<&'a str>
    ensures { option_map (λ v. v.now) result ≡ value_at (map pair_of attrs.now) name.now }
{
    for attr in attrs {
        if attr.name.as_str() == name {
            return Some(attr.value.as_str());
        }
    }
    None
}

/// Appends a node to the children of its parent.
fn adopt(children: &mut Vec<Vec<usize>>, parent: usize, node: usize) -> Result<(), AllocError>
    requires { parent < length children.old.items }
    ensures lists { OnOk result (map items_of children.new.items ≡
        with_child (map items_of children.old.items) parent node) }
    ensures len { length children.new.items ≡ length children.old.items }
{
    children[parent].push(node)?;
    Ok(())
}

/// Appends a node to the children of its parent, if it has one.
#[tactic(auto, using(crate::proofs::ChildLemmas::adopts_none, crate::proofs::ChildLemmas::adopts_some))]
fn adopt_if(
    children: &mut Vec<Vec<usize>>,
    parent: Option<usize>,
    node: usize,
) -> Result<(), AllocError>
    requires { IsBelow (length children.old.items) parent }
    ensures lists { OnOk result (Adopts (map items_of children.old.items)
        (map items_of children.new.items) parent node) }
    ensures len { length children.new.items ≡ length children.old.items }
{
    if let Some(parent) = parent {
        adopt(children, parent, node)?;
    }
    Ok(())
}

impl Tree {
    /// No elements.
    pub(crate) fn new(alloc: Global) -> Tree
        ensures { result ≡ [] }
    {
        Tree {
            elements: Vec::new(alloc),
            children: Vec::new(alloc),
        }
    }

    /// The same elements, and one more, whose parent is among them.
    pub(crate) fn with(self, alloc: Global, element: Element) -> Result<Tree, AllocError>
        requires { IsBelow (length self) element.parent }
        ensures { IfOk result (λ t. t ≡ self ++ node_of element ∷ []) }
    {
        let Tree {
            mut elements,
            mut children,
        } = self;
        let node = elements.len();
        adopt_if(&mut children, element.parent, node)?;
        children.push(Vec::new(alloc))?;
        elements.push(element)?;
        Ok(Tree { elements, children })
    }

    /// How many elements there are.
    pub fn len(&self) -> usize
        ensures { result ≡ length self.now }
    {
        self.elements.len()
    }

    /// The element's name, without a prefix.
    pub fn name(&self, node: usize) -> &str
        requires { node < length self.now }
        ensures { IfSome (slice_get self.now node) (λ n. result.now ≡ n.name) }
    {
        self.elements[node].name.as_str()
    }

    /// The value of an attribute.
    pub fn attribute(&self, node: usize, name: &str) -> Option<&str>
        requires { node < length self.now }
        ensures { IfSome (slice_get self.now node)
            (λ n. option_map (λ v. v.now) result ≡ value_at n.attrs name.now) }
    {
        find(self.elements[node].attrs.as_slice(), name)
    }

    /// The elements that stand directly in this one, in document order.
    pub fn children(&self, node: usize) -> &[usize]
        requires { node < length self.now }
        ensures { result.now ≡ children_of self.now node }
    {
        self.children[node].as_slice()
    }

    /// The element that this one stands directly in, which is before it.
    pub fn parent(&self, node: usize) -> Option<usize>
        requires { node < length self.now }
        ensures parent { IfSome (slice_get self.now node) (λ n. result ≡ n.parent) }
        ensures before { IfSome result (λ p. p < node) }
    {
        self.elements[node].parent
    }
}
