//! Lists of elements in document order.
ghost use Rattle.std.specs.Prelude.{◌≡◌, ◌↔◌, IsTrue, MatchOption, Contains, slice_get};
ghost use Rattle.ssd_tree.specs.Listings.{IsRising};

/// The place of an element in a list.
pub(crate) fn place_of(nodes: &[usize], node: usize) -> Option<usize>
    requires { IsRising nodes.now }
    ensures { MatchOption result (Contains nodes.now node → ⊥)
        (λ place. slice_get nodes.now place ≡ Some node) }
{
    nodes.binary_search(&node).ok()
}

/// Whether the element is on the list.
pub(crate) fn is_listed(nodes: &[usize], node: usize) -> bool
    requires { IsRising nodes.now }
    ensures { IsTrue result ↔ Contains nodes.now node }
{
    place_of(nodes, node).is_some()
}

/// The place of an element that is on the list.
pub(crate) fn known_place(nodes: &[usize], node: usize) -> usize
    requires rising { IsRising nodes.now }
    requires listed { Contains nodes.now node }
    ensures { slice_get nodes.now result ≡ Some node }
{
    place_of(nodes, node).unwrap()
}
