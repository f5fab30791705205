//! A document in place of a Component of another, and which comes next.
ghost use Rattle.std.specs.Prelude.{IfOk, slice_get, vec_len, ◌<◌, ◌≡◌};
ghost use Rattle.nested_documents.specs.Inlining.{inlined};
ghost use Rattle.nested_documents.specs.Nest.{IsNext};
ghost use Rattle.nested_documents.specs.States.{gathered};
ghost use Rattle.ssd_tree.specs.Lists.{tree_of};
ghost use Rattle.ssd_tree.specs.declared.tree.ComponentPart.{ComponentPart};

use nested_documents::{Frame, Nest, Next, inlined};
use ssd_tree::Parts;
use std::alloc::{AllocError, Global};

/// The parts of two documents where the inner one, which has so many elements, stands in place of a Component of the
/// outer one.
pub fn inline_document(
    alloc: Global,
    outer: Parts,
    place: usize,
    frame: &Frame,
    inner: Parts,
    elements: usize,
) -> Result<Parts, AllocError>
    requires { place < vec_len outer.components }
    ensures { (c : ComponentPart) → slice_get outer.components.items place ≡ Some c →
        IfOk result (λ whole. tree_of whole ≡
        inlined (tree_of outer) place c frame.now (tree_of inner) elements) }
{
    inlined(alloc, outer, place, frame, inner, elements)
}

/// What comes next: the document of the first Component that waits.
pub fn next_of(nest: &Nest, alloc: Global) -> Result<Next, AllocError>
    ensures { IfOk result (IsNext (gathered nest.now)) }
{
    nest.next(alloc)
}
