//! Where a document goes that stands in place of a Component.
ghost use Rattle.std.specs.Prelude.{◌≡◌, ◌+◌, IfOk, option_map};
ghost use Rattle.nested_documents.specs.Moves.{after, moved_component, moved_connector, moved_node, moved_owner, moved_system};

use sim_base::{PartedText, Text};
use ssd_tree::Owner;
use std::alloc::AllocError;

/// Which of two documents a part is of that are put together.
#[derive(Clone, Copy, Debug, PartialEq, Eq)]
pub enum Side {
    /// the one with the Component
    Outer,
    /// the one that stands in its place
    Inner,
}

/// How much of a document stands before a Component, and how much the document has that goes in its place.
#[derive(Clone, Copy)]
pub struct Seam {
    /// the number of the Component's element, and how many elements the inner document has
    pub node: usize,
    pub elements: usize,
    /// the place of the System that the Component stands in
    pub system: usize,
    /// how many Systems stand before the Component, and how many the inner document has
    pub systems_before: usize,
    pub systems: usize,
    /// the place of the Component, and how many Components the inner document has
    pub component: usize,
    pub components: usize,
    /// how many connectors stand before the Component, and how many the inner document has
    pub connectors_before: usize,
    pub connectors: usize,
}

/// What the parts of the inner document take from the Component.
#[derive(Drop)]
pub struct Frame {
    /// its element names below the outermost System, joined with dots
    pub name: PartedText,
    /// the last of them
    pub own_name: Text,
    /// the folder below which the inner document's paths stand; empty for that of the outermost document
    pub folder: Text,
}

/// A sum that is a number of this machine.
pub(crate) fn sum(a: usize, b: usize) -> Result<usize, AllocError>
    ensures { IfOk result (λ n. n ≡ a + b) }
{
    a.checked_add(b).ok_or(AllocError)
}

// The place of what stood at `place`, where `more` were put after the first `before`.
fn after(place: usize, before: usize, more: usize) -> Result<usize, AllocError>
    ensures { IfOk result (λ moved. moved ≡ after before more place) }
{
    if place < before {
        Ok(place)
    } else {
        sum(place, more)
    }
}

impl Seam {
    /// The number of an element of one of the documents in the whole.
    pub(crate) fn node(&self, side: Side, node: usize) -> Result<usize, AllocError>
        ensures { IfOk result (λ moved. moved ≡ moved_node self.now side node) }
    {
        match side {
            Side::Outer => after(node, self.node, self.elements),
            Side::Inner => sum(node, self.node),
        }
    }

    /// The place of a System in the whole.
    pub(crate) fn system(&self, side: Side, place: usize) -> Result<usize, AllocError>
        ensures { IfOk result (λ moved. moved ≡ moved_system self.now side place) }
    {
        match side {
            Side::Outer => after(place, self.systems_before, self.systems),
            Side::Inner => sum(place, self.systems_before),
        }
    }

    /// The place of a Component in the whole; one after the Component that goes moves up by a place.
    pub(crate) fn component(&self, side: Side, place: usize) -> Result<usize, AllocError>
        ensures { IfOk result (λ moved. moved ≡ moved_component self.now side place) }
    {
        match side {
            Side::Outer => {
                if place <= self.component {
                    Ok(place)
                } else {
                    sum(place - 1, self.components)
                }
            }
            Side::Inner => sum(place, self.component),
        }
    }

    /// Whose a connector or a binding is in the whole: what was the Component's is the outermost inner System's.
    pub(crate) fn owner(&self, side: Side, owner: Owner) -> Result<Owner, AllocError>
        ensures { IfOk result (λ moved. moved ≡ moved_owner self.now side owner) }
    {
        if side == Side::Outer && owner == Owner::Component(self.component) {
            return Ok(Owner::System(self.systems_before));
        }
        match owner {
            Owner::System(place) => Ok(Owner::System(self.system(side, place)?)),
            Owner::Component(place) => Ok(Owner::Component(self.component(side, place)?)),
        }
    }

    /// The place of a connector in the whole; one of the Component's own is that of the inner one, by `ends`.
    pub(crate) fn connector(
        &self,
        side: Side,
        ends: &[usize],
        place: usize,
    ) -> Result<usize, AllocError>
        ensures { IfOk result (λ moved. moved ≡ moved_connector self.now ends.now side place) }
    {
        match side {
            Side::Outer => self.outer_connector(ends, place),
            Side::Inner => sum(place, self.connectors_before),
        }
    }

    fn outer_connector(&self, ends: &[usize], place: usize) -> Result<usize, AllocError>
        ensures { IfOk result (λ moved. moved ≡ moved_connector self.now ends.now Side.Outer place) }
    {
        if place < self.connectors_before {
            return Ok(place);
        }
        match ends.get(place - self.connectors_before) {
            Some(end) => Ok(*end),
            None => sum(place - ends.len(), self.connectors),
        }
    }
}
