//! The outline of a system.
ghost use Rattle.std.specs.Prelude.{◌≡◌, IfOk};
ghost use Rattle.std.specs.Option.{option_copied, option_map};
ghost use Rattle.system_loading.specs.Outlines.{binding_tree, document_in, element_in, lone_outline, place_in, place_within};

use crate::documents::{SystemDocument, document_at, place_at, place_in_tree, whole_place};
use doc_tree::{Place, Tree};
use nested_documents::Numbers;
use sim_base::{Items, PartedText, Text};
use ssd_tree::{ComponentPart, SystemPart, SystemTree};
use std::alloc::{AllocError, Global};

/// What is known of a system before the descriptions of its FMUs are read: its tree, where the elements of the tree stand, and
/// the documents that it was read from, in the order in which they were read. An FMU that is run alone has none.
#[derive(Drop)]
pub struct Outline {
    pub systems: SystemTree,
    pub numbers: Numbers,
    pub documents: Items<SystemDocument>,
}

impl Outline {
    /// The document in which an element of the tree stands, where there is one.
    pub fn document(&self, number: usize) -> Option<&SystemDocument>
        ensures { option_copied result ≡ document_in self.now number }
    {
        document_at(self.documents.as_slice(), self.numbers.place(number)?)
    }

    /// Where an element of the tree is told.
    pub fn place(&self, alloc: Global, number: usize) -> Result<Place, AllocError>
        ensures { IfOk result (λ place. place ≡ place_in self.now number) }
    {
        match self.numbers.place(number) {
            Some(place) => place_at(alloc, self.documents.as_slice(), place),
            None => whole_place(alloc),
        }
    }

    /// Where an element is told of the document in which a binding stands.
    pub(crate) fn place_within(
        &self,
        alloc: Global,
        binding: usize,
        node: usize,
    ) -> Result<Place, AllocError>
        ensures { IfOk result (λ place. place ≡ place_within self.now binding node) }
    {
        match self.binding_tree(binding) {
            Some(tree) => place_in_tree(alloc, tree, node),
            None => whole_place(alloc),
        }
    }

    fn binding_tree(&self, binding: usize) -> Option<&Tree>
        ensures { option_copied result ≡ binding_tree self.now binding }
    {
        let binding = self.systems.bindings.get(binding)?;
        let document = self.document(binding.node)?;
        Some(&document.tree)
    }

    /// The document in which an element of the tree stands, and its number there.
    pub(crate) fn element(&self, number: usize) -> Option<(&Tree, usize)>
        ensures { option_map (λ element. (element.0.now, element.1)) result ≡
            element_in self.now number }
    {
        let place = self.numbers.place(number)?;
        let document = document_at(self.documents.as_slice(), place)?;
        Some((&document.tree, place.node))
    }
}

/// The outline of an FMU that is run alone, as the component `fmu`.
pub fn lone_outline(alloc: Global) -> Result<Outline, AllocError>
    ensures { IfOk result (λ outline. outline ≡ lone_outline) }
{
    let mut systems = Vec::with_capacity(alloc, 1)?;
    systems.push_reserved(SystemPart {
        node: 0,
        parent: None,
        name: Text::from_str(alloc, "fmu")?,
    });
    let mut components = Vec::with_capacity(alloc, 1)?;
    components.push_reserved(ComponentPart {
        node: 0,
        system: 0,
        name: PartedText::from_text(alloc, Text::from_str(alloc, "fmu")?)?,
        source: Text::from_str(alloc, "")?,
    });
    Ok(Outline {
        systems: SystemTree {
            systems: Items::from_vec(systems),
            components: Items::from_vec(components),
            connectors: Items::from_vec(Vec::new(alloc)),
            connections: Items::from_vec(Vec::new(alloc)),
            bindings: Items::from_vec(Vec::new(alloc)),
        },
        numbers: Numbers::none(alloc),
        documents: Items::from_vec(Vec::new(alloc)),
    })
}
