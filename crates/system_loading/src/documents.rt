//! The documents of a system.
ghost use Rattle.std.specs.Prelude.{◌≡◌, IfOk};
ghost use Rattle.std.specs.Option.{option_copied};
ghost use Rattle.doc_tree.specs.Path.{path_to};
ghost use Rattle.doc_tree.specs.declared.place.Place.TheVariants.{Element};
ghost use Rattle.system_loading.specs.Outlines.{document_at, place_at, whole_place};

use doc_tree::{Place, Tree};
use nested_documents::Place as ElementPlace;
use sim_base::Text;
use std::alloc::{AllocError, Global};

/// A document of a system: the path of its file below the folder of the system, and its elements.
#[derive(Drop)]
pub struct SystemDocument {
    pub path: Text,
    pub tree: Tree,
}

/// The document in which an element stands.
pub fn document_at(documents: &[SystemDocument], place: ElementPlace) -> Option<&SystemDocument>
    ensures { option_copied result ≡ document_at documents.now place }
{
    documents.get(place.document)
}

/// Where an element is told.
pub fn place_at(
    alloc: Global,
    documents: &[SystemDocument],
    place: ElementPlace,
) -> Result<Place, AllocError>
    ensures { IfOk result (λ told. told ≡ place_at documents.now place) }
{
    match document_at(documents, place) {
        Some(document) => place_in_tree(alloc, &document.tree, place.node),
        None => whole_place(alloc),
    }
}

/// The root of a model description.
pub(crate) fn whole_place(alloc: Global) -> Result<Place, AllocError>
    ensures { IfOk result (λ place. place ≡ whole_place) }
{
    Ok(Place::Element {
        path: Text::from_str(alloc, "/fmiModelDescription[1]")?,
    })
}

/// Where an element of a document is told.
pub(crate) fn place_in_tree(alloc: Global, tree: &Tree, node: usize) -> Result<Place, AllocError>
    ensures { IfOk result (λ place. place ≡ Element (path_to tree.now node)) }
{
    Ok(Place::Element {
        path: Text::from_string(tree.path(alloc, node)?),
    })
}
