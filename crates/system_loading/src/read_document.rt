//! What one of the documents of a system says.
use doc_tree::Tree;
use ssd_tree::DocumentParts;

/// What one of the documents of a system says, and its elements.
#[derive(Drop)]
pub struct ReadDocument {
    pub parts: DocumentParts,
    pub tree: Tree,
}
