use doc_tree::{Refusal, Rule, Tree, read_tree};
use ssd_tree::{DocumentParts, Setting, SystemTree, read_document, read_ssd};
use std::alloc::Global;

// What stands before and after the lists of the outermost System of a document.
const HEAD: &str = r#"<SystemStructureDescription version="1.0" name="d"><System name="s">"#;

const FOOT: &str = "</System></SystemStructureDescription>";

/// A document whose outermost System has these lists.
pub(crate) fn with_lists(alloc: Global, lists: &str) -> Option<String> {
    let mut text = String::from_str(alloc, HEAD).ok()?;
    text.push_str(lists).ok()?;
    text.push_str(FOOT).ok()?;
    Some(text)
}

fn tree(alloc: Global, document: &str) -> Option<Tree> {
    read_tree(alloc, document.as_bytes()).ok()
}

/// The tree of systems of a document alone.
pub(crate) fn read(alloc: Global, document: &str) -> Option<SystemTree> {
    read_ssd(alloc, &tree(alloc, document)?).ok()
}

/// What one of several documents says.
pub(crate) fn document(alloc: Global, setting: Setting, text: &str) -> Option<DocumentParts> {
    read_document(alloc, setting, &tree(alloc, text)?).ok()
}

// The element of a refusal, and the rule.
fn told(refusal: Refusal) -> Option<(usize, Rule)> {
    match refusal {
        Refusal::At { node, rule, .. } => Some((node, rule)),
        Refusal::Memory => None,
    }
}

/// The first rule that one of several documents breaks, and its element.
pub(crate) fn refused(alloc: Global, setting: Setting, text: &str) -> Option<(usize, Rule)> {
    match read_document(alloc, setting, &tree(alloc, text)?) {
        Ok(_) => None,
        Err(refusal) => told(refusal),
    }
}

/// The same of a document alone.
pub(crate) fn refused_alone(alloc: Global, text: &str) -> Option<(usize, Rule)> {
    match read_ssd(alloc, &tree(alloc, text)?) {
        Ok(_) => None,
        Err(refusal) => told(refusal),
    }
}
