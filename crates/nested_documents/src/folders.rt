//! Where the documents of nested Components stand.
ghost use Rattle.std.specs.Prelude.{◌≡◌, ◌++◌, IfOk, codes};
ghost use Rattle.nested_documents.specs.Folders.{IsFolderIn, IsFolderOf, document_path};

use sim_base::Text;
use ssd_tree::NestedKind;
use std::alloc::{AllocError, Global};

/// The path of the document that a Component's `source` names.
pub(crate) fn document_path(
    alloc: Global,
    kind: NestedKind,
    source: &str,
) -> Result<Text, AllocError>
    ensures { IfOk result (λ path. path ≡ document_path kind source.now) }
{
    let mut path = String::from_str(alloc, source)?;
    if kind == NestedKind::Package {
        path.push_str("/SystemStructure.ssd")?;
    }
    Ok(Text::from_string(path))
}

/// The folder below which the paths of that document stand.
pub(crate) fn folder_of(alloc: Global, kind: NestedKind, source: &str) -> Result<Text, AllocError>
    ensures { IfOk result (IsFolderOf kind source.now) }
{
    match kind {
        NestedKind::Package => Text::from_str(alloc, source),
        NestedKind::Definition => Text::from_str(alloc, folder_in(source)),
    }
}

// The folder in which a file stands: what is before the last `/` of its path.
fn folder_in(path: &str) -> &str
    ensures { IsFolderIn path.now result.now }
{
    match path.rfind('/') {
        Some(end) => &path[..end],
        None => "",
    }
}
