//! Where the files stand.
ghost use Rattle.std.specs.Prelude.{◌≡◌, IfOk};
ghost use Rattle.sim_base.specs.Path.{joined_path};
ghost use Rattle.system_files.specs.Documents.{told_at, told_in};
ghost use Rattle.system_files.specs.Files.{description_path};
ghost use Rattle.system_files.specs.Order.{base_folder, folder_of, folders_of, part_path};

use nested_documents::Place;
use sim_base::{Items, Text, join_path};
use ssd_tree::{ComponentPart, Owner, SourceBase};
use std::alloc::{AllocError, Global};
use system_loading::{Outline, SystemDocument, document_at};

/// The folder of each component's FMU.
pub(crate) fn folders_of(
    alloc: Global,
    directory: &str,
    outline: &Outline,
) -> Result<Items<Text>, AllocError>
    ensures { IfOk result (λ folders. folders ≡ folders_of directory.now outline.now) }
{
    let components = outline.systems.components.as_slice();
    let mut folders = Vec::with_capacity(alloc, components.len())?;
    for component in components {
        folders.push(folder_of(alloc, directory, component)?)?;
    }
    Ok(Items::from_vec(folders))
}

/// The folder of a component's FMU.
pub(crate) fn folder_of(
    alloc: Global,
    directory: &str,
    component: &ComponentPart,
) -> Result<Text, AllocError>
    ensures { IfOk result (λ folder. folder ≡ folder_of directory.now component.now) }
{
    let source = component.source.as_str();
    if source.is_empty() {
        Text::from_str(alloc, directory)
    } else {
        join(alloc, directory, source)
    }
}

/// Where the file of a part of a binding stands.
pub(crate) fn part_path(
    alloc: Global,
    directory: &str,
    outline: &Outline,
    owner: Owner,
    base: SourceBase,
    source: &str,
) -> Result<Text, AllocError>
    ensures { IfOk result (λ path. path ≡ part_path directory.now outline.now owner base
        source.now) }
{
    let folder = base_folder(alloc, directory, outline, owner, base)?;
    join(alloc, folder.as_str(), source)
}

// The folder below which the file of a part of a binding stands.
fn base_folder(
    alloc: Global,
    directory: &str,
    outline: &Outline,
    owner: Owner,
    base: SourceBase,
) -> Result<Text, AllocError>
    ensures { IfOk result (λ folder. folder ≡ base_folder directory.now outline.now owner base) }
{
    match base {
        SourceBase::Description => Text::from_str(alloc, directory),
        SourceBase::Component => owner_folder(alloc, directory, outline, owner),
    }
}

// The folder of the FMU of a component, or the directory for a System.
fn owner_folder(
    alloc: Global,
    directory: &str,
    outline: &Outline,
    owner: Owner,
) -> Result<Text, AllocError>
    ensures { IfOk result (λ folder. folder ≡ base_folder directory.now outline.now owner
        SourceBase.Component) }
{
    match owner {
        Owner::System(_) => Text::from_str(alloc, directory),
        Owner::Component(place) => match outline.systems.components.as_slice().get(place) {
            Some(component) => folder_of(alloc, directory, component),
            None => Text::from_str(alloc, directory),
        },
    }
}

/// Where the description of an FMU stands in its folder.
pub(crate) fn description_path(alloc: Global, folder: &str) -> Result<Text, AllocError>
    ensures { IfOk result (λ path. path ≡ description_path folder.now) }
{
    join(alloc, folder, "modelDescription.xml")
}

/// Where a document of a system stands, by its path below the directory.
pub(crate) fn document_path(alloc: Global, directory: &str, path: &str) -> Result<Text, AllocError>
    ensures { IfOk result (λ joined. joined ≡ joined_path directory.now path.now) }
{
    join(alloc, directory, path)
}

/// The path of the file in which an element is told: of its document, or of the description of the FMU that is alone.
pub(crate) fn told_at(
    alloc: Global,
    directory: &str,
    documents: &[SystemDocument],
    place: Place,
) -> Result<Text, AllocError>
    ensures { IfOk result (λ path. path ≡ told_at directory.now documents.now place) }
{
    match document_at(documents, place) {
        Some(document) => join(alloc, directory, document.path.as_str()),
        None => description_path(alloc, directory),
    }
}

/// The path of the file in which an element of the tree is told.
pub(crate) fn told_in(
    alloc: Global,
    directory: &str,
    outline: &Outline,
    number: usize,
) -> Result<Text, AllocError>
    ensures { IfOk result (λ path. path ≡ told_in directory.now outline.now number) }
{
    match outline.numbers.place(number) {
        Some(place) => told_at(alloc, directory, outline.documents.as_slice(), place),
        None => description_path(alloc, directory),
    }
}

// A path below a folder.
fn join(alloc: Global, folder: &str, path: &str) -> Result<Text, AllocError>
    ensures { IfOk result (λ joined. joined ≡ joined_path folder.now path.now) }
{
    Ok(Text::from_string(join_path(alloc, folder, path)?))
}
