//! The documents of a system, read one after the other and put together.
ghost use Rattle.std.specs.Prelude.{◌≡◌, Some, IfErr, IfOk};
ghost use Rattle.sim_base.specs.Path.{joined_path};
ghost use Rattle.nested_documents.specs.Nest.{CanAdd, IsNext};
ghost use Rattle.nested_documents.specs.States.{gathered};
ghost use Rattle.nested_documents.specs.declared.numbers.Place.{Place};
ghost use Rattle.system_loading.specs.Documents.{said_of};
ghost use Rattle.system_files.specs.Documents.{Adds, Begins, IsGathered, told_at};
ghost use Rattle.system_files.specs.declared.subject.Subject.TheVariants as what;
ghost use Rattle.system_files.specs.Steps.{AddsDocument, EndsAt, EndsOutline, FailsStructure, GathersFrom, TakesOutline, TellsNesting};

use crate::loading::LoadError;
use crate::named::{FileFault, NamedFile};
use crate::paths::{document_path, told_at};
use crate::reading::read_structure;
use crate::room::NoMemory;
use doc_tree::{NestingRule, Rule};
use nested_documents::{Nest, Next, OUTERMOST, Place};
use sim_base::{Folder, Items, Text};
use ssd_tree::Setting;
use std::alloc::{AllocError, Global};
use system_loading::{Outline, ReadDocument, SystemDocument, place_at};

/// What the documents say that are read so far, and the documents, in the order in which they were read.
#[derive(Drop)]
pub(crate) struct Gathering {
    pub(crate) nest: Nest,
    pub(crate) documents: Vec<SystemDocument>,
}

/// Reads the documents of a system: the outermost one, and then each that comes next.
pub(crate) fn read_outline<F: Folder>(
    alloc: Global,
    directory: &str,
    folder: &mut F,
) -> Result<Outline, LoadError>
    ensures ok { IfOk result (λ outline. TakesOutline what.System directory.now outline
        (F.view folder.old) (F.view folder.new)) }
    ensures err { IfErr result (λ end. EndsOutline what.System directory.now end
        (F.view folder.old) (F.view folder.new)) }
{
    let mut gathering = match read_top(alloc, directory, folder) {
        Ok(gathering) => gathering,
        Err(end) => return Err(end),
    };
    'documents: loop {
        match gathering.nest.next(alloc) {
            Ok(Next::Document { path, setting }) => {
                match read_next(alloc, directory, gathering, path, setting, folder) {
                    Ok(more) => gathering = more,
                    Err(end) => return Err(end),
                }
            }
            Ok(Next::Nothing) => return finish(alloc, directory, gathering),
            Ok(Next::TooDeep { place }) => {
                return Err(refuse_nesting(
                    alloc,
                    directory,
                    &gathering.documents,
                    place,
                    NestingRule::TooDeep,
                ));
            }
            Err(_) => return Err(LoadError::Memory),
        }
    }
}

// Reads the outermost document.
fn read_top<F: Folder>(
    alloc: Global,
    directory: &str,
    folder: &mut F,
) -> Result<Gathering, LoadError>
    ensures ok { IfOk result (λ now. GathersFrom directory.now now.documents.items
        (gathered now.nest) (F.view folder.old) (F.view folder.new)) }
    ensures err { IfErr result (λ end. EndsOutline what.System directory.now end
        (F.view folder.old) (F.view folder.new)) }
{
    match name_document(alloc, directory, "SystemStructure.ssd") {
        Ok(file) => match read_structure(alloc, file, OUTERMOST, folder) {
            Ok(read) => match begin(alloc, read) {
                Ok(gathering) => Ok(gathering),
                Err(_) => Err(LoadError::Memory),
            },
            Err(end) => Err(end),
        },
        Err(_) => Err(LoadError::Memory),
    }
}

// What the outermost document says.
fn begin(alloc: Global, read: ReadDocument) -> Result<Gathering, AllocError>
    ensures { IfOk result (λ now. Begins (said_of read) now.documents.items (gathered now.nest)) }
{
    let ReadDocument { parts, tree } = read;
    let path = Text::from_str(alloc, "SystemStructure.ssd")?;
    let nest = Nest::new(alloc, parts)?;
    let mut documents = Vec::with_capacity(alloc, 1)?;
    documents.push_reserved(SystemDocument { path, tree });
    Ok(Gathering { nest, documents })
}

// Reads the document that comes next, and puts it in place of its Component.
fn read_next<F: Folder>(
    alloc: Global,
    directory: &str,
    gathering: Gathering,
    path: Text,
    setting: Setting,
    folder: &mut F,
) -> Result<Gathering, LoadError>
    requires { IsNext (gathered gathering.nest) (Next.Document path setting) }
    ensures ok { IfOk result (λ now. AddsDocument directory.now path setting
        gathering.documents.items (gathered gathering.nest) now.documents.items
        (gathered now.nest) (F.view folder.old) (F.view folder.new)) }
    ensures err { IfErr result (λ end. EndsAt (FailsStructure setting)
        (joined_path directory.now path) end (F.view folder.old) (F.view folder.new)) }
{
    match name_document(alloc, directory, path.as_str()) {
        Ok(file) => match read_structure(alloc, file, setting, folder) {
            Ok(read) => match add(alloc, gathering, path, read) {
                Ok(more) => Ok(more),
                Err(_) => Err(LoadError::Memory),
            },
            Err(end) => Err(end),
        },
        Err(_) => Err(LoadError::Memory),
    }
}

// A document more.
fn add(
    alloc: Global,
    gathering: Gathering,
    path: Text,
    read: ReadDocument,
) -> Result<Gathering, AllocError>
    requires { CanAdd (gathered gathering.nest) }
    ensures { IfOk result (λ now. Adds (said_of read) path gathering.documents.items
        (gathered gathering.nest) now.documents.items (gathered now.nest)) }
{
    let Gathering {
        nest,
        mut documents,
    } = gathering;
    let ReadDocument { parts, tree } = read;
    let nest = nest.add(alloc, parts)?;
    documents.push(SystemDocument { path, tree })?;
    Ok(Gathering { nest, documents })
}

// The outline, where all documents are read.
fn finish(alloc: Global, directory: &str, gathering: Gathering) -> Result<Outline, LoadError>
    requires { IsNext (gathered gathering.nest) Next.Nothing }
    ensures ok { IfOk result (λ outline. IsGathered gathering.documents.items
        (gathered gathering.nest) outline) }
    ensures err { IfErr result (λ end. (place : Place) × ((gathered gathering.nest).lacking ≡ Some place)
        × TellsNesting directory.now gathering.documents.items place NestingRule.NoInnerConnector end) }
{
    let Gathering { nest, documents } = gathering;
    match nest.finish() {
        Ok(whole) => Ok(Outline {
            systems: whole.systems,
            numbers: whole.numbers,
            documents: Items::from_vec(documents),
        }),
        Err(place) => Err(refuse_nesting(
            alloc,
            directory,
            &documents,
            place,
            NestingRule::NoInnerConnector,
        )),
    }
}

// The end at an element of a document, where documents stand in one another so.
fn refuse_nesting(
    alloc: Global,
    directory: &str,
    documents: &[SystemDocument],
    place: Place,
    rule: NestingRule,
) -> LoadError
    ensures { TellsNesting directory.now documents.now place rule result }
{
    match name_told(alloc, directory, documents, place) {
        Ok(file) => match place_at(alloc, documents, place) {
            Ok(told) => LoadError::File {
                file,
                fault: FileFault::Broken {
                    rule: Rule::Nesting(rule),
                    place: told,
                    ports: Items::from_vec(Vec::new(alloc)),
                },
            },
            Err(_) => LoadError::Memory,
        },
        Err(_) => LoadError::Memory,
    }
}

// A document of a system, before it is read.
fn name_document(alloc: Global, directory: &str, path: &str) -> Result<NamedFile, NoMemory>
    ensures { IfOk result (λ file. file.path ≡ joined_path directory.now path.now) }
{
    NamedFile::new(alloc, document_path(alloc, directory, path)?)
}

// The file in which an element is told.
fn name_told(
    alloc: Global,
    directory: &str,
    documents: &[SystemDocument],
    place: Place,
) -> Result<NamedFile, NoMemory>
    ensures { IfOk result (λ file. file.path ≡ told_at directory.now documents.now place) }
{
    NamedFile::new(alloc, told_at(alloc, directory, documents, place)?)
}
