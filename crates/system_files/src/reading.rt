//! One file, read and understood.
ghost use Rattle.std.specs.Prelude.{◌≡◌, IfErr, IfOk};
ghost use Rattle.parameter_values.specs.Ranges.{AreInRange};
ghost use Rattle.system_loading.specs.Documents.{said_of};
ghost use Rattle.system_files.specs.Files.{description_path};
ghost use Rattle.system_files.specs.Steps.{EndsAt, EndsUnread, FailsMapping, FailsModel, FailsStructure, FailsValues, SaysMapping, SaysModel, SaysStructure, SaysValues, TakesFile, fault_end, unread_end};

use crate::loading::LoadError;
use crate::named::{FileFault, NamedFile};
use crate::paths::description_path;
use crate::room::NoMemory;
use sim_base::{Folder, Items, MOST_FILE_BYTES, ReadFault, SharedBytes, Text};
use ssd_tree::Setting;
use std::alloc::Global;
use system_loading::{
    Fault, GivenMapping, GivenSet, ReadDocument, read_mapping, read_shape, read_system_document,
    read_values,
};
use value_types::Shape;

/// Reads the bytes of the file at a path, of which there are at most 16 MiB, whatever they say.
pub fn read_file<F: Folder>(
    alloc: Global,
    path: &str,
    folder: &mut F,
) -> Result<SharedBytes, LoadError>
    ensures ok { IfOk result (λ bytes. TakesFile (λ read given. read ≡ given) path.now bytes
        (F.view folder.old) (F.view folder.new)) }
    ensures err { IfErr result (λ end. EndsUnread path.now end (F.view folder.old)
        (F.view folder.new)) }
{
    let Ok(file) = name_file(alloc, path) else {
        return Err(LoadError::Memory);
    };
    match folder.read(alloc, file.path.as_str(), MOST_FILE_BYTES) {
        Ok(bytes) => Ok(bytes),
        Err(fault) => Err(leave_unread(file, fault)),
    }
}

// The file at a path, before it is read.
fn name_file(alloc: Global, path: &str) -> Result<NamedFile, NoMemory>
    ensures { IfOk result (λ file. file.path ≡ path.now) }
{
    NamedFile::new(alloc, Text::from_str(alloc, path)?)
}

/// Reads a document of a system, by what counts for it of the documents before.
pub(crate) fn read_structure<F: Folder>(
    alloc: Global,
    file: NamedFile,
    setting: Setting,
    folder: &mut F,
) -> Result<ReadDocument, LoadError>
    ensures ok { IfOk result (λ read. TakesFile (SaysStructure setting) file.path (said_of read)
        (F.view folder.old) (F.view folder.new)) }
    ensures err { IfErr result (λ end. EndsAt (FailsStructure setting) file.path end
        (F.view folder.old) (F.view folder.new)) }
{
    match folder.read(alloc, file.path.as_str(), MOST_FILE_BYTES) {
        Ok(bytes) => match read_system_document(alloc, bytes.as_slice(), setting) {
            Ok(read) => Ok(read),
            Err(fault) => Err(refuse(alloc, file, fault)),
        },
        Err(fault) => Err(leave_unread(file, fault)),
    }
}

/// Reads the description of an FMU.
pub(crate) fn read_model<F: Folder>(
    alloc: Global,
    file: NamedFile,
    resolution: u64,
    folder: &mut F,
) -> Result<Shape, LoadError>
    ensures ok { IfOk result (λ shape. TakesFile (SaysModel resolution) file.path shape
        (F.view folder.old) (F.view folder.new)) }
    ensures err { IfErr result (λ end. EndsAt (FailsModel resolution) file.path end
        (F.view folder.old) (F.view folder.new)) }
{
    match folder.read(alloc, file.path.as_str(), MOST_FILE_BYTES) {
        Ok(bytes) => match read_shape(alloc, bytes.as_slice(), resolution) {
            Ok(shape) => Ok(shape),
            Err(fault) => Err(refuse(alloc, file, fault)),
        },
        Err(fault) => Err(leave_unread(file, fault)),
    }
}

/// Reads a set of parameter values.
pub(crate) fn read_set<F: Folder>(
    alloc: Global,
    file: NamedFile,
    folder: &mut F,
) -> Result<GivenSet, LoadError>
    ensures ok { IfOk result (λ given. TakesFile SaysValues file.path given
        (F.view folder.old) (F.view folder.new)) }
    ensures range { IfOk result (λ given. AreInRange given.set) }
    ensures err { IfErr result (λ end. EndsAt FailsValues file.path end (F.view folder.old)
        (F.view folder.new)) }
{
    match folder.read(alloc, file.path.as_str(), MOST_FILE_BYTES) {
        Ok(bytes) => match read_values(alloc, bytes.as_slice()) {
            Ok(given) => Ok(given),
            Err(fault) => Err(refuse(alloc, file, fault)),
        },
        Err(fault) => Err(leave_unread(file, fault)),
    }
}

/// Reads a mapping of parameters.
pub(crate) fn read_names<F: Folder>(
    alloc: Global,
    file: NamedFile,
    folder: &mut F,
) -> Result<GivenMapping, LoadError>
    ensures ok { IfOk result (λ given. TakesFile SaysMapping file.path given
        (F.view folder.old) (F.view folder.new)) }
    ensures err { IfErr result (λ end. EndsAt FailsMapping file.path end (F.view folder.old)
        (F.view folder.new)) }
{
    match folder.read(alloc, file.path.as_str(), MOST_FILE_BYTES) {
        Ok(bytes) => match read_mapping(alloc, bytes.as_slice()) {
            Ok(given) => Ok(given),
            Err(fault) => Err(refuse(alloc, file, fault)),
        },
        Err(fault) => Err(leave_unread(file, fault)),
    }
}

/// The description of an FMU in its folder, before it is read.
pub(crate) fn name_description(alloc: Global, folder: &str) -> Result<NamedFile, NoMemory>
    ensures { IfOk result (λ file. file.path ≡ description_path folder.now) }
{
    NamedFile::new(alloc, description_path(alloc, folder)?)
}

// The end at a file that wasn't answered.
fn leave_unread(file: NamedFile, fault: ReadFault) -> LoadError
    ensures { result ≡ unread_end file fault }
{
    match fault {
        ReadFault::Failed => LoadError::File {
            file,
            fault: FileFault::Unread,
        },
        ReadFault::Missing => LoadError::File {
            file,
            fault: FileFault::Missing,
        },
        ReadFault::TooBig { .. } => LoadError::File {
            file,
            fault: FileFault::TooBig,
        },
        ReadFault::Memory => LoadError::Memory,
    }
}

/// The end at a file that breaks a rule by itself.
pub(crate) fn refuse(alloc: Global, file: NamedFile, fault: Fault) -> LoadError
    ensures { result ≡ fault_end file fault }
{
    match fault {
        Fault::Broken { rule, place } => LoadError::File {
            file,
            fault: FileFault::Broken {
                rule,
                place,
                ports: Items::from_vec(Vec::new(alloc)),
            },
        },
        Fault::Memory => LoadError::Memory,
    }
}
