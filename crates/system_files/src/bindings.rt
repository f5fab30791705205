//! What bindings of parameters give, whose files are read in document order.
ghost use Rattle.std.specs.Prelude.{◌≡◌, IfErr, IfOk};
ghost use Rattle.parameter_values.specs.Ranges.{AreInRange};
ghost use Rattle.system_files.specs.Documents.{told_in};
ghost use Rattle.system_files.specs.Order.{part_path, part_told};
ghost use Rattle.system_files.specs.Steps.{EndsBinding, EndsBindings, EndsPart, FailsMapping, FailsMappingWithin, FailsValues, FailsValuesWithin, HasBindingDocument, HasDocument, HasOriginDocument, SaysMapping, SaysMappingWithin, SaysValues, SaysValuesWithin, TakesBinding, TakesBindings, TakesPart, TellsWithin};

use crate::loading::LoadError;
use crate::named::NamedFile;
use crate::paths::{part_path, told_in};
use crate::reading::{read_names, read_set, refuse};
use crate::room::NoMemory;
use sim_base::Folder;
use ssd_tree::{Binding, Origin, Owner, SourceBase};
use std::alloc::Global;
use system_loading::{
    Fault, GivenBinding, GivenMapping, GivenSet, Outline, mapping_within, values_within,
};

/// What each binding of an outline gives, in document order: its values, and then its mapping.
pub(crate) fn load_bindings<F: Folder>(
    alloc: Global,
    directory: &str,
    outline: &Outline,
    folder: &mut F,
) -> Result<Vec<GivenBinding>, LoadError>
    requires { HasDocument outline.now }
    ensures ok { IfOk result (λ given. TakesBindings directory.now outline.now
        outline.now.systems.bindings given.items (F.view folder.old) (F.view folder.new)) }
    ensures err { IfErr result (λ end. EndsBindings directory.now outline.now end
        (F.view folder.old) (F.view folder.new)) }
{
    let bindings = outline.systems.bindings.as_slice();
    let Ok(room) = Vec::with_capacity(alloc, bindings.len()) else {
        return Err(LoadError::Memory);
    };
    let mut given = room;
    for place in 0..bindings.len() {
        let binding = &bindings[place];
        match load_binding(alloc, directory, outline, binding, folder) {
            Ok(one) => given.push_reserved(one),
            Err(end) => return Err(end),
        }
    }
    Ok(given)
}

// What a binding gives: its values, and then its mapping.
fn load_binding<F: Folder>(
    alloc: Global,
    directory: &str,
    outline: &Outline,
    binding: &Binding,
    folder: &mut F,
) -> Result<GivenBinding, LoadError>
    requires { HasBindingDocument outline.now binding.now }
    ensures ok { IfOk result (λ given. TakesBinding directory.now outline.now binding.now given
        (F.view folder.old) (F.view folder.new)) }
    ensures err { IfErr result (λ end. EndsBinding directory.now outline.now binding.now end
        (F.view folder.old) (F.view folder.new)) }
{
    match load_values(
        alloc,
        directory,
        outline,
        binding.owner,
        &binding.values,
        folder,
    ) {
        Ok(values) => match &binding.mapping {
            Some(origin) => match load_mapping(
                alloc,
                directory,
                outline,
                binding.owner,
                origin,
                folder,
            ) {
                Ok(mapping) => Ok(GivenBinding {
                    values,
                    mapping: Some(mapping),
                }),
                Err(end) => Err(end),
            },
            None => Ok(GivenBinding {
                values,
                mapping: None,
            }),
        },
        Err(end) => Err(end),
    }
}

// The values of a binding, from their file or from the outline.
fn load_values<F: Folder>(
    alloc: Global,
    directory: &str,
    outline: &Outline,
    owner: Owner,
    origin: &Origin,
    folder: &mut F,
) -> Result<GivenSet, LoadError>
    requires { HasOriginDocument outline.now origin.now }
    ensures ok { IfOk result (λ given. TakesPart SaysValues SaysValuesWithin directory.now
        outline.now owner origin.now given (F.view folder.old) (F.view folder.new)) }
    ensures range { IfOk result (λ given. AreInRange given.set) }
    ensures err { IfErr result (λ end. EndsPart FailsValues FailsValuesWithin directory.now
        outline.now owner origin.now end (F.view folder.old) (F.view folder.new)) }
{
    match origin {
        Origin::File { base, path } => match name_part(
            alloc,
            directory,
            outline,
            owner,
            *base,
            path.as_str(),
        ) {
            Ok(file) => read_set(alloc, file, folder),
            Err(_) => Err(LoadError::Memory),
        },
        Origin::Inline { node } => match values_within(alloc, outline, *node) {
            Ok(given) => Ok(given),
            Err(fault) => Err(refuse_within(alloc, directory, outline, *node, fault)),
        },
    }
}

// The mapping of a binding, from its file or from the outline.
fn load_mapping<F: Folder>(
    alloc: Global,
    directory: &str,
    outline: &Outline,
    owner: Owner,
    origin: &Origin,
    folder: &mut F,
) -> Result<GivenMapping, LoadError>
    requires { HasOriginDocument outline.now origin.now }
    ensures ok { IfOk result (λ given. TakesPart SaysMapping SaysMappingWithin directory.now
        outline.now owner origin.now given (F.view folder.old) (F.view folder.new)) }
    ensures err { IfErr result (λ end. EndsPart FailsMapping FailsMappingWithin
        directory.now outline.now owner origin.now end (F.view folder.old) (F.view folder.new)) }
{
    match origin {
        Origin::File { base, path } => match name_part(
            alloc,
            directory,
            outline,
            owner,
            *base,
            path.as_str(),
        ) {
            Ok(file) => read_names(alloc, file, folder),
            Err(_) => Err(LoadError::Memory),
        },
        Origin::Inline { node } => match mapping_within(alloc, outline, *node) {
            Ok(given) => Ok(given),
            Err(fault) => Err(refuse_within(alloc, directory, outline, *node, fault)),
        },
    }
}

// The file of a part of a binding, before it is read.
fn name_part(
    alloc: Global,
    directory: &str,
    outline: &Outline,
    owner: Owner,
    base: SourceBase,
    source: &str,
) -> Result<NamedFile, NoMemory>
    ensures { IfOk result (λ file. file.path ≡ part_path directory.now outline.now owner base
        source.now) }
{
    NamedFile::new(
        alloc,
        part_path(alloc, directory, outline, owner, base, source)?,
    )
}

/// The file in which an element of the tree is told.
pub(crate) fn name_told(
    alloc: Global,
    directory: &str,
    outline: &Outline,
    number: usize,
) -> Result<NamedFile, NoMemory>
    ensures { IfOk result (λ file. file.path ≡ told_in directory.now outline.now number) }
{
    NamedFile::new(alloc, told_in(alloc, directory, outline, number)?)
}

/// The file in which a part of a binding is told.
pub(crate) fn name_part_told(
    alloc: Global,
    directory: &str,
    outline: &Outline,
    owner: Owner,
    origin: &Origin,
) -> Result<NamedFile, NoMemory>
    ensures { IfOk result (λ file. file.path ≡ part_told directory.now outline.now owner
        origin.now) }
{
    match origin {
        Origin::File { base, path } => name_part(
            alloc,
            directory,
            outline,
            owner,
            *base,
            path.as_str(),
        ),
        Origin::Inline { node } => name_told(alloc, directory, outline, *node),
    }
}

// The end at what stands within an element and breaks a rule by itself.
fn refuse_within(
    alloc: Global,
    directory: &str,
    outline: &Outline,
    number: usize,
    fault: Fault,
) -> LoadError
    ensures { TellsWithin fault (told_in directory.now outline.now number) result }
{
    match name_told(alloc, directory, outline, number) {
        Ok(file) => refuse(alloc, file, fault),
        Err(_) => LoadError::Memory,
    }
}
