//! What the bytes of one file say.
ghost use Rattle.std.specs.Prelude.{◌≡◌, ℕ, IfErr, IfOk, IsSome};
ghost use Rattle.doc_tree.specs.Path.{path_to};
ghost use Rattle.doc_tree.specs.declared.place.Place.TheVariants.{Element};
ghost use Rattle.parameter_values.specs.Ranges.{AreInRange};
ghost use Rattle.system_loading.specs.declared.outline.Outline.{Outline};
ghost use Rattle.system_loading.specs.Documents.{BreaksStructure, IsStructure, said_of};
ghost use Rattle.system_loading.specs.Faults.{IsDocumentFault, SaysFault, TellsFirst};
ghost use Rattle.system_loading.specs.Outlines.{element_in};
ghost use Rattle.system_loading.specs.Readings.{BreaksMapping, BreaksMappingWithin, BreaksModel, BreaksValues, BreaksValuesWithin, IsMapping, IsMappingWithin, IsModel, IsValues, IsValuesWithin, SaysAlone};

use crate::{Fault, GivenMapping, GivenSet, Outline, ReadDocument};
use doc_tree::{DocError, Place, Refusal, Rule, Tree, read_tree};
use fmu_description::read_description;
use nesting_laws::one_nest;
use parameter_sets::{read_mapping_in, read_ssm, read_ssv, read_values_in};
use sim_base::Text;
use ssd_tree::{Setting, read_document};
use std::alloc::Global;
use value_types::Shape;

/// The shape of the FMU whose model description the bytes are, or the first rule that they break and its place. A second
/// has `resolution` counts (FMI 3.0, 2.4).
pub fn read_shape(alloc: Global, bytes: &[u8], resolution: u64) -> Result<Shape, Fault>
    ensures ok { IfOk result (SaysAlone (IsModel resolution bytes.now)
        (BreaksModel resolution bytes.now)) }
    ensures err { IfErr result (TellsFirst (IsModel resolution bytes.now)
        (BreaksModel resolution bytes.now)) }
{
    let tree = match read_tree(alloc, bytes) {
        Ok(tree) => tree,
        Err(error) => return Err(document_fault(error)),
    };
    match read_description(alloc, &tree, resolution) {
        Ok(shape) => Ok(shape),
        Err(Refusal::At { node, rule, .. }) => Err(element_fault(alloc, &tree, rule, node)),
        Err(Refusal::Memory) => Err(Fault::Memory),
    }
}

/// What a document of a system says whose bytes these are, by what counts for it of the documents before, or the first rule
/// that they break and its place (SSP 1.0, SystemStructure.ssd).
pub fn read_system_document(
    alloc: Global,
    bytes: &[u8],
    setting: Setting,
) -> Result<ReadDocument, Fault>
    ensures ok { IfOk result (λ read. SaysAlone (IsStructure setting bytes.now)
        (BreaksStructure setting bytes.now) (said_of read)) }
    ensures err { IfErr result (TellsFirst (IsStructure setting bytes.now)
        (BreaksStructure setting bytes.now)) }
{
    one_nest();
    let tree = match read_tree(alloc, bytes) {
        Ok(tree) => tree,
        Err(error) => return Err(document_fault(error)),
    };
    match read_document(alloc, setting, &tree) {
        Ok(parts) => Ok(ReadDocument { parts, tree }),
        Err(Refusal::At { node, rule, .. }) => Err(element_fault(alloc, &tree, rule, node)),
        Err(Refusal::Memory) => Err(Fault::Memory),
    }
}

/// The set of parameter values that the bytes are, or the first rule that they break and its place (SSP 1.0, SSV).
pub fn read_values(alloc: Global, bytes: &[u8]) -> Result<GivenSet, Fault>
    ensures ok { IfOk result (SaysAlone (IsValues bytes.now) (BreaksValues bytes.now)) }
    ensures range { IfOk result (λ given. AreInRange given.set) }
    ensures err { IfErr result (TellsFirst (IsValues bytes.now) (BreaksValues bytes.now)) }
{
    let tree = match read_tree(alloc, bytes) {
        Ok(tree) => tree,
        Err(error) => return Err(document_fault(error)),
    };
    match read_ssv(alloc, &tree) {
        Ok(set) => Ok(GivenSet {
            set,
            document: Some(tree),
        }),
        Err(Refusal::At { node, rule, .. }) => Err(element_fault(alloc, &tree, rule, node)),
        Err(Refusal::Memory) => Err(Fault::Memory),
    }
}

/// The mapping of parameters that the bytes are, or the first rule that they break and its place (SSP 1.0, SSM).
pub fn read_mapping(alloc: Global, bytes: &[u8]) -> Result<GivenMapping, Fault>
    ensures ok { IfOk result (SaysAlone (IsMapping bytes.now) (BreaksMapping bytes.now)) }
    ensures err { IfErr result (TellsFirst (IsMapping bytes.now) (BreaksMapping bytes.now)) }
{
    let tree = match read_tree(alloc, bytes) {
        Ok(tree) => tree,
        Err(error) => return Err(document_fault(error)),
    };
    match read_ssm(alloc, &tree) {
        Ok(mapping) => Ok(GivenMapping {
            mapping,
            document: Some(tree),
        }),
        Err(Refusal::At { node, rule, .. }) => Err(element_fault(alloc, &tree, rule, node)),
        Err(Refusal::Memory) => Err(Fault::Memory),
    }
}

/// The set of parameter values within an element of one of the outline's documents, or the first rule that it breaks and its
/// place.
pub fn values_within(alloc: Global, outline: &Outline, holder: usize) -> Result<GivenSet, Fault>
    requires { IsSome (element_in outline.now holder) }
    ensures ok { IfOk result (SaysAlone (IsValuesWithin outline.now holder)
        (BreaksValuesWithin outline.now holder)) }
    ensures range { IfOk result (λ given. AreInRange given.set) }
    ensures err { IfErr result (TellsFirst (IsValuesWithin outline.now holder)
        (BreaksValuesWithin outline.now holder)) }
{
    let element = outline.element(holder).unwrap();
    values_in(alloc, element.0, element.1)
}

fn values_in(alloc: Global, tree: &Tree, at: usize) -> Result<GivenSet, Fault>
    ensures ok { (outline : Outline) (holder : ℕ) → element_in outline holder ≡ Some (tree.now, at) →
        IfOk result (SaysAlone (IsValuesWithin outline holder) (BreaksValuesWithin outline holder)) }
    ensures range { IfOk result (λ given. AreInRange given.set) }
    ensures err { (outline : Outline) (holder : ℕ) →
        element_in outline holder ≡ Some (tree.now, at) →
        IfErr result (TellsFirst (IsValuesWithin outline holder)
        (BreaksValuesWithin outline holder)) }
{
    match read_values_in(alloc, tree, at) {
        Ok(set) => Ok(GivenSet {
            set,
            document: None,
        }),
        Err(Refusal::At { node, rule, .. }) => Err(element_fault(alloc, tree, rule, node)),
        Err(Refusal::Memory) => Err(Fault::Memory),
    }
}

/// The mapping of parameters within an element of one of the outline's documents, or the first rule that it breaks and its
/// place.
pub fn mapping_within(
    alloc: Global,
    outline: &Outline,
    holder: usize,
) -> Result<GivenMapping, Fault>
    requires { IsSome (element_in outline.now holder) }
    ensures ok { IfOk result (SaysAlone (IsMappingWithin outline.now holder)
        (BreaksMappingWithin outline.now holder)) }
    ensures err { IfErr result (TellsFirst (IsMappingWithin outline.now holder)
        (BreaksMappingWithin outline.now holder)) }
{
    let element = outline.element(holder).unwrap();
    mapping_in(alloc, element.0, element.1)
}

fn mapping_in(alloc: Global, tree: &Tree, at: usize) -> Result<GivenMapping, Fault>
    ensures ok { (outline : Outline) (holder : ℕ) → element_in outline holder ≡ Some (tree.now, at) →
        IfOk result (SaysAlone (IsMappingWithin outline holder)
        (BreaksMappingWithin outline holder)) }
    ensures err { (outline : Outline) (holder : ℕ) →
        element_in outline holder ≡ Some (tree.now, at) →
        IfErr result (TellsFirst (IsMappingWithin outline holder)
        (BreaksMappingWithin outline holder)) }
{
    match read_mapping_in(alloc, tree, at) {
        Ok(mapping) => Ok(GivenMapping {
            mapping,
            document: None,
        }),
        Err(Refusal::At { node, rule, .. }) => Err(element_fault(alloc, tree, rule, node)),
        Err(Refusal::Memory) => Err(Fault::Memory),
    }
}

// The fault of bytes that are no document.
fn document_fault(error: DocError) -> Fault
    ensures { IsDocumentFault error result }
{
    match error {
        DocError::At { rule, byte } => Fault::Broken {
            rule: Rule::Document(rule),
            place: Place::Byte { at: byte },
        },
        DocError::Memory => Fault::Memory,
    }
}

// The fault of an element.
fn element_fault(alloc: Global, tree: &Tree, rule: Rule, node: usize) -> Fault
    ensures { SaysFault rule (Element (path_to tree.now node)) result }
{
    match tree.path(alloc, node) {
        Ok(path) => Fault::Broken {
            rule,
            place: Place::Element {
                path: Text::from_string(path),
            },
        },
        Err(_) => Fault::Memory,
    }
}
