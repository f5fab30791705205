//! The documents of a system, read one after the other and put together.
ghost use Rattle.std.specs.Prelude.{◌≡◌, ◌≤◌, [], IfErr, IfOk, length, map};
ghost use Rattle.nested_documents.specs.Nest.{CanAdd, HoldsOnly, IsAdded, IsFrameFor, IsNext, IsWholeNest, earlier_place, fmus_in, is_before, is_refused, lacking_in, moved_waiting, setting_in, waiting_from};
ghost use Rattle.nested_documents.specs.States.{complete, document_of, gathered};

use crate::components::Waiting;
use crate::folders::{document_path, folder_of};
use crate::held::Nest;
use crate::inlining::{inlined, seam_of};
use crate::inner::{first_lacking, inner_places};
use crate::numbers::{Numbers, Place};
use crate::seam::{Frame, Seam, Side, sum};
use sim_base::Text;
use ssd_tree::{ComponentPart, Connector, DocumentParts, NestedComponent, Setting, SystemTree};
use std::alloc::{AllocError, Global};

/// The deepest level below the outermost document at which a document is read.
pub const DEEPEST_LEVEL: usize = 8;

/// The greatest number of documents that are read.
pub const MOST_DOCUMENTS: usize = 256;

/// What counts for the outermost document.
pub const OUTERMOST: Setting = Setting {
    nests: true,
    fmus: 0,
    name_above: 0,
};

/// What comes next.
#[derive(Drop)]
pub enum Next {
    /// The document at this path, below the folder of the outermost one; and what counts for it of the documents before.
    Document { path: Text, setting: Setting },
    /// No Component waits.
    Nothing,
    /// The document of this Component would stand too deep, or be one too many.
    TooDeep { place: Place },
}

/// A system whose documents are all read: what they say together, and where each of its elements stands.
#[derive(Drop)]
pub struct Whole {
    pub systems: SystemTree,
    pub numbers: Numbers,
}

// Whether a Component's document is not to be read.
fn is_refused(waiting: &Waiting, documents: usize) -> bool
    ensures { result ≡ is_refused waiting.now documents }
{
    waiting.level > DEEPEST_LEVEL || documents >= MOST_DOCUMENTS
}

fn is_before(one: Place, other: Place) -> bool
    ensures { result ≡ is_before one other }
{
    one.document < other.document || one.document == other.document && one.node < other.node
}

// The earlier of two places, where there are any.
fn earlier_place(one: Option<Place>, other: Option<Place>) -> Option<Place>
    ensures { result ≡ earlier_place one other }
{
    match one {
        None => other,
        Some(first) => match other {
            Some(second) if is_before(second, first) => Some(second),
            _ => Some(first),
        },
    }
}

// What the inner document takes from a Component.
fn frame_of(
    alloc: Global,
    component: &ComponentPart,
    waiting: &Waiting,
) -> Result<Frame, AllocError>
    ensures { IfOk result (IsFrameFor component.now waiting.now) }
{
    Ok(Frame {
        name: component.name.copy(alloc)?,
        own_name: waiting.own_name.copy(alloc)?,
        folder: folder_of(alloc, waiting.kind, component.source.as_str())?,
    })
}

// The Components of a document that wait for theirs, where so many Components stand before the document's.
fn waiting_of(
    alloc: Global,
    before: usize,
    document: usize,
    level: usize,
    nested: Vec<NestedComponent>,
) -> Result<Vec<Waiting>, AllocError>
    ensures { IfOk result (λ waiting. waiting.items ≡
        map (waiting_from before document level) nested.items) }
{
    let mut waiting = Vec::with_capacity(alloc, nested.len())?;
    let mut left = nested.into_iter();
    while let Some(one) = left.next() {
        let NestedComponent {
            component,
            node,
            own_name,
            kind,
        } = one;
        waiting.push(Waiting {
            component: sum(component, before)?,
            place: Place { document, node },
            own_name,
            kind,
            level,
        })?;
    }
    Ok(waiting)
}

// Where the first connector stands that the inner document lacks.
fn lacking_in<'a>(
    alloc: Global,
    numbers: &Numbers,
    seam: &Seam,
    outer: &'a [Connector],
    inner: &'a [Connector],
) -> Result<Option<Place>, AllocError>
    requires { seam.now.connectors_before ≤ length outer.now }
    ensures { IfOk result
        (λ place. place ≡ lacking_in numbers.now seam.now outer.now inner.now) }
{
    let places = inner_places(alloc, inner)?;
    match first_lacking(seam.own(outer), &places) {
        Some(node) => Ok(numbers.place(node)),
        None => Ok(None),
    }
}

// Those that waited before, where they are in the whole.
fn moved_on(alloc: Global, seam: &Seam, rest: Vec<Waiting>) -> Result<Vec<Waiting>, AllocError>
    ensures { IfOk result (λ waiting. waiting.items ≡ map (moved_waiting seam.now) rest.items) }
{
    let mut waiting = Vec::with_capacity(alloc, rest.len())?;
    let mut left = rest.into_iter();
    while let Some(one) = left.next() {
        let Waiting {
            component,
            place,
            own_name,
            kind,
            level,
        } = one;
        waiting.push(Waiting {
            component: seam.component(Side::Outer, component)?,
            place,
            own_name,
            kind,
            level,
        })?;
    }
    Ok(waiting)
}

impl Nest {
    /// How many FMUs the documents name that are read so far.
    pub fn fmus(&self) -> usize
        ensures { result ≡ fmus_in (gathered self.now) }
    {
        self.parts
            .components
            .len()
            .saturating_sub(self.waiting.len())
    }

    // What counts for the document that goes in place of a Component.
    fn setting(&self, component: &ComponentPart) -> Result<Setting, AllocError>
        ensures { IfOk result (λ setting. setting ≡ setting_in (gathered self.now) component.now) }
    {
        Ok(Setting {
            nests: true,
            fmus: self.fmus(),
            name_above: sum(component.name.len(), 1)?,
        })
    }

    /// What comes next: the document of the first Component that waits.
    pub fn next(&self, alloc: Global) -> Result<Next, AllocError>
        ensures { IfOk result (IsNext (gathered self.now)) }
    {
        let Some(waiting) = self.waiting.first() else {
            return Ok(Next::Nothing);
        };
        if is_refused(waiting, self.documents) {
            return Ok(Next::TooDeep {
                place: waiting.place,
            });
        }
        let component = &self.parts.components[waiting.component];
        Ok(Next::Document {
            path: document_path(alloc, waiting.kind, component.source.as_str())?,
            setting: self.setting(component)?,
        })
    }

    /// The outermost document, whose nested Components wait.
    pub fn new(alloc: Global, top: DocumentParts) -> Result<Nest, AllocError>
        ensures { IfOk result (λ nest. HoldsOnly (document_of top) (gathered nest)) }
    {
        let DocumentParts {
            parts,
            nested,
            elements,
        } = top;
        let waiting = waiting_of(alloc, 0, 0, 1, nested)?;
        let numbers = Numbers::new(alloc, 0, elements)?;
        Ok(Nest {
            parts,
            waiting,
            numbers,
            documents: 1,
            lacking: None,
        })
    }

    /// The next document, in place of the first Component that waits.
    pub fn add(self, alloc: Global, document: DocumentParts) -> Result<Nest, AllocError>
        requires { CanAdd (gathered self) }
        ensures { IfOk result (λ nest. IsAdded (gathered self) (document_of document) (gathered nest)) }
    {
        let Nest {
            parts,
            mut waiting,
            mut numbers,
            documents,
            lacking,
        } = self;
        let DocumentParts {
            parts: inner,
            nested,
            elements,
        } = document;
        let next = waiting.remove(0);
        let seam = seam_of(&parts, next.component, &inner, elements);
        let frame = frame_of(alloc, &parts.components[next.component], &next)?;
        let here = lacking_in(alloc, &numbers, &seam, &parts.connectors, &inner.connectors)?;
        let mut waits = waiting_of(alloc, next.component, documents, next.level + 1, nested)?;
        let mut rest = moved_on(alloc, &seam, waiting)?;
        waits.append(&mut rest)?;
        numbers.insert(alloc, seam.node, documents, elements)?;
        let parts = inlined(alloc, parts, next.component, &frame, inner, elements)?;
        Ok(Nest {
            parts,
            waiting: waits,
            numbers,
            documents: documents + 1,
            lacking: earlier_place(lacking, here),
        })
    }

    /// The whole, where no Component waits; or the first connector of a Component, in the order of documents, for which the
    /// outermost System of the Component's document has none of its name and kind.
    pub fn finish(self) -> Result<Whole, Place>
        requires { (gathered self).waiting ≡ [] }
        ensures whole { IfOk result (λ whole. IsWholeNest (gathered self) (complete whole)) }
        ensures lacking { IfErr result (λ place. self.lacking ≡ Some place) }
    {
        let Nest {
            parts,
            waiting: _,
            numbers,
            documents: _,
            lacking,
        } = self;
        match lacking {
            Some(place) => Err(place),
            None => Ok(Whole {
                systems: parts.into_tree(),
                numbers,
            }),
        }
    }
}
