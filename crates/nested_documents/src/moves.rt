//! The parts of two documents where they go in the whole.
ghost use Rattle.std.specs.Prelude.{◌≡◌, IfOk, length, map, option_map};
ghost use Rattle.nested_documents.specs.Moves.{inner_file, moved_binding, moved_component_part, moved_connection, moved_connector_part, moved_origin, moved_parent, moved_system_part, name_below, outer_file, path_below, system_name, whole_name, whole_source};

use crate::seam::{Frame, Seam, Side};
use sim_base::{PartedText, Text};
use ssd_tree::{
    Binding, ComponentPart, Connection, Connector, Origin, Owner, SourceBase, SystemPart,
};
use std::alloc::{AllocError, Global};

// A name below another, whose parts both share.
fn name_below(
    alloc: Global,
    above: &PartedText,
    name: &PartedText,
) -> Result<PartedText, AllocError>
    ensures { IfOk result (λ full. full ≡ name_below above.now name.now) }
{
    let mut full = above.copy(alloc)?;
    full.push(alloc, Text::from_str(alloc, ".")?)?;
    full.append(name)?;
    Ok(full)
}

// A path below a folder; the folder of the outermost document has no name.
fn path_below(alloc: Global, folder: &str, path: Text) -> Result<Text, AllocError>
    ensures { IfOk result (λ full. full ≡ path_below folder.now path) }
{
    if folder.is_empty() {
        return Ok(path);
    }
    let mut full = String::from_str(alloc, folder)?;
    full.push_str("/")?;
    full.push_str(path.as_str())?;
    Ok(Text::from_string(full))
}

impl Seam {
    fn parent(&self, side: Side, parent: Option<usize>) -> Result<Option<usize>, AllocError>
        ensures { IfOk result (λ moved. moved ≡ moved_parent self.now side parent) }
    {
        match parent {
            Some(place) => Ok(Some(self.system(side, place)?)),
            None => match side {
                Side::Outer => Ok(None),
                Side::Inner => Ok(Some(self.system)),
            },
        }
    }

    fn system_part(
        &self,
        alloc: Global,
        frame: &Frame,
        side: Side,
        part: SystemPart,
    ) -> Result<SystemPart, AllocError>
        ensures { IfOk result (λ moved. moved ≡ moved_system_part self.now frame.now side part) }
    {
        let SystemPart { node, parent, name } = part;
        let name = if side == Side::Inner && parent.is_none() {
            frame.own_name.copy(alloc)?
        } else {
            name
        };
        Ok(SystemPart {
            node: self.node(side, node)?,
            parent: self.parent(side, parent)?,
            name,
        })
    }

    fn component_part(
        &self,
        alloc: Global,
        frame: &Frame,
        side: Side,
        part: ComponentPart,
    ) -> Result<ComponentPart, AllocError>
        ensures { IfOk result (λ moved. moved ≡ moved_component_part self.now frame.now side part) }
    {
        let ComponentPart {
            node,
            system,
            name,
            source,
        } = part;
        Ok(ComponentPart {
            node: self.node(side, node)?,
            system: self.system(side, system)?,
            name: full_name(alloc, frame, side, name)?,
            source: source_in(alloc, frame, side, source)?,
        })
    }

    fn connector_part(&self, side: Side, part: Connector) -> Result<Connector, AllocError>
        ensures { IfOk result (λ moved. moved ≡ moved_connector_part self.now side part) }
    {
        let Connector {
            node,
            owner,
            name,
            kind,
            child,
        } = part;
        Ok(Connector {
            node: self.node(side, node)?,
            owner: self.owner(side, owner)?,
            name,
            kind,
            child,
        })
    }

    fn connection_part(
        &self,
        ends: &[usize],
        side: Side,
        part: Connection,
    ) -> Result<Connection, AllocError>
        ensures { IfOk result (λ moved. moved ≡ moved_connection self.now ends.now side part) }
    {
        let Connection {
            node,
            start,
            end,
            change,
        } = part;
        Ok(Connection {
            node: self.node(side, node)?,
            start: self.connector(side, ends, start)?,
            end: self.connector(side, ends, end)?,
            change,
        })
    }

    // A file that a binding names.
    fn file(
        &self,
        alloc: Global,
        frame: &Frame,
        side: Side,
        owner: Owner,
        base: SourceBase,
        path: Text,
    ) -> Result<Origin, AllocError>
        ensures { IfOk result (λ moved. moved ≡ moved_origin self.now frame.now side owner
            (Origin.File base path)) }
    {
        let is_below = match side {
            Side::Outer => {
                base == SourceBase::Component && owner == Owner::Component(self.component)
            }
            Side::Inner => base == SourceBase::Description,
        };
        if is_below {
            Ok(Origin::File {
                base: SourceBase::Description,
                path: path_below(alloc, frame.folder.as_str(), path)?,
            })
        } else {
            Ok(Origin::File { base, path })
        }
    }

    fn origin(
        &self,
        alloc: Global,
        frame: &Frame,
        side: Side,
        owner: Owner,
        origin: Origin,
    ) -> Result<Origin, AllocError>
        ensures { IfOk result (λ moved. moved ≡ moved_origin self.now frame.now side owner origin) }
    {
        match origin {
            Origin::Inline { node } => Ok(Origin::Inline {
                node: self.node(side, node)?,
            }),
            Origin::File { base, path } => self.file(alloc, frame, side, owner, base, path),
        }
    }

    fn mapping(
        &self,
        alloc: Global,
        frame: &Frame,
        side: Side,
        owner: Owner,
        mapping: Option<Origin>,
    ) -> Result<Option<Origin>, AllocError>
        ensures { IfOk result (λ moved. moved ≡ option_map (moved_origin self.now frame.now side owner) mapping) }
    {
        match mapping {
            Some(origin) => Ok(Some(self.origin(alloc, frame, side, owner, origin)?)),
            None => Ok(None),
        }
    }

    fn binding_part(
        &self,
        alloc: Global,
        frame: &Frame,
        side: Side,
        part: Binding,
    ) -> Result<Binding, AllocError>
        ensures { IfOk result (λ moved. moved ≡ moved_binding self.now frame.now side part) }
    {
        let Binding {
            node,
            owner,
            prefix,
            values,
            mapping,
        } = part;
        Ok(Binding {
            node: self.node(side, node)?,
            owner: self.owner(side, owner)?,
            prefix,
            values: self.origin(alloc, frame, side, owner, values)?,
            mapping: self.mapping(alloc, frame, side, owner, mapping)?,
        })
    }

    /// The Systems of a document in the whole.
    pub(crate) fn system_parts(
        &self,
        alloc: Global,
        frame: &Frame,
        side: Side,
        parts: Vec<SystemPart>,
    ) -> Result<Vec<SystemPart>, AllocError>
        ensures { IfOk result (λ moved. moved.items ≡ map (moved_system_part self.now frame.now side) parts.items) }
    {
        let mut moved = Vec::with_capacity(alloc, parts.len())?;
        let mut left = parts.into_iter();
        while let Some(part) = left.next() {
            moved.push(self.system_part(alloc, frame, side, part)?)?;
        }
        Ok(moved)
    }

    /// The Components of a document in the whole.
    pub(crate) fn component_parts(
        &self,
        alloc: Global,
        frame: &Frame,
        side: Side,
        parts: Vec<ComponentPart>,
    ) -> Result<Vec<ComponentPart>, AllocError>
        ensures { IfOk result (λ moved. moved.items ≡ map (moved_component_part self.now frame.now side) parts.items) }
    {
        let mut moved = Vec::with_capacity(alloc, parts.len())?;
        let mut left = parts.into_iter();
        while let Some(part) = left.next() {
            moved.push(self.component_part(alloc, frame, side, part)?)?;
        }
        Ok(moved)
    }

    /// The connectors of a document in the whole.
    pub(crate) fn connector_parts(
        &self,
        alloc: Global,
        side: Side,
        parts: Vec<Connector>,
    ) -> Result<Vec<Connector>, AllocError>
        ensures { IfOk result (λ moved. moved.items ≡ map (moved_connector_part self.now side) parts.items) }
    {
        let mut moved = Vec::with_capacity(alloc, parts.len())?;
        let mut left = parts.into_iter();
        while let Some(part) = left.next() {
            moved.push(self.connector_part(side, part)?)?;
        }
        Ok(moved)
    }

    /// The connections of a document in the whole.
    pub(crate) fn connection_parts(
        &self,
        alloc: Global,
        ends: &[usize],
        side: Side,
        parts: Vec<Connection>,
    ) -> Result<Vec<Connection>, AllocError>
        ensures { IfOk result (λ moved. moved.items ≡ map (moved_connection self.now ends.now side) parts.items) }
    {
        let mut moved = Vec::with_capacity(alloc, parts.len())?;
        let mut left = parts.into_iter();
        while let Some(part) = left.next() {
            moved.push(self.connection_part(ends, side, part)?)?;
        }
        Ok(moved)
    }

    /// The bindings of a document in the whole.
    pub(crate) fn binding_parts(
        &self,
        alloc: Global,
        frame: &Frame,
        side: Side,
        parts: Vec<Binding>,
    ) -> Result<Vec<Binding>, AllocError>
        ensures { IfOk result (λ moved. moved.items ≡ map (moved_binding self.now frame.now side) parts.items) }
    {
        let mut moved = Vec::with_capacity(alloc, parts.len())?;
        let mut left = parts.into_iter();
        while let Some(part) = left.next() {
            moved.push(self.binding_part(alloc, frame, side, part)?)?;
        }
        Ok(moved)
    }
}

// The full name of a Component in the whole.
fn full_name(
    alloc: Global,
    frame: &Frame,
    side: Side,
    name: PartedText,
) -> Result<PartedText, AllocError>
    ensures { IfOk result (λ full. full ≡ whole_name frame.now side name) }
{
    match side {
        Side::Outer => Ok(name),
        Side::Inner => name_below(alloc, &frame.name, &name),
    }
}

// The source of a Component in the whole.
fn source_in(alloc: Global, frame: &Frame, side: Side, source: Text) -> Result<Text, AllocError>
    ensures { IfOk result (λ full. full ≡ whole_source frame.now side source) }
{
    match side {
        Side::Outer => Ok(source),
        Side::Inner => path_below(alloc, frame.folder.as_str(), source),
    }
}
