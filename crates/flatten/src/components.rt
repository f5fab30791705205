//! The components of the flattened system.
ghost use Rattle.std.specs.Prelude.{◌≡◌, ◌≤◌, ◌^◌, IfOk, length};
ghost use Rattle.doc_tables.specs.Places.{found_name};
ghost use Rattle.doc_tables.specs.Tables.{IsTable};
ghost use Rattle.flatten.specs.Flat.{AreComponentsOf, source_at};

use doc_tables::NamePlaces;
use sim_base::{Items, SourceId};
use ssd_tree::ComponentPart;
use std::alloc::{AllocError, Global};
use system_model::Component;
use value_types::Shape;

// The first component of each source.
fn first_of_sources(alloc: Global, parts: &[ComponentPart]) -> Result<NamePlaces<'_>, AllocError>
    ensures { IfOk result (λ places. IsTable (source_at parts.now) (found_name places)) }
{
    let mut places = NamePlaces::new(alloc);
    for component in 0..parts.len() {
        places.put(Some(parts[component].source.as_str()), component)?;
    }
    Ok(places)
}

fn component(
    alloc: Global,
    part: &ComponentPart,
    shape: &Shape,
    source: u32,
) -> Result<Component, AllocError>
    ensures { IfOk result (λ component. (component.name ≡ part.now.name) ×
        (component.source.0 ≡ source) × (component.shape ≡ shape.now)) }
{
    Ok(Component {
        name: part.name.copy(alloc)?,
        source: SourceId(source),
        shape: shape.copy(alloc)?,
    })
}

/// The components with their full names and shapes; the number of a source is that of the first component with it.
pub(crate) fn components(
    alloc: Global,
    parts: &[ComponentPart],
    shapes: &[Shape],
) -> Result<Items<Component>, AllocError>
    requires few { length parts.now ≤ 2 ^ 32 }
    requires len { length shapes.now ≡ length parts.now }
    ensures { IfOk result (AreComponentsOf parts.now shapes.now) }
{
    let sources = first_of_sources(alloc, parts)?;
    let mut components = Vec::with_capacity(alloc, parts.len())?;
    for number in 0..parts.len() {
        let part = &parts[number];
        let source = sources.find(part.source.as_str()).unwrap_or(number);
        components.push(component(alloc, part, &shapes[number], source as u32)?)?;
    }
    Ok(Items::from_vec(components))
}
