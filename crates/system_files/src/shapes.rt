//! The shapes of components, whose descriptions are read in the order of their first uses.
ghost use Rattle.std.specs.Prelude.{◌≡◌, ℕ, All, List, IfErr, IfOk, IfSome, length, slice_get};
ghost use Rattle.doc_tables.specs.Places.{found_name};
ghost use Rattle.doc_tables.specs.Tables.{IsTableBelow};
ghost use Rattle.flatten.specs.Flat.{source_at};
ghost use Rattle.ssd_tree.specs.Parts.{IsPlain};
ghost use Rattle.ssd_tree.specs.declared.tree.ComponentPart.{ComponentPart};
ghost use Rattle.system_files.specs.Order.{model_path};
ghost use Rattle.system_files.specs.Steps.{EndsAt, EndsNext, EndsShapes, FailsModel, IsNew, SaysModel, TakesFile, TakesNext, TakesShapes};

use crate::loading::LoadError;
use crate::named::NamedFile;
use crate::paths::folder_of;
use crate::reading::{name_description, read_model};
use crate::room::NoMemory;
use doc_tables::NamePlaces;
use sim_base::Folder;
use ssd_tree::ComponentPart;
use std::alloc::Global;
use value_types::Shape;

/// The shape of each component, whose description is read where its FMU is used first.
pub(crate) fn load_shapes<F: Folder>(
    alloc: Global,
    directory: &str,
    components: &[ComponentPart],
    resolution: u64,
    folder: &mut F,
) -> Result<Vec<Shape>, LoadError>
    requires { All (λ (c : ComponentPart). IsPlain c.source) components.now }
    ensures ok { IfOk result (λ shapes. TakesShapes resolution directory.now components.now
        shapes.items (F.view folder.old) (F.view folder.new)) }
    ensures err { IfErr result (λ end. EndsShapes resolution directory.now components.now end
        (F.view folder.old) (F.view folder.new)) }
{
    let Ok(room) = Vec::with_capacity(alloc, components.len()) else {
        return Err(LoadError::Memory);
    };
    let mut shapes = room;
    let mut known = NamePlaces::new(alloc);
    for place in 0..components.len() {
        let component = &components[place];
        match next_shape(
            alloc, directory, component, &known, &shapes, resolution, folder,
        ) {
            Ok(shape) => shapes.push_reserved(shape),
            Err(end) => return Err(end),
        }
        let Ok(()) = known.put(Some(component.source.as_str()), place) else {
            return Err(LoadError::Memory);
        };
    }
    Ok(shapes)
}

// The shape of the next component: that of the first with its source, or what its description says.
fn next_shape<F: Folder>(
    alloc: Global,
    directory: &str,
    component: &ComponentPart,
    known: &NamePlaces<'_>,
    shapes: &[Shape],
    resolution: u64,
    folder: &mut F,
) -> Result<Shape, LoadError>
    ensures ok { (components : List ComponentPart) → IsTableBelow (source_at components) (length shapes.now) (found_name known.now) →
        IfOk result (λ shape. TakesNext resolution directory.now components (length shapes.now) component.now shapes.now shape (F.view folder.old) (F.view folder.new)) }
    ensures err { (components : List ComponentPart) → IsTableBelow (source_at components) (length shapes.now) (found_name known.now) →
        IfErr result (λ end. EndsNext resolution directory.now components (length shapes.now) component.now end (F.view folder.old) (F.view folder.new)) }
{
    match known_shape(known, component.source.as_str(), shapes) {
        Some(shape) => copy_shape(alloc, shape),
        None => load_shape(alloc, directory, component, resolution, folder),
    }
}

// The shape of the first component with a source, where there is one before.
fn known_shape<'a>(known: &NamePlaces<'_>, source: &str, shapes: &'a [Shape]) -> Option<&'a Shape>
    ensures known { IfSome result (λ shape. (components : List ComponentPart) → IsTableBelow (source_at components) (length shapes.now) (found_name known.now) →
        (first : ℕ) × (source_at components first ≡ Some source.now) × (slice_get shapes.now first ≡ Some shape.now)) }
    ensures new { result ≡ None → (components : List ComponentPart) → IsTableBelow (source_at components) (length shapes.now) (found_name known.now) →
        IsNew components (length shapes.now) source.now }
{
    shapes.get(known.find(source)?)
}

fn copy_shape(alloc: Global, shape: &Shape) -> Result<Shape, LoadError>
    ensures ok { IfOk result (λ copied. copied ≡ shape.now) }
    ensures err { IfErr result (λ end. end ≡ LoadError.Memory) }
{
    match shape.copy(alloc) {
        Ok(shape) => Ok(shape),
        Err(_) => Err(LoadError::Memory),
    }
}

// The shape that the description of a component's FMU says.
fn load_shape<F: Folder>(
    alloc: Global,
    directory: &str,
    component: &ComponentPart,
    resolution: u64,
    folder: &mut F,
) -> Result<Shape, LoadError>
    ensures ok { IfOk result (λ shape. TakesFile (SaysModel resolution)
        (model_path directory.now component.now) shape (F.view folder.old) (F.view folder.new)) }
    ensures err { IfErr result (λ end. EndsAt (FailsModel resolution)
        (model_path directory.now component.now) end (F.view folder.old) (F.view folder.new)) }
{
    match name_model(alloc, directory, component) {
        Ok(file) => read_model(alloc, file, resolution, folder),
        Err(_) => Err(LoadError::Memory),
    }
}

/// The description of a component's FMU, before it is read.
pub(crate) fn name_model(
    alloc: Global,
    directory: &str,
    component: &ComponentPart,
) -> Result<NamedFile, NoMemory>
    ensures { IfOk result (λ file. file.path ≡ model_path directory.now component.now) }
{
    let folder = folder_of(alloc, directory, component)?;
    name_description(alloc, folder.as_str())
}
