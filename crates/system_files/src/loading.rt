//! The files of a system, read in their order.
ghost use Rattle.std.specs.Prelude.{◌≡◌, ℕ, ◌≤◌, ◌^◌, All, IfErr, IfOk, length};
ghost use Rattle.ssd_tree.specs.declared.tree.ComponentPart.{ComponentPart};
ghost use Rattle.ssd_tree.specs.Named.{IsNamedTree};
ghost use Rattle.ssd_tree.specs.Parts.{IsPlain};
ghost use Rattle.system_model.specs.declared.system.Component.{Component};
ghost use Rattle.system_model.specs.Bounds.{BindsParameters};
ghost use Rattle.system_model.specs.Sound.{IsSound};
ghost use Rattle.flatten.specs.Given.{AreShapesOf, IsWholeTree};
ghost use Rattle.system_loading.specs.Binding.{AreReady};
ghost use Rattle.system_files.specs.Loads.{EndsLoading, IsNamed, Loads};
ghost use Rattle.system_files.specs.Order.{Found, search_of};
ghost use Rattle.system_files.specs.Steps.{EndsModels, EndsOutline, EndsTogether, HasDocument, HasParts, IsLoaded, TakesModels, TakesOutline};

use crate::bindings::load_bindings;
use crate::documents::read_outline;
use crate::loaded::Loaded;
use crate::named::{FileFault, NamedFile};
use crate::paths::folders_of;
use crate::shapes::load_shapes;
use crate::subject::Subject;
use crate::together::{refuse_binding, refuse_together};
use nesting_laws::nest_laws;
use sim_base::Folder;
use std::alloc::Global;
use system_loading::{
    GivenBinding, Outline, assemble, bind_parameters, loading_laws, lone_outline,
};
use value_types::Shape;

/// Why nothing is loaded.
#[derive(Debug, Drop)]
pub enum LoadError {
    /// A file isn't taken.
    File { file: NamedFile, fault: FileFault },
    /// Out of memory.
    Memory,
}

/// Reads the files in a directory in their order: where a system is asked for, its structure description and those of the
/// documents that stand in it; the description of each FMU once, in the order of its first use; and for each binding of
/// parameters its values and then its mapping. Answers the system that they make, where a second has `resolution` counts, and
/// the values that its bindings give; or the file that isn't taken, and why (SSP 1.0, SystemStructure.ssd, SSV and SSM; FMI
/// 3.0, 2.4).
pub fn load<F: Folder>(
    alloc: Global,
    subject: Subject,
    directory: &str,
    resolution: u64,
    folder: &mut F,
) -> Result<Loaded, LoadError>
    requires above { 1 ≤ resolution }
    requires within { resolution ≤ 2 ^ 62 }
    ensures ok { IfOk result (λ loaded. Loads (search_of subject directory.now resolution)
        (Found loaded) (F.view folder.old) (F.view folder.new)) }
    ensures sound { IfOk result (λ loaded. IsSound loaded.system) }
    ensures named { IfOk result (λ loaded. All IsNamed loaded.system.components) }
    ensures counts { IfOk result
        (λ loaded. All (λ (c : Component). c.shape.resolution ≡ resolution)
        loaded.system.components) }
    ensures bound { IfOk result (λ loaded. BindsParameters loaded.system loaded.bound) }
    ensures err { IfErr result (λ end. EndsLoading (search_of subject directory.now resolution) end
        (F.view folder.old) (F.view folder.new)) }
{
    loading_laws();
    nest_laws();
    match load_outline(alloc, subject, directory, folder) {
        Ok(outline) => load_models(alloc, directory, resolution, &outline, folder),
        Err(end) => Err(end),
    }
}

/// The outline of what is asked for.
pub(crate) fn load_outline<F: Folder>(
    alloc: Global,
    subject: Subject,
    directory: &str,
    folder: &mut F,
) -> Result<Outline, LoadError>
    ensures ok { IfOk result (λ outline. TakesOutline subject directory.now outline
        (F.view folder.old) (F.view folder.new)) }
    ensures err { IfErr result (λ end. EndsOutline subject directory.now end (F.view folder.old)
        (F.view folder.new)) }
{
    match subject {
        Subject::Fmu => match lone_outline(alloc) {
            Ok(outline) => Ok(outline),
            Err(_) => Err(LoadError::Memory),
        },
        Subject::System => read_outline(alloc, directory, folder),
    }
}

/// Reads the descriptions of the FMUs and the parameters of the bindings, and puts the system together.
pub(crate) fn load_models<F: Folder>(
    alloc: Global,
    directory: &str,
    resolution: u64,
    outline: &Outline,
    folder: &mut F,
) -> Result<Loaded, LoadError>
    requires above { 1 ≤ resolution }
    requires within { resolution ≤ 2 ^ 62 }
    requires whole { IsWholeTree outline.now.systems }
    requires tree { IsNamedTree outline.now.systems }
    requires document { HasDocument outline.now }
    requires short { All (λ (c : ComponentPart). length c.name ≤ 2 ^ 24)
        outline.now.systems.components }
    requires plain { All (λ (c : ComponentPart). IsPlain c.source) outline.now.systems.components }
    ensures ok { IfOk result (λ loaded. TakesModels resolution directory.now outline.now loaded
        (F.view folder.old) (F.view folder.new)) }
    ensures sound { IfOk result (λ loaded. IsSound loaded.system) }
    ensures named { IfOk result (λ loaded. All IsNamed loaded.system.components) }
    ensures counts { IfOk result
        (λ loaded. All (λ (c : Component). c.shape.resolution ≡ resolution)
        loaded.system.components) }
    ensures bound { IfOk result (λ loaded. BindsParameters loaded.system loaded.bound) }
    ensures err { IfErr result (λ end. EndsModels resolution directory.now outline.now end
        (F.view folder.old) (F.view folder.new)) }
{
    loading_laws();
    let components = outline.systems.components.as_slice();
    match load_shapes(alloc, directory, components, resolution, folder) {
        Ok(shapes) => match load_bindings(alloc, directory, outline, folder) {
            Ok(given) => put_together(alloc, directory, outline, &shapes, given),
            Err(end) => Err(end),
        },
        Err(end) => Err(end),
    }
}

// The system of an outline with these shapes, and the values that its bindings give.
fn put_together(
    alloc: Global,
    directory: &str,
    outline: &Outline,
    shapes: &[Shape],
    given: Vec<GivenBinding>,
) -> Result<Loaded, LoadError>
    requires whole { IsWholeTree outline.now.systems }
    requires shapes { AreShapesOf outline.now.systems shapes.now }
    requires ready { AreReady outline.now shapes.now given.items }
    requires parts { HasParts outline.now.systems.bindings given.items }
    ensures ok { IfOk result (IsLoaded directory.now outline.now shapes.now given.items) }
    ensures sound { IfOk result (λ loaded. IsSound loaded.system) }
    ensures bound { IfOk result (λ loaded. BindsParameters loaded.system loaded.bound) }
    ensures err { IfErr result (EndsTogether directory.now outline.now shapes.now given.items) }
{
    match bind_parameters(alloc, outline, shapes, given) {
        Ok(bound) => match assemble(alloc, outline, shapes) {
            Ok(system) => match folders_of(alloc, directory, outline) {
                Ok(folders) => Ok(Loaded {
                    system,
                    bound,
                    folders,
                }),
                Err(_) => Err(LoadError::Memory),
            },
            Err(fault) => Err(refuse_together(alloc, directory, outline, fault)),
        },
        Err(fault) => Err(refuse_binding(alloc, directory, outline, fault)),
    }
}
