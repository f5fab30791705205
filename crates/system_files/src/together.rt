//! Where the rules that files break together are told.
ghost use Rattle.std.specs.Prelude.{List, IfOk, IsSome, IsSomeAnd, slice_get};
ghost use Rattle.ssd_tree.specs.declared.tree.Binding.{Binding};
ghost use Rattle.system_model.specs.declared.bound.Bound.{Bound};
ghost use Rattle.value_types.specs.declared.shape.Shape.{Shape};
ghost use Rattle.system_loading.specs.declared.parameters.GivenBinding.{GivenBinding};
ghost use Rattle.system_loading.specs.Binding.{BindsAlone, TellsBinding};
ghost use Rattle.system_loading.specs.Faults.{TellsTogether};
ghost use Rattle.system_files.specs.Order.{IsBindingToldIn, origin_of};
ghost use Rattle.system_files.specs.Steps.{EndsTogether, HasBindingPart};

use crate::bindings::{name_part_told, name_told};
use crate::loading::LoadError;
use crate::named::{FileFault, NamedFile};
use crate::room::NoMemory;
use sim_base::Items;
use std::alloc::Global;
use system_loading::{AssemblyFault, BindingFault, Outline};

/// The end at a rule that the files break together.
pub(crate) fn refuse_together(
    alloc: Global,
    directory: &str,
    outline: &Outline,
    fault: AssemblyFault,
) -> LoadError
    ensures { (shapes : List Shape) (given : List GivenBinding) (bound : Bound) →
        BindsAlone outline.now shapes given bound → TellsTogether outline.now shapes fault →
        EndsTogether directory.now outline.now shapes given result }
{
    match fault {
        AssemblyFault::Broken { rule, node, ports } => {
            match name_told(alloc, directory, outline, node) {
                Ok(file) => match outline.place(alloc, node) {
                    Ok(place) => LoadError::File {
                        file,
                        fault: FileFault::Broken { rule, place, ports },
                    },
                    Err(_) => LoadError::Memory,
                },
                Err(_) => LoadError::Memory,
            }
        }
        AssemblyFault::Memory => LoadError::Memory,
    }
}

/// The end at a rule that what a binding gives breaks by what it reaches.
pub(crate) fn refuse_binding(
    alloc: Global,
    directory: &str,
    outline: &Outline,
    fault: BindingFault,
) -> LoadError
    requires { HasBindingPart outline.now fault }
    ensures { (shapes : List Shape) (given : List GivenBinding) →
        TellsBinding outline.now shapes given fault →
        EndsTogether directory.now outline.now shapes given result }
{
    match fault {
        BindingFault::Broken {
            binding,
            in_mapping,
            rule,
            place,
        } => match name_binding(alloc, directory, outline, binding, in_mapping) {
            Ok(file) => LoadError::File {
                file,
                fault: FileFault::Broken {
                    rule,
                    place,
                    ports: Items::from_vec(Vec::new(alloc)),
                },
            },
            Err(_) => LoadError::Memory,
        },
        BindingFault::Memory => LoadError::Memory,
    }
}

// The file of a binding's values, or of its mapping.
fn name_binding(
    alloc: Global,
    directory: &str,
    outline: &Outline,
    binding: usize,
    in_mapping: bool,
) -> Result<NamedFile, NoMemory>
    requires { IsSomeAnd (slice_get outline.now.systems.bindings binding)
        (λ (b : Binding). IsSome (origin_of in_mapping b)) }
    ensures { IfOk result (λ file. IsBindingToldIn directory.now outline.now binding in_mapping
        file.path) }
{
    let binding = &outline.systems.bindings.as_slice()[binding];
    let origin = if in_mapping {
        binding.mapping.as_ref().unwrap()
    } else {
        &binding.values
    };
    name_part_told(alloc, directory, outline, binding.owner, origin)
}
