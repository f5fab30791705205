//! The values that bindings give to the parameters of the components.
ghost use Rattle.std.specs.Prelude.{◌≡◌, ℕ, Bool, IfErr, IfOk, map};
ghost use Rattle.std.specs.List.{AllZip};
ghost use Rattle.std.specs.Option.{option_copied};
ghost use Rattle.system_model.specs.Bounds.{AreParameterValues};
ghost use Rattle.system_loading.specs.Binding.{AreReady, BindsAlone, SaysBinding, TellsBinding, documents_of, file_number, own_document_at, place_in_part, sets_of};

use crate::parameters::Documents;
use crate::{GivenBinding, Outline};
use doc_tree::{Place, Refusal, Rule, Tree};
use parameter_binding::{BindingSets, MappingOf, ValuesOf, bind, binding_laws};
use sim_base::Text;
use std::alloc::{AllocError, Global};
use system_model::Bound;
use value_types::Shape;

/// Why bindings give no values together.
#[derive(Debug, Drop)]
pub enum BindingFault {
    /// The set of a binding, or its mapping, breaks this rule first, at this place. A binding is named by its place in
    /// the outline.
    Broken {
        binding: usize,
        in_mapping: bool,
        rule: Rule,
        place: Place,
    },
    /// Out of memory.
    Memory,
}

// What bindings give, and the documents of it, in two lists.
#[derive(Drop)]
struct Parted {
    sets: Vec<BindingSets>,
    documents: Vec<Documents>,
}

/// The values that the bindings of an outline give to the parameters of its components, where each component has a
/// shape; or the first rule that a set or a mapping breaks by what it reaches, and its place (SSP 1.0, ParameterBinding).
pub fn bind_parameters(
    alloc: Global,
    outline: &Outline,
    shapes: &[Shape],
    given: Vec<GivenBinding>,
) -> Result<Bound, BindingFault>
    requires ready { AreReady outline.now shapes.now given.items }
    ensures ok { IfOk result (BindsAlone outline.now shapes.now given.items) }
    ensures values { IfOk result (λ bound. AllZip AreParameterValues shapes.now bound.components) }
    ensures err { IfErr result (TellsBinding outline.now shapes.now given.items) }
{
    binding_laws();
    let Ok(parted) = part(alloc, given) else {
        return Err(BindingFault::Memory);
    };
    match bind(alloc, &outline.systems, shapes, &parted.sets) {
        Ok(bound) => Ok(bound),
        Err(
            Refusal::At {
                file,
                node,
                rule,
                ..
            },
        ) => Err(told_at(alloc, outline, &parted.documents, file, node, rule)),
        Err(Refusal::Memory) => Err(BindingFault::Memory),
    }
}

fn part(alloc: Global, given: Vec<GivenBinding>) -> Result<Parted, AllocError>
    ensures sets { IfOk result (λ parted. parted.sets.items ≡ sets_of given.items) }
    ensures documents { IfOk result (λ parted. parted.documents.items ≡
        map documents_of given.items) }
{
    let mut sets = Vec::with_capacity(alloc, given.len())?;
    let mut documents = Vec::with_capacity(alloc, given.len())?;
    let mut left = given.into_iter();
    while let Some(binding) = left.next() {
        let number = sets.len();
        let GivenBinding { values, mapping } = binding;
        let (mapping, mapping_document) = match mapping {
            Some(given) => (
                Some(MappingOf {
                    file: 2 * number + 1,
                    mapping: given.mapping,
                }),
                given.document,
            ),
            None => (None, None),
        };
        sets.push_reserved(BindingSets {
            values: ValuesOf {
                file: 2 * number,
                set: values.set,
            },
            mapping,
        });
        documents.push_reserved(Documents {
            values: values.document,
            mapping: mapping_document,
        });
    }
    left.destroy_empty();
    Ok(Parted { sets, documents })
}

// The fault at an element of the set or the mapping with a number.
fn told_at(
    alloc: Global,
    outline: &Outline,
    documents: &[Documents],
    file: usize,
    node: usize,
    rule: Rule,
) -> BindingFault
    ensures { (binding : ℕ) (in_mapping : Bool) → file ≡ file_number binding in_mapping →
        SaysBinding binding in_mapping rule
        (place_in_part outline.now documents.now binding in_mapping node) result }
{
    let binding = file / 2;
    let in_mapping = file % 2 == 1;
    match place_in_part(alloc, outline, documents, binding, in_mapping, node) {
        Ok(place) => BindingFault::Broken {
            binding,
            in_mapping,
            rule,
            place,
        },
        Err(_) => BindingFault::Memory,
    }
}

// Where an element of a set or of a mapping is told: in its own document, or in that of its binding.
fn place_in_part(
    alloc: Global,
    outline: &Outline,
    documents: &[Documents],
    binding: usize,
    in_mapping: bool,
    node: usize,
) -> Result<Place, AllocError>
    ensures { IfOk result (λ place. place ≡ place_in_part outline.now documents.now binding
        in_mapping node) }
{
    match own_document(documents, binding, in_mapping) {
        Some(document) => Ok(Place::Element {
            path: Text::from_string(document.path(alloc, node)?),
        }),
        None => outline.place_within(alloc, binding, node),
    }
}

fn own_document(documents: &[Documents], binding: usize, in_mapping: bool) -> Option<&Tree>
    ensures { option_copied result ≡ own_document_at documents.now binding in_mapping }
{
    let own = documents.get(binding)?;
    if in_mapping {
        own.mapping.as_ref()
    } else {
        own.values.as_ref()
    }
}
