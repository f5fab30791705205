//! What a sound tree says of its FMU.
ghost use Rattle.std.specs.Prelude.{IfOk};
ghost use Rattle.fmu_description.specs.Description.{Describes};
ghost use Rattle.fmu_description.specs.Elements.{initial_key, output_key, variable_key};
ghost use Rattle.doc_tables.specs.Tables.{IsTable};
ghost use Rattle.fmu_description.specs.Places.{MarksIgnored, found, is_ignored};
ghost use Rattle.fmu_description.specs.Rules.{IsSoundDescription};

use crate::dependencies::{dependencies, initial_dependencies};
use crate::elements::has_flag;
use crate::ignored::Ignored;
use crate::places::{Places, co_simulation};
use crate::timings::timings;
use crate::variables::variables;
use doc_tables::text_of;
use doc_tree::Tree;
use sim_base::Text;
use std::alloc::{AllocError, Global};
use value_types::Shape;

/// What a sound tree says of its FMU, where a second has so many counts.
pub(crate) fn describe(
    alloc: Global,
    tree: &Tree,
    ignored: &Ignored,
    places: &Places,
    unknowns: &Places,
    outputs: &Places,
    resolution: u64,
) -> Result<Shape, AllocError>
    requires sound { IsSoundDescription tree.now resolution }
    requires ignored { MarksIgnored tree.now (is_ignored ignored.now) }
    requires places { IsTable (variable_key tree.now) (found places.now) }
    requires unknowns { IsTable (initial_key tree.now) (found unknowns.now) }
    requires outputs { IsTable (output_key tree.now) (found outputs.now) }
    ensures { IfOk result (Describes tree.now resolution) }
{
    let element = co_simulation(tree).unwrap();
    let variables = variables(alloc, tree, ignored)?;
    let clocks = timings(alloc, tree, places, variables.as_slice())?;
    let dependencies = dependencies(alloc, tree, outputs, &variables)?;
    let initial_dependencies = initial_dependencies(
        alloc, tree, places, unknowns, outputs, &variables,
    )?;
    Ok(Shape {
        identifier: Text::from_str(alloc, text_of(tree, element, "modelIdentifier"))?,
        token: Text::from_str(alloc, text_of(tree, 0, "instantiationToken"))?,
        resolution,
        has_event_mode: has_flag(tree, element, "hasEventMode"),
        might_return_early: has_flag(tree, element, "mightReturnEarlyFromDoStep"),
        has_variable_steps: has_flag(tree, element, "canHandleVariableCommunicationStepSize"),
        can_save_state: has_flag(tree, element, "canGetAndSetFMUState"),
        can_serialize_state: has_flag(tree, element, "canSerializeFMUState"),
        variables,
        clocks,
        dependencies,
        initial_dependencies,
    })
}
