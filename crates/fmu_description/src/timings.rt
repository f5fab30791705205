//! When the variables of type Clock tick.
ghost use Rattle.std.specs.Prelude.{◌≡◌, ℕ, Some, IfOk};
ghost use Rattle.std.specs.List.{AllZip};
ghost use Rattle.fmu_description.specs.Clocks.{IsTimed};
ghost use Rattle.fmu_description.specs.Description.{HasShift, IsShiftTold, IsSoundTree, IsTimedAt, IsTiming, IsTimingOf, IsVariable, clocks_among, variables_in};
ghost use Rattle.fmu_description.specs.Elements.{variable_key};
ghost use Rattle.doc_tables.specs.Tables.{IsTable};
ghost use Rattle.fmu_description.specs.Places.{found};

use crate::elements::{has_flag, reference_of, variability_of};
use crate::intervals;
use crate::places::Places;
use clock_fraction::Fraction;
use doc_tree::Tree;
use std::alloc::{AllocError, Global};
use value_types::{ByReference, ClockTiming, Variable};

/// The timings of the variables of type Clock of a sound tree, in the order of the description.
pub(crate) fn timings(
    alloc: Global,
    tree: &Tree,
    places: &Places,
    variables: &[Variable],
) -> Result<ByReference<ClockTiming>, AllocError>
    requires sound { IsSoundTree tree.now }
    requires places { IsTable (variable_key tree.now) (found places.now) }
    requires variables { AllZip (IsVariable tree.now) (variables_in tree.now) variables.now }
    ensures { IfOk result (AllZip (IsTimingOf tree.now) (clocks_among variables.now)) }
{
    let mut timings = Vec::new(alloc);
    for variable in variables {
        if variable.is_clock() {
            timings.push(timing_at(tree, places, variable.reference))?;
        }
    }
    ByReference::new(alloc, timings)
}

/// The timing of the Clock with a reference.
fn timing_at(tree: &Tree, places: &Places, reference: u32) -> ClockTiming
    requires sound { IsSoundTree tree.now }
    requires places { IsTable (variable_key tree.now) (found places.now) }
    requires timed { IsTimedAt tree.now reference }
    ensures { (k : ℕ) × (variable_key tree.now k ≡ Some reference) × IsTiming tree.now k result }
{
    timing(tree, places.find(reference).unwrap())
}

/// The timing of a Clock that isn't local.
fn timing(tree: &Tree, node: usize) -> ClockTiming
    requires sound { IsSoundTree tree.now }
    requires timed { IsTimed tree.now node }
    ensures { IsTiming tree.now node result }
{
    let interval = intervals::interval(tree, node);
    ClockTiming {
        reference: reference_of(tree, node).unwrap(),
        variability: variability_of(tree, node).unwrap(),
        supports_fraction: has_flag(tree, node, "supportsFraction"),
        interval,
        shift: shift_beside(tree, node, interval),
    }
}

/// The shift, where there is an interval.
fn shift_beside(tree: &Tree, node: usize, interval: Option<Fraction>) -> Option<Fraction>
    requires { HasShift tree.now node interval }
    ensures { IsShiftTold tree.now node interval result }
{
    match interval {
        Some(_) => Some(intervals::shift(tree, node).unwrap()),
        None => None,
    }
}
