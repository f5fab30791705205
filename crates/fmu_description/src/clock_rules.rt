//! The rules of Clocks that stand on one element (17 to 19 and 23).
ghost use Rattle.std.specs.Prelude.{◌≡◌, ◌↔◌, IsTrue};
ghost use Rattle.value_types.specs.declared.shape.IntervalVariability.{IntervalVariability};
ghost use Rattle.value_types.specs.declared.shape.IntervalVariability.TheVariants.{Tunable};
ghost use Rattle.fmu_description.specs.Clocks.{IsTimed};
ghost use Rattle.fmu_description.specs.Rules.{HasVariability, NeedsInterval, HasInterval, IsTimeBased, HasWrongCausality, IsUneven, HasUnevenShift, LacksInterval, UsesUneven};
ghost use Rattle.clock_fraction.specs.Counts.{IsInCounts};

use crate::elements::{causality_of, has_flag, is_clock, variability_of};
use crate::intervals::{interval, is_by_counters, shift};
use clock_fraction::{Fraction, to_counts};
use doc_tables::attribute;
use doc_tree::Tree;
use value_types::{Causality, IntervalVariability};

/// A Clock that isn't local.
pub(crate) fn is_timed(tree: &Tree, node: usize) -> bool
    ensures { IsTrue result ↔ IsTimed tree.now node }
{
    is_clock(tree, node) && causality_of(tree, node) != Causality::Local
}

fn is_of(tree: &Tree, node: usize, variability: IntervalVariability) -> bool
    ensures { IsTrue result ↔ HasVariability tree.now node variability }
{
    variability_of(tree, node) == Some(variability)
}

fn needs_interval(tree: &Tree, node: usize) -> bool
    ensures { IsTrue result ↔ NeedsInterval tree.now node }
{
    is_of(tree, node, IntervalVariability::Constant)
        || (is_of(tree, node, IntervalVariability::Fixed)
            && !has_flag(tree, node, "supportsFraction"))
}

fn has_interval(tree: &Tree, node: usize) -> bool
    ensures { IsTrue result ↔ HasInterval tree.now node }
{
    is_by_counters(tree, node) || attribute(tree, node, "intervalDecimal").is_some()
}

/// The interval has to be described, and isn't.
pub(crate) fn lacks_interval(tree: &Tree, node: usize) -> bool
    ensures { IsTrue result ↔ LacksInterval tree.now node }
{
    is_timed(tree, node) && needs_interval(tree, node) && !has_interval(tree, node)
}

fn is_time_based(tree: &Tree, node: usize) -> bool
    ensures { IsTrue result ↔ IsTimeBased tree.now node }
{
    match variability_of(tree, node) {
        Some(variability) => variability != IntervalVariability::Triggered,
        None => false,
    }
}

fn has_wrong_causality(tree: &Tree, node: usize) -> bool
    ensures { IsTrue result ↔ HasWrongCausality tree.now node }
{
    let causality = causality_of(tree, node);
    (is_time_based(tree, node) && causality != Causality::Input)
        || (is_of(tree, node, IntervalVariability::Triggered)
            && causality != Causality::Input
            && causality != Causality::Output)
}

/// Its intervals don't allow the causality.
pub(crate) fn breaks_causality(tree: &Tree, node: usize) -> bool
    ensures { IsTrue result ↔ (IsTimed tree.now node × HasWrongCausality tree.now node) }
{
    is_timed(tree, node) && has_wrong_causality(tree, node)
}

fn is_whole(fraction: Fraction, resolution: u64) -> bool
    ensures { IsTrue result ↔ IsInCounts resolution fraction }
{
    to_counts(fraction, resolution).is_some()
}

fn has_uneven_shift(tree: &Tree, node: usize, resolution: u64) -> bool
    ensures { IsTrue result ↔ HasUnevenShift tree.now resolution node }
{
    match shift(tree, node) {
        Some(shift) => !is_whole(shift, resolution),
        None => false,
    }
}

fn is_uneven(tree: &Tree, node: usize, resolution: u64) -> bool
    ensures { IsTrue result ↔ IsUneven tree.now resolution node }
{
    match interval(tree, node) {
        Some(interval) => {
            interval.counter == 0
                || !is_whole(interval, resolution)
                || has_uneven_shift(tree, node, resolution)
        }
        None => false,
    }
}

fn uses_uneven(tree: &Tree, node: usize, resolution: u64) -> bool
    ensures { IsTrue result ↔ UsesUneven tree.now resolution node }
{
    !is_of(tree, node, IntervalVariability::Changing) && is_uneven(tree, node, resolution)
}

/// The interval is 0, or it or its shift is no whole number of counts; a changing Clock's aren't used.
pub(crate) fn breaks_counts(tree: &Tree, node: usize, resolution: u64) -> bool
    ensures { IsTrue result ↔ (IsTimed tree.now node × UsesUneven tree.now resolution node) }
{
    is_timed(tree, node) && uses_uneven(tree, node, resolution)
}

/// A clock that the profile doesn't support.
pub(crate) fn breaks_profile(tree: &Tree, node: usize) -> bool
    ensures { IsTrue result ↔ (IsTimed tree.now node × HasVariability tree.now node Tunable) }
{
    is_timed(tree, node) && is_of(tree, node, IntervalVariability::Tunable)
}
