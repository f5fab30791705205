//! Whether the attributes of an element read as their types (rule 14).
ghost use Rattle.std.specs.Prelude.{◌↔◌, IsTrue, IfOk, codes};
ghost use Rattle.fmu_description.specs.Clocks.{IsIgnored};
ghost use Rattle.fmu_description.specs.Texts.{counter, reference, references, variability};
ghost use Rattle.doc_tables.specs.Elements.{Misreads};
ghost use Rattle.fmu_description.specs.Rules.{HasNoResolution, MisreadsCounters, MisreadsDecimal, MisreadsDecimals, MisreadsFlag, MisreadsOfClock, MisreadsStart, MisreadsTicks, MisreadsTime, MisreadsValue};

use crate::elements::{counter_of, flag_of, is_clock};
use crate::texts;
use clock_fraction::from_decimal;
use doc_tables::{attribute, name};
use doc_tree::Tree;
use std::alloc::{AllocError, Global};
use value_types::read_value;

/// A flag that is neither true nor false.
pub(crate) fn misreads_flag(tree: &Tree, node: usize, name: &str) -> bool
    ensures { IsTrue result ↔ MisreadsFlag tree.now node name.now }
{
    flag_of(tree, node, name).is_none()
}

/// A value reference that isn't one.
pub(crate) fn misreads_reference(tree: &Tree, node: usize) -> bool
    ensures { IsTrue result ↔ Misreads reference tree.now node (codes "valueReference") }
{
    match attribute(tree, node, "valueReference") {
        Some(text) => texts::reference(text).is_none(),
        None => false,
    }
}

/// A list whose entries aren't value references.
pub(crate) fn misreads_references(
    alloc: Global,
    tree: &Tree,
    node: usize,
    name: &str,
) -> Result<bool, AllocError>
    ensures { IfOk result (λ b. IsTrue b ↔ Misreads references tree.now node name.now) }
{
    match attribute(tree, node, name) {
        Some(text) => Ok(texts::references(alloc, text)?.is_none()),
        None => Ok(false),
    }
}

fn misreads_counter(tree: &Tree, node: usize, name: &str) -> bool
    ensures { IsTrue result ↔ Misreads counter tree.now node name.now }
{
    match attribute(tree, node, name) {
        Some(text) => texts::counter(text).is_none(),
        None => false,
    }
}

fn misreads_variability(tree: &Tree, node: usize) -> bool
    ensures { IsTrue result ↔ Misreads variability tree.now node (codes "intervalVariability") }
{
    match attribute(tree, node, "intervalVariability") {
        Some(text) => texts::variability(text).is_none(),
        None => false,
    }
}

fn misreads_decimal(tree: &Tree, node: usize, name: &str) -> bool
    ensures { IsTrue result ↔ MisreadsDecimal tree.now node name.now }
{
    match attribute(tree, node, name) {
        Some(text) => from_decimal(text).is_none(),
        None => false,
    }
}

fn has_no_resolution(tree: &Tree, node: usize) -> bool
    ensures { IsTrue result ↔ HasNoResolution tree.now node }
{
    counter_of(tree, node, "resolution") == Some(0)
}

fn misreads_counters(tree: &Tree, node: usize) -> bool
    ensures { IsTrue result ↔ MisreadsCounters tree.now node }
{
    misreads_counter(tree, node, "intervalCounter")
        || misreads_counter(tree, node, "shiftCounter")
        || misreads_counter(tree, node, "resolution")
        || has_no_resolution(tree, node)
}

fn misreads_decimals(tree: &Tree, node: usize) -> bool
    ensures { IsTrue result ↔ MisreadsDecimals tree.now node }
{
    misreads_decimal(tree, node, "intervalDecimal") || misreads_decimal(tree, node, "shiftDecimal")
}

fn misreads_time(tree: &Tree, node: usize) -> bool
    ensures { IsTrue result ↔ MisreadsTime tree.now node }
{
    misreads_counters(tree, node) || misreads_decimals(tree, node)
}

fn misreads_ticks(tree: &Tree, node: usize) -> bool
    ensures { IsTrue result ↔ MisreadsTicks tree.now node }
{
    misreads_flag(tree, node, "supportsFraction")
        || misreads_variability(tree, node)
        || misreads_time(tree, node)
}

/// An attribute of a Clock that doesn't read.
pub(crate) fn misreads_of_clock(tree: &Tree, node: usize) -> bool
    ensures { IsTrue result ↔ MisreadsOfClock tree.now node }
{
    is_clock(tree, node) && misreads_ticks(tree, node)
}

/// A start value that isn't one of its type.
pub(crate) fn misreads_start(tree: &Tree, node: usize, is_ignored: bool) -> bool
    requires { IsTrue is_ignored ↔ IsIgnored tree.now node }
    ensures { IsTrue result ↔ MisreadsStart tree.now node }
{
    !is_ignored && misreads_value(tree, node)
}

fn misreads_value(tree: &Tree, node: usize) -> bool
    ensures { IsTrue result ↔ MisreadsValue tree.now node }
{
    match attribute(tree, node, "start") {
        Some(text) => match texts::port_type(name(tree, node)) {
            Some(kind) => read_value(kind, text).is_none(),
            None => false,
        },
        None => false,
    }
}
