//! The interval of a Clock and the shift beside it, in seconds.
ghost use Rattle.std.specs.Prelude.{◌≡◌, Some, IfSome};
ghost use Rattle.clock_fraction.specs.declared.fraction.Fraction.{Fraction};
ghost use Rattle.fmu_description.specs.Clocks.{IsInterval, IsShift, is_by_counters};

use crate::elements::{counter_of, has_flag};
use crate::texts;
use clock_fraction::{Fraction, from_decimal};
use doc_tables::attribute;
use doc_tree::Tree;

/// The counters count where fractions are supported and both are given.
pub(crate) fn is_by_counters(tree: &Tree, node: usize) -> bool
    ensures { result ≡ is_by_counters tree.now node }
{
    has_flag(tree, node, "supportsFraction")
        && attribute(tree, node, "intervalCounter").is_some()
        && attribute(tree, node, "resolution").is_some()
}

/// The interval that is described, in seconds.
pub(crate) fn interval(tree: &Tree, node: usize) -> Option<Fraction>
    ensures value { IfSome result (IsInterval tree.now node) }
    ensures exact { (f : Fraction) → IsInterval tree.now node f → result ≡ Some f }
{
    if is_by_counters(tree, node) {
        let counter = counter_of(tree, node, "intervalCounter")?;
        let resolution = counter_of(tree, node, "resolution")?;
        Some(Fraction {
            counter,
            resolution,
        })
    } else {
        from_decimal(attribute(tree, node, "intervalDecimal")?)
    }
}

/// The shift beside an interval, in seconds: 0 where it isn't given.
pub(crate) fn shift(tree: &Tree, node: usize) -> Option<Fraction>
    ensures value { IfSome result (IsShift tree.now node) }
    ensures exact { (f : Fraction) → IsShift tree.now node f → result ≡ Some f }
{
    if is_by_counters(tree, node) {
        let resolution = counter_of(tree, node, "resolution")?;
        let counter = match attribute(tree, node, "shiftCounter") {
            Some(text) => texts::counter(text)?,
            None => 0,
        };
        Some(Fraction {
            counter,
            resolution,
        })
    } else {
        match attribute(tree, node, "shiftDecimal") {
            Some(text) => from_decimal(text),
            None => Some(Fraction {
                counter: 0,
                resolution: 1,
            }),
        }
    }
}
