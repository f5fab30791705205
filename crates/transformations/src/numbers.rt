//! Whole numbers and Booleans in attributes.
ghost use Rattle.std.specs.Prelude.{◌≡◌, ℤ, Bool, Some, IfSome, pos, option_copied};
ghost use Rattle.value_types.specs.Reading.{Reads};
ghost use Rattle.parameter_values.specs.Values.{bit};
ghost use Rattle.doc_tables.specs.Elements.{attribute};
ghost use Rattle.transformations.specs.Numbers.{IsBoolean, IsWholeNumber, WritesOr, WritesWhole};

use crate::factor::read_factor;
use doc_tables::attribute;
use doc_tree::Tree;
use value_types::{PortType, read_value};

// A whole number of 64 bits, with a sign or without one.
fn read_whole(text: &str) -> Option<i128>
    ensures value { IfSome result (WritesWhole text.now) }
    ensures exact { (value : ℤ) → WritesWhole text.now value → result ≡ Some value }
{
    match read_value(PortType::Int64, text) {
        Some(value) => Some(value),
        None => read_value(PortType::UInt64, text),
    }
}

/// The whole number that an attribute is.
pub fn whole_number(tree: &Tree, node: usize, name: &str) -> Option<i128>
    ensures value { IfSome result (IsWholeNumber tree.now node name.now) }
    ensures exact { (value : ℤ) → IsWholeNumber tree.now node name.now value → result ≡ Some value }
{
    read_whole(attribute(tree, node, name)?)
}

fn read_boolean(text: &str) -> Option<bool>
    ensures value { IfSome result (λ value. Reads PortType.Boolean text.now (bit value)) }
    ensures exact { (value : Bool) → Reads PortType.Boolean text.now (bit value) →
        result ≡ Some value }
{
    let value = read_value(PortType::Boolean, text)?;
    Some(value == 1)
}

/// The Boolean that an attribute is.
pub fn boolean(tree: &Tree, node: usize, name: &str) -> Option<bool>
    ensures value { IfSome result (IsBoolean tree.now node name.now) }
    ensures exact { (value : Bool) → IsBoolean tree.now node name.now value → result ≡ Some value }
{
    read_boolean(attribute(tree, node, name)?)
}

/// The factor or offset that an attribute is; the default where it is absent.
pub(crate) fn factor_or(default: i64, tree: &Tree, node: usize, name: &str) -> Option<i64>
    ensures value { IfSome result (WritesOr default (attribute tree.now node name.now)) }
    ensures exact { (value : ℤ) → WritesOr default (attribute tree.now node name.now) value →
        result ≡ Some value }
{
    match attribute(tree, node, name) {
        Some(text) => read_factor(text),
        None => Some(default),
    }
}
