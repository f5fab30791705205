//! The texts of attributes.
ghost use Rattle.std.specs.Prelude.{◌≡◌, IfOk, map, option_copied, option_map};
ghost use Rattle.fmu_description.specs.Texts.{all_of, causality, counter, flag, flag_or, has_outer_space, is_number, is_unsupported_type, parts_of, port_type, reference, references, variability};

use std::alloc::{AllocError, Global};
use value_types::{Causality, IntervalVariability, PortType};

/// The flag that a text writes: `true` or `1`, `false` or `0`.
pub(crate) fn flag(text: &str) -> Option<bool>
    ensures { result ≡ flag text.now }
{
    match text {
        "true" | "1" => Some(true),
        "false" | "0" => Some(false),
        _ => None,
    }
}

/// The flag that a text writes, or the default where there is no text.
pub(crate) fn flag_or(default: bool, text: Option<&str>) -> Option<bool>
    ensures { result ≡ flag_or default (option_copied text.entry) }
{
    match text {
        Some(text) => flag(text),
        None => Some(default),
    }
}

fn is_number(text: &str) -> bool
    ensures { result ≡ is_number text.now }
{
    !text.is_empty() && text.as_bytes().iter().all(|byte| byte.is_ascii_digit())
}

/// A value reference.
pub(crate) fn reference(text: &str) -> Option<u32>
    ensures { result ≡ reference text.now }
{
    if is_number(text) {
        text.parse().ok()
    } else {
        None
    }
}

/// A counter, of an interval or a shift, or of a resolution.
pub(crate) fn counter(text: &str) -> Option<u64>
    ensures { result ≡ counter text.now }
{
    if is_number(text) {
        text.parse().ok()
    } else {
        None
    }
}

/// Value references with spaces between them; none where the text isn't a list of references.
pub(crate) fn references(alloc: Global, text: &str) -> Result<Option<Vec<u32>>, AllocError>
    ensures { IfOk result (λ found. option_map (λ v. v.items) found ≡ references text.now) }
{
    if has_outer_space(text) {
        return Ok(None);
    }
    let parts = parts(alloc, text)?;
    references_among(alloc, parts.as_slice())
}

// Whether a space stands before or after.
fn has_outer_space(text: &str) -> bool
    ensures { result ≡ has_outer_space text.now }
{
    text.starts_with(' ') || text.ends_with(' ')
}

// What stands between the spaces.
fn parts(alloc: Global, text: &str) -> Result<Vec<&str>, AllocError>
    ensures { IfOk result (λ parts. map (λ part. part.now) parts.items ≡ parts_of text.now) }
{
    text.split(' ')
        .filter(|part| !part.is_empty())
        .collect(alloc)
}

fn references_among(alloc: Global, parts: &[&str]) -> Result<Option<Vec<u32>>, AllocError>
    ensures { IfOk result (λ found. option_map (λ v. v.items) found ≡
        all_of (map (λ part. reference part.now) parts.now)) }
{
    let mut all = Vec::new(alloc);
    for part in parts {
        let Some(found) = reference(part) else {
            return Ok(None);
        };
        all.push(found)?;
    }
    Ok(Some(all))
}

/// The type whose values are whole numbers, by the name of its element.
pub(crate) fn port_type(name: &str) -> Option<PortType>
    ensures { result ≡ port_type name.now }
{
    match name {
        "Int8" => Some(PortType::Int8),
        "UInt8" => Some(PortType::UInt8),
        "Int16" => Some(PortType::Int16),
        "UInt16" => Some(PortType::UInt16),
        "Int32" => Some(PortType::Int32),
        "UInt32" => Some(PortType::UInt32),
        "Int64" => Some(PortType::Int64),
        "UInt64" => Some(PortType::UInt64),
        "Boolean" => Some(PortType::Boolean),
        "Enumeration" => Some(PortType::Enumeration),
        "Clock" => Some(PortType::Clock),
        _ => None,
    }
}

/// Whether values of the type of this name are no whole numbers.
pub(crate) fn is_unsupported_type(name: &str) -> bool
    ensures { result ≡ is_unsupported_type name.now }
{
    matches!(name, "Float32" | "Float64" | "String" | "Binary")
}

/// What a variable is for.
pub(crate) fn causality(text: Option<&str>) -> Causality
    ensures { result ≡ causality (option_copied text.entry) }
{
    let Some(text) = text else {
        return Causality::Local;
    };
    match text {
        "parameter" => Causality::Parameter,
        "calculatedParameter" => Causality::CalculatedParameter,
        "structuralParameter" => Causality::StructuralParameter,
        "input" => Causality::Input,
        "output" => Causality::Output,
        "local" => Causality::Local,
        "independent" => Causality::Independent,
        _ => Causality::Other,
    }
}

/// When a Clock ticks.
pub(crate) fn variability(text: &str) -> Option<IntervalVariability>
    ensures { result ≡ variability text.now }
{
    match text {
        "constant" => Some(IntervalVariability::Constant),
        "fixed" => Some(IntervalVariability::Fixed),
        "tunable" => Some(IntervalVariability::Tunable),
        "changing" => Some(IntervalVariability::Changing),
        "countdown" => Some(IntervalVariability::Countdown),
        "triggered" => Some(IntervalVariability::Triggered),
        _ => None,
    }
}
