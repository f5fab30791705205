//! The ports of each component by the places of their variables in its description, and the inputs of each component.
ghost use Rattle.std.specs.Prelude.{◌≡◌, ◌<◌, ◌++◌, ◌∷◌, [], ℕ, IfOk, OnOk, None, ◌&&◌, if◌then◌else◌, length, map, replicate, slice_index_or, slice_set};
ghost use Rattle.system_model.specs.declared.system.Component.{Component};
ghost use Rattle.port_orders.specs.Gathered.{AreInputs, AreTables, is_input_in, place_in};
ghost use Rattle.port_orders.specs.Placed.{ArePlaced};

use crate::needs::{is_input_in, place_in};
use dependency_order::Lists;
use std::alloc::{AllocError, Global};
use system_model::{Component, Port};

fn empty_tables(alloc: Global, components: &[Component]) -> Result<Vec<Lists>, AllocError>
    ensures { IfOk result (λ tables. tables.items ≡ map
        (λ (c : Component). []) components.now) }
{
    let mut tables = Vec::new(alloc);
    for _component in components {
        tables.push(Lists::new(alloc, 0)?)?;
    }
    Ok(tables)
}

// Appends empty lists to those of a table, until there is one at the place.
fn reach(alloc: Global, tables: &mut Vec<Lists>, at: usize, place: usize) -> Result<(), AllocError>
    requires { at < length tables.old.items }
    ensures grown { OnOk result ((more : ℕ) × (tables.new.items ≡ slice_set tables.old.items at
        (slice_index_or tables.old.items at [] ++ replicate more []))) }
    ensures reached { OnOk result (place < length (slice_index_or tables.new.items at [])) }
{
    let len = tables[at].len();
    if place < len {
        return Ok(());
    }
    let mut more = Lists::new(alloc, place - len)?;
    more.append(Lists::new(alloc, 1)?)?;
    tables[at].append(more)?;
    Ok(())
}

// The place of the variable of a port that takes part.
fn place_if(part: bool, components: &[Component], port: &Port) -> Option<usize>
    ensures { result ≡ (if part then place_in components.now port.now port.now.reference else
        None) }
{
    if part {
        place_in(components, port, port.reference)
    } else {
        None
    }
}

// Whether the port takes part and is an input.
fn is_input_if(part: bool, components: &[Component], port: &Port) -> bool
    ensures { result ≡ (part && is_input_in components.now port.now) }
{
    part && is_input_in(components, port)
}

fn note(tables: &mut Vec<Lists>, at: usize, place: usize, number: usize) -> Result<(), AllocError>
    requires at { at < length tables.old.items }
    requires place { place < length (slice_index_or tables.old.items at []) }
    ensures { OnOk result (tables.new.items ≡ slice_set tables.old.items at
        (slice_set (slice_index_or tables.old.items at []) place
        (slice_index_or (slice_index_or tables.old.items at []) place [] ++ number ∷ []))) }
{
    tables[at].push(place, number)
}

/// For each component and each place of its description the ports there that take part, as far as there are ports.
pub(crate) fn tables_of(
    alloc: Global,
    components: &[Component],
    ports: &[Port],
    taken: &[bool],
) -> Result<Vec<Lists>, AllocError>
    requires placed { ArePlaced components.now ports.now }
    requires marks { length taken.now ≡ length ports.now }
    ensures { IfOk result (λ tables. AreTables components.now ports.now taken.now
        (length ports.now) tables.items) }
{
    let mut tables = empty_tables(alloc, components)?;
    for number in 0..ports.len() {
        let port = &ports[number];
        if let Some(place) = place_if(taken[number], components, port) {
            reach(alloc, &mut tables, port.component.0 as usize, place)?;
            note(&mut tables, port.component.0 as usize, place, number)?;
        }
    }
    Ok(tables)
}

/// For each component its inputs that take part.
pub(crate) fn inputs_of(
    alloc: Global,
    components: &[Component],
    ports: &[Port],
    taken: &[bool],
) -> Result<Lists, AllocError>
    requires placed { ArePlaced components.now ports.now }
    requires marks { length taken.now ≡ length ports.now }
    ensures { IfOk result (AreInputs components.now ports.now taken.now (length ports.now)) }
{
    let mut inputs = Lists::new(alloc, components.len())?;
    for number in 0..ports.len() {
        let port = &ports[number];
        if is_input_if(taken[number], components, port) {
            inputs.push(port.component.0 as usize, number)?;
        }
    }
    Ok(inputs)
}
