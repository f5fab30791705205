//! The inner connectors that stand for those of a Component: those of their kinds and names at the outermost System.
ghost use Rattle.std.specs.Prelude.{◌≡◌, IfOk};
ghost use Rattle.doc_tables.specs.Places.{found_in, scoped};
ghost use Rattle.doc_tables.specs.Tables.{IsTable};
ghost use Rattle.nested_documents.specs.Inlining.{is_outermost};
ghost use Rattle.nested_documents.specs.Inner.{first_unfound, found_for, inner_key, kind_scope};

use doc_tables::ScopedPlaces;
use ssd_tree::{Connector, ConnectorKind, Owner};
use std::alloc::{AllocError, Global};

fn is_outermost(owner: Owner) -> bool
    ensures { result ≡ is_outermost owner }
{
    match owner {
        Owner::System(place) => place == 0,
        Owner::Component(_) => false,
    }
}

// The connectors of a kind are one scope of names.
fn kind_scope(kind: ConnectorKind) -> usize
    ensures { result ≡ kind_scope kind }
{
    match kind {
        ConnectorKind::Input => 0,
        ConnectorKind::Output => 1,
        ConnectorKind::Parameter => 2,
        ConnectorKind::CalculatedParameter => 3,
    }
}

// The kind and the name of the connector at a place, where it is of the outermost System.
fn inner_key(inner: &[Connector], place: usize) -> Option<(usize, &str)>
    ensures { scoped result ≡ inner_key inner.now place }
{
    match inner.get(place) {
        Some(connector) if is_outermost(connector.owner) => {
            Some((kind_scope(connector.kind), connector.name.as_str()))
        }
        _ => None,
    }
}

/// The connectors of the outermost System, by their kinds and names.
pub(crate) fn inner_places(
    alloc: Global,
    inner: &[Connector],
) -> Result<ScopedPlaces<'_>, AllocError>
    ensures { IfOk result (λ places. IsTable (inner_key inner.now) (found_in places)) }
{
    let mut places = ScopedPlaces::new(alloc);
    for place in 0..inner.len() {
        places.put(inner_key(inner, place), place)?;
    }
    Ok(places)
}

/// The place of the inner connector that stands for one of the Component's.
pub(crate) fn inner_place<'a>(places: &ScopedPlaces<'a>, wanted: &'a Connector) -> Option<usize>
    ensures { result ≡ found_for places.now wanted.now }
{
    places.find(kind_scope(wanted.kind), wanted.name.as_str())
}

/// The element of the first connector of a Component for which there is none.
pub(crate) fn first_lacking<'a>(own: &'a [Connector], places: &ScopedPlaces<'a>) -> Option<usize>
    ensures { result ≡ first_unfound own.now places.now }
{
    for connector in own {
        if inner_place(places, connector).is_none() {
            return Some(connector.node);
        }
    }
    None
}
