//! Which Components are systems of their own.
ghost use Rattle.std.specs.Prelude.{◌≡◌, ◌↔◌, IsTrue, IfOk};
ghost use Rattle.ssd_tree.specs.Elements.{IsComponent};
ghost use Rattle.ssd_tree.specs.Listings.{IsListing};
ghost use Rattle.ssd_tree.specs.Rules.{IsFmu, kind_in, nested_kind};

use crate::listings::is_listed;
use crate::tree::{NestedKind, Setting};
use doc_tables::attribute;
use doc_tree::Tree;
use std::alloc::{AllocError, Global};

fn nested_kind(text: &str) -> Option<NestedKind>
    ensures { result ≡ nested_kind text.now }
{
    match text {
        "application/x-ssp-package" => Some(NestedKind::Package),
        "application/x-ssp-definition" => Some(NestedKind::Definition),
        _ => None,
    }
}

/// The kind of a Component that may be a system of its own, where it is one.
pub(crate) fn kind_in(setting: Setting, tree: &Tree, node: usize) -> Option<NestedKind>
    ensures { result ≡ kind_in setting tree.now node }
{
    if !setting.nests {
        return None;
    }
    match attribute(tree, node, "type") {
        Some(text) => nested_kind(text),
        None => None,
    }
}

/// Whether the element is an FMU.
pub(crate) fn is_fmu(setting: Setting, tree: &Tree, components: &[usize], node: usize) -> bool
    requires { IsListing (IsComponent tree.now) components.now }
    ensures { IsTrue result ↔ IsFmu setting tree.now node }
{
    is_listed(components, node) && kind_in(setting, tree, node).is_none()
}

/// All FMUs.
pub(crate) fn fmus(
    alloc: Global,
    setting: Setting,
    tree: &Tree,
    components: &[usize],
) -> Result<Vec<usize>, AllocError>
    requires { IsListing (IsComponent tree.now) components.now }
    ensures { IfOk result (λ v. IsListing (IsFmu setting tree.now) v.items) }
{
    let mut fmus = Vec::new(alloc);
    for node in 0..tree.len() {
        if is_fmu(setting, tree, components, node) {
            fmus.push(node)?;
        }
    }
    Ok(fmus)
}
