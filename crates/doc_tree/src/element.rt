//! What is kept of a tag.
ghost use Rattle.std.specs.Prelude.{◌≡◌, ◌++◌, [], IfOk, OnOk, map, encode_utf8_all};
ghost use Rattle.doc_grammar.specs.Nodes.{local_name, is_prefixed, is_kept, kept, kept_if, node};
ghost use Rattle.doc_events.specs.Pairs.{pair_of};
ghost use Rattle.doc_tree.specs.Elements as e;

use crate::tree::{Element, Named};
use doc_events::{Attribute, text_of};
use std::alloc::{AllocError, Global};

/// What follows the last colon.
fn local(name: &[char]) -> &[char]
    ensures { result.now ≡ local_name name.now }
{
    let mut from = 0;
    for i in 0..name.len() {
        if name[i] == ':' {
            from = i + 1;
        }
    }
    &name[from..]
}

/// Whether there is a colon.
fn has_prefix(name: &[char]) -> bool
    ensures { result ≡ is_prefixed name.now }
{
    for c in name {
        if *c == ':' {
            return true;
        }
    }
    false
}

/// Whether an attribute of this full name is kept.
fn keeps(name: &[char]) -> bool
    ensures { result ≡ is_kept name.now }
{
    !has_prefix(name) && name != ['x', 'm', 'l', 'n', 's'].as_slice()
}

/// An attribute's texts.
fn attribute_texts(alloc: Global, attr: &Attribute) -> Result<Named, AllocError>
    ensures { IfOk result (λ n. e.pair_of n ≡ (encode_utf8_all attr.now.name.items, encode_utf8_all attr.now.value.items)) }
{
    Ok(Named {
        name: text_of(alloc, attr.name.as_slice())?,
        value: text_of(alloc, attr.value.as_slice())?,
    })
}

/// Adds an attribute, if it is kept.
fn add(alloc: Global, attrs: &mut Vec<Named>, attr: &Attribute) -> Result<(), AllocError>
    ensures { OnOk result (map e.pair_of attrs.new.items ≡ map e.pair_of attrs.old.items ++ kept_if
        (is_kept attr.now.name.items) (pair_of attr.now) []) }
{
    if keeps(attr.name.as_slice()) {
        attrs.push(attribute_texts(alloc, attr)?)?;
    }
    Ok(())
}

/// The attributes that are kept.
fn kept_of(alloc: Global, all: &[Attribute]) -> Result<Vec<Named>, AllocError>
    ensures { IfOk result (λ v. map e.pair_of v.items ≡ kept (map pair_of all.now)) }
{
    let mut attrs = Vec::with_capacity(alloc, all.len())?;
    for attr in all {
        add(alloc, &mut attrs, attr)?;
    }
    Ok(attrs)
}

/// The element of a tag with this full name and these attributes.
pub(crate) fn element(
    alloc: Global,
    name: &[char],
    attributes: &[Attribute],
    parent: Option<usize>,
) -> Result<Element, AllocError>
    ensures node { IfOk result
        (λ x. e.node_of x ≡ node name.now (map pair_of attributes.now) parent) }
    ensures parent { IfOk result (λ x. x.parent ≡ parent) }
{
    Ok(Element {
        name: text_of(alloc, local(name))?,
        attrs: kept_of(alloc, attributes)?,
        parent,
    })
}
