ghost use Rattle.std.specs.Prelude.{◌≡◌, ◌+◌, ◌≤◌, ◌∷◌, ◌++◌, [], IfOk, IfErr, OnOk, length, map, take, string_bytes, encode_utf8_all};
ghost use Rattle.doc_events.specs.Pairs.{pair_of};
ghost use Rattle.doc_grammar.specs.Grammar.{has};
ghost use Rattle.doc_events.specs.declared.state.Stop.TheVariants.{Memory};

use crate::state::Stop;
use std::alloc::{AllocError, Global};
use std::collections::BTreeSet;
use std::marker::Model;

/// An attribute with its full name.
#[derive(Drop)]
pub struct Attribute {
    pub name: Vec<char>,
    pub value: Vec<char>,
}

/// How many names are compared one by one.
const FEW: usize = 8;

/// The attributes of a tag so far. A clause sees their names and values, in order.
#[derive(Drop)]
pub struct Attributes {
    /// These, and after them attributes of earlier tags, whose memory is taken again.
    list: Vec<Attribute>,
    count: usize,
    /// The names after the first few.
    seen: BTreeSet<String>,
}

impl Model for Attributes {
    ghost use Rattle.std.specs.Prelude.{List, ℕ, ◌≤◌, map, take, drop, length};
    ghost use Rattle.doc_events.specs.Pairs.{pair_of, Sees};

    ghost Value = { List (List ℕ × List ℕ) };

    ghost view = { λ a. map pair_of (take a.count a.list.items) };

    ghost invariant = { λ a. (a.count ≤ length a.list.items) × Sees a.seen (drop 8 (map pair_of (take a.count a.list.items))) };
}

/// A text of these characters.
pub fn text_of(alloc: Global, chars: &[char]) -> Result<String, AllocError>
    ensures { IfOk result (λ t. string_bytes t ≡ encode_utf8_all chars.now) }
{
    let mut text = String::with_capacity(alloc, chars.len())?;
    for c in chars {
        text.push(*c)?;
    }
    Ok(text)
}

/// Whether one of these attributes has this full name.
fn is_among(attributes: &[Attribute], name: &[char]) -> bool
    ensures { result ≡ has (map pair_of attributes.now) name.now }
{
    for attribute in attributes {
        if attribute.name.as_slice() == name {
            return true;
        }
    }
    false
}

/// Makes an attribute say this.
fn rewrite(attribute: &mut Attribute, name: &[char], value: &[char]) -> Result<(), AllocError>
    ensures { OnOk result (pair_of attribute.new ≡ (name.now, value.now)) }
{
    attribute.name.clear();
    attribute.name.extend_from_slice(name)?;
    attribute.value.clear();
    attribute.value.extend_from_slice(value)
}

/// Puts an attribute after the first ones.
fn put(
    alloc: Global,
    list: &mut Vec<Attribute>,
    count: usize,
    name: &[char],
    value: &[char],
) -> Result<(), AllocError>
    requires { count ≤ length list.old.items }
    ensures within { OnOk result (count + 1 ≤ length list.new.items) }
    ensures items { OnOk result (map pair_of (take (count + 1) list.new.items) ≡
        map pair_of (take count list.old.items) ++ (name.now, value.now) ∷ []) }
{
    if count < list.len() {
        rewrite(&mut list[count], name, value)
    } else {
        list.push(Attribute {
            name: Vec::from_slice(alloc, name)?,
            value: Vec::from_slice(alloc, value)?,
        })?;
        Ok(())
    }
}

impl Attributes {
    /// No attributes.
    pub(crate) fn new(alloc: Global) -> Attributes
        ensures { result ≡ [] }
    {
        Attributes {
            list: Vec::new(alloc),
            count: 0,
            seen: BTreeSet::new(alloc),
        }
    }

    /// No attributes, with the memory of these.
    pub(crate) fn emptied(self, alloc: Global) -> Attributes
        ensures { result ≡ [] }
    {
        Attributes {
            list: self.list,
            count: 0,
            seen: BTreeSet::new(alloc),
        }
    }

    /// The attributes in order.
    pub fn as_slice(&self) -> &[Attribute]
        ensures { map pair_of result.now ≡ self.now }
    {
        &self.list.as_slice()[..self.count]
    }

    /// Whether there is one of this full name.
    pub(crate) fn has(&self, alloc: Global, name: &[char]) -> Result<bool, AllocError>
        ensures { IfOk result (λ b. b ≡ has self.now name.now) }
    {
        let all = self.as_slice();
        if all.len() <= FEW {
            return Ok(is_among(all, name));
        }
        if is_among(&all[..FEW], name) {
            return Ok(true);
        }
        let text = text_of(alloc, name)?;
        Ok(self.seen.contains(text.as_str()))
    }

    /// The same attributes, and one more.
    pub(crate) fn with(
        self,
        alloc: Global,
        name: &[char],
        value: &[char],
    ) -> Result<Attributes, Stop>
        ensures ok { IfOk result (λ a. a ≡ self ++ (name.now, value.now) ∷ []) }
        ensures err { IfErr result (λ e. e ≡ Memory) }
    {
        let Attributes {
            mut list,
            count,
            mut seen,
        } = self;
        if count >= FEW {
            seen.insert(text_of(alloc, name)?)?;
        }
        put(alloc, &mut list, count, name, value)?;
        Ok(Attributes {
            list,
            count: count + 1,
            seen,
        })
    }
}
