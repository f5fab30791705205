//! The walk over bindings, the entries of their mappings and the parameters of their sets.
ghost use Rattle.std.specs.Prelude.{◌≡◌, ◌<◌, ◌+◌, ◌++◌, ℕ, List, Option, None, Some, IfOk, IfSome, IfNone, OnOk, length, map, slice_get, string_bytes};
ghost use Rattle.std.specs.Option.{option_map};
ghost use Rattle.parameter_values.specs.declared.change.Change.{Change};
ghost use Rattle.parameter_values.specs.declared.set.Parameter.{Parameter};
ghost use Rattle.parameter_values.specs.declared.set.Transformation.{Transformation};
ghost use Rattle.parameter_values.specs.Ranges.{IsInRange};
ghost use Rattle.parameter_values.specs.Ready.{IsReady};
ghost use Rattle.ssd_tree.specs.declared.tree.Binding.{Binding};
ghost use Rattle.parameter_targets.specs.Chains.{AreChains};
ghost use Rattle.ssd_tree.specs.Named.{IsOwner};
ghost use Rattle.parameter_targets.specs.Tables.{AreFullNames, text_of};
ghost use Rattle.parameter_binding.specs.declared.sets.BindingSets.{BindingSets};
ghost use Rattle.parameter_binding.specs.Binds.{change_of};
ghost use Rattle.parameter_binding.specs.Given.{AreGiven};
ghost use Rattle.parameter_binding.specs.Walk.{AreGathered, IsBindingAt, IsGathered, IsGatheredTo, IsUpToTriple, IsVisit, IsWalk, names_in, triple_of};

use crate::BindingSets;
use crate::gathered::Gathered;
use crate::sets::MappingOf;
use crate::visit::Visit;
use parameter_targets::{Levels, NameChains, Targets};
use parameter_values::{MappingEntry, Parameter, ReadyChange};
use sim_base::Text;
use ssd_tree::{Binding, SystemTree};
use std::alloc::{AllocError, Global};
use value_types::Shape;

/// The bindings of a tree of systems, with what its elements see.
#[derive(Drop)]
pub(crate) struct Walk<'a> {
    tree: &'a SystemTree,
    shapes: &'a [Shape],
    sets: &'a [BindingSets],
    targets: Targets<'a>,
    levels: Levels,
}

// Writes the name with the prefix before it.
fn write_name(buffer: &mut String, prefix: &str, name: &str) -> Result<(), AllocError>
    ensures { OnOk result (string_bytes buffer.new ≡ prefix.now ++ name.now) }
{
    buffer.clear();
    buffer.push_str(prefix)?;
    buffer.push_str(name)?;
    Ok(())
}

// What is left of a name after a prefix.
fn without_prefix<'a>(name: &'a str, prefix: &str) -> Option<&'a str>
    ensures found { IfSome result (λ rest. name.now ≡ prefix.now ++ rest.now) }
    ensures none { IfNone result ((rest : List ℕ) → name.now ≡ prefix.now ++ rest → ⊥) }
{
    name.strip_prefix(prefix)
}

// The names of parameters with their places.
fn names_of<'a>(
    alloc: Global,
    parameters: &'a [Parameter],
) -> Result<Vec<(&'a str, usize)>, AllocError>
    ensures { IfOk result (λ entries. map text_of entries.items ≡ names_in parameters.now) }
{
    let mut entries = Vec::new(alloc);
    for place in 0..parameters.len() {
        entries.push((parameters[place].name.as_str(), place))?;
    }
    Ok(entries)
}

// The change of an entry.
fn ready_of(alloc: Global, entry: &MappingEntry) -> Result<ReadyChange, AllocError>
    ensures { IfOk result (IsReady (change_of entry.now)) }
{
    match &entry.transformation {
        Some(transformation) => ReadyChange::of(alloc, Some(&transformation.change)),
        None => ReadyChange::of(alloc, None),
    }
}

// The element of the change of an entry; 0 where there is none.
fn transformation_of(entry: &MappingEntry) -> usize
    ensures { (x : Transformation) → entry.now.transformation ≡ Some x → result ≡ x.node }
{
    match &entry.transformation {
        Some(transformation) => transformation.node,
        None => 0,
    }
}

impl<'a> Walk<'a> {
    /// A walk over the bindings.
    pub(crate) fn new(
        alloc: Global,
        tree: &'a SystemTree,
        names: &'a [Text],
        shapes: &'a [Shape],
        sets: &'a [BindingSets],
    ) -> Result<Walk<'a>, AllocError>
        requires names { AreFullNames tree.now names.now }
        requires given { AreGiven tree.now shapes.now sets.now }
        ensures walk { IfOk result IsWalk }
        ensures tree { IfOk result (λ w. w.tree.now ≡ tree.now) }
        ensures shapes { IfOk result (λ w. w.shapes.now ≡ shapes.now) }
        ensures sets { IfOk result (λ w. w.sets.now ≡ sets.now) }
    {
        Ok(Walk {
            tree,
            shapes,
            sets,
            targets: Targets::new(alloc, tree, names, shapes)?,
            levels: Levels::of(alloc, tree)?,
        })
    }

    // Puts the next, which has this name.
    fn put(
        &self,
        alloc: Global,
        gathered: &mut Gathered,
        binding: &Binding,
        name: &str,
        visit: &Visit,
    ) -> Result<(), AllocError>
        requires walk { IsWalk self.now }
        requires owner { IsOwner self.now.tree.now binding.now.owner }
        requires range { IsInRange visit.now.parameter.now.value }
        ensures { OnOk result ((change : Option Change) →
            IsVisit self.now.tree.now self.now.sets.now visit.now binding.now name.now change →
            IsGathered self.now.tree.now self.now.shapes.now self.now.sets.now
            (triple_of visit.now) gathered.old →
            AreGathered self.now.tree.now self.now.shapes.now self.now.sets.now
            (IsUpToTriple (triple_of visit.now)) gathered.new) }
    {
        let targets = self.targets.seen_targets(alloc, binding.owner, name)?;
        gathered.put(self.shapes, visit, targets.as_slice())?;
        Ok(())
    }

    // The parameters of a binding without a mapping.
    fn put_plain(
        &self,
        alloc: Global,
        gathered: &mut Gathered,
        b: usize,
        binding: &Binding,
        given: &BindingSets,
        level: usize,
        same: &ReadyChange,
    ) -> Result<(), AllocError>
        requires walk { IsWalk self.now }
        requires at { IsBindingAt self.now b binding.now given.now level }
        requires plain { given.now.mapping ≡ None }
        requires same { IsReady None same.now }
        requires before { IsGatheredTo self.now b 0 0 gathered.old }
        ensures { OnOk result (IsGatheredTo self.now (b + 1) 0 0 gathered.new) }
    {
        let mut name = String::new(alloc);
        let parameters = given.values.set.parameters.as_slice();
        for place in 0..parameters.len() {
            let parameter = &parameters[place];
            write_name(&mut name, binding.prefix.as_str(), parameter.name.as_str())?;
            let visit = Visit {
                binding: b,
                entry: 0,
                place,
                level,
                parameter,
                ready: same,
                set_file: given.values.file,
                mapping_file: 0,
                transformation: 0,
            };
            self.put(alloc, gathered, binding, name.as_str(), &visit)?;
        }
        Ok(())
    }

    // The parameters of this name under the target of an entry.
    fn put_named(
        &self,
        alloc: Global,
        gathered: &mut Gathered,
        chains: &NameChains,
        b: usize,
        e: usize,
        binding: &Binding,
        given: &BindingSets,
        mapping: &MappingOf,
        level: usize,
        entry: &MappingEntry,
        ready: &ReadyChange,
        source: &str,
    ) -> Result<(), AllocError>
        requires walk { IsWalk self.now }
        requires at { IsBindingAt self.now b binding.now given.now level }
        requires mapped { given.now.mapping ≡ Some mapping.now }
        requires entry { slice_get mapping.now.mapping.entries e ≡ Some entry.now }
        requires ready { IsReady (change_of entry.now) ready.now }
        requires source { entry.now.source ≡ binding.now.prefix ++ source.now }
        requires chains { AreChains (names_in given.now.values.set.parameters) chains.now }
        requires before { IsGatheredTo self.now b e 0 gathered.old }
        ensures { OnOk result (IsGatheredTo self.now b (e + 1) 0 gathered.new) }
    {
        let parameters = given.values.set.parameters.as_slice();
        let mut next = chains.find(source);
        while let Some(place) = next {
            let visit = Visit {
                binding: b,
                entry: e,
                place,
                level,
                parameter: &parameters[place],
                ready,
                set_file: given.values.file,
                mapping_file: mapping.file,
                transformation: transformation_of(entry),
            };
            self.put(alloc, gathered, binding, entry.target.as_str(), &visit)?;
            next = chains.next(place);
        }
        Ok(())
    }

    // The parameters that an entry of a mapping names.
    fn put_entry(
        &self,
        alloc: Global,
        gathered: &mut Gathered,
        chains: &NameChains,
        b: usize,
        e: usize,
        binding: &Binding,
        given: &BindingSets,
        mapping: &MappingOf,
        level: usize,
    ) -> Result<(), AllocError>
        requires walk { IsWalk self.now }
        requires at { IsBindingAt self.now b binding.now given.now level }
        requires mapped { given.now.mapping ≡ Some mapping.now }
        requires within { e < length mapping.now.mapping.entries }
        requires chains { AreChains (names_in given.now.values.set.parameters) chains.now }
        requires before { IsGatheredTo self.now b e 0 gathered.old }
        ensures { OnOk result (IsGatheredTo self.now b (e + 1) 0 gathered.new) }
    {
        let entry = &mapping.mapping.entries.as_slice()[e];
        match without_prefix(entry.source.as_str(), binding.prefix.as_str()) {
            Some(source) => {
                let ready = ready_of(alloc, entry)?;
                self.put_named(
                    alloc, gathered, chains, b, e, binding, given, mapping, level, entry, &ready,
                    source,
                )?;
            }
            None => {}
        }
        Ok(())
    }

    // The parameters of a binding with a mapping.
    fn put_mapped(
        &self,
        alloc: Global,
        gathered: &mut Gathered,
        b: usize,
        binding: &Binding,
        given: &BindingSets,
        mapping: &MappingOf,
        level: usize,
    ) -> Result<(), AllocError>
        requires walk { IsWalk self.now }
        requires at { IsBindingAt self.now b binding.now given.now level }
        requires mapped { given.now.mapping ≡ Some mapping.now }
        requires before { IsGatheredTo self.now b 0 0 gathered.old }
        ensures { OnOk result (IsGatheredTo self.now (b + 1) 0 0 gathered.new) }
    {
        let names = names_of(alloc, given.values.set.parameters.as_slice())?;
        let chains = NameChains::of(alloc, names.as_slice())?;
        for e in 0..mapping.mapping.entries.len() {
            self.put_entry(
                alloc, gathered, &chains, b, e, binding, given, mapping, level,
            )?;
        }
        Ok(())
    }

    /// The parameters of a binding.
    pub(crate) fn put_binding(
        &self,
        alloc: Global,
        gathered: &mut Gathered,
        b: usize,
    ) -> Result<(), AllocError>
        requires walk { IsWalk self.now }
        requires within { b < length self.now.tree.now.bindings }
        requires before { IsGatheredTo self.now b 0 0 gathered.old }
        ensures { OnOk result (IsGatheredTo self.now (b + 1) 0 0 gathered.new) }
    {
        let binding = &self.tree.bindings.as_slice()[b];
        let given = &self.sets[b];
        let level = self.levels.level(self.tree, binding.owner);
        match &given.mapping {
            None => {
                self.put_plain(
                    alloc,
                    gathered,
                    b,
                    binding,
                    given,
                    level,
                    &ReadyChange::Same,
                )?;
            }
            Some(mapping) => {
                self.put_mapped(alloc, gathered, b, binding, given, mapping, level)?;
            }
        }
        Ok(())
    }
}
