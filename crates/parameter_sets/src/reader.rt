//! What a set or a mapping says, or the first rule that it breaks.
ghost use Rattle.std.specs.Prelude.{◌≡◌, ℕ, None, Some, IfOk, IfErr, MatchOption};
ghost use Rattle.std.specs.List.{AllZip};
ghost use Rattle.doc_tree.specs.declared.rule.ParameterRule.{ParameterRule};
ghost use Rattle.doc_tables.specs.Answers.{Gives, Refuses};
ghost use Rattle.parameter_values.specs.Ranges.{AreInRange};
ghost use Rattle.parameter_values.specs.declared.set.Mapping.{Mapping};
ghost use Rattle.parameter_values.specs.declared.set.ParameterSet.{ParameterSet};
ghost use Rattle.parameter_sets.specs.Answers.{MappingFaults, SetFaults};
ghost use Rattle.parameter_sets.specs.Parts.{IsMappingOf, IsSetOf};
ghost use Rattle.parameter_sets.specs.Rules.{IsFirstInMapping, IsFirstInSet, IsSoundMapping, IsSoundSet};
ghost use Rattle.parameter_sets.specs.Sets.{DescribesMapping, DescribesSet};

use crate::elements::{inside, tops, transformations};
use crate::entries::entries;
use crate::law::{one_mapping, one_set};
use crate::parameters::parameters;
use crate::part::Part;
use crate::rules::{earlier, first_broken, other_structure};
use doc_tables::refusal;
use doc_tree::{ParameterRule, Refusal, Rule, Tree};
use parameter_values::{Mapping, ParameterSet};
use sim_base::Items;
use std::alloc::{AllocError, Global};

/// The elements of a set.
#[derive(Drop)]
pub(crate) struct SetParts {
    pub(crate) sets: Vec<usize>,
    pub(crate) parameters: Vec<usize>,
}

/// The elements of a mapping.
#[derive(Drop)]
pub(crate) struct MappingParts {
    pub(crate) mappings: Vec<usize>,
    pub(crate) entries: Vec<usize>,
    pub(crate) transformations: Vec<usize>,
}

fn set_parts(alloc: Global, tree: &Tree, at: Option<usize>) -> Result<SetParts, AllocError>
    ensures { IfOk result (IsSetOf tree.now at) }
{
    let sets = tops(alloc, tree, "ParameterSet", at)?;
    let lists = inside(alloc, tree, sets.as_slice(), "Parameters")?;
    let parameters = inside(alloc, tree, lists.as_slice(), "Parameter")?;
    Ok(SetParts { sets, parameters })
}

fn mapping_parts(alloc: Global, tree: &Tree, at: Option<usize>) -> Result<MappingParts, AllocError>
    ensures { IfOk result (IsMappingOf tree.now at) }
{
    let mappings = tops(alloc, tree, "ParameterMapping", at)?;
    let entries = inside(alloc, tree, mappings.as_slice(), "MappingEntry")?;
    let transformations = transformations(alloc, tree, entries.as_slice())?;
    Ok(MappingParts {
        mappings,
        entries,
        transformations,
    })
}

fn first_in_set(
    alloc: Global,
    tree: &Tree,
    at: Option<usize>,
    parts: &SetParts,
) -> Result<Option<(usize, ParameterRule)>, AllocError>
    requires { IsSetOf tree.now at parts.now }
    ensures { IfOk result (λ found. MatchOption found (IsSoundSet tree.now at)
        (λ v. IsFirstInSet tree.now at v.0 v.1)) }
{
    let structure = other_structure(tree, parts.sets.as_slice(), at);
    let incomplete = first_broken(alloc, tree, Part::Parameter, parts.parameters.as_slice())?;
    let first = earlier(None, structure, ParameterRule::Structure);
    Ok(earlier(first, incomplete, ParameterRule::Incomplete))
}

fn first_in_mapping(
    alloc: Global,
    tree: &Tree,
    at: Option<usize>,
    parts: &MappingParts,
) -> Result<Option<(usize, ParameterRule)>, AllocError>
    requires { IsMappingOf tree.now at parts.now }
    ensures { IfOk result (λ found. MatchOption found (IsSoundMapping tree.now at)
        (λ v. IsFirstInMapping tree.now at v.0 v.1)) }
{
    let structure = other_structure(tree, parts.mappings.as_slice(), at);
    let incomplete = first_broken(alloc, tree, Part::Entry, parts.entries.as_slice())?;
    let misread = first_broken(
        alloc,
        tree,
        Part::Transformation,
        parts.transformations.as_slice(),
    )?;
    let first = earlier(None, structure, ParameterRule::Structure);
    let second = earlier(first, incomplete, ParameterRule::Incomplete);
    Ok(earlier(second, misread, ParameterRule::Transformation))
}

fn describe_set(
    alloc: Global,
    tree: &Tree,
    at: Option<usize>,
    parts: &SetParts,
) -> Result<ParameterSet, AllocError>
    requires is { IsSetOf tree.now at parts.now }
    requires sound { IsSoundSet tree.now at }
    ensures { IfOk result (DescribesSet tree.now at) }
{
    Ok(ParameterSet {
        parameters: Items::from_vec(parameters(alloc, tree, parts.parameters.as_slice())?),
    })
}

fn describe_mapping(
    alloc: Global,
    tree: &Tree,
    at: Option<usize>,
    parts: &MappingParts,
) -> Result<Mapping, AllocError>
    requires is { IsMappingOf tree.now at parts.now }
    requires sound { IsSoundMapping tree.now at }
    ensures { IfOk result (DescribesMapping tree.now at) }
{
    Ok(Mapping {
        entries: Items::from_vec(entries(alloc, tree, parts.entries.as_slice())?),
    })
}

#[tactic(auto, using(crate::proofs::AnswerLemmas::set_faults, crate::proofs::AnswerLemmas::set_exact, crate::proofs::AnswerLemmas::none_in_set, crate::proofs::AnswerLemmas::set_violated))]
fn read_set(alloc: Global, tree: &Tree, at: Option<usize>) -> Result<ParameterSet, Refusal>
    ensures sound { IfOk result (λ read. IsSoundSet tree.now at) }
    ensures found { IfOk result (DescribesSet tree.now at) }
    ensures range { IfOk result AreInRange }
    ensures fault { IfErr result (SetFaults tree.now at) }
    ensures exact { (rule : ParameterRule) (node : ℕ) → IsFirstInSet tree.now at node rule →
        Refuses result (Rule.Parameters rule) node }
    ensures only { (read : ParameterSet) → IsSoundSet tree.now at → DescribesSet tree.now at read →
        Gives result read }
{
    one_set();
    let Ok(parts) = set_parts(alloc, tree, at) else {
        return Err(Refusal::Memory);
    };
    match first_in_set(alloc, tree, at, &parts) {
        Ok(Some((node, rule))) => Err(refusal(alloc, node, Rule::Parameters(rule))),
        Ok(None) => match describe_set(alloc, tree, at, &parts) {
            Ok(read) => Ok(read),
            Err(_) => Err(Refusal::Memory),
        },
        Err(_) => Err(Refusal::Memory),
    }
}

#[tactic(auto, using(crate::proofs::AnswerLemmas::mapping_faults, crate::proofs::AnswerLemmas::mapping_exact, crate::proofs::AnswerLemmas::none_in_mapping, crate::proofs::AnswerLemmas::mapping_violated))]
fn read_mapping(alloc: Global, tree: &Tree, at: Option<usize>) -> Result<Mapping, Refusal>
    ensures sound { IfOk result (λ read. IsSoundMapping tree.now at) }
    ensures found { IfOk result (DescribesMapping tree.now at) }
    ensures fault { IfErr result (MappingFaults tree.now at) }
    ensures exact { (rule : ParameterRule) (node : ℕ) → IsFirstInMapping tree.now at node rule →
        Refuses result (Rule.Parameters rule) node }
    ensures only { (read : Mapping) → IsSoundMapping tree.now at →
        DescribesMapping tree.now at read → Gives result read }
{
    one_mapping();
    let Ok(parts) = mapping_parts(alloc, tree, at) else {
        return Err(Refusal::Memory);
    };
    match first_in_mapping(alloc, tree, at, &parts) {
        Ok(Some((node, rule))) => Err(refusal(alloc, node, Rule::Parameters(rule))),
        Ok(None) => match describe_mapping(alloc, tree, at, &parts) {
            Ok(read) => Ok(read),
            Err(_) => Err(Refusal::Memory),
        },
        Err(_) => Err(Refusal::Memory),
    }
}

/// What a file says that is a set of parameter values; or the first element that breaks a rule, and the rule of the least
/// number that it breaks (SSP 1.0, SSV).
pub fn read_ssv(alloc: Global, tree: &Tree) -> Result<ParameterSet, Refusal>
    ensures sound { IfOk result (λ read. IsSoundSet tree.now None) }
    ensures found { IfOk result (DescribesSet tree.now None) }
    ensures range { IfOk result AreInRange }
    ensures fault { IfErr result (SetFaults tree.now None) }
    ensures exact { (rule : ParameterRule) (node : ℕ) → IsFirstInSet tree.now None node rule →
        Refuses result (Rule.Parameters rule) node }
    ensures only { (read : ParameterSet) → IsSoundSet tree.now None →
        DescribesSet tree.now None read → Gives result read }
{
    read_set(alloc, tree, None)
}

/// What the set of parameter values says that stands in this element, the ParameterValues of a binding; or the first
/// element that breaks a rule, and the rule of the least number that it breaks (SSP 1.0, ParameterValues).
pub fn read_values_in(alloc: Global, tree: &Tree, holder: usize) -> Result<ParameterSet, Refusal>
    ensures sound { IfOk result (λ read. IsSoundSet tree.now (Some holder)) }
    ensures found { IfOk result (DescribesSet tree.now (Some holder)) }
    ensures range { IfOk result AreInRange }
    ensures fault { IfErr result (SetFaults tree.now (Some holder)) }
    ensures exact { (rule : ParameterRule) (node : ℕ) →
        IsFirstInSet tree.now (Some holder) node rule → Refuses result (Rule.Parameters rule) node }
    ensures only { (read : ParameterSet) → IsSoundSet tree.now (Some holder) →
        DescribesSet tree.now (Some holder) read → Gives result read }
{
    read_set(alloc, tree, Some(holder))
}

/// What a file says that is a mapping of parameters; or the first element that breaks a rule, and the rule of the least
/// number that it breaks (SSP 1.0, SSM).
pub fn read_ssm(alloc: Global, tree: &Tree) -> Result<Mapping, Refusal>
    ensures sound { IfOk result (λ read. IsSoundMapping tree.now None) }
    ensures found { IfOk result (DescribesMapping tree.now None) }
    ensures fault { IfErr result (MappingFaults tree.now None) }
    ensures exact { (rule : ParameterRule) (node : ℕ) → IsFirstInMapping tree.now None node rule →
        Refuses result (Rule.Parameters rule) node }
    ensures only { (read : Mapping) → IsSoundMapping tree.now None →
        DescribesMapping tree.now None read → Gives result read }
{
    read_mapping(alloc, tree, None)
}

/// What the mapping of parameters says that stands in this element, the ParameterMapping of a binding; or the first
/// element that breaks a rule, and the rule of the least number that it breaks (SSP 1.0, ParameterMapping).
pub fn read_mapping_in(alloc: Global, tree: &Tree, holder: usize) -> Result<Mapping, Refusal>
    ensures sound { IfOk result (λ read. IsSoundMapping tree.now (Some holder)) }
    ensures found { IfOk result (DescribesMapping tree.now (Some holder)) }
    ensures fault { IfErr result (MappingFaults tree.now (Some holder)) }
    ensures exact { (rule : ParameterRule) (node : ℕ) →
        IsFirstInMapping tree.now (Some holder) node rule →
        Refuses result (Rule.Parameters rule) node }
    ensures only { (read : Mapping) → IsSoundMapping tree.now (Some holder) →
        DescribesMapping tree.now (Some holder) read → Gives result read }
{
    read_mapping(alloc, tree, Some(holder))
}
