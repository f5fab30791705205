//! What a description says of its FMU, or the first rule that it breaks.
ghost use Rattle.std.specs.Prelude.{◌≡◌, ℕ, IfOk, IfErr};
ghost use Rattle.value_types.specs.declared.shape.Shape.{Shape};
ghost use Rattle.doc_tables.specs.Answers.{Gives, Refuses};
ghost use Rattle.fmu_description.specs.Answers.{Faults};
ghost use Rattle.fmu_description.specs.Description.{Describes};
ghost use Rattle.fmu_description.specs.Indexed.{IsIndexed};
ghost use Rattle.fmu_description.specs.Rules.{IsFirstDescriptionViolation, IsSoundDescription};
ghost use Rattle.doc_tree.specs.declared.rule.DescriptionRule.{DescriptionRule};

use crate::indexed::IndexedTree;
use crate::law::one_description;
use crate::shape::describe;
use doc_tables::refusal;
use doc_tree::{Refusal, Rule, Tree};
use std::alloc::{AllocError, Global};
use value_types::Shape;

fn describe_indexed(alloc: Global, indexed: &IndexedTree) -> Result<Shape, AllocError>
    requires indexed { IsIndexed indexed.now }
    requires sound { IsSoundDescription indexed.now.tree.now indexed.now.resolution }
    ensures { IfOk result (Describes indexed.now.tree.now indexed.now.resolution) }
{
    describe(
        alloc,
        indexed.tree,
        &indexed.ignored,
        &indexed.variables,
        &indexed.initial_unknowns,
        &indexed.outputs,
        indexed.resolution,
    )
}

/// What the tree of a model description says of its FMU, where a second has `resolution` counts; or the first element
/// that breaks a rule, and the rule of the least number that it breaks (FMI 3.0, 2.4).
#[tactic(auto, using(crate::proofs::RuleLemmas::faults, crate::proofs::RuleLemmas::exact_at, crate::proofs::RuleLemmas::none_described, crate::proofs::RuleLemmas::none_violated))]
pub fn read_description(alloc: Global, tree: &Tree, resolution: u64) -> Result<Shape, Refusal>
    ensures sound { IfOk result (λ shape. IsSoundDescription tree.now resolution) }
    ensures found { IfOk result (Describes tree.now resolution) }
    ensures fault { IfErr result (Faults tree.now resolution) }
    ensures exact { (rule : DescriptionRule) (node : ℕ) →
        IsFirstDescriptionViolation tree.now resolution node rule →
        Refuses result (Rule.Description rule) node }
    ensures only { (shape : Shape) → IsSoundDescription tree.now resolution →
        Describes tree.now resolution shape → Gives result shape }
{
    one_description();
    let Ok(indexed) = IndexedTree::new(alloc, tree, resolution) else {
        return Err(Refusal::Memory);
    };
    match indexed.first_violation(alloc) {
        Ok(Some((node, rule))) => Err(refusal(alloc, node, Rule::Description(rule))),
        Ok(None) => match describe_indexed(alloc, &indexed) {
            Ok(shape) => Ok(shape),
            Err(_) => Err(Refusal::Memory),
        },
        Err(_) => Err(Refusal::Memory),
    }
}
