//! The reader of model descriptions.
ghost use Rattle.std.specs.Prelude.{ℕ, IfOk, IfErr};
ghost use Rattle.value_types.specs.declared.shape.Shape.{Shape};
ghost use Rattle.doc_tables.specs.Answers.{Gives, Refuses};
ghost use Rattle.fmu_description.specs.Answers.{Faults};
ghost use Rattle.fmu_description.specs.Description.{Describes};
ghost use Rattle.fmu_description.specs.Rules.{IsFirstDescriptionViolation, IsSoundDescription};
ghost use Rattle.doc_tree.specs.declared.rule.Rule.{Rule};
ghost use Rattle.doc_tree.specs.declared.rule.DescriptionRule.{DescriptionRule};

use doc_tree::{Refusal, Tree};
use fmu_description::read_description;
use std::alloc::Global;
use value_types::Shape;

/// What the tree of a model description says of its FMU, or the first rule that it breaks.
pub fn read_fmu(alloc: Global, tree: &Tree, resolution: u64) -> Result<Shape, Refusal>
    ensures sound { IfOk result (λ shape. IsSoundDescription tree.now resolution) }
    ensures found { IfOk result (Describes tree.now resolution) }
    ensures fault { IfErr result (Faults tree.now resolution) }
    ensures exact { (rule : DescriptionRule) (node : ℕ) →
        IsFirstDescriptionViolation tree.now resolution node rule →
        Refuses result (Rule.Description rule) node }
    ensures only { (shape : Shape) → IsSoundDescription tree.now resolution →
        Describes tree.now resolution shape → Gives result shape }
{
    read_description(alloc, tree, resolution)
}
