//! A tree of systems flattened.
ghost use Rattle.std.specs.Prelude.{ℕ, IfOk, IfErr};
ghost use Rattle.doc_tree.specs.declared.rule.Rule.{Rule};
ghost use Rattle.doc_tables.specs.Answers.{Refuses};
ghost use Rattle.system_model.specs.Sound.{IsSound};
ghost use Rattle.system_model.specs.declared.system.System.{System};
ghost use Rattle.flatten.specs.Answers.{Faults, GivesParts};
ghost use Rattle.flatten.specs.Flat.{Flattens};
ghost use Rattle.flatten.specs.Given.{AreShapesOf, IsWholeTree};
ghost use Rattle.flatten.specs.Rules.{IsFirstFlatteningViolation, IsFitting};

use doc_tree::Refusal;
use flatten::flatten;
use ssd_tree::SystemTree;
use std::alloc::Global;
use system_model::System;
use value_types::Shape;

/// The system of a tree of systems without its levels, or the first rule that is broken.
pub fn flatten_tree(alloc: Global, tree: &SystemTree, shapes: &[Shape]) -> Result<System, Refusal>
    requires whole { IsWholeTree tree.now }
    requires shapes { AreShapesOf tree.now shapes.now }
    ensures fitting { IfOk result (λ system. IsFitting tree.now shapes.now) }
    ensures found { IfOk result (Flattens tree.now shapes.now) }
    ensures sound { IfOk result IsSound }
    ensures fault { IfErr result (Faults tree.now shapes.now) }
    ensures exact { (rule : Rule) (node : ℕ) → IsFirstFlatteningViolation tree.now shapes.now node rule →
        Refuses result rule node }
    ensures only { (system : System) → IsFitting tree.now shapes.now →
        Flattens tree.now shapes.now system → GivesParts result system }
{
    flatten(alloc, tree, shapes)
}
