//! The reader of system structures.
ghost use Rattle.std.specs.Prelude.{◌≡◌, ℕ, IfOk, IfErr, length};
ghost use Rattle.doc_tree.specs.declared.rule.Rule.{Rule};
ghost use Rattle.doc_tree.specs.declared.rule.SystemRule.{SystemRule};
ghost use Rattle.doc_tables.specs.Answers.{Gives, Refuses};
ghost use Rattle.ssd_tree.specs.Answers.{Faults};
ghost use Rattle.ssd_tree.specs.Lists.{tree_of};
ghost use Rattle.ssd_tree.specs.Nested.{DescribesNested};
ghost use Rattle.ssd_tree.specs.Parts.{Describes};
ghost use Rattle.ssd_tree.specs.Rules.{IsFirstStructureViolation, IsSoundIn, alone};
ghost use Rattle.ssd_tree.specs.declared.tree.SystemTree.{SystemTree};

use doc_tree::{Refusal, Tree};
use ssd_tree::{DocumentParts, Setting, SystemTree, read_document, read_ssd};
use std::alloc::Global;

/// What the tree of a system structure description says of its systems, or the first rule that it breaks.
pub fn read_structure(alloc: Global, tree: &Tree) -> Result<SystemTree, Refusal>
    ensures sound { IfOk result (λ read. IsSoundIn alone tree.now) }
    ensures found { IfOk result (Describes tree.now) }
    ensures fault { IfErr result (Faults alone tree.now) }
    ensures exact { (rule : SystemRule) (node : ℕ) → IsFirstStructureViolation alone tree.now node rule →
        Refuses result (Rule.System rule) node }
    ensures only { (read : SystemTree) → IsSoundIn alone tree.now → Describes tree.now read →
        Gives result read }
{
    read_ssd(alloc, tree)
}

/// What the tree of one of several documents says in a setting, or the first rule that it breaks.
pub fn read_one_document(
    alloc: Global,
    setting: Setting,
    tree: &Tree,
) -> Result<DocumentParts, Refusal>
    ensures sound { IfOk result (λ read. IsSoundIn setting tree.now) }
    ensures found { IfOk result (λ read. Describes tree.now (tree_of read.parts)) }
    ensures nested { IfOk result (λ read. DescribesNested setting tree.now read.nested.items) }
    ensures elements { IfOk result (λ read. read.elements ≡ length tree.now) }
    ensures fault { IfErr result (Faults setting tree.now) }
    ensures exact { (rule : SystemRule) (node : ℕ) → IsFirstStructureViolation setting tree.now node rule →
        Refuses result (Rule.System rule) node }
{
    read_document(alloc, setting, tree)
}
