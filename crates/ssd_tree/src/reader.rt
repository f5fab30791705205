//! What a system structure description says, or the first rule that it breaks.
ghost use Rattle.std.specs.Prelude.{◌≡◌, ℕ, IfOk, IfErr, length};
ghost use Rattle.doc_tree.specs.declared.rule.SystemRule.{SystemRule};
ghost use Rattle.doc_tables.specs.Answers.{Gives, Refuses};
ghost use Rattle.ssd_tree.specs.Answers.{Faults};
ghost use Rattle.ssd_tree.specs.Lists.{tree_of};
ghost use Rattle.ssd_tree.specs.Nested.{DescribesNested};
ghost use Rattle.ssd_tree.specs.Parts.{Describes};
ghost use Rattle.ssd_tree.specs.Rules.{IsFirstStructureViolation, IsSoundIn, alone};
ghost use Rattle.ssd_tree.specs.declared.tree.SystemTree.{SystemTree};

use crate::indexed::IndexedTree;
use crate::law::one_tree;
use crate::lists::DocumentParts;
use crate::tree::{Setting, SystemTree};
use doc_tables::refusal;
use doc_tree::{Refusal, Rule, Tree};
use std::alloc::Global;

/// What the tree of a system structure description says in a setting, and which of its Components are systems of their own;
/// or the first element that breaks a rule, and the rule of the least number that it breaks (SSP 1.0,
/// SystemStructure.ssd).
#[tactic(auto, using(crate::proofs::ReadLemmas::faults, crate::proofs::ReadLemmas::exact_in, crate::proofs::ReadLemmas::none_described, crate::proofs::ReadLemmas::none_violated))]
pub fn read_document(alloc: Global, setting: Setting, tree: &Tree) -> Result<DocumentParts, Refusal>
    ensures sound { IfOk result (λ read. IsSoundIn setting tree.now) }
    ensures found { IfOk result (λ read. Describes tree.now (tree_of read.parts)) }
    ensures nested { IfOk result (λ read. DescribesNested setting tree.now read.nested.items) }
    ensures elements { IfOk result (λ read. read.elements ≡ length tree.now) }
    ensures fault { IfErr result (Faults setting tree.now) }
    ensures exact { (rule : SystemRule) (node : ℕ) → IsFirstStructureViolation setting tree.now node rule →
        Refuses result (Rule.System rule) node }
{
    let Ok(indexed) = IndexedTree::new(alloc, setting, tree) else {
        return Err(Refusal::Memory);
    };
    match indexed.first_violation(alloc) {
        Ok(Some((node, rule))) => Err(refusal(alloc, node, Rule::System(rule))),
        Ok(None) => match indexed.document(alloc) {
            Ok(read) => Ok(read),
            Err(_) => Err(Refusal::Memory),
        },
        Err(_) => Err(Refusal::Memory),
    }
}

/// What the tree of a system structure description says of its systems, where each Component is an FMU; or the first element
/// that breaks a rule, and the rule of the least number that it breaks (SSP 1.0, SystemStructure.ssd).
pub fn read_ssd(alloc: Global, tree: &Tree) -> Result<SystemTree, Refusal>
    ensures sound { IfOk result (λ read. IsSoundIn alone tree.now) }
    ensures found { IfOk result (Describes tree.now) }
    ensures fault { IfErr result (Faults alone tree.now) }
    ensures exact { (rule : SystemRule) (node : ℕ) → IsFirstStructureViolation alone tree.now node rule →
        Refuses result (Rule.System rule) node }
    ensures only { (read : SystemTree) → IsSoundIn alone tree.now → Describes tree.now read →
        Gives result read }
{
    one_tree();
    let setting = Setting {
        nests: false,
        fmus: 0,
        name_above: 0,
    };
    match read_document(alloc, setting, tree) {
        Ok(read) => Ok(read.parts.into_tree()),
        Err(refusal) => Err(refusal),
    }
}
