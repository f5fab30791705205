//! The readers of sets and mappings of parameters.
ghost use Rattle.std.specs.Prelude.{ℕ, None, Some, IfOk, IfErr};
ghost use Rattle.doc_tree.specs.declared.rule.Rule.{Rule};
ghost use Rattle.doc_tree.specs.declared.rule.ParameterRule.{ParameterRule};
ghost use Rattle.doc_tables.specs.Answers.{Gives, Refuses};
ghost use Rattle.parameter_values.specs.Ranges.{AreInRange};
ghost use Rattle.parameter_values.specs.declared.set.Mapping.{Mapping};
ghost use Rattle.parameter_values.specs.declared.set.ParameterSet.{ParameterSet};
ghost use Rattle.parameter_sets.specs.Answers.{MappingFaults, SetFaults};
ghost use Rattle.parameter_sets.specs.Rules.{IsFirstInMapping, IsFirstInSet, IsSoundMapping, IsSoundSet};
ghost use Rattle.parameter_sets.specs.Sets.{DescribesMapping, DescribesSet};

use doc_tree::{Refusal, Tree};
use parameter_sets::{read_ssm, read_ssv, read_values_in};
use parameter_values::{Mapping, ParameterSet};
use std::alloc::Global;

/// What a file says that is a set of parameter values, or the first rule that it breaks.
pub fn read_set_file(alloc: Global, tree: &Tree) -> Result<ParameterSet, Refusal>
    ensures sound { IfOk result (λ read. IsSoundSet tree.now None) }
    ensures found { IfOk result (DescribesSet tree.now None) }
    ensures range { IfOk result AreInRange }
    ensures fault { IfErr result (SetFaults tree.now None) }
    ensures exact { (rule : ParameterRule) (node : ℕ) → IsFirstInSet tree.now None node rule →
        Refuses result (Rule.Parameters rule) node }
    ensures only { (read : ParameterSet) → IsSoundSet tree.now None →
        DescribesSet tree.now None read → Gives result read }
{
    read_ssv(alloc, tree)
}

/// What the set of parameter values in an element says, or the first rule that it breaks.
pub fn read_set_within(alloc: Global, tree: &Tree, holder: usize) -> Result<ParameterSet, Refusal>
    ensures sound { IfOk result (λ read. IsSoundSet tree.now (Some holder)) }
    ensures found { IfOk result (DescribesSet tree.now (Some holder)) }
    ensures range { IfOk result AreInRange }
    ensures fault { IfErr result (SetFaults tree.now (Some holder)) }
    ensures exact { (rule : ParameterRule) (node : ℕ) →
        IsFirstInSet tree.now (Some holder) node rule → Refuses result (Rule.Parameters rule) node }
    ensures only { (read : ParameterSet) → IsSoundSet tree.now (Some holder) →
        DescribesSet tree.now (Some holder) read → Gives result read }
{
    read_values_in(alloc, tree, holder)
}

/// What a file says that is a mapping of parameters, or the first rule that it breaks.
pub fn read_mapping_file(alloc: Global, tree: &Tree) -> Result<Mapping, Refusal>
    ensures sound { IfOk result (λ read. IsSoundMapping tree.now None) }
    ensures found { IfOk result (DescribesMapping tree.now None) }
    ensures fault { IfErr result (MappingFaults tree.now None) }
    ensures exact { (rule : ParameterRule) (node : ℕ) → IsFirstInMapping tree.now None node rule →
        Refuses result (Rule.Parameters rule) node }
    ensures only { (read : Mapping) → IsSoundMapping tree.now None →
        DescribesMapping tree.now None read → Gives result read }
{
    read_ssm(alloc, tree)
}
