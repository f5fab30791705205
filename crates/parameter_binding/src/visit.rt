//! One parameter of a set under one name.
ghost use Rattle.std.specs.Prelude.{◌≡◌, ◌↔◌, ℕ, List, Option, Some, IsTrue, OnOk, Contains};
ghost use Rattle.value_types.specs.declared.shape.Shape.{Shape};
ghost use Rattle.value_types.specs.declared.shape.Variable.{Variable};
ghost use Rattle.parameter_values.specs.declared.change.Change.{Change};
ghost use Rattle.parameter_values.specs.Ranges.{IsInRange};
ghost use Rattle.ssd_tree.specs.declared.tree.Binding.{Binding};
ghost use Rattle.ssd_tree.specs.declared.tree.SystemTree.{SystemTree};
ghost use Rattle.parameter_targets.specs.declared.target.Target.{Target};
ghost use Rattle.parameter_targets.specs.Scopes.{IsTarget, Sees};
ghost use Rattle.parameter_binding.specs.declared.sets.BindingSets.{BindingSets};
ghost use Rattle.parameter_binding.specs.Binds.{IsLater, Triple};
ghost use Rattle.parameter_binding.specs.Walk.{AreSeen, AreWinners, FindsFault, HasTwo, IsJudged, IsUpToTriple, IsVisit, NoneBreaks, PutsTaken, mapping_fault, set_fault, triple_of};

use crate::fault::{Fault, first_of};
use crate::winners::{Best, Winners};
use doc_tree::ParameterRule;
use parameter_targets::Target;
use parameter_values::{Judgement, Parameter, ReadyChange};
use std::alloc::AllocError;
use system_model::BoundValue;
use value_types::{PortType, Shape, Variable};

/// A parameter of a set under the name that it gets, where the elements stand and how its value changes.
#[derive(Clone, Copy)]
pub(crate) struct Visit<'a> {
    pub(crate) binding: usize,
    /// of the mapping; 0 where there is none
    pub(crate) entry: usize,
    /// of the parameter in its set
    pub(crate) place: usize,
    /// of the binding's element
    pub(crate) level: usize,
    pub(crate) parameter: &'a Parameter,
    pub(crate) ready: &'a ReadyChange,
    pub(crate) set_file: usize,
    /// 0 where there is no mapping
    pub(crate) mapping_file: usize,
    /// the element of the change; 0 where there is none
    pub(crate) transformation: usize,
}

/// The variable of a target.
pub(crate) fn variable_of(shapes: &[Shape], target: Target) -> &Variable
    requires { (v : Variable) × IsTarget shapes.now target v }
    ensures { IsTarget shapes.now target result.now }
{
    &shapes[target.component].variables.as_slice()[target.variable]
}

// Whether they are more than one.
fn names_two(targets: &[Target]) -> bool
    ensures { IsTrue result ↔ HasTwo targets.now }
{
    for target in targets {
        if *target != targets[0] {
            return true;
        }
    }
    false
}

impl Visit<'_> {
    fn fault_in_set(&self, rule: ParameterRule) -> Fault
        ensures { result ≡ set_fault self.now rule }
    {
        Fault {
            binding: self.binding,
            file: self.set_file,
            in_mapping: false,
            node: self.parameter.node,
            rule,
        }
    }

    fn fault_in_mapping(&self) -> Fault
        ensures { result ≡ mapping_fault self.now }
    {
        Fault {
            binding: self.binding,
            file: self.mapping_file,
            in_mapping: true,
            node: self.transformation,
            rule: ParameterRule::Transformation,
        }
    }

    // The first rule that is broken by what the value and its change are for a type.
    fn fault_for_type(&self, kind: PortType) -> Option<Fault>
        requires { IsInRange self.now.parameter.now.value }
        ensures { (t : SystemTree) (shapes : List Shape) (sets : List BindingSets)
            (binding : Binding) (name : List ℕ) (change : Option Change) (target : Target)
            (v : Variable) → IsVisit t sets self.now binding name change →
            Sees t shapes binding.owner name target → IsTarget shapes target v →
            v.kind ≡ Some kind → IsJudged t shapes sets (triple_of self.now) target result }
    {
        match self.ready.judge(self.parameter.value, kind) {
            Judgement::Taken(_) => None,
            Judgement::OtherClass => Some(self.fault_in_set(ParameterRule::OtherClass)),
            Judgement::OtherChange => Some(self.fault_in_mapping()),
            Judgement::NoPair => Some(self.fault_in_set(ParameterRule::NoMapEntry)),
            Judgement::Outside => Some(self.fault_in_set(ParameterRule::OutOfRange)),
        }
    }

    /// The first rule that is broken where these are the targets.
    pub(crate) fn fault(&self, shapes: &[Shape], targets: &[Target]) -> Option<Fault>
        requires range { IsInRange self.now.parameter.now.value }
        requires targets { (target : Target) → Contains targets.now target → (v : Variable) ×
            IsTarget shapes.now target v }
        ensures { (t : SystemTree) (sets : List BindingSets) (binding : Binding) (name : List ℕ)
            (change : Option Change) → IsVisit t sets self.now binding name change →
            AreSeen t shapes.now binding name targets.now →
            FindsFault t shapes.now sets (λ c. c ≡ triple_of self.now) result }
    {
        let mut fault = None;
        for target in targets {
            let kind = variable_of(shapes, *target).kind.unwrap();
            fault = first_of(fault, self.fault_for_type(kind));
        }
        if names_two(targets) {
            fault = first_of(fault, Some(self.fault_in_set(ParameterRule::NamesTwo)));
        }
        fault
    }

    // Puts the value for a target, where it takes it.
    fn put(&self, shapes: &[Shape], winners: &mut Winners, target: Target) -> Result<(), AllocError>
        requires range { IsInRange self.now.parameter.now.value }
        requires target { (v : Variable) × IsTarget shapes.now target v }
        ensures { OnOk result ((t : SystemTree) (sets : List BindingSets) (binding : Binding)
            (name : List ℕ) (change : Option Change) → IsVisit t sets self.now binding name change →
            Sees t shapes.now binding.owner name target →
            NoneBreaks t shapes.now sets (λ c. c ≡ triple_of self.now) →
            PutsTaken t shapes.now change self.now target winners.old winners.new) }
    {
        let variable = variable_of(shapes, target);
        let kind = variable.kind.unwrap();
        if let Judgement::Taken(value) = self.ready.judge(self.parameter.value, kind) {
            winners.put(
                target,
                Best {
                    level: self.level,
                    value: BoundValue {
                        kind,
                        reference: variable.reference,
                        value,
                    },
                },
            )?;
        }
        Ok(())
    }

    /// Puts the value for these targets, which take it.
    pub(crate) fn put_all(
        &self,
        shapes: &[Shape],
        winners: &mut Winners,
        targets: &[Target],
    ) -> Result<(), AllocError>
        requires range { IsInRange self.now.parameter.now.value }
        requires targets { (target : Target) → Contains targets.now target → (v : Variable) ×
            IsTarget shapes.now target v }
        ensures { OnOk result ((t : SystemTree) (sets : List BindingSets) (binding : Binding)
            (name : List ℕ) (change : Option Change) → IsVisit t sets self.now binding name change →
            AreSeen t shapes.now binding name targets.now →
            NoneBreaks t shapes.now sets (λ c. c ≡ triple_of self.now) →
            AreWinners t shapes.now sets (IsLater (triple_of self.now)) winners.old →
            AreWinners t shapes.now sets (IsUpToTriple (triple_of self.now)) winners.new) }
    {
        for target in targets {
            self.put(shapes, winners, *target)?;
        }
        Ok(())
    }
}
