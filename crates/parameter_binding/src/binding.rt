//! Bindings of parameters.
ghost use Rattle.std.specs.Prelude.{◌≡◌, ℕ, IfOk, IfErr};
ghost use Rattle.std.specs.List.{AllZip};
ghost use Rattle.system_model.specs.Bounds.{AreParameterValues};
ghost use Rattle.doc_tree.specs.declared.rule.ParameterRule.{ParameterRule};
ghost use Rattle.parameter_binding.specs.Answers.{Faults, IsToldIn, Refuses};
ghost use Rattle.parameter_binding.specs.Binds.{AreBound};
ghost use Rattle.parameter_binding.specs.Given.{AreGiven};
ghost use Rattle.parameter_binding.specs.Rules.{IsFirstParameterViolation, IsFitting, Place};
ghost use Rattle.parameter_binding.specs.Walk.{AreAllGathered, IsBoundOf, IsRefusalOf};

use crate::BindingSets;
use crate::bound::all_values;
use crate::fault::Fault;
use crate::gathered::Gathered;
use crate::walk::Walk;
use doc_tree::{Refusal, Rule};
use parameter_targets::full_names;
use sim_base::Items;
use ssd_tree::SystemTree;
use std::alloc::{AllocError, Global};
use system_model::Bound;
use value_types::Shape;

// What all bindings give, up to the first with a fault.
#[tactic(auto, using(crate::proofs::MoveLemmas::gathered_nothing))]
fn gather(
    alloc: Global,
    tree: &SystemTree,
    shapes: &[Shape],
    sets: &[BindingSets],
) -> Result<Gathered, AllocError>
    requires { AreGiven tree.now shapes.now sets.now }
    ensures { IfOk result (AreAllGathered tree.now shapes.now sets.now) }
{
    let mut gathered = Gathered::new(alloc);
    if tree.bindings.len() == 0 {
        return Ok(gathered);
    }
    let names = full_names(alloc, tree)?;
    let walk = Walk::new(alloc, tree, &names, shapes, sets)?;
    for b in 0..tree.bindings.len() {
        if gathered.fault.is_some() {
            return Ok(gathered);
        }
        walk.put_binding(alloc, &mut gathered, b)?;
    }
    Ok(gathered)
}

fn refusal(alloc: Global, fault: Fault) -> Refusal
    ensures { IsRefusalOf fault result }
{
    Refusal::At {
        file: fault.file,
        node: fault.node,
        rule: Rule::Parameters(fault.rule),
        ports: Items::from_vec(Vec::new(alloc)),
    }
}

// The values of what was gathered.
fn bound_of(alloc: Global, shapes: &[Shape], gathered: &Gathered) -> Result<Bound, Refusal>
    ensures ok { IfOk result (IsBoundOf shapes.now gathered.now) }
    ensures err { IfErr result (λ e. e ≡ Refusal.Memory) }
{
    let Some(unreached) = gathered.unreached else {
        return Err(Refusal::Memory);
    };
    match all_values(alloc, &gathered.winners, shapes) {
        Ok(components) => Ok(Bound {
            components,
            unreached,
        }),
        Err(_) => Err(Refusal::Memory),
    }
}

/// The value that the bindings give each parameter of the components, where each shape is a component's and each set a
/// binding's; or the first element of a set or a mapping that breaks a rule, and the rule of the least number that it
/// breaks, told in its file (SSP 1.0, ParameterBinding). Each value that reaches a parameter is tested, whether it wins or
/// not.
pub fn bind(
    alloc: Global,
    tree: &SystemTree,
    shapes: &[Shape],
    sets: &[BindingSets],
) -> Result<Bound, Refusal>
    requires { AreGiven tree.now shapes.now sets.now }
    ensures ok { IfOk result (AreBound tree.now shapes.now sets.now) }
    ensures fitting { IfOk result (λ bound. IsFitting tree.now shapes.now sets.now) }
    ensures parameters { IfOk result
        (λ bound. AllZip AreParameterValues shapes.now bound.components) }
    ensures err { IfErr result (Faults tree.now shapes.now sets.now) }
    ensures exact { (place : Place) (rule : ParameterRule) (file : ℕ) →
        IsFirstParameterViolation tree.now shapes.now sets.now place rule → IsToldIn sets.now place file →
        Refuses result file place.node rule }
{
    match gather(alloc, tree, shapes, sets) {
        Ok(gathered) => match gathered.fault {
            Some(fault) => Err(refusal(alloc, fault)),
            None => bound_of(alloc, shapes, &gathered),
        },
        Err(_) => Err(Refusal::Memory),
    }
}
