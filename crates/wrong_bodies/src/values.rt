//! Which values bind parameters, what comes along connections, and the orders of ports.
ghost use Rattle.std.specs.List.{AllZip};
ghost use Rattle.std.specs.Prelude.{Contains, IfErr, IfOk, Option, ℕ, ◌↔◌, ◌≡◌};
ghost use Rattle.doc_tree.specs.declared.rule.ParameterRule.{ParameterRule};
ghost use Rattle.parameter_binding.specs.Answers.{Faults, IsToldIn, Refuses};
ghost use Rattle.parameter_binding.specs.Binds.{AreBound};
ghost use Rattle.parameter_binding.specs.Given.{AreGiven};
ghost use Rattle.parameter_binding.specs.Rules.{IsFirstParameterViolation, IsFitting, Place};
ghost use Rattle.parameter_targets.specs.Scopes.{Sees};
ghost use Rattle.parameter_targets.specs.Tables.{AreTargets};
ghost use Rattle.parameter_targets.specs.declared.target.Target.{Target};
ghost use Rattle.parameter_values.specs.Ranges.{IsInRange};
ghost use Rattle.parameter_values.specs.Ready.{IsReady, Judges};
ghost use Rattle.parameter_values.specs.declared.change.Change.{Change};
ghost use Rattle.port_orders.specs.Outcome.{AreOrders, HasCause};
ghost use Rattle.port_orders.specs.Placed.{ArePlaced};
ghost use Rattle.ssd_tree.specs.Named.{IsOwner};
ghost use Rattle.system_model.specs.Bounds.{AreParameterValues};
ghost use Rattle.system_model.specs.Carried.{carried};

use doc_tree::Refusal;
use parameter_binding::{BindingSets, bind};
use parameter_targets::{Target, Targets};
use parameter_values::{Change, Judgement, ParameterValue, ReadyChange};
use port_orders::{OrderFault, Orders, order_system};
use ssd_tree::{Owner, SystemTree};
use std::alloc::{AllocError, Global};
use system_model::{Bound, Component, Port, carried};
use value_types::{PortType, Shape};

/// The values that the bindings of a tree give. What `turned` has, a tree with the same bindings in the reverse order and their
/// sets, means nothing.
pub fn bind_sets(
    alloc: Global,
    tree: &SystemTree,
    turned: &SystemTree,
    shapes: &[Shape],
    sets: &[BindingSets],
    turned_sets: &[BindingSets],
) -> Result<Bound, Refusal>
    requires given { AreGiven tree.now shapes.now sets.now }
    requires turned { AreGiven turned.now shapes.now turned_sets.now }
    ensures ok { IfOk result (AreBound tree.now shapes.now sets.now) }
    ensures fitting { IfOk result (λ bound. IsFitting tree.now shapes.now sets.now) }
    ensures parameters { IfOk result
        (λ bound. AllZip AreParameterValues shapes.now bound.components) }
    ensures err { IfErr result (Faults tree.now shapes.now sets.now) }
    ensures exact { (place : Place) (rule : ParameterRule) (file : ℕ) →
        IsFirstParameterViolation tree.now shapes.now sets.now place rule → IsToldIn sets.now place file →
        Refuses result file place.node rule }
{
    let _unread = turned;
    let _unread_sets = turned_sets;
    bind(alloc, tree, shapes, sets)
}

/// All parameters that an element sees under a name.
pub fn seen(
    targets: &Targets<'_>,
    alloc: Global,
    owner: Owner,
    name: &str,
) -> Result<Vec<Target>, AllocError>
    requires targets { AreTargets targets.now }
    requires owner { IsOwner targets.now.tree.now owner }
    ensures { IfOk result (λ seen. (target : Target) →
        Contains seen.items target ↔ Sees targets.now.tree.now targets.now.shapes.now owner name.now
        target) }
{
    targets.seen_targets(alloc, owner, name)
}

/// What a change makes of a value for a parameter of a type.
pub fn judgement_of(ready: &ReadyChange, value: ParameterValue, kind: PortType) -> Judgement
    requires { IsInRange value }
    ensures { (change : Option Change) → IsReady change ready.now →
        Judges change value kind result }
{
    ready.judge(value, kind)
}

/// What comes to an input of a type along a path with these changes.
pub fn value_along(changes: &[Change], kind: PortType, value: i128) -> Option<i128>
    ensures { result ≡ carried changes.now kind value }
{
    carried(changes, kind, value)
}

/// The two stored orders of a system.
pub fn orders_of(
    alloc: Global,
    components: &[Component],
    ports: &[Port],
) -> Result<Orders, OrderFault>
    requires placed { ArePlaced components.now ports.now }
    ensures orders { IfOk result (AreOrders components.now ports.now) }
    ensures cause { IfErr result (HasCause components.now ports.now) }
{
    order_system(alloc, components, ports)
}
