//! A tree of systems flattened.
ghost use Rattle.std.specs.Prelude.{◌≡◌, ℕ, List, IfOk, IfErr};
ghost use Rattle.value_types.specs.declared.shape.Shape.{Shape};
ghost use Rattle.port_orders.specs.Outcome.{HasOrders, unordered};
ghost use Rattle.port_orders.specs.Placed.{ArePlaced};
ghost use Rattle.doc_tree.specs.declared.rule.Rule.{Rule};
ghost use Rattle.doc_tables.specs.Answers.{Refuses};
ghost use Rattle.system_model.specs.Sound.{IsSound};
ghost use Rattle.system_model.specs.declared.system.System.{System};
ghost use Rattle.flatten.specs.Answers.{Faults, GivesParts, IsAnswer, TellsLoop, root_node};
ghost use Rattle.flatten.specs.Flat.{Flattens, IsFlat};
ghost use Rattle.flatten.specs.Given.{AreShapesOf, IsWholeTree};
ghost use Rattle.flatten.specs.Indexed.{IsIndexed};
ghost use Rattle.flatten.specs.Rules.{IsFirstFlatteningViolation, IsFitting};

use crate::components::components;
use crate::connectors::FlatTree;
use doc_tables::refusal;
use doc_tree::{Refusal, Rule};
use port_orders::{OrderFault, order_system};
use sim_base::{Items, PortId};
use ssd_tree::SystemTree;
use std::alloc::{AllocError, Global};
use system_model::{Component, Port, System};
use value_types::Shape;

// The components and ports of the system.
#[derive(Drop)]
struct Parts {
    components: Items<Component>,
    ports: Items<Port>,
}

fn make_parts(alloc: Global, flat: &FlatTree) -> Result<Parts, AllocError>
    requires indexed { IsIndexed flat.now }
    requires fitting { IsFitting flat.now.tree.now flat.now.shapes.now }
    ensures flat { IfOk result (λ parts. IsFlat flat.now.tree.now flat.now.shapes.now
        (unordered parts.components parts.ports)) }
    ensures placed { IfOk result (λ parts. ArePlaced parts.components parts.ports) }
{
    Ok(Parts {
        components: components(alloc, flat.tree.components.as_slice(), flat.shapes)?,
        ports: flat.ports(alloc)?,
    })
}

// The loop is told at the outermost System.
fn loop_refusal(tree: &SystemTree, ports: Items<PortId>) -> Refusal
    requires whole { IsWholeTree tree.now }
    ensures { (shapes : List Shape) → TellsLoop tree.now shapes (root_node tree.now) ports →
        Faults tree.now shapes result }
{
    Refusal::At {
        file: 0,
        node: tree.systems.as_slice()[0].node,
        rule: Rule::Loop,
        ports,
    }
}

fn order_parts(alloc: Global, tree: &SystemTree, parts: Parts) -> Result<System, Refusal>
    requires whole { IsWholeTree tree.now }
    requires placed { ArePlaced parts.components parts.ports }
    ensures parts { IfOk result (λ system. (system.components ≡ parts.components) ×
        (system.ports ≡ parts.ports)) }
    ensures orders { IfOk result HasOrders }
    ensures fault { (shapes : List Shape) → IsFitting tree.now shapes →
        IsFlat tree.now shapes (unordered parts.components parts.ports) →
        IfErr result (Faults tree.now shapes) }
{
    match order_system(alloc, parts.components.as_slice(), parts.ports.as_slice()) {
        Ok(orders) => Ok(System {
            components: parts.components,
            ports: parts.ports,
            instant_order: orders.instant_order,
            initial_order: orders.initial_order,
        }),
        Err(OrderFault::Loop(ports)) => Err(loop_refusal(tree, ports)),
        Err(OrderFault::Memory) => Err(Refusal::Memory),
    }
}

// The system, where no rule is broken.
fn assemble(alloc: Global, flat: &FlatTree) -> Result<System, Refusal>
    requires indexed { IsIndexed flat.now }
    requires fitting { IsFitting flat.now.tree.now flat.now.shapes.now }
    ensures found { IfOk result (Flattens flat.now.tree.now flat.now.shapes.now) }
    ensures fault { IfErr result (Faults flat.now.tree.now flat.now.shapes.now) }
    ensures only { (system : System) → Flattens flat.now.tree.now flat.now.shapes.now system →
        GivesParts result system }
{
    match make_parts(alloc, flat) {
        Ok(parts) => order_parts(alloc, flat.tree, parts),
        Err(_) => Err(Refusal::Memory),
    }
}

// The system, or the first rule that is broken.
fn answer(alloc: Global, flat: &FlatTree) -> Result<System, Refusal>
    requires indexed { IsIndexed flat.now }
    ensures { IsAnswer flat.now.tree.now flat.now.shapes.now result }
{
    match flat.first_violation(alloc) {
        Ok(Some((node, rule))) => Err(refusal(alloc, node, rule)),
        Ok(None) => assemble(alloc, flat),
        Err(_) => Err(Refusal::Memory),
    }
}

/// The flat system of a tree of systems in which each component has a shape; or the first element that breaks a rule, and the
/// rule of the least number that it breaks; or a loop of ports that need each other, told at the outermost System (SSP 1.0,
/// 5.3). Time is n log n in the connectors, connections and what the shapes list.
pub fn flatten(alloc: Global, tree: &SystemTree, shapes: &[Shape]) -> Result<System, Refusal>
    requires whole { IsWholeTree tree.now }
    requires shapes { AreShapesOf tree.now shapes.now }
    ensures fitting { IfOk result (λ system. IsFitting tree.now shapes.now) }
    ensures found { IfOk result (Flattens tree.now shapes.now) }
    ensures sound { IfOk result IsSound }
    ensures fault { IfErr result (Faults tree.now shapes.now) }
    ensures exact { (rule : Rule) (node : ℕ) → IsFirstFlatteningViolation tree.now shapes.now node rule →
        Refuses result rule node }
    ensures only { (system : System) → IsFitting tree.now shapes.now →
        Flattens tree.now shapes.now system → GivesParts result system }
{
    match FlatTree::new(alloc, tree, shapes) {
        Ok(flat) => answer(alloc, &flat),
        Err(_) => Err(Refusal::Memory),
    }
}
