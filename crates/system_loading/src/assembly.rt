//! The system that an outline and the shapes of its FMUs make together.
ghost use Rattle.std.specs.Prelude.{IfErr, IfOk};
ghost use Rattle.system_model.specs.Sound.{IsSound};
ghost use Rattle.flatten.specs.Given.{AreShapesOf, IsWholeTree};
ghost use Rattle.system_loading.specs.Assembly.{MakesAlone};
ghost use Rattle.system_loading.specs.Faults.{TellsTogether};

use crate::Outline;
use doc_tree::{Refusal, Rule};
use flatten::flatten;
use sim_base::{Items, PortId};
use std::alloc::Global;
use system_model::System;
use value_types::Shape;

/// Why files make no system together.
#[derive(Debug, Drop)]
pub enum AssemblyFault {
    /// They break this rule first, at the element of the tree with this number. `ports` are those of a loop.
    Broken {
        rule: Rule,
        node: usize,
        ports: Items<PortId>,
    },
    /// Out of memory.
    Memory,
}

/// The system of an outline, where each component has a shape; or the first rule that they break together and the element:
/// a rule of connectors, connections, saved states or ports, or a loop of ports (SSP 1.0, 5.3).
pub fn assemble(alloc: Global, outline: &Outline, shapes: &[Shape]) -> Result<System, AssemblyFault>
    requires whole { IsWholeTree outline.now.systems }
    requires shapes { AreShapesOf outline.now.systems shapes.now }
    ensures ok { IfOk result (MakesAlone outline.now shapes.now) }
    ensures err { IfErr result (TellsTogether outline.now shapes.now) }
    ensures sound { IfOk result IsSound }
{
    match flatten(alloc, &outline.systems, shapes) {
        Ok(system) => Ok(system),
        Err(
            Refusal::At {
                node,
                rule,
                ports,
                ..
            },
        ) => Err(AssemblyFault::Broken { rule, node, ports }),
        Err(Refusal::Memory) => Err(AssemblyFault::Memory),
    }
}
