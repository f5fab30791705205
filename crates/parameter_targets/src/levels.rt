//! The levels of Systems and Components.
ghost use Rattle.std.specs.Prelude.{◌≡◌, ◌<◌, ◌≤◌, ℕ, IfOk, length, Some, slice_get};
ghost use Rattle.ssd_tree.specs.declared.tree.SystemTree.{SystemTree};
ghost use Rattle.ssd_tree.specs.Named.{IsNamedTree, IsOwner};
ghost use Rattle.parameter_targets.specs.Scopes.{IsLevel};
ghost use Rattle.parameter_targets.specs.Tables.{AreDepths};

use ssd_tree::{Owner, SystemTree};
use std::alloc::{AllocError, Global};

/// How many Systems stand around each System.
#[derive(Drop)]
pub struct Levels {
    depths: Vec<usize>,
}

impl Levels {
    /// The levels of a tree.
    pub fn of(alloc: Global, tree: &SystemTree) -> Result<Levels, AllocError>
        requires { IsNamedTree tree.now }
        ensures { IfOk result (λ levels. AreDepths tree.now (length tree.now.systems)
            levels.depths.items) }
    {
        let mut depths = Vec::new(alloc);
        for part in tree.systems.as_slice() {
            let depth = match part.parent {
                None => 0,
                Some(above) => depths[above] + 1,
            };
            depths.push(depth)?;
        }
        Ok(Levels { depths })
    }

    /// How many Systems stand around the element.
    pub fn level(&self, tree: &SystemTree, owner: Owner) -> usize
        requires depths { AreDepths tree.now (length tree.now.systems) self.now.depths.items }
        requires named { IsNamedTree tree.now }
        requires owner { IsOwner tree.now owner }
        ensures { IsLevel tree.now owner result }
    {
        match owner {
            Owner::System(system) => self.depths[system],
            Owner::Component(component) => {
                self.depths[tree.components.as_slice()[component].system] + 1
            }
        }
    }
}
