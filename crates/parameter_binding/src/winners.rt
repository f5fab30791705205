ghost use Rattle.std.specs.Prelude.{◌≡◌, None, OnOk};
ghost use Rattle.parameter_targets.specs.declared.target.Target.{Target};
ghost use Rattle.parameter_binding.specs.Walk.{PutsBest, best_of};

use parameter_targets::Target;
use std::alloc::{AllocError, Global};
use std::collections::BTreeMap;
use system_model::BoundValue;

/// A value that reaches a target, and the level of its binding.
#[derive(Clone, Copy, Debug, PartialEq, Eq)]
pub(crate) struct Best {
    /// how many Systems stand around the element of the binding
    pub(crate) level: usize,
    pub(crate) value: BoundValue,
}

/// For each target the value that wins among those that have come.
#[derive(Drop)]
pub(crate) struct Winners {
    /// by component and variable
    best: BTreeMap<(usize, usize), Best>,
}

impl Winners {
    /// No values.
    pub(crate) fn new(alloc: Global) -> Winners
        ensures { (target : Target) → best_of result target ≡ None }
    {
        Winners {
            best: BTreeMap::new(alloc),
        }
    }

    /// The value that wins.
    pub(crate) fn get(&self, target: Target) -> Option<Best>
        ensures { result ≡ best_of self.now target }
    {
        self.best.get(&(target.component, target.variable)).copied()
    }

    /// Puts the next value that reaches the target: it wins unless that there has a higher level.
    pub(crate) fn put(&mut self, target: Target, next: Best) -> Result<(), AllocError>
        ensures { OnOk result (PutsBest target next self.old self.new) }
    {
        let wins = match self.get(target) {
            None => true,
            Some(best) => next.level <= best.level,
        };
        if wins {
            self.best.insert((target.component, target.variable), next)?;
        }
        Ok(())
    }
}
