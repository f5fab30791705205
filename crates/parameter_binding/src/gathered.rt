//! What is gathered of the parameters of sets.
ghost use Rattle.std.specs.Prelude.{◌≡◌, ℕ, List, [], Option, OnOk, Contains};
ghost use Rattle.value_types.specs.declared.shape.Variable.{Variable};
ghost use Rattle.parameter_values.specs.declared.change.Change.{Change};
ghost use Rattle.parameter_values.specs.Ranges.{IsInRange};
ghost use Rattle.ssd_tree.specs.declared.tree.Binding.{Binding};
ghost use Rattle.ssd_tree.specs.declared.tree.SystemTree.{SystemTree};
ghost use Rattle.parameter_targets.specs.declared.target.Target.{Target};
ghost use Rattle.parameter_targets.specs.Scopes.{IsTarget};
ghost use Rattle.parameter_binding.specs.declared.sets.BindingSets.{BindingSets};
ghost use Rattle.parameter_binding.specs.Walk.{AreGathered, AreSeen, IsGathered, IsNothing, IsOneMore, IsUpToTriple, IsVisit, triple_of};

use crate::fault::{Fault, first_of};
use crate::visit::Visit;
use crate::winners::Winners;
use parameter_targets::Target;
use std::alloc::{AllocError, Global};
use value_types::Shape;

/// What is gathered of the parameters of sets, one after another.
#[derive(Drop)]
pub(crate) struct Gathered {
    pub(crate) winners: Winners,
    /// how many names are unresolved, unless they are too many to count
    pub(crate) unreached: Option<u64>,
    /// the first rule that is broken; the rest says nothing then
    pub(crate) fault: Option<Fault>,
}

// One more where these are none.
fn count_unreached(unreached: Option<u64>, targets: &[Target]) -> Option<u64>
    ensures more { targets.now ≡ [] → IsOneMore unreached result }
    ensures same { (target : Target) → Contains targets.now target → result ≡ unreached }
{
    if !targets.is_empty() {
        return unreached;
    }
    match unreached {
        Some(count) => count.checked_add(1),
        None => None,
    }
}

impl Gathered {
    /// Nothing.
    pub(crate) fn new(alloc: Global) -> Gathered
        ensures { IsNothing result }
    {
        Gathered {
            winners: Winners::new(alloc),
            unreached: Some(0),
            fault: None,
        }
    }

    /// Puts the next, which has these targets.
    pub(crate) fn put(
        &mut self,
        shapes: &[Shape],
        visit: &Visit,
        targets: &[Target],
    ) -> Result<(), AllocError>
        requires range { IsInRange visit.now.parameter.now.value }
        requires targets { (target : Target) → Contains targets.now target → (v : Variable) ×
            IsTarget shapes.now target v }
        ensures { OnOk result ((t : SystemTree) (sets : List BindingSets) (binding : Binding)
            (name : List ℕ) (change : Option Change) →
            IsVisit t sets visit.now binding name change →
            AreSeen t shapes.now binding name targets.now →
            IsGathered t shapes.now sets (triple_of visit.now) self.old →
            AreGathered t shapes.now sets (IsUpToTriple (triple_of visit.now)) self.new) }
    {
        self.fault = first_of(self.fault, visit.fault(shapes, targets));
        if self.fault.is_none() {
            visit.put_all(shapes, &mut self.winners, targets)?;
            self.unreached = count_unreached(self.unreached, targets);
        }
        Ok(())
    }
}
