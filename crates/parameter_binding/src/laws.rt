ghost use Rattle.std.specs.Prelude.{◌≡◌, List};
ghost use Rattle.value_types.specs.declared.shape.Shape.{Shape};
ghost use Rattle.system_model.specs.declared.bound.Bound.{Bound};
ghost use Rattle.ssd_tree.specs.declared.tree.SystemTree.{SystemTree};
ghost use Rattle.parameter_binding.specs.declared.sets.BindingSets.{BindingSets};
ghost use Rattle.parameter_binding.specs.Binds.{AreBound};

/// A law: the bindings of a tree give its components one list of values, and one number of unresolved names.
pub fn binding_laws()
    ensures values { (t : SystemTree) (shapes : List Shape) (sets : List BindingSets)
        (a b : Bound) → AreBound t shapes sets a → AreBound t shapes sets b → a ≡ b }
{}
