ghost use Rattle.std.specs.Prelude.{◌≡◌, ℕ, List};
ghost use Rattle.doc_grammar.specs.Nodes.{Node};
ghost use Rattle.parameter_values.specs.declared.change.Change.{Change};
ghost use Rattle.transformations.specs.Changes.{IsChange};

/// A law: a transformation changes values in one way.
pub fn one_change()
    ensures { (t : List Node) (k : ℕ) (x y : Change) → IsChange t k x → IsChange t k y → x ≡ y }
{}
