ghost use Rattle.std.specs.Prelude.{◌≡◌, ℕ, List, Option};
ghost use Rattle.doc_grammar.specs.Nodes.{Node};
ghost use Rattle.parameter_values.specs.Ranges.{AreInRange};
ghost use Rattle.parameter_values.specs.declared.set.Mapping.{Mapping};
ghost use Rattle.parameter_values.specs.declared.set.ParameterSet.{ParameterSet};
ghost use Rattle.parameter_sets.specs.Sets.{DescribesMapping, DescribesSet};

/// A document has one set of parameters at a place, and its values are in range.
pub(crate) fn one_set()
    ensures one { (t : List Node) (at : Option ℕ) (a b : ParameterSet) → DescribesSet t at a →
        DescribesSet t at b → a ≡ b }
    ensures range { (t : List Node) (at : Option ℕ) (a : ParameterSet) → DescribesSet t at a →
        AreInRange a }
{}

/// A document has one mapping at a place.
pub(crate) fn one_mapping()
    ensures { (t : List Node) (at : Option ℕ) (a b : Mapping) → DescribesMapping t at a →
        DescribesMapping t at b → a ≡ b }
{}
