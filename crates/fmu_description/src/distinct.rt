ghost use Rattle.std.specs.Prelude.{ℕ, List, map, nat_eq};
ghost use Rattle.std.specs.List.{IsDistinct};
ghost use Rattle.value_types.specs.declared.shape.Shape.{Shape};
ghost use Rattle.doc_grammar.specs.Nodes.{Node};
ghost use Rattle.fmu_description.specs.Description.{Describes};
ghost use Rattle.fmu_description.specs.Rules.{IsSoundDescription};

/// A law: the value references of a sound description's variables are distinct.
pub fn distinct_references()
    ensures { (t : List Node) (per_second : ℕ) (shape : Shape) → IsSoundDescription t per_second → Describes t per_second shape
        → IsDistinct nat_eq (map (λ x. x.reference) shape.variables) }
{}
