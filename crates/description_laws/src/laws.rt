ghost use Rattle.std.specs.Prelude.{◌≡◌, ℕ, List};
ghost use Rattle.value_types.specs.declared.shape.Shape.{Shape};
ghost use Rattle.doc_grammar.specs.Nodes.{Node};
ghost use Rattle.fmu_description.specs.Description.{Describes};
ghost use Rattle.fmu_description.specs.Rules.{IsSoundDescription};
ghost use Rattle.system_model.specs.Shapes.{IsSoundShape};

/// Laws: the shape that a description without violation says is sound, and has the resolution at which it was read.
pub fn read_shapes()
    ensures sound { (t : List Node) (per_second : ℕ) (shape : Shape) → IsSoundDescription t per_second →
        Describes t per_second shape → IsSoundShape shape }
    ensures resolution { (t : List Node) (per_second : ℕ) (shape : Shape) →
        Describes t per_second shape → shape.resolution ≡ per_second }
{}
