ghost use Rattle.std.specs.Prelude.{◌≡◌, ℕ, List};
ghost use Rattle.value_types.specs.declared.shape.Shape.{Shape};
ghost use Rattle.doc_grammar.specs.Nodes.{Node};
ghost use Rattle.fmu_description.specs.Description.{Describes};
ghost use Rattle.fmu_description.specs.Rules.{IsSoundDescription};

use clock_fraction::one_decimal;

/// A law: a sound tree describes one shape at most.
pub(crate) fn one_description()
    ensures { (t : List Node) (per_second : ℕ) (one other : Shape) → IsSoundDescription t per_second
        → Describes t per_second one → Describes t per_second other → one ≡ other }
{
    one_decimal()
}
