ghost use Rattle.std.specs.Prelude.{◌≡◌, ℕ, List, All};
ghost use Rattle.value_types.specs.declared.shape.Shape.{Shape};
ghost use Rattle.fmu_peer.specs.declared.peer.Exchange.{Exchange};
ghost use Rattle.fmu_peer.specs.Talk.{phase_after};
ghost use Rattle.generated_system.specs.Counts.{IsCounted};
ghost use Rattle.generated_system.specs.Draws.{draw};
ghost use Rattle.generated_system.specs.Generated.{generated_system};
ghost use Rattle.generated_system.specs.Suited.{SuitsBuiltIns};

/// Laws of generated systems: the first draws after the seed 1, worked out elsewhere, and that each component is one
/// for a built-in machine.
pub fn generated_systems()
    ensures draws { (draw 1 0 ≡ 16838) × (draw 1 1 ≡ 5758) × (draw 1 2 ≡ 10113) ×
        (draw 1 3 ≡ 17515) }
    ensures components { (seed n : ℕ) → All SuitsBuiltIns (generated_system seed n).components }
{}

/// A law on talks: the phase after a talk has the number of its exchanges and that of its Restore calls. So the counts
/// of peers tell these of their talks.
pub fn counted_talks()
    ensures { (shape : Shape) (talk : List Exchange) → IsCounted (phase_after shape talk) talk }
{}
