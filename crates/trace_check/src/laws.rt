ghost use Rattle.std.specs.Prelude.{◌≡◌, ℕ};
ghost use Rattle.system_model.specs.Sound.{IsSound};
ghost use Rattle.system_model.specs.declared.system.System.{System};
ghost use Rattle.trace_reading.specs.declared.trace.Trace.{Trace};
ghost use Rattle.trace_check.specs.Rules.{IsFirst};
ghost use Rattle.trace_check.specs.Ticks.{HasLimitedClocks};

/// Laws of checks: each Clock of a sound system that has an interval before the run keeps the limits, and a trace has one
/// first line at most that breaks a rule, with one least rule.
pub fn laws_of_checks()
    ensures limits { (system : System) → IsSound system → HasLimitedClocks system }
    ensures one { (system : System) (t : Trace) (line rule l r : ℕ) →
        IsFirst system t line rule → IsFirst system t l r → (line ≡ l) × (rule ≡ r) }
{}
