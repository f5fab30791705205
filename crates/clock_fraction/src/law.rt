ghost use Rattle.std.specs.Prelude.{◌≡◌, ℕ, List};
ghost use Rattle.clock_fraction.specs.declared.fraction.Fraction.{Fraction};
ghost use Rattle.clock_fraction.specs.Decimal.{Denotes};

/// A law: a text writes one fraction at most.
pub fn one_decimal()
    ensures { (text : List ℕ) (one other : Fraction) → Denotes text one → Denotes text other →
        one ≡ other }
{}
