ghost use Rattle.std.specs.Prelude.{◌≡◌, ℕ, List, ◌∷◌, ◌++◌, IfSome, IfNone, IsSomeAnd, Contains};
ghost use Rattle.trace_reading.specs.Lines.{Lacks};

/// What stands before the first such byte, and what after it.
pub(crate) fn split_once(bytes: &[u8], at: u8) -> Option<(&[u8], &[u8])>
    ensures parts { IfSome result (λ p. bytes.now ≡ p.0.now ++ (at ∷ p.1.now)) }
    ensures first { IfSome result (λ p. Lacks at p.0.now) }
    ensures none { IfNone result (Lacks at bytes.now) }
    ensures exact { (prefix rest : List ℕ) → Lacks at prefix → bytes.now ≡ prefix ++ (at ∷ rest) →
        IsSomeAnd result (λ p. (p.0.now ≡ prefix) × (p.1.now ≡ rest)) }
{
    cut_somewhere(bytes, at)
}

fn cut_somewhere(bytes: &[u8], at: u8) -> Option<(&[u8], &[u8])>
    ensures parts { IfSome result (λ p. bytes.now ≡ p.0.now ++ (at ∷ p.1.now)) }
    ensures first { IfSome result (λ p. Contains p.0.now at → ⊥) }
    ensures none { IfNone result (Contains bytes.now at → ⊥) }
{
    let place = bytes.iter().position(|b| *b == at)?;
    let (prefix, rest) = bytes.split_at(place);
    Some((prefix, &rest[1..]))
}

/// What comes after a prefix.
pub(crate) fn after<'a>(bytes: &'a [u8], prefix: &[u8]) -> Option<&'a [u8]>
    ensures parts { IfSome result (λ rest. bytes.now ≡ prefix.now ++ rest.now) }
    ensures exact { (rest : List ℕ) → bytes.now ≡ prefix.now ++ rest →
        IsSomeAnd result (λ found. found.now ≡ rest) }
{
    if bytes.len() < prefix.len() {
        return None;
    }
    let (head, rest) = bytes.split_at(prefix.len());
    if head == prefix { Some(rest) } else { None }
}
