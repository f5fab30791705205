ghost use Rattle.std.specs.Prelude.{◌≡◌, ℕ, ℤ, None, List, ◌∷◌, Option, IfSome, IfNone, length, replicate, slice_set};
ghost use Rattle.trace_reading.specs.Form.{told_values_from};
ghost use Rattle.trace_reading.specs.declared.trace.TraceLine.{TraceLine};
ghost use Rattle.trace_check.specs.Steps.{BeginsWithValues};

use trace_reading::TraceLine;

/// The `at` line that stands first, and what is left after it.
pub(crate) fn next_at(lines: &[TraceLine]) -> Option<(u64, u64, &[TraceLine])>
    ensures found { IfSome result (λ p. lines.now ≡ TraceLine.At p.0 p.1 ∷ p.2.now) }
    ensures none { IfNone result ((t n : ℕ) (rest : List TraceLine) →
        lines.now ≡ TraceLine.At t n ∷ rest → ⊥) }
{
    match lines {
        [TraceLine::At { t, n }, rest @ ..] => Some((*t, *n, rest)),
        _ => None,
    }
}

/// The value lines that stand first, and what is left after them.
pub(crate) fn value_lines(lines: &[TraceLine]) -> (&[TraceLine], &[TraceLine])
    ensures told { (ports : ℕ) (values : List (Option ℤ)) (after : List TraceLine) →
        BeginsWithValues lines.now ports values after → result.0.now ≡ told_values_from 0 values }
    ensures rest { (ports : ℕ) (values : List (Option ℤ)) (after : List TraceLine) →
        BeginsWithValues lines.now ports values after → result.1.now ≡ after }
{
    for (k, line) in lines.iter().enumerate() {
        if let TraceLine::At { .. } = line {
            return lines.split_at(k);
        }
    }
    lines.split_at(lines.len())
}

/// Puts the values of an instant, which these lines tell, to the places of their ports.
pub(crate) fn put_values(values: &mut Vec<Option<i128>>, told: &[TraceLine])
    requires none { values.old.items ≡ replicate (length values.old.items) None }
    ensures size { length values.new.items ≡ length values.old.items }
    ensures put { (all : List (Option ℤ)) → length all ≡ length values.old.items →
        told.now ≡ told_values_from 0 all → values.new.items ≡ all }
{
    for line in told {
        if let TraceLine::Value { port, value } = line {
            put(values, *port as usize, Some(*value));
        }
    }
}

/// Clears what was put.
pub(crate) fn clear_values(values: &mut Vec<Option<i128>>, told: &[TraceLine])
    requires told { told.now ≡ told_values_from 0 values.old.items }
    ensures none { values.new.items ≡ replicate (length values.old.items) None }
{
    for line in told {
        if let TraceLine::Value { port, .. } = line {
            put(values, *port as usize, None);
        }
    }
}

fn put(values: &mut Vec<Option<i128>>, p: usize, value: Option<i128>)
    ensures { values.new.items ≡ slice_set values.old.items p value }
{
    if p < values.len() {
        values[p] = value;
    }
}
