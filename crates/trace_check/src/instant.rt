ghost use Rattle.std.specs.Prelude.{◌≡◌, ◌≤◌, ◌^◌, ◌↔◌, ℕ, IfSome, IfNone, IsTrue, length};
ghost use Rattle.system_model.specs.Text.{instant_at};
ghost use Rattle.trace_reading.specs.Form.{told_values_from};
ghost use Rattle.trace_check.specs.Inputs.{HoldInputs};
ghost use Rattle.trace_check.specs.Instants.{IsInOrder};
ghost use Rattle.trace_check.specs.Rules.{BreaksIn};
ghost use Rattle.trace_check.specs.Steps.{AreConstantClocks, IsFirstIn};

use crate::inputs::FedInputs;
use crate::sources::{first_other_value, first_without_value};
use crate::ticks::{ConstantClock, is_off_tick};
use crate::verdict::{ORDER_RULE, SOURCE_RULE, TICK_RULE};
use system_model::System;
use trace_reading::{Trace, TraceLine};

/// The first line of an instant that breaks a rule, by how many lines it stands after the `at` line, and the least rule
/// that it breaks. The lines after it tell the values.
pub(crate) fn first_break(
    system: &System,
    clocks: &[ConstantClock],
    inputs: &FedInputs,
    trace: &Trace,
    last: Option<(u64, u64)>,
    t: u64,
    n: u64,
    told: &[TraceLine],
    values: &[Option<i128>],
) -> Option<(u64, u8)>
    requires clocks { AreConstantClocks system.now clocks.now }
    requires inputs { HoldInputs system.now.ports (length system.now.ports) inputs.now.steady.items
        inputs.now.at_ticks }
    requires told { told.now ≡ told_values_from 0 values.now }
    requires size { length values.now ≡ length system.now.ports }
    requires start { trace.now.start ≤ 2 ^ 62 }
    requires last { IfSome last (λ before. before.0 ≤ 2 ^ 62) }
    requires point { t ≤ 2 ^ 62 }
    ensures found { IfSome result (λ b. IsFirstIn system.now trace.now last
        (instant_at t n values.now) b.0 b.1) }
    ensures none { IfNone result ((offset rule : ℕ) →
        BreaksIn system.now trace.now last (instant_at t n values.now) offset rule → ⊥) }
{
    if !is_in_order(trace.start, trace.stop, last, t, n) {
        return Some((0, ORDER_RULE));
    }
    if first_without_value(system, inputs, told, values).is_some() {
        return Some((0, SOURCE_RULE));
    }
    if is_off_tick(clocks, trace.start, last, t, n, values) {
        return Some((0, TICK_RULE));
    }
    match first_other_value(system, told, values) {
        Some(lines) => Some((lines, SOURCE_RULE)),
        None => None,
    }
}

// Whether the n-th instant at `t` may come after the instant before, or first.
fn is_in_order(start: u64, stop: u64, last: Option<(u64, u64)>, t: u64, n: u64) -> bool
    ensures { IsTrue result ↔ IsInOrder start stop last t n }
{
    match last {
        Some((before, m)) => {
            (t == before && n > m && n - m == 1) || (before < t && t <= stop && n == 0)
        }
        None => t == start && n == 0,
    }
}
