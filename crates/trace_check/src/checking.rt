ghost use Rattle.std.specs.Prelude.{◌≡◌, ◌+◌, ◌-◌, ◌<◌, ◌≤◌, ◌^◌, ℕ, Ok, IsTrue, false, length, slice_get};
ghost use Rattle.system_model.specs.declared.plan.EndKind.TheVariants.{Stop};
ghost use Rattle.trace_reading.specs.Form.{IsTrace};
ghost use Rattle.trace_reading.specs.Written.{ports_told};
ghost use Rattle.trace_check.specs.Inputs.{HoldInputs};
ghost use Rattle.trace_check.specs.Rules.{IsFirst, KeepsRules};
ghost use Rattle.trace_check.specs.Steps.{AreConstantClocks};
ghost use Rattle.trace_check.specs.Ticks.{HasLimitedClocks};
ghost use Rattle.trace_check.specs.declared.verdict.Verdict.TheVariants.{Yes, No};

use crate::inputs::FedInputs;
use crate::instant::first_break;
use crate::ports::first_strange_port;
use crate::reading::{clear_values, next_at, put_values, value_lines};
use crate::ticks::{ConstantClock, constant_clocks};
use crate::verdict::{ORDER_RULE, PORT_RULE, Verdict};
use std::alloc::{AllocError, Global};
use system_model::{EndKind, System};
use trace_reading::{Trace, TraceLine};

/// Whether a trace keeps the rules of a system, or the first line that breaks one and the least rule that it breaks.
/// The system's intervals are in counts of the trace's resolution.
pub fn check(alloc: Global, system: &System, trace: &Trace) -> Result<Verdict, AllocError>
    requires limits { HasLimitedClocks system.now }
    requires form { IsTrace trace.now }
    requires lines { length trace.now.ports + length trace.now.lines + 2 < 2 ^ 64 }
    ensures yes { result ≡ Ok Yes → KeepsRules system.now trace.now }
    ensures no { (line rule : ℕ) → result ≡ Ok (No line rule) →
        IsFirst system.now trace.now line rule }
{
    if let Some(k) = first_strange_port(system, trace.ports.as_slice()) {
        return Ok(Verdict::No {
            line: k as u64 + 2,
            rule: PORT_RULE,
        });
    }
    let clocks = constant_clocks(alloc, system)?;
    let inputs = FedInputs::of(alloc, system)?;
    check_instants(alloc, system, &clocks, &inputs, trace)
}

// The same for a trace that tells the system's ports.
fn check_instants(
    alloc: Global,
    system: &System,
    clocks: &[ConstantClock],
    inputs: &FedInputs,
    trace: &Trace,
) -> Result<Verdict, AllocError>
    requires clocks { AreConstantClocks system.now clocks.now }
    requires inputs { HoldInputs system.now.ports (length system.now.ports) inputs.now.steady.items
        inputs.now.at_ticks }
    requires ports { (k : ℕ) → slice_get trace.now.ports k ≡ slice_get (ports_told system.now) k }
    requires form { IsTrace trace.now }
    requires lines { length trace.now.ports + length trace.now.lines + 2 < 2 ^ 64 }
    ensures yes { result ≡ Ok Yes → KeepsRules system.now trace.now }
    ensures no { (line rule : ℕ) → result ≡ Ok (No line rule) →
        IsFirst system.now trace.now line rule }
{
    let mut values = Vec::new(alloc);
    values.resize(trace.ports.len(), None)?;
    let mut last = None;
    let mut is_reached = false;
    let mut rest = trace.lines.as_slice();
    while let Some((t, n, rows)) = next_at(rest) {
        let (told, after) = value_lines(rows);
        put_values(&mut values, told);
        if let Some((offset, rule)) = first_break(
            system, clocks, inputs, trace, last, t, n, told, &values,
        ) {
            return Ok(Verdict::No {
                line: line_number(trace, rest) + offset,
                rule,
            });
        }
        clear_values(&mut values, told);
        is_reached = is_reached || t == trace.stop;
        last = Some((t, n));
        rest = after;
    }
    if is_end_right(trace, is_reached) {
        Ok(Verdict::Yes)
    } else {
        Ok(Verdict::No {
            line: line_number(trace, rest),
            rule: ORDER_RULE,
        })
    }
}

// The number of the line with which these, the last of the instants' lines, begin.
fn line_number(trace: &Trace, rest: &[TraceLine]) -> u64
    requires rest { length rest.now ≤ length trace.now.lines }
    requires lines { length trace.now.ports + length trace.now.lines + 2 < 2 ^ 64 }
    ensures { result ≡ length trace.now.ports + 2 + (length trace.now.lines - length rest.now) }
{
    (trace.ports.len() + 2 + (trace.lines.len() - rest.len())) as u64
}

// Whether a run to the stop ends there, after an instant there.
fn is_end_right(trace: &Trace, is_reached: bool) -> bool
    ensures right { IsTrue result → trace.now.kind ≡ Stop → (trace.now.point ≡ trace.now.stop) ×
        IsTrue is_reached }
    ensures wrong { result ≡ false → (trace.now.kind ≡ Stop) ×
        (trace.now.point ≡ trace.now.stop → IsTrue is_reached → ⊥) }
{
    trace.kind != EndKind::Stop || (trace.point == trace.stop && is_reached)
}
