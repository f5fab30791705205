//! The reader of traces, and their check.
ghost use Rattle.std.specs.Prelude.{◌≡◌, ◌+◌, ◌≤◌, ◌<◌, ◌^◌, ◌⊎◌, ℕ, Ok, Err, IfOk, length};
ghost use Rattle.trace_reading.specs.declared.fault.TraceFault.TheVariants as TraceFault;
ghost use Rattle.trace_reading.specs.declared.trace.Trace.{Trace};
ghost use Rattle.trace_reading.specs.Faults.{IsFirstFault};
ghost use Rattle.trace_reading.specs.Form.{IsTextOf, IsTrace};
ghost use Rattle.trace_check.specs.Rules.{IsFirst, KeepsRules};
ghost use Rattle.trace_check.specs.Ticks.{HasLimitedClocks};
ghost use Rattle.trace_check.specs.declared.verdict.Verdict.TheVariants.{Yes, No};

use std::alloc::{AllocError, Global};
use system_model::System;
use trace_check::{Verdict, check};
use trace_reading::{Trace, TraceFault, read_trace};

/// The trace whose text these bytes are, or the first line that is out of form.
pub fn read_text(alloc: Global, bytes: &[u8]) -> Result<Trace, TraceFault>
    ensures found { IfOk result (IsTextOf bytes.now) }
    ensures exact { (t : Trace) → IsTextOf bytes.now t → (result ≡ Ok t) ⊎
        (result ≡ Err TraceFault.Memory) }
    ensures lines { IfOk result (λ t. length t.ports + length t.lines + 2 ≤ length bytes.now) }
    ensures fault { (n : ℕ) → result ≡ Err (TraceFault.Line n) → IsFirstFault bytes.now n }
{
    read_trace(alloc, bytes)
}

/// Whether a trace keeps the rules of a system, or the first line that breaks one and the least rule that it breaks.
pub fn check_trace(alloc: Global, system: &System, trace: &Trace) -> Result<Verdict, AllocError>
    requires limits { HasLimitedClocks system.now }
    requires form { IsTrace trace.now }
    requires lines { length trace.now.ports + length trace.now.lines + 2 < 2 ^ 64 }
    ensures yes { result ≡ Ok Yes → KeepsRules system.now trace.now }
    ensures no { (line rule : ℕ) → result ≡ Ok (No line rule) →
        IsFirst system.now trace.now line rule }
{
    check(alloc, system, trace)
}
