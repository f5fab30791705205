ghost use Rattle.std.specs.Prelude.{◌≡◌, ℕ, List};
ghost use Rattle.system_model.specs.declared.plan.EndKind.{EndKind};
ghost use Rattle.system_model.specs.declared.plan.Plan.{Plan};
ghost use Rattle.system_model.specs.declared.system.System.{System};
ghost use Rattle.system_model.specs.Text.{trace_text, Instant};
ghost use Rattle.trace_reading.specs.declared.trace.Trace.{Trace};
ghost use Rattle.trace_reading.specs.Faults.{IsFirstFault};
ghost use Rattle.trace_reading.specs.Form.{IsTextOf};
ghost use Rattle.trace_reading.specs.Written.{trace_told, IsWritable};

/// Laws on texts: a text is that of one trace, one with a first fault is that of none and has no other first fault, and
/// the text of a run of a sound system, with values that fit, is that of the trace that it tells.
pub fn texts_of_traces()
    ensures one { (bytes : List ℕ) (t u : Trace) → IsTextOf bytes t → IsTextOf bytes u → t ≡ u }
    ensures none { (bytes : List ℕ) (n : ℕ) (t : Trace) → IsFirstFault bytes n → IsTextOf bytes t →
        ⊥ }
    ensures first { (bytes : List ℕ) (n m : ℕ) → IsFirstFault bytes n → IsFirstFault bytes m →
        n ≡ m }
    ensures written { (system : System) (plan : Plan) (instants : List Instant) (kind : EndKind) (point : ℕ) →
        IsWritable system plan instants point →
        IsTextOf (trace_text system plan instants kind point) (trace_told system plan instants kind point) }
{}
