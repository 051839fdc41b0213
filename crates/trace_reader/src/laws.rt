//! Laws of the format.

ghost use Rattle.std.specs.Prelude.{◌≡◌, List, None, Some, ℕ};
ghost use Rattle.trace_reader.specs.declared.fault.TraceFault.{TraceFault};
ghost use Rattle.trace_reader.specs.declared.trace.Trace.{Trace};
ghost use Rattle.trace_reader.specs.Limits.{Spells};
ghost use Rattle.trace_reader.specs.Refusal.{refusal};

/// A trace has one spelling.
pub fn a_trace_has_one_spelling()
    ensures { (bytes : List ℕ) (other : List ℕ) (trace : Trace) → Spells bytes trace → Spells other trace → bytes ≡ other }
{}

/// No bytes spell two traces.
pub fn bytes_spell_one_trace()
    ensures { (bytes : List ℕ) (trace : Trace) (other : Trace) → Spells bytes trace → Spells bytes other → trace ≡ other }
{}

/// Bytes that spell a trace are not refused.
pub fn what_is_spelled_is_not_refused()
    ensures { (bytes : List ℕ) (trace : Trace) → Spells bytes trace → refusal bytes ≡ None }
{}

/// Bytes that are refused spell no trace.
pub fn what_is_refused_spells_no_trace()
    ensures { (bytes : List ℕ) (fault : TraceFault) → refusal bytes ≡ Some fault → (trace : Trace) → ¬ Spells bytes trace }
{}

/// Bytes that are not refused spell a trace.
pub fn what_is_not_refused_is_spelled()
    ensures { (bytes : List ℕ) → refusal bytes ≡ None → (trace : Trace) × Spells bytes trace }
{}
