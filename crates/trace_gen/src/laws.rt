//! Laws of made traces.

ghost use Rattle.std.specs.Prelude.{ℕ, ◌≤◌, ◌<◌, ◌^◌};
ghost use Rattle.trace_reader.specs.Limits.{WithinLimits};
ghost use Rattle.trace_gen.specs.Made.{made_trace};

/// A made trace of 1 to 1,000,000 objects is within the limits of traces.
pub fn a_made_trace_is_within_limits()
    ensures { (seed : ℕ) (objects : ℕ) → seed < 2 ^ 64 → 1 ≤ objects → objects ≤ 1000000 → WithinLimits (made_trace seed objects) }
{}
