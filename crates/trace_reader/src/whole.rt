//! Reading a trace to the end of an input.

ghost use Rattle.std.specs.Prelude.{◌≡◌, false, List, ℕ, IfErr, IfOk, IsErrOf, Option, Some};
ghost use Rattle.edge_io.specs.Reading.{IsSameSource, is_dry, lines_left, number_of, room_of, source_of};
ghost use Rattle.trace_reader.specs.declared.fault.TraceFault.TheVariants.{ReadFault};
ghost use Rattle.trace_reader.specs.declared.trace.Trace.{Trace as ATrace};
ghost use Rattle.trace_reader.specs.Limits.{Spells};
ghost use Rattle.trace_reader.specs.Told.{HasReadCause, IsOfTrace};
ghost use Rattle.trace_reader.specs.BrokenOff.{BreaksOff};
ghost use Rattle.trace_reader.specs.Refused.{IsRefused};
ghost use Rattle.trace_reader.specs.WholeInput.{ReadsAll};

use crate::fault::TraceFault;
use crate::reader::{expect_end, read_trace};
use crate::trace::Trace;
use edge_io::{Lines, Source};
use std::alloc::Global;

/// The most bytes of a trace.
pub const TRACE_BYTES: u64 = 67_108_864;

/// Reads a trace to the end of the input, which has at most 67,108,864 bytes. A refusal is the first fault of the trace, or
/// that something stands behind it. [`TraceFault::ReadFault`] comes only where the source's count of faults rose, and nothing
/// is wrong with what it gave before but that it ends there.
pub fn read_whole<S: Source>(alloc: Global, input: &mut S) -> Result<Trace, TraceFault>
    ensures trace { IfOk result (λ trace. ReadsAll (S.left input.old) (S.left input.new) trace) }
    ensures refused { IfErr result (λ fault. IsOfTrace fault → IsRefused (S.left input.old) fault) }
    ensures broken_off { IsErrOf result ReadFault → BreaksOff (S.left input.old) (S.left input.new) }
    ensures cause { HasReadCause (S.faults input.old) (S.faults input.new) result }
    ensures complete { (bytes : List ℕ) (trace : ATrace) → S.left input.old ≡ Some bytes → Spells bytes trace
        → IfErr result (λ fault. IsOfTrace fault → ⊥) }
{
    let mut lines = Lines::new(input, TRACE_BYTES);
    read_lines(alloc, &mut lines)
}

// Reads a trace, and wants that nothing is left.
fn read_lines<S: Source>(alloc: Global, lines: &mut Lines<'_, S>) -> Result<Trace, TraceFault>
    // what is known before
    requires fresh { is_dry lines.old ≡ false }
    requires room { room_of lines.old ≡ TRACE_BYTES }
    requires number { number_of lines.old ≡ 0 }

    // what is read
    ensures trace { IfOk result (λ trace. ReadsAll (lines_left S.left lines.old) (S.left (source_of lines.new)) trace) }

    // why it is refused, and where
    ensures refused { (left : Option (List ℕ)) → lines_left S.left lines.old ≡ left → IfErr result (λ fault. IsOfTrace fault → IsRefused left fault) }
    ensures broken_off { IsErrOf result ReadFault → BreaksOff (lines_left S.left lines.old) (S.left (source_of lines.new)) }
    ensures complete { (bytes : List ℕ) (trace : ATrace) → lines_left S.left lines.old ≡ Some bytes → Spells bytes trace
        → IfErr result (λ fault. IsOfTrace fault → ⊥) }

    // where the lines then stand, and what the source did
    ensures same_source { IsSameSource lines.old lines.new }
    ensures cause { HasReadCause (S.faults (source_of lines.old)) (S.faults (source_of lines.new)) result }
{
    let trace = read_trace(alloc, lines)?;
    expect_end(lines)?;
    Ok(trace)
}
