//! Reading a trace, line by line.

ghost use Rattle.std.specs.Prelude.{◌≡◌, ◌⊎◌, [], ◌∷◌, ◌++◌, true, List as Items, IfErr, IfOk, IsErrOf, IsOk, MatchResult, OnOk};
ghost use Rattle.std.specs.List.{flat_map};
ghost use Rattle.edge_io.specs.Line.{IsLine};
ghost use Rattle.edge_io.specs.Reading.{IsSameSource, is_dry, line_of, number_of, source_of};
ghost use Rattle.trace_reader.specs.declared.fault.TraceFault.TheVariants.{Malformed, ReadFault, Truncated};
ghost use Rattle.trace_reader.specs.declared.statement.Statement.{Statement as Said};
ghost use Rattle.trace_reader.specs.declared.statement.Statement.TheVariants.{End, Title};
ghost use Rattle.trace_reader.specs.declared.trace.Trace.{Trace as ATrace};
ghost use Rattle.trace_reader.specs.Spelling.{cycle_statements, heap_of, statements_of};
ghost use Rattle.trace_reader.specs.Limits.{HeaderFits, IsVersion, RegionFits};
ghost use Rattle.trace_reader.specs.Refusal.{next_number};
ghost use Rattle.trace_reader.specs.Good.{AreGood};
ghost use Rattle.trace_reader.specs.Draft.{AreEnded};
ghost use Rattle.trace_reader.specs.Follows.{IsStart};
ghost use Rattle.trace_reader.specs.Taken.{IsEnded, StandsInLine, Takes, TakesLines};
ghost use Rattle.trace_reader.specs.Told.{BreaksInLine, HasReadCause, IsFaultAhead, IsOfTrace, TellsFirstFault};
ghost use Rattle.trace_reader.specs.Read.{IsAhead, Reads};

use crate::draft::Draft;
use crate::fault::{TraceFault, Which};
use crate::limits::{header_of, version_of};
use crate::trace::{Cycle, Header, Trace};
use edge_io::{Lines, List, Seen, Source};
use std::alloc::Global;

/// Reads a trace up to its `end` line, and no further. Lines are counted from the number that they stand at, and bytes
/// against what is left of the limit. A refusal of the trace tells its first offending line with the first reason; that
/// line has the number at which the lines then stand, behind what was read of it. [`TraceFault::ReadFault`] comes only
/// where the source's count rose, and only behind lines that nothing is wrong with, before the byte or the end of the
/// input that ends the next one. Lines that have seen the end of the input before end early, and nothing is read.
pub fn read_trace<S: Source>(alloc: Global, lines: &mut Lines<'_, S>) -> Result<Trace, TraceFault>
    // what is read
    ensures spelled { IfOk result (λ trace. Reads S.left lines.old lines.new trace) }
    ensures lines { IfOk result (λ trace. TakesLines S.left lines.old lines.new (statements_of trace)) }

    // why it is refused, and where
    ensures refused { TellsFirstFault S.left lines.old lines.new [] result }
    ensures complete { (trace : ATrace) → IsAhead S.left lines.old trace
        → MatchResult result (λ read. read ≡ trace) (λ fault. IsOfTrace fault → ⊥) }

    // where the lines then stand, and what the source did
    ensures same_source { IsSameSource lines.old lines.new }
    ensures dry { is_dry lines.old ≡ true → IsErrOf result (Truncated (next_number (number_of lines.old))) × (source_of lines.new ≡ source_of lines.old) }
    ensures stands { StandsInLine S.left lines.old lines.new }
    ensures cause { HasReadCause (S.faults (source_of lines.old)) (S.faults (source_of lines.new)) result }
{
    let version = read_title(lines)?;
    let header = read_header(lines, version)?;
    let cycles = read_cycles(alloc, lines, header.procs as u8)?;
    Ok(Trace { header, cycles })
}

/// Wants that nothing is left behind a trace. What is left is [`TraceFault::Malformed`] at its first line, whatever it is;
/// the lines then stand behind what was read of that line. [`TraceFault::ReadFault`] comes only where the source's count
/// rose, before the byte or the end of the input that ends that line. No other fault comes. Lines that have seen the end
/// of the input before have nothing left, and nothing is read.
pub fn expect_end<S: Source>(lines: &mut Lines<'_, S>) -> Result<(), TraceFault>
    // what is read
    ensures ended { OnOk result (IsEnded S.left lines.old lines.new) }

    // why it is refused, and where
    ensures only { IfErr result (λ fault. (fault ≡ ReadFault) ⊎ (fault ≡ Malformed (number_of lines.new))) }
    ensures refused { IfErr result (λ fault. IsOfTrace fault → IsFaultAhead S.left lines.old fault) }
    ensures read_fault { IsErrOf result ReadFault → BreaksInLine S.left lines.old lines.new }

    // where the lines then stand, and what the source did
    ensures same_source { IsSameSource lines.old lines.new }
    ensures number { number_of lines.new ≡ next_number (number_of lines.old) }
    ensures dry { is_dry lines.old ≡ true → IsOk result × (source_of lines.new ≡ source_of lines.old) }
    ensures stands { StandsInLine S.left lines.old lines.new }
    ensures cause { HasReadCause (S.faults (source_of lines.old)) (S.faults (source_of lines.new)) result }
{
    let Ok(seen) = lines.next_line() else {
        return Err(TraceFault::ReadFault);
    };
    match seen {
        Seen::Finished => Ok(()),
        _ => Err(TraceFault::Malformed(lines.number())),
    }
}

// Reads the first line, which says the version.
fn read_title<S: Source>(lines: &mut Lines<'_, S>) -> Result<u8, TraceFault>
    // what is read
    ensures lines { IfOk result (λ version. TakesLines S.left lines.old lines.new (Title version ∷ [])) }
    ensures version { IfOk result (λ version. IsVersion version) }

    // why it is refused, and where
    ensures refused { TellsFirstFault S.left lines.old lines.new [] result }

    // where the lines then stand, and what the source did
    ensures same_source { IsSameSource lines.old lines.new }
    ensures stands { StandsInLine S.left lines.old lines.new }
    ensures dry { is_dry lines.old ≡ true → IsErrOf result (Truncated (next_number (number_of lines.old))) × (source_of lines.new ≡ source_of lines.old) }
    ensures cause { HasReadCause (S.faults (source_of lines.old)) (S.faults (source_of lines.new)) result }
{
    read_line(lines)?;
    version_of(lines.line(), lines.number())
}

// Reads the second line, behind a first one of this version.
fn read_header<S: Source>(lines: &mut Lines<'_, S>, version: u8) -> Result<Header, TraceFault>
    // what is known before
    requires { IsVersion version }

    // what is read
    ensures version { IfOk result (λ h. h.version ≡ version) }
    ensures lines { IfOk result (λ h. TakesLines S.left lines.old lines.new (heap_of h ∷ [])) }
    ensures fits { IfOk result (λ h. HeaderFits h) }
    ensures region { IfOk result (λ h. RegionFits h) }

    // why it is refused, and where
    ensures refused { TellsFirstFault S.left lines.old lines.new (Title version ∷ []) result }

    // where the lines then stand, and what the source did
    ensures same_source { IsSameSource lines.old lines.new }
    ensures stands { StandsInLine S.left lines.old lines.new }
    ensures cause { HasReadCause (S.faults (source_of lines.old)) (S.faults (source_of lines.new)) result }
{
    read_line(lines)?;
    header_of(lines.line(), lines.number(), version)
}

// Reads the lines behind the header, and the last line.
fn read_cycles<S: Source>(
    alloc: Global,
    lines: &mut Lines<'_, S>,
    procs: u8,
) -> Result<List<Cycle>, TraceFault>
    // what is read
    ensures lines { IfOk result (λ cycles. TakesLines S.left lines.old lines.new (flat_map cycle_statements cycles ++ End ∷ [])) }
    ensures ended { IfOk result (λ cycles. AreEnded cycles) }
    ensures good { IfOk result (λ cycles. (past : Items Said) → IsStart past procs → AreGood past (flat_map cycle_statements cycles)) }

    // why it is refused, and where
    ensures refused { (past : Items Said) → IsStart past procs → TellsFirstFault S.left lines.old lines.new past result }

    // where the lines then stand, and what the source did
    ensures same_source { IsSameSource lines.old lines.new }
    ensures stands { StandsInLine S.left lines.old lines.new }
    ensures cause { HasReadCause (S.faults (source_of lines.old)) (S.faults (source_of lines.new)) result }
{
    let mut draft = Draft::new(alloc, procs);
    loop {
        read_line(lines)?;
        let end = lines.line().len();
        if draft.take_line(alloc, lines.line_and_ahead(), end, lines.number())? {
            return Ok(draft.finish(alloc)?);
        }
    }
}

// Reads a whole line.
#[inline(always)]
fn read_line<S: Source>(lines: &mut Lines<'_, S>) -> Result<(), TraceFault>
    // what is read
    ensures line { OnOk result (Takes S.left lines.old lines.new (line_of lines.new ++ 10 ∷ [])) }
    ensures is_line { OnOk result (IsLine (line_of lines.new)) }

    // why it is refused, and where
    ensures refused { (past : Items Said) → TellsFirstFault S.left lines.old lines.new past result }

    // where the lines then stand, and what the source did
    ensures same_source { IsSameSource lines.old lines.new }
    ensures number { number_of lines.new ≡ next_number (number_of lines.old) }
    ensures dry { is_dry lines.old ≡ true → IsErrOf result (Truncated (next_number (number_of lines.old))) × (source_of lines.new ≡ source_of lines.old) }
    ensures stands { StandsInLine S.left lines.old lines.new }
    ensures cause { HasReadCause (S.faults (source_of lines.old)) (S.faults (source_of lines.new)) result }
{
    let Ok(seen) = lines.next_line() else {
        return Err(TraceFault::ReadFault);
    };
    match seen {
        Seen::Line => Ok(()),
        Seen::Cut | Seen::Finished => Err(TraceFault::Truncated(lines.number())),
        Seen::Long => Err(TraceFault::Malformed(lines.number())),
        Seen::Over => Err(TraceFault::Limit(lines.number(), Which::Bytes)),
    }
}
