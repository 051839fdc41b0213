//! Reading a trace and a report.

ghost use Rattle.std.specs.Prelude.{◌≡◌, false, IfErr, IfOk};
ghost use Rattle.edge_io.specs.Reading.{IsSameSource, is_dry, lines_left, number_of, room_of, source_of};
ghost use Rattle.commands.specs.Pair.{BreaksOff, HasReadCause, IsReadFault, ReadsPair, Refuses};

use crate::stop::Stop;
use cycle_history::Report;
use edge_io::{Lines, Source};
use report_text::read_report;
use std::alloc::Global;
use trace_reader::{TRACE_BYTES, Trace, read_trace};

/// The most bytes of a report.
const REPORT_BYTES: u64 = 4_294_967_296;

/// Reads a trace of at most 67108864 bytes, and directly behind it a report of at most 4294967296 bytes, to the end of the
/// input. A refusal is that of the trace, or else that of the report. A read fault comes only where the source's count rose, and
/// nothing is wrong with what was read before it.
pub fn read_pair<S: Source>(alloc: Global, input: &mut S) -> Result<(Trace, Report), Stop>
    ensures read { IfOk result (λ pair. ReadsPair (S.left input.old) (S.left input.new) pair.0 pair.1) }
    ensures refused { IfErr result (λ stop. Refuses (S.left input.old) stop) }
    ensures broken_off { IfErr result (λ stop. IsReadFault stop → BreaksOff (S.left input.old) (S.left input.new)) }
    ensures cause { HasReadCause (S.faults input.old) (S.faults input.new) result }
{
    let mut lines = Lines::new(input, TRACE_BYTES);
    read_both(alloc, &mut lines)
}

// Reads both from lines that nothing was read of.
fn read_both<S: Source>(alloc: Global, lines: &mut Lines<'_, S>) -> Result<(Trace, Report), Stop>
    // what is known before
    requires fresh { is_dry lines.old ≡ false }
    requires room { room_of lines.old ≡ TRACE_BYTES }
    requires number { number_of lines.old ≡ 0 }

    // what is read
    ensures read { IfOk result (λ pair. ReadsPair (lines_left S.left lines.old) (S.left (source_of lines.new)) pair.0 pair.1) }

    // why it is refused, and where
    ensures refused { IfErr result (λ stop. Refuses (lines_left S.left lines.old) stop) }
    ensures broken_off { IfErr result (λ stop. IsReadFault stop → BreaksOff (lines_left S.left lines.old) (S.left (source_of lines.new))) }

    // where the lines then stand, and what the source did
    ensures same_source { IsSameSource lines.old lines.new }
    ensures cause { HasReadCause (S.faults (source_of lines.old)) (S.faults (source_of lines.new)) result }
{
    let trace = match read_trace(alloc, lines) {
        Ok(trace) => trace,
        Err(fault) => return Err(Stop::Trace(fault)),
    };
    lines.restart(REPORT_BYTES);
    match read_report(alloc, lines) {
        Ok(report) => Ok((trace, report)),
        Err(fault) => Err(Stop::Report(fault)),
    }
}
