//! Judging the report of a trace that stands before it.

ghost use Rattle.std.specs.Prelude.{ℕ, IfErr, OnOk};
ghost use Rattle.trace_reader.specs.declared.trace.Trace.{Trace as ATrace};
ghost use Rattle.trace_reader.specs.Limits.{WithinLimits};
ghost use Rattle.cycle_history.specs.declared.Report.{Report as AReport};
ghost use Rattle.commands.specs.Judged.{IsSound, Judges, Stops};
ghost use Rattle.commands.specs.Pair.{BreaksOff, HasReadCause, IsReadFault};

use crate::pair::read_pair;
use crate::stop::{Stop, Verdict};
use cycle_history::Report;
use edge_io::Source;
use std::alloc::Global;
use trace_reader::Trace;

/// What judges the report of a trace.
pub trait Judge {
    // the report of the trace is sound
    ghost Sound: { ATrace → AReport → Type 0 };

    // this is the first rule that it breaks, and this the first line that breaks it
    ghost Broken: { ATrace → AReport → ℕ → ℕ → Type 0 };

    /// Whether the report is sound, and otherwise the first rule that it breaks, with the first of its lines that does.
    fn judge(&self, alloc: Global, trace: &Trace, report: &Report) -> Result<(), Verdict>
        requires { WithinLimits trace.now }
        ensures sound { OnOk result (Sound trace.now report.now) }
        ensures broken { IfErr result (Judges (Broken trace.now report.now)) };
}

/// Reads a trace, and directly behind it a report to the end of the input, and has the report judged. A read fault comes only
/// where nothing is wrong with what was read before it.
pub fn check_input<S: Source, J: Judge>(alloc: Global, input: &mut S, judge: &J) -> Result<(), Stop>
    ensures sound { OnOk result (IsSound J.Sound (S.left input.old) (S.left input.new)) }
    ensures stopped { IfErr result (Stops J.Broken (S.left input.old) (S.left input.new)) }
    ensures broken_off { IfErr result (λ stop. IsReadFault stop → BreaksOff (S.left input.old) (S.left input.new)) }
    ensures cause { HasReadCause (S.faults input.old) (S.faults input.new) result }
{
    let (trace, report) = read_pair(alloc, input)?;
    match judge.judge(alloc, &trace, &report) {
        Ok(()) => Ok(()),
        Err(verdict) => Err(Stop::Verdict(verdict)),
    }
}
