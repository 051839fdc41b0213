//! Judging a report and summing it up.

ghost use Rattle.std.specs.Prelude.{◌≡◌, IfErr, IsErrOf, OnOk};
ghost use Rattle.std.specs.Io.KnownBytes.{Appends};
ghost use Rattle.edge_io.specs.Causes.{Rose};
ghost use Rattle.edge_io.specs.Front.{AppendsFront};
ghost use Rattle.trace_reader.specs.Limits.{WithinLimits};
ghost use Rattle.report_check.specs.Fault.{MeetsChecked};
ghost use Rattle.commands.specs.Summary.{summary_text};
ghost use Rattle.commands.specs.TellsBroken.{TellsBroken};
ghost use Rattle.commands.specs.declared.demo.SummaryFault.TheVariants.{Failed as WriteFailed};

use crate::summary::summary;
use cycle_history::Report;
use edge_io::{Sink, write_all};
use report_check::{CheckFault, check};
use std::alloc::Global;
use trace_reader::Trace;

/// Why a summary was not written whole.
#[derive(Clone, Copy, Debug, PartialEq, Eq)]
pub enum SummaryFault {
    /// Memory ran out, and nothing was written.
    NoMemory,
    /// The sink failed, and a front of the text was written.
    Failed,
    /// The report breaks this rule first, at this line, counted from 1, and nothing was written.
    Broken { rule: u8, line: u64 },
}

/// Judges the report of the trace, and where it is sound appends the eight lines that sum it up: the trace's objects, how many
/// were placed and refused, the mark ends, the sums over the totals, those over the profile as of the last mark end, and
/// `check ok`. The text is put together before a byte is written; [`SummaryFault::Failed`] comes only where the sink's count
/// rose.
pub fn write_summary<K: Sink>(
    alloc: Global,
    out: &mut K,
    trace: &Trace,
    report: &Report,
) -> Result<(), SummaryFault>
    // what is known of the trace
    requires { WithinLimits trace.now }

    // a sound report is summed up
    ensures checked { OnOk result (MeetsChecked trace.now report.now) }
    ensures ok { OnOk result (Appends (K.held out.old) (K.held out.new) (summary_text trace.now report.now)) }

    // what a fault says, and what was written before it
    ensures cause { IsErrOf result WriteFailed → Rose (K.faults out.old) (K.faults out.new) }
    ensures front { IsErrOf result WriteFailed → AppendsFront (K.held out.old) (K.held out.new) (summary_text trace.now report.now) }
    ensures broken { IfErr result (TellsBroken trace.now report.now) }
    ensures unwritten { IfErr result (λ fault. (fault ≡ WriteFailed → ⊥) → out.new ≡ out.old) }
{
    match check(alloc, trace, report) {
        Ok(()) => {}
        Err(CheckFault::NoMemory) => return Err(SummaryFault::NoMemory),
        Err(CheckFault::Broken { rule, line }) => return Err(SummaryFault::Broken { rule, line }),
    }
    let Ok(text) = summary(alloc, trace, report) else {
        return Err(SummaryFault::NoMemory);
    };
    match write_all(out, text.as_slice()) {
        Ok(()) => Ok(()),
        Err(_) => Err(SummaryFault::Failed),
    }
}
