use report_text::ReportFault;
use trace_reader::TraceFault;

/// Why a report is not said to be sound.
#[derive(Clone, Copy, Debug, PartialEq, Eq)]
pub enum Stop {
    /// The trace is refused, the source failed in it, or memory ran out.
    Trace(TraceFault),
    /// The same of the report. Its lines are counted from 1 behind the trace.
    Report(ReportFault),
    /// Both were read, and the report was judged.
    Verdict(Verdict),
}

/// Why a judge does not say that a report is sound.
#[derive(Clone, Copy, Debug, PartialEq, Eq)]
pub enum Verdict {
    /// The first rule that the report breaks, and the first of its lines that breaks it, from 1.
    Broken { rule: u8, line: u64 },
    /// Memory ran out.
    NoMemory,
}
