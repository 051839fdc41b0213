//! The lines of a report.

ghost use Rattle.std.specs.Prelude.{◌≡◌};
ghost use Rattle.report_check.specs.Lines as lines;

use crate::view::ReportView;

/// The number of the line `end`.
pub fn end_of(report: &ReportView) -> u64
    ensures { result ≡ lines.end_of report.now }
{
    report.answers().len() as u64
        + report.journal().len() as u64
        + report.sweeps().len() as u64
        + report.totals().len() as u64
        + report.profile().len() as u64
        + 1
}
