//! A report as it is judged.

ghost use Rattle.std.specs.Prelude.{◌≡◌};
ghost use Rattle.report_check.specs.Answered.{having_answers};

use cycle_history::{Answer, Prof, Report, Total};
use edge_io::List;
use page_bitmap::Line;
use span_state::SweepNote;
use std::marker::Model;

/// A report as it is judged: its lists, with the answers that it prints or with others, as those of a base. Contracts see it as the report
/// that has these answers.
#[derive(Drop)]
pub struct ReportView<'a> {
    report: &'a Report,
    answers: &'a List<Answer>,
}

impl<'a> Model for ReportView<'a> {
    ghost use Rattle.cycle_history.specs.declared.Report.{Report as AReport};
    ghost use Rattle.report_check.specs.Answered.{having_answers as with};

    ghost Value = { AReport };

    ghost view = { λ v. with v.report.now v.answers.now };
}

impl<'a> ReportView<'a> {
    /// The report as it is.
    pub fn of(report: &'a Report) -> ReportView<'a>
        ensures { result ≡ report.now }
    {
        ReportView {
            report,
            answers: &report.answers,
        }
    }

    /// The report with these answers in place of its own.
    pub fn with_answers(report: &'a Report, answers: &'a List<Answer>) -> ReportView<'a>
        ensures { result ≡ having_answers report.now answers.now }
    {
        ReportView { report, answers }
    }

    /// The answers, as the list that they are.
    pub fn answer_list(&self) -> &List<Answer>
        ensures { result.now ≡ self.now.answers }
    {
        self.answers
    }

    /// The answers.
    pub fn answers(&self) -> &[Answer]
        ensures { result.now ≡ self.now.answers }
    {
        self.answers.as_slice()
    }

    /// The lines of the journal.
    pub fn journal(&self) -> &[Line]
        ensures { result.now ≡ self.now.journal }
    {
        self.report.journal.as_slice()
    }

    /// The sweeps.
    pub fn sweeps(&self) -> &[SweepNote]
        ensures { result.now ≡ self.now.sweeps }
    {
        self.report.sweeps.as_slice()
    }

    /// The totals.
    pub fn totals(&self) -> &[Total]
        ensures { result.now ≡ self.now.totals }
    {
        self.report.totals.as_slice()
    }

    /// The lines of the profile.
    pub fn profile(&self) -> &[Prof]
        ensures { result.now ≡ self.now.profile }
    {
        self.report.profile.as_slice()
    }
}
