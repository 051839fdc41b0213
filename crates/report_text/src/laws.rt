//! Laws of the text. With them `read_report` and `write_report` undo each other: what is written is not refused and is of one
//! report, and what is read is the text that is written of it.

ghost use Rattle.report_text.specs.Laws.{BeginsText, IsNotRefused, IsOneRefusal};
ghost use Rattle.report_text.specs.Unique.{IsOfOneReport};

/// A text is of at most one report, where each number of a report fits its type.
pub fn text_of_one_report()
    ensures { IsOfOneReport }
{}

/// A report's text within the limit is not refused.
pub fn a_text_is_not_refused()
    ensures { IsNotRefused }
{}

/// Bytes have at most one refusal.
pub fn bytes_have_one_refusal()
    ensures { IsOneRefusal }
{}

/// Lines that each may stand behind the one before begin the text of some report. So a line is refused exactly where the
/// lines up to it begin no report's text.
pub fn lines_in_turn_begin_a_text()
    ensures { BeginsText }
{}
