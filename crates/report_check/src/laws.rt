//! Laws of broken reports.

ghost use Rattle.std.specs.Prelude.{◌<◌, ◌↔◌, ℕ};
ghost use Rattle.trace_reader.specs.declared.trace.Trace.{Trace};
ghost use Rattle.cycle_history.specs.declared.Report.{Report};
ghost use Rattle.cycle_history.specs.Broken.{IsFirstBroken};
ghost use Rattle.cycle_history.specs.Making.{ArePlain};
ghost use Rattle.cycle_history.specs.Sound.{past_in};
ghost use Rattle.report_check.specs.Answers.{BreaksJournal};
ghost use Rattle.report_check.specs.Broken.{IsBroken};
ghost use Rattle.report_check.specs.Lines.{IsLeast};
ghost use Rattle.report_check.specs.Plain.{BreaksPlainJournal};

/// A report that is broken at a line of a rule meets the rules before it, and not that rule.
pub fn a_broken_report_breaks_its_rule()
    ensures { (t : Trace) (report : Report) (n : ℕ) (line : ℕ) → IsBroken t report n line → IsFirstBroken n t report }
{}

/// Where all lines of a journal are Takes, Misses, Gives and Scavs, rule 2 is broken by the lines that break it without page caches.
pub fn a_plain_journal_breaks_the_same_lines()
    ensures { (t : Trace) (report : Report) (line : ℕ) → ArePlain (past_in report) → (BreaksJournal t report line ↔ BreaksPlainJournal t report line) }
{}

/// In a trace of version 1 the first line that breaks rule 2 is the one that breaks it without page caches.
pub fn version_1_breaks_the_same_lines()
    ensures { (t : Trace) (report : Report) (line : ℕ) → t.header.version < 2 → (IsLeast (BreaksJournal t report) line ↔ IsLeast (BreaksPlainJournal t report) line) }
{}
