//! Reading a report, line by line.

ghost use Rattle.std.specs.Prelude.{◌≡◌, ◌≢◌, [], ◌∷◌, ◌++◌, IfErr, IfOk, IsErrOf, MatchResult, OnOk, Some};
ghost use Rattle.edge_io.specs.Line.{IsLine};
ghost use Rattle.edge_io.specs.Reading.{IsSameSource, line_of, number_of, source_of};
ghost use Rattle.trace_reader.specs.Refusal.{next_number};
ghost use Rattle.trace_reader.specs.Taken.{IsEnded, StandsInLine, Takes};
ghost use Rattle.trace_reader.specs.Told.{BreaksInLine};
ghost use Rattle.cycle_history.specs.declared.Report.{Report as AReport};
ghost use Rattle.report_text.specs.declared.fault.ReportFault.TheVariants.{ReadFault};
ghost use Rattle.report_text.specs.declared.item.Item.TheVariants.{End};
ghost use Rattle.report_text.specs.Gathered.{IsEmpty, with_item};
ghost use Rattle.report_text.specs.Read.{BreaksInReport, HasReadCause, IsAhead, IsAtLine, IsOfReport, Reads, Refuses, TakesItem, TellsOffence};

use crate::fault::ReportFault;
use crate::item::Item;
use crate::parse::item_of;
use cycle_history::Report;
use edge_io::{Lines, List, NoMemory, Seen, Source};
use std::alloc::Global;

/// Reads a report to the end of the input. Lines are counted from the number that they stand at, and bytes against what is
/// left of the limit. A refusal of the report tells the first line with which the lines so far begin no report's text; the
/// lines then stand behind what was read of that line. [`ReportFault::ReadFault`] comes only where the source's count rose, and
/// only behind lines that nothing is wrong with, before the byte or the end of the input that ends the next one.
pub fn read_report<S: Source>(
    alloc: Global,
    lines: &mut Lines<'_, S>,
) -> Result<Report, ReportFault>
    // what is read
    ensures read { IfOk result (λ report. Reads S.left lines.old lines.new report) }

    // why it is refused, and where
    ensures refused { IfErr result (λ fault. IsOfReport fault → Refuses S.left lines.old fault) }
    ensures complete { (report : AReport) → IsAhead S.left lines.old report
        → MatchResult result (λ read. read ≡ report) (λ fault. IsOfReport fault → ⊥) }
    ensures at_line { IfErr result (IsAtLine (number_of lines.new)) }
    ensures broken_off { IsErrOf result ReadFault → BreaksInReport S.left lines.old lines.new }

    // where the lines then stand, and what the source did
    ensures same_source { IsSameSource lines.old lines.new }
    ensures stands { StandsInLine S.left lines.old lines.new }
    ensures cause { HasReadCause (S.faults (source_of lines.old)) (S.faults (source_of lines.new)) result }
{
    let report = empty(alloc);
    read_onto(lines, report)
}

// Reads the lines of a report onto an empty one.
fn read_onto<S: Source>(lines: &mut Lines<'_, S>, mut report: Report) -> Result<Report, ReportFault>
    // what is known before
    requires { IsEmpty report }

    // what is read
    ensures read { IfOk result (λ report. Reads S.left lines.old lines.new report) }

    // why it is refused, and where
    ensures refused { IfErr result (λ fault. IsOfReport fault → Refuses S.left lines.old fault) }
    ensures at_line { IfErr result (IsAtLine (number_of lines.new)) }
    ensures broken_off { IsErrOf result ReadFault → BreaksInReport S.left lines.old lines.new }

    // where the lines then stand, and what the source did
    ensures same_source { IsSameSource lines.old lines.new }
    ensures stands { StandsInLine S.left lines.old lines.new }
    ensures cause { HasReadCause (S.faults (source_of lines.old)) (S.faults (source_of lines.new)) result }
{
    let mut before = None;
    loop {
        let item = next_item(lines, before)?;
        if matches!(item, Item::End) {
            expect_end(lines)?;
            return Ok(report);
        }
        put(&mut report, item)?;
        before = Some(item);
    }
}

// What the next line says, behind one that says `before` and is not the last.
fn next_item<S: Source>(lines: &mut Lines<'_, S>, before: Option<Item>) -> Result<Item, ReportFault>
    // what is known before
    requires { before ≢ Some End }

    // what is read
    ensures told { IfOk result (λ item. TakesItem S.left lines.old lines.new before item) }

    // why it is refused, and where
    ensures refused { TellsOffence S.left lines.old before result }
    ensures at_line { IfErr result (IsAtLine (number_of lines.new)) }
    ensures broken_off { IsErrOf result ReadFault → BreaksInLine S.left lines.old lines.new }

    // where the lines then stand, and what the source did
    ensures same_source { IsSameSource lines.old lines.new }
    ensures number { number_of lines.new ≡ next_number (number_of lines.old) }
    ensures stands { StandsInLine S.left lines.old lines.new }
    ensures cause { HasReadCause (S.faults (source_of lines.old)) (S.faults (source_of lines.new)) result }
{
    read_line(lines, before)?;
    match item_of(lines.line()) {
        Some(item) if item.may_follow(before) => Ok(item),
        _ => Err(ReportFault::Malformed(lines.number())),
    }
}

// A report of nothing.
fn empty(alloc: Global) -> Report
    ensures { IsEmpty result }
{
    Report {
        answers: List::new(alloc),
        journal: List::new(alloc),
        sweeps: List::new(alloc),
        totals: List::new(alloc),
        profile: List::new(alloc),
    }
}

// Puts what a line says at the end of its list.
fn put(report: &mut Report, item: Item) -> Result<(), NoMemory>
    ensures { OnOk result (report.new ≡ with_item report.old item) }
{
    match item {
        Item::Object(_, answer) => report.answers.push(answer),
        Item::Journal(_, line) => report.journal.push(line),
        Item::Sweep(note) => report.sweeps.push(note),
        Item::Class(total) => report.totals.push(total),
        Item::Bucket(prof) => report.profile.push(prof),
        Item::End => Ok(()),
    }
}

// Reads a whole line, behind one that says `before` and is not the last.
fn read_line<S: Source>(lines: &mut Lines<'_, S>, before: Option<Item>) -> Result<(), ReportFault>
    // what is known before
    requires { before ≢ Some End }

    // what is read
    ensures line { OnOk result (Takes S.left lines.old lines.new (line_of lines.new ++ 10 ∷ [])) }
    ensures is_line { OnOk result (IsLine (line_of lines.new)) }

    // why it is refused, and where
    ensures refused { TellsOffence S.left lines.old before result }
    ensures at_line { IfErr result (IsAtLine (number_of lines.new)) }
    ensures broken_off { IsErrOf result ReadFault → BreaksInLine S.left lines.old lines.new }

    // where the lines then stand, and what the source did
    ensures same_source { IsSameSource lines.old lines.new }
    ensures number { number_of lines.new ≡ next_number (number_of lines.old) }
    ensures stands { StandsInLine S.left lines.old lines.new }
    ensures cause { HasReadCause (S.faults (source_of lines.old)) (S.faults (source_of lines.new)) result }
{
    let Ok(seen) = lines.next_line() else {
        return Err(ReportFault::ReadFault);
    };
    match seen {
        Seen::Line => Ok(()),
        Seen::Cut | Seen::Finished => Err(ReportFault::Truncated(lines.number())),
        Seen::Long => Err(ReportFault::Malformed(lines.number())),
        Seen::Over => Err(ReportFault::Limit(lines.number())),
    }
}

// Wants that nothing is left behind the last line.
fn expect_end<S: Source>(lines: &mut Lines<'_, S>) -> Result<(), ReportFault>
    // what is read
    ensures ended { OnOk result (IsEnded S.left lines.old lines.new) }

    // why it is refused, and where
    ensures refused { TellsOffence S.left lines.old (Some End) result }
    ensures at_line { IfErr result (IsAtLine (number_of lines.new)) }
    ensures broken_off { IsErrOf result ReadFault → BreaksInLine S.left lines.old lines.new }

    // where the lines then stand, and what the source did
    ensures same_source { IsSameSource lines.old lines.new }
    ensures number { number_of lines.new ≡ next_number (number_of lines.old) }
    ensures stands { StandsInLine S.left lines.old lines.new }
    ensures cause { HasReadCause (S.faults (source_of lines.old)) (S.faults (source_of lines.new)) result }
{
    let Ok(seen) = lines.next_line() else {
        return Err(ReportFault::ReadFault);
    };
    match seen {
        Seen::Finished => Ok(()),
        _ => Err(ReportFault::Malformed(lines.number())),
    }
}
