//! Reading a heap profile, line by line.

ghost use Rattle.std.specs.Prelude.{◌≡◌, true, false, ◌∷◌, ◌++◌, [], IfErr, IfOk, IsErrOf, MatchBool, MatchOption, MatchResult, OnOk};
ghost use Rattle.edge_io.specs.Line.{IsLine};
ghost use Rattle.edge_io.specs.Reading.{IsSameSource, line_of as the_line, number_of, source_of};
ghost use Rattle.trace_reader.specs.Refusal.{next_number};
ghost use Rattle.trace_reader.specs.Taken.{IsEnded, StandsInLine, Takes};
ghost use Rattle.trace_reader.specs.Told.{BreaksInLine};
ghost use Rattle.report_text.specs.declared.fault.ReportFault.TheVariants.{ReadFault};
ghost use Rattle.report_text.specs.Read.{HasReadCause, IsOfReport};
ghost use Rattle.heap_text.specs.declared.text.HeapText.{HeapText as AHeap};
ghost use Rattle.heap_text.specs.Lawful.{AreLow};
ghost use Rattle.heap_text.specs.Past.{Allows};
ghost use Rattle.heap_text.specs.Read.{BreaksInHeap, IsAhead, Offends, OffendsBehind, Reads, Refuses, StopsShort, TakesOne};
ghost use Rattle.heap_text.specs.Refusal.{IsLineThat, IsTop, IsTopLine};
ghost use Rattle.heap_text.specs.Text.{heap_line, top_line};

use crate::past::{Past, is_top};
use crate::words::{Top, line_of, top_of};
use crate::{HeapLine, HeapText};
use edge_io::{Lines, List, Seen, Source};
use report_text::ReportFault;
use std::alloc::Global;

/// Reads a heap profile to the end of the input. Lines are counted from the number that they stand at, and bytes against what is left
/// of the limit. A refusal tells the first line with which the lines so far begin no lawful profile's text; or the first line of all,
/// where the sums in it are not those of the lines. [`ReportFault::ReadFault`] comes only where the source's count rose, and only
/// behind lines that nothing is wrong with, before the byte or the end of the input that ends the next one.
pub fn read_heap<S: Source>(
    alloc: Global,
    lines: &mut Lines<'_, S>,
) -> Result<HeapText, ReportFault>
    // what is read
    ensures read { IfOk result (λ heap. Reads S.left lines.old lines.new heap) }

    // why it is refused, and where
    ensures refused { IfErr result (λ fault. IsOfReport fault → Refuses S.left lines.old fault) }
    ensures complete { (heap : AHeap) → IsAhead S.left lines.old heap
        → MatchResult result (λ read. read ≡ heap) (λ fault. IsOfReport fault → ⊥) }
    ensures broken_off { IsErrOf result ReadFault → BreaksInHeap S.left lines.old lines.new }

    // where the lines then stand, and what the source did
    ensures same_source { IsSameSource lines.old lines.new }
    ensures stands { StandsInLine S.left lines.old lines.new }
    ensures cause { HasReadCause (S.faults (source_of lines.old)) (S.faults (source_of lines.new)) result }
{
    read_onto(lines, List::new(alloc))
}

// Reads the first line and those behind it, onto no lines.
fn read_onto<S: Source>(
    lines: &mut Lines<'_, S>,
    mut list: List<HeapLine>,
) -> Result<HeapText, ReportFault>
    // what is known before
    requires { list ≡ [] }

    // what is read
    ensures read { IfOk result (λ heap. Reads S.left lines.old lines.new heap) }

    // why it is refused, and where
    ensures refused { IfErr result (λ fault. IsOfReport fault → Refuses S.left lines.old fault) }
    ensures broken_off { IsErrOf result ReadFault → BreaksInHeap S.left lines.old lines.new }

    // where the lines then stand, and what the source did
    ensures same_source { IsSameSource lines.old lines.new }
    ensures stands { StandsInLine S.left lines.old lines.new }
    ensures cause { HasReadCause (S.faults (source_of lines.old)) (S.faults (source_of lines.new)) result }
{
    let top = read_top(lines)?;
    let number = lines.number();
    let mut past = Past::none();
    loop {
        let Some(line) = next_line(lines, &past)? else {
            if past.sums != top.sums {
                return Err(ReportFault::Malformed(number));
            }
            return Ok(HeapText {
                twice: top.twice,
                lines: list,
            });
        };
        list.push(line)?;
        past = past.with(&line);
    }
}

// What the first line says.
fn read_top<S: Source>(lines: &mut Lines<'_, S>) -> Result<Top, ReportFault>
    // what is read
    ensures top { IfOk result (λ top. IsTop top.twice top.sums) }
    ensures taken { IfOk result (λ top. TakesOne S.left lines.old lines.new (top_line top.twice top.sums)) }

    // why it is refused, and where
    ensures refused { IfErr result (λ fault. IsOfReport fault → Offends S.left lines.old IsTopLine fault) }
    ensures broken_off { IsErrOf result ReadFault → BreaksInLine S.left lines.old lines.new }

    // where the lines then stand, and what the source did
    ensures same_source { IsSameSource lines.old lines.new }
    ensures number { number_of lines.new ≡ next_number (number_of lines.old) }
    ensures stands { StandsInLine S.left lines.old lines.new }
    ensures cause { HasReadCause (S.faults (source_of lines.old)) (S.faults (source_of lines.new)) result }
{
    if !read_line(lines)? {
        return Err(ReportFault::Truncated(lines.number()));
    }
    match top_of(lines.line()) {
        Some(top) if is_top(&top) => Ok(top),
        _ => Err(ReportFault::Malformed(lines.number())),
    }
}

// What the next line says, where the input does not end before it.
fn next_line<S: Source>(
    lines: &mut Lines<'_, S>,
    past: &Past,
) -> Result<Option<HeapLine>, ReportFault>
    // what is known before
    requires { AreLow past.now.sums }

    // what is read
    ensures allowed { IfOk result (λ found. MatchOption found (Unit {0}) (λ line. Allows past.now line)) }
    ensures taken { IfOk result (λ found. MatchOption found (IsEnded S.left lines.old lines.new) (λ line. TakesOne S.left lines.old lines.new (heap_line line))) }

    // why it is refused, and where
    ensures refused { IfErr result (λ fault. IsOfReport fault → OffendsBehind S.left lines.old (IsLineThat (Allows past.now)) fault) }
    ensures broken_off { IsErrOf result ReadFault → BreaksInLine S.left lines.old lines.new }

    // where the lines then stand, and what the source did
    ensures same_source { IsSameSource lines.old lines.new }
    ensures number { number_of lines.new ≡ next_number (number_of lines.old) }
    ensures stands { StandsInLine S.left lines.old lines.new }
    ensures cause { HasReadCause (S.faults (source_of lines.old)) (S.faults (source_of lines.new)) result }
{
    if !read_line(lines)? {
        return Ok(None);
    }
    match line_of(lines.line()) {
        Some(line) if past.allows(&line) => Ok(Some(line)),
        _ => Err(ReportFault::Malformed(lines.number())),
    }
}

// Reads a whole line, and answers whether the input did not end before it.
fn read_line<S: Source>(lines: &mut Lines<'_, S>) -> Result<bool, ReportFault>
    // what is read
    ensures line { IfOk result (λ is. MatchBool is (Takes S.left lines.old lines.new (the_line lines.new ++ 10 ∷ [])) (IsEnded S.left lines.old lines.new)) }
    ensures is_line { IfOk result (λ is. MatchBool is (IsLine (the_line lines.new)) (Unit {0})) }

    // why it is refused, and where
    ensures refused { IfErr result (λ fault. IsOfReport fault → StopsShort S.left lines.old fault) }
    ensures broken_off { IsErrOf result ReadFault → BreaksInLine S.left lines.old lines.new }

    // where the lines then stand, and what the source did
    ensures same_source { IsSameSource lines.old lines.new }
    ensures number { number_of lines.new ≡ next_number (number_of lines.old) }
    ensures stands { StandsInLine S.left lines.old lines.new }
    ensures cause { HasReadCause (S.faults (source_of lines.old)) (S.faults (source_of lines.new)) result }
{
    let Ok(seen) = lines.next_line() else {
        return Err(ReportFault::ReadFault);
    };
    match seen {
        Seen::Line => Ok(true),
        Seen::Finished => Ok(false),
        Seen::Cut => Err(ReportFault::Truncated(lines.number())),
        Seen::Long => Err(ReportFault::Malformed(lines.number())),
        Seen::Over => Err(ReportFault::Limit(lines.number())),
    }
}
