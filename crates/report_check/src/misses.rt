//! Rule 3: the Miss lines that missed objects name.

ghost use Rattle.std.specs.Prelude.{◌≡◌, ◌≢◌, ◌<◌, false, length, replicate, slice_set, true, IfErr, IfOk, MatchBool, OnOk};
ghost use Rattle.std.specs.List.{slice_get};
ghost use Rattle.page_bitmap.specs.declared.line.Line.TheVariants.{Miss};
ghost use Rattle.cycle_history.specs.Rules.{AreMissed};
ghost use Rattle.cycle_history.specs.Sound.{past_in};
ghost use Rattle.report_check.specs.Answers.{BreaksMisses};
ghost use Rattle.report_check.specs.Fault.{IsFaultOf};
ghost use Rattle.report_check.specs.Items.{objects_of};

use crate::CheckFault;
use crate::items::Item;
use crate::view::ReportView;
use cycle_history::Answer;
use edge_io::NoMemory;
use page_bitmap::Line;
use std::alloc::Global;

/// Whether each missed object names a Miss line of its kind that no other names: rule 3.
pub fn judge_misses(alloc: Global, report: &ReportView, items: &[Item]) -> Result<(), CheckFault>
    ensures misses { OnOk result (AreMissed (past_in report.now) (objects_of items.now)) }
    ensures fault { IfErr result (IsFaultOf 3 (BreaksMisses (past_in report.now) (objects_of items.now))) }
{
    let journal = report.journal();
    let mut named = unnamed(alloc, journal.len())?;
    let mut number = 0;
    for item in items {
        number += 1;
        if let Answer::Missed(line) = item.answer {
            if !names_miss(journal, line, item) || named[line as usize] {
                return Err(CheckFault::Broken {
                    rule: 3,
                    line: number,
                });
            }
            note(&mut named, line);
        }
    }
    Ok(())
}

// Notes that the line is named.
fn note(named: &mut Vec<bool>, line: u64)
    requires { line < length named.old.items }
    ensures { named.new.items ≡ slice_set named.old.items line true }
{
    named[line as usize] = true;
}

// So many lines, none of which is named.
fn unnamed(alloc: Global, count: usize) -> Result<Vec<bool>, NoMemory>
    ensures { IfOk result (λ named. named.items ≡ replicate count false) }
{
    Ok(vec![in alloc; false; count]?)
}

// Whether the journal's line with this number is a Miss of the object's kind.
fn names_miss(journal: &[Line], number: u64, item: &Item) -> bool
    ensures { MatchBool result (slice_get journal.now number ≡ Some (Miss item.now.cycle item.now.pages item.now.class)) (slice_get journal.now number ≢ Some (Miss item.now.cycle item.now.pages item.now.class)) }
{
    if number >= journal.len() as u64 {
        return false;
    }
    match journal[number as usize] {
        Line::Miss {
            cycle,
            pages,
            class,
        } => cycle == item.cycle && pages == item.pages && class == item.class,
        _ => false,
    }
}
