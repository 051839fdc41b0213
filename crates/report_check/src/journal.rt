//! Rule 2: the journal, line by line, replayed over the pages that it speaks of and a page cache for each processor.

ghost use Rattle.std.specs.Prelude.{◌≡◌, IfErr, OnOk};
ghost use Rattle.cycle_history.specs.Before.{IsLimited};
ghost use Rattle.cycle_history.specs.Sound.{HasJournal};
ghost use Rattle.report_check.specs.Answers.{BreaksJournal};
ghost use Rattle.report_check.specs.Fault.{IsFaultOf};

use crate::CheckFault;
use crate::lines::end_of;
use crate::replay::{Replay, cycle_of};
use crate::view::ReportView;
use cycle_history::caching_procs;
use std::alloc::Global;
use trace_reader::Trace;

/// Whether the report's journal is one that pages of the trace's region and goal can have, with a page cache for each processor where the
/// trace is of version 2 or more: rule 2. A line that may not stand breaks it, and `end` does where a block is never dropped.
pub fn judge_journal(alloc: Global, trace: &Trace, report: &ReportView) -> Result<(), CheckFault>
    requires limited { IsLimited trace.now }
    ensures journal { OnOk result (HasJournal trace.now report.now) }
    ensures fault { IfErr result (IsFaultOf 2 (BreaksJournal trace.now report.now)) }
{
    let last = trace.cycles.len() as u32 - 1;
    let answers = report.answers().len() as u64;
    let header = trace.header;
    let mut replay = Replay::new(alloc, header.chunks, caching_procs(trace), header.goal)?;
    let mut number = 0;
    for line in report.journal() {
        number += 1;
        let cycle = cycle_of(*line);
        if last < cycle || !replay.accept(*line)? {
            return Err(CheckFault::Broken {
                rule: 2,
                line: answers + number,
            });
        }
    }
    if !replay.is_settled() {
        return Err(CheckFault::Broken {
            rule: 2,
            line: end_of(report),
        });
    }
    Ok(())
}
