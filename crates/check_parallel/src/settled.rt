//! The rules 1, 2 and 4, and beside them what speaks of no answer.

ghost use Rattle.std.specs.Prelude.{◌≡◌, length, IfErr, IfOk};
ghost use Rattle.std.specs.Thread.{IsSync};
ghost use Rattle.cycle_history.specs.Before.{IsLimited};
ghost use Rattle.cycle_history.specs.Sound.{HasJournal};
ghost use Rattle.report_check.specs.Fault.{IsFault};
ghost use Rattle.report_check.specs.Items.{AreRequests};
ghost use Rattle.report_check.specs.Lasts.{AreLasts};
ghost use Rattle.check_parallel.specs.Parts.{AreLastsOf, IsLived, IsPagesJudged};
ghost use Rattle.check_parallel.specs.Seating.{AreSeatedItems};

use crate::seating::seated_items;
use cycle_history::Answer;
use edge_io::{List, NoMemory};
use report_check::{
    Asked, CheckFault, Item, ReportView, asked_of, items_of, judge_gives, judge_journal,
    judge_lives, judge_misses, judge_places, lasts_of,
};
use std::alloc::Global;
use std::thread::{Threads, join};
use trace_reader::Trace;

/// What the journal and the sweeps say of rule 7, whatever the objects are.
#[derive(Clone, Copy, Debug)]
pub(crate) struct Lived {
    /// As far as the Gives tell it.
    pub gives: Result<(), CheckFault>,
    /// As far as the lives tell it.
    pub lives: Result<(), CheckFault>,
}

/// A report that meets the rules 1, 2 and 4.
#[derive(Drop)]
pub(crate) struct Settled {
    /// Its objects in their seats.
    pub items: Vec<Item>,
    /// The last cycle of each.
    pub lasts: Vec<u32>,
    /// What is said of rule 7 already.
    pub lived: Lived,
}

/// The report with what is known of it, where it meets the rules 1, 2 and 4. A fault is that of the first of the rules 1 to 4 that it
/// breaks.
pub(crate) fn settle<R: Threads + Sync>(
    rt: &R,
    alloc: Global,
    trace: &Trace,
    report: &ReportView,
    pieces: u32,
) -> Result<Settled, CheckFault>
    requires limited { IsLimited trace.now }
    ensures settled { IfOk result (λ s. AreSeatedItems trace.now report.now s.items.items) }
    ensures lasts { IfOk result (λ s. AreLasts trace.now s.items.items s.lasts.items) }
    ensures lived { IfOk result (λ s. IsLived trace.now report.now s.lived) }
    ensures broken { IfErr result (IsFault trace.now report.now) }
{
    let ((blank, asked), (lived, lasts)) = prepared(rt, alloc, trace, report);
    let lasts = lasts?;
    let lived = lived_of(alloc, trace, report, lived)?;
    let items = seat(rt, alloc, trace, report, blank, asked, pieces)?;
    Ok(Settled {
        items,
        lasts,
        lived,
    })
}

// What the journal says of rule 7. Where it breaks rule 2, rule 1 is tried first.
fn lived_of(
    alloc: Global,
    trace: &Trace,
    report: &ReportView,
    lived: Result<Lived, CheckFault>,
) -> Result<Lived, CheckFault>
    requires limited { IsLimited trace.now }
    requires judged { IsPagesJudged trace.now report.now lived }
    ensures lived { IfOk result (λ lived. HasJournal trace.now report.now × IsLived trace.now report.now lived) }
    ensures broken { IfErr result (IsFault trace.now report.now) }
{
    if let Ok(lived) = lived {
        return Ok(lived);
    }
    items_of(alloc, trace, report)?;
    lived
}

// The objects in their seats, where the report meets the rules 1 and 4.
fn seat<R: Threads + Sync>(
    rt: &R,
    alloc: Global,
    trace: &Trace,
    report: &ReportView,
    blank: Result<Vec<Item>, NoMemory>,
    asked: Result<List<Asked>, NoMemory>,
    pieces: u32,
) -> Result<Vec<Item>, CheckFault>
    requires limited { IsLimited trace.now }
    requires journal { HasJournal trace.now report.now }
    requires blank { IfOk blank (λ blank. length blank.items ≡ length report.now.answers) }
    requires asked { IfOk asked (AreRequests trace.now) }
    ensures settled { IfOk result (λ items. AreSeatedItems trace.now report.now items.items) }
    ensures broken { IfErr result (IsFault trace.now report.now) }
{
    let mut items = blank?;
    let asked = asked?;
    if !seated_items(
        rt,
        alloc,
        trace,
        report,
        asked.as_slice(),
        &mut items,
        pieces,
    )? {
        drop(items);
        return seat_whole(alloc, trace, report);
    }
    Ok(items)
}

// The same, by the judges of the whole.
fn seat_whole(alloc: Global, trace: &Trace, report: &ReportView) -> Result<Vec<Item>, CheckFault>
    requires limited { IsLimited trace.now }
    requires journal { HasJournal trace.now report.now }
    ensures settled { IfOk result (λ items. AreSeatedItems trace.now report.now items.items) }
    ensures broken { IfErr result (IsFault trace.now report.now) }
{
    let mut items = items_of(alloc, trace, report)?.into_vec();
    judge_misses(alloc, report, &items)?;
    judge_places(alloc, trace, report, &mut items)?;
    Ok(items)
}

// What the objects are written into and what they ask for, and beside it what speaks of no answer.
fn prepared<R: Threads + Sync>(
    rt: &R,
    alloc: Global,
    trace: &Trace,
    report: &ReportView,
) -> (
    (Result<Vec<Item>, NoMemory>, Result<List<Asked>, NoMemory>),
    (Result<Lived, CheckFault>, Result<Vec<u32>, NoMemory>),
)
    requires limited { IsLimited trace.now }
    ensures blank { IfOk result.0.0 (λ blank. length blank.items ≡ length report.now.answers) }
    ensures asked { IfOk result.0.1 (AreRequests trace.now) }
    ensures pages { IsPagesJudged trace.now report.now result.1.0 }
    ensures lasts { AreLastsOf trace.now result.1.1 }
{
    let one = || -> (Result<Vec<Item>, NoMemory>, Result<List<Asked>, NoMemory>)
        requires { IsSync R.row × IsLimited trace.now }
        ensures { IfOk result.0 (λ blank. length blank.items ≡ length report.entry.now.answers) × IfOk result.1 (AreRequests trace.entry.now) }
    { unwritten(rt, alloc, trace, report) };
    let two = || -> (Result<Lived, CheckFault>, Result<Vec<u32>, NoMemory>)
        requires { IsSync R.row × IsLimited trace.now }
        ensures { IsPagesJudged trace.entry.now report.entry.now result.0 × AreLastsOf trace.entry.now result.1 }
    { unanswered(rt, alloc, trace, report) };
    join(rt, one, two)
}

// A place for each answer, and the requests.
fn unwritten<R: Threads + Sync>(
    rt: &R,
    alloc: Global,
    trace: &Trace,
    report: &ReportView,
) -> (Result<Vec<Item>, NoMemory>, Result<List<Asked>, NoMemory>)
    requires limited { IsLimited trace.now }
    ensures blank { IfOk result.0 (λ blank. length blank.items ≡ length report.now.answers) }
    ensures asked { IfOk result.1 (AreRequests trace.now) }
{
    let one = || -> Result<Vec<Item>, NoMemory>
        ensures { IfOk result (λ blank. length blank.items ≡ length report.entry.now.answers) }
    { blank_items(alloc, report.answers().len()) };
    let two = || -> Result<List<Asked>, NoMemory>
        requires { IsLimited trace.now }
        ensures { IfOk result (AreRequests trace.entry.now) }
    { asked_of(alloc, trace) };
    join(rt, one, two)
}

// So many items, which are to be written over.
fn blank_items(alloc: Global, count: usize) -> Result<Vec<Item>, NoMemory>
    ensures { IfOk result (λ blank. length blank.items ≡ count) }
{
    let blank = Item {
        answer: Answer::Zero,
        slot: 0,
        life: 0,
        index: 0,
        proc: 0,
        cycle: 0,
        pages: 0,
        count: 0,
        class: 0,
    };
    Ok(vec![in alloc; blank; count]?)
}

// The journal with what it says of rule 7, and the last cycles.
fn unanswered<R: Threads + Sync>(
    rt: &R,
    alloc: Global,
    trace: &Trace,
    report: &ReportView,
) -> (Result<Lived, CheckFault>, Result<Vec<u32>, NoMemory>)
    requires limited { IsLimited trace.now }
    ensures pages { IsPagesJudged trace.now report.now result.0 }
    ensures lasts { AreLastsOf trace.now result.1 }
{
    let one = || -> Result<Lived, CheckFault>
        requires { IsLimited trace.now }
        ensures { IsPagesJudged trace.entry.now report.entry.now result }
    { judge_pages(alloc, trace, report) };
    let two = || -> Result<Vec<u32>, NoMemory>
        requires { IsLimited trace.now }
        ensures { AreLastsOf trace.entry.now result }
    { lasts_of(alloc, trace) };
    join(rt, one, two)
}

// Rule 2, and where it is met, what the journal says of rule 7.
fn judge_pages(alloc: Global, trace: &Trace, report: &ReportView) -> Result<Lived, CheckFault>
    requires limited { IsLimited trace.now }
    ensures { IsPagesJudged trace.now report.now result }
{
    judge_journal(alloc, trace, report)?;
    Ok(Lived {
        gives: judge_gives(alloc, trace, report),
        lives: judge_lives(alloc, trace, report),
    })
}
