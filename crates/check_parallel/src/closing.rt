//! The rules 7 to 9, beside each other.

ghost use Rattle.std.specs.Prelude.{ℕ, List};
ghost use Rattle.std.specs.Thread.{IsSync};
ghost use Rattle.trace_reader.specs.declared.trace.Trace.{Trace as ATrace};
ghost use Rattle.cycle_history.specs.declared.Report.{Report as AReport};
ghost use Rattle.report_check.specs.declared.items.Item.{Item as AnItem};
ghost use Rattle.report_check.specs.Known.{AreKnownItems};
ghost use Rattle.check_parallel.specs.Parts.{IsClosingJudged, IsCountedJudged, IsLived, IsNotesJudged, IsProfileJudged, IsSweepsJudged, IsTotalsJudged};

use crate::settled::Lived;
use report_check::{CheckFault, Item, Objects, ReportView, judge_totals};
use std::alloc::Global;
use std::thread::{Threads, join};
use trace_reader::Trace;

/// The rules 7 to 9, where the journal and the sweeps have said of rule 7 what they can.
pub(crate) fn judge_closing<R: Threads + Sync>(
    rt: &R,
    alloc: Global,
    trace: &Trace,
    report: &ReportView,
    items: &[Item],
    lasts: &[u32],
    lived: Lived,
) -> Result<(), CheckFault>
    requires known { AreKnownItems trace.now report.now items.now lasts.now }
    requires lived { IsLived trace.now report.now lived }
    ensures { IsClosingJudged trace.now report.now items.now result }
{
    let one = || -> Result<(), CheckFault>
        requires { AreKnownItems trace.now report.now items.now lasts.now }
        ensures { IsNotesJudged trace.entry.now report.entry.now items.entry.now result }
    { judge_notes(alloc, trace, report, items, lasts) };
    let two = || -> Result<(), CheckFault>
        requires { IsSync R.row × AreKnownItems trace.now report.now items.now lasts.now }
        ensures { IsCountedJudged trace.entry.now report.entry.now items.entry.now result }
    { judge_counted(rt, alloc, trace, report, items, lasts) };
    let (notes, counted) = join(rt, one, two);
    sweeps_of(lived, notes)?;
    counted
}

// Rule 7, by what the Gives, the sweeps and the lives say of it: their lines stand in this order.
fn sweeps_of(lived: Lived, notes: Result<(), CheckFault>) -> Result<(), CheckFault>
    ensures { (trace : ATrace) (report : AReport) (items : List AnItem) (lasts : List ℕ) → AreKnownItems trace report items lasts
        → IsLived trace report lived → IsNotesJudged trace report items notes → IsSweepsJudged trace report items result }
{
    let Lived { gives, lives } = lived;
    gives?;
    notes?;
    lives
}

// Rule 7, as far as the sweeps tell it.
fn judge_notes(
    alloc: Global,
    trace: &Trace,
    report: &ReportView,
    items: &[Item],
    lasts: &[u32],
) -> Result<(), CheckFault>
    requires known { AreKnownItems trace.now report.now items.now lasts.now }
    ensures { IsNotesJudged trace.now report.now items.now result }
{
    let objects = Objects {
        trace,
        report,
        items,
        lasts,
    };
    objects.judge_notes(alloc)
}

// The rules 8 and 9.
fn judge_counted<R: Threads + Sync>(
    rt: &R,
    alloc: Global,
    trace: &Trace,
    report: &ReportView,
    items: &[Item],
    lasts: &[u32],
) -> Result<(), CheckFault>
    requires known { AreKnownItems trace.now report.now items.now lasts.now }
    ensures { IsCountedJudged trace.now report.now items.now result }
{
    let one = || -> Result<(), CheckFault>
        requires { AreKnownItems trace.now report.now items.now lasts.now }
        ensures { IsTotalsJudged trace.entry.now report.entry.now items.entry.now result }
    { totals_of(alloc, trace, report, items, lasts) };
    let two = || -> Result<(), CheckFault>
        requires { AreKnownItems trace.now report.now items.now lasts.now }
        ensures { IsProfileJudged trace.entry.now report.entry.now items.entry.now result }
    { judge_profile(alloc, trace, report, items, lasts) };
    let (totals, profile) = join(rt, one, two);
    totals?;
    profile
}

// Rule 8, by the answers that the items have.
fn totals_of(
    alloc: Global,
    trace: &Trace,
    report: &ReportView,
    _items: &[Item],
    _lasts: &[u32],
) -> Result<(), CheckFault>
    requires known { AreKnownItems trace.now report.now _items.now _lasts.now }
    ensures { IsTotalsJudged trace.now report.now _items.now result }
{
    judge_totals(alloc, trace, report)
}

// Rule 9.
fn judge_profile(
    alloc: Global,
    trace: &Trace,
    report: &ReportView,
    items: &[Item],
    lasts: &[u32],
) -> Result<(), CheckFault>
    requires known { AreKnownItems trace.now report.now items.now lasts.now }
    ensures { IsProfileJudged trace.now report.now items.now result }
{
    let objects = Objects {
        trace,
        report,
        items,
        lasts,
    };
    objects.judge_profile(alloc)
}
