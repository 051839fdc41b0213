//! The rules 5 and 6 in pieces.

ghost use Rattle.std.specs.Prelude.{◌≡◌, ◌≤◌, ◌<◌, true, length, IfOk};
ghost use Rattle.report_check.specs.Tops.{lives_of, top_at};
ghost use Rattle.report_check.specs.Filling.{IsTakenUp, place_of_class};
ghost use Rattle.report_check.specs.Fitting.{IsFitting};
ghost use Rattle.report_check.specs.Known.{AreKnownItems};
ghost use Rattle.report_check.specs.Pieces.{seen_by};
ghost use Rattle.check_parallel.specs.Homes.{AreHomes};
ghost use Rattle.check_parallel.specs.Parts.{AreVerdicts, IsInsideJudged, IsVerdict, MeetsInside};

use crate::homes::homes_of;
use crate::least::{least_apart, least_filling};
use edge_io::NoMemory;
use rayon::prelude::*;
use report_check::{CheckFault, Filling, Item, Objects, Piece, Pieces, ReportView, SPAN_CLASSES};
use std::alloc::Global;
use std::thread::Threads;
use trace_reader::Trace;

/// What a piece says of the rules 5 and 6.
#[derive(Clone, Copy, Debug)]
pub(crate) struct Verdict {
    pub apart: Result<(), CheckFault>,
    pub filling: Result<(), CheckFault>,
}

/// The rules 5 and 6, each by the least line that a piece finds.
pub(crate) fn judge_inside<R: Threads + Sync>(
    rt: &R,
    alloc: Global,
    trace: &Trace,
    report: &ReportView,
    items: &[Item],
    lasts: &[u32],
    pieces: Pieces,
) -> Result<(), CheckFault>
    requires known { AreKnownItems trace.now report.now items.now lasts.now }
    ensures { IsInsideJudged trace.now items.now result }
{
    let homes = homes_of(rt, alloc, items, pieces)?;
    let verdicts = verdicts_of(rt, alloc, trace, report, items, lasts, &homes, pieces)?;
    least_apart(&verdicts)?;
    least_filling(&verdicts)
}

// What each piece says.
fn verdicts_of<R: Threads + Sync>(
    rt: &R,
    alloc: Global,
    trace: &Trace,
    report: &ReportView,
    items: &[Item],
    lasts: &[u32],
    homes: &[u8],
    pieces: Pieces,
) -> Result<Vec<Verdict>, NoMemory>
    requires known { AreKnownItems trace.now report.now items.now lasts.now }
    requires homes { AreHomes pieces.count items.now homes.now }
    ensures all { IfOk result (λ verdicts. length verdicts.items ≡ pieces.count) }
    ensures each { IfOk result (λ verdicts. AreVerdicts trace.now items.now verdicts.items) }
{
    let count = pieces.count;
    let judged = |number: u32| -> Verdict
        requires { AreKnownItems trace.now report.now items.now lasts.now × AreHomes count items.now homes.now }
        ensures { IsVerdict trace.entry.now items.entry.now (record { number = number; count = count }) result }
    {
        verdict_of(
            alloc,
            trace,
            report,
            items,
            lasts,
            homes,
            Piece { number, count },
        )
    };
    let verdicts = (0..count)
        .into_par_iter()
        .with_min_len(1)
        .map(judged)
        .collect::<Vec<_>>(rt, alloc)?;
    Ok(verdicts)
}

// What one piece says: it is asked once whether all is well, and where something is not, what that is.
fn verdict_of(
    alloc: Global,
    trace: &Trace,
    report: &ReportView,
    items: &[Item],
    lasts: &[u32],
    homes: &[u8],
    piece: Piece,
) -> Verdict
    requires known { AreKnownItems trace.now report.now items.now lasts.now }
    requires homes { AreHomes piece.count items.now homes.now }
    ensures { IsVerdict trace.now items.now piece result }
{
    if let Ok(true) = all_fit(alloc, trace, report, items, lasts, homes, piece) {
        return Verdict {
            apart: Ok(()),
            filling: Ok(()),
        };
    }
    let objects = Objects {
        trace,
        report,
        items,
        lasts,
    };
    Verdict {
        apart: objects.judge_apart(alloc, piece),
        filling: objects.judge_filling(alloc, piece),
    }
}

// Whether the piece's objects meet the rules 5 and 6, in one pass for both.
fn all_fit(
    alloc: Global,
    trace: &Trace,
    report: &ReportView,
    items: &[Item],
    lasts: &[u32],
    homes: &[u8],
    piece: Piece,
) -> Result<bool, NoMemory>
    requires known { AreKnownItems trace.now report.now items.now lasts.now }
    requires homes { AreHomes piece.count items.now homes.now }
    ensures { IfOk result (λ fit. fit ≡ true → MeetsInside trace.now (seen_by piece items.now)) }
{
    let places = trace.header.procs as usize * SPAN_CLASSES;
    let mut filling = Filling::new(alloc, report.journal().len(), places)?;
    for number in 0..items.len() {
        if u32::from(homes[number]) == piece.number {
            let item = items[number];
            if piece.sees(&item) {
                if !takes(&mut filling, &item, lasts[number])? {
                    return Ok(false);
                }
            }
        }
    }
    Ok(true)
}

// Takes up an object with its last cycle, where it is clear of those before it and fills its life as it should.
fn takes(filling: &mut Filling, item: &Item, last: u32) -> Result<bool, NoMemory>
    // the object has its place in the table
    requires life { item.now.life < length filling.old.fills.items }
    requires row { item.now.life < lives_of filling.old.tops }
    requires place { place_of_class item.now.proc item.now.class < length filling.old.newest.items }
    requires last { last < 20000 }
    requires index { item.now.index < 20000 }

    // where it fits it is taken up
    ensures clear { IfOk result (λ fit. fit ≡ true → top_at filling.old.tops item.now.life item.now.index ≤ item.now.cycle) }
    ensures fitting { IfOk result (λ fit. fit ≡ true → 2 ≤ item.now.class → IsFitting filling.old item.now) }
    ensures taken { IfOk result (λ fit. fit ≡ true → IsTakenUp filling.old filling.new item.now last) }
{
    if filling.tops.at(item.life, item.index) > item.cycle {
        return Ok(false);
    }
    if !filling.fits(item) {
        return Ok(false);
    }
    filling.take_up(item, last)?;
    Ok(true)
}
