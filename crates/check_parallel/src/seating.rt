//! The objects with their answers and seats, in parts beside each other: the rules 1 and 4 where they are met.

ghost use Rattle.std.specs.Prelude.{◌≡◌, ◌≤◌, ◌^◌, true, length, IfOk, IfSome};
ghost use Rattle.std.specs.Thread.{IsSync};
ghost use Rattle.cycle_history.specs.Before.{IsLimited};
ghost use Rattle.cycle_history.specs.Objects.{is_placed};
ghost use Rattle.cycle_history.specs.Sound.{HasJournal};
ghost use Rattle.report_check.specs.Items.{AreRequests, IsItem, request_of};
ghost use Rattle.report_check.specs.Lives.{AreAtPages};
ghost use Rattle.report_check.specs.Seats.{HasOne};
ghost use Rattle.check_parallel.specs.Seating.{ArePartSeated, AreSeatedItems, IsItemsPart};

use crate::marking::keep_lives;
use cycle_history::Answer;
use edge_io::NoMemory;
use report_check::{Asked, Item, OpenLife, Opened, ReportView, is_right, seat_of};
use std::alloc::Global;
use std::thread::{Threads, join_mut};
use trace_reader::Trace;

/// Writes the objects of a report in their seats over as many items, in so many pieces. The answer is no where the report breaks the
/// rule 1 or 4, which is left to the judges of the whole.
pub(crate) fn seated_items<R: Threads + Sync>(
    rt: &R,
    alloc: Global,
    trace: &Trace,
    report: &ReportView,
    asked: &[Asked],
    items: &mut [Item],
    pieces: u32,
) -> Result<bool, NoMemory>
    requires limited { IsLimited trace.now }
    requires journal { HasJournal trace.now report.now }
    requires asked { AreRequests trace.now asked.now }
    requires items { length items.old ≡ length report.now.answers }
    ensures { IfOk result (λ all. all ≡ true → AreSeatedItems trace.now report.now items.new) }
{
    if asked.len() != items.len() {
        return Ok(false);
    }
    let answers = report.answers();
    if !seat_parts(rt, alloc, trace, report, asked, answers, items, pieces)? {
        return Ok(false);
    }
    let cycles = trace.cycles.len() as u32;
    keep_lives(rt, alloc, trace, report, items, 0, cycles, pieces)
}

// Gives the items of a part their requests, answers and seats, in so many pieces; whether each could have them.
#[cycle(seats)]
fn seat_parts<R: Threads + Sync>(
    rt: &R,
    alloc: Global,
    trace: &Trace,
    report: &ReportView,
    asked: &[Asked],
    answers: &[Answer],
    items: &mut [Item],
    pieces: u32,
) -> Result<bool, NoMemory>
    requires { IsItemsPart trace.now report.now asked.now answers.now (length items.old) }
    ensures { IfOk result (λ all. all ≡ true → ArePartSeated trace.now report.now asked.now answers.now items.new) }
{
    if pieces < 2 {
        return seat_part(alloc, trace, report, asked, answers, items);
    }
    let low = pieces / 2;
    let middle = items.len() / 2;
    let (asked, asked_then) = asked.split_at(middle);
    let (answers, answers_then) = answers.split_at(middle);
    let (front, back) = items.split_at_mut(middle);
    let mut one = || -> Result<bool, NoMemory>
        requires { IsSync R.row × IsItemsPart trace.now report.now asked.now answers.now (length front.now) }
        ensures { (length front.exit.now ≡ length front.entry.now)
            × IfOk result (λ all. all ≡ true → ArePartSeated trace.entry.now report.entry.now asked.entry.now answers.entry.now front.exit.now) }
    { seat_parts(rt, alloc, trace, report, asked, answers, front, low) };
    let mut two = || -> Result<bool, NoMemory>
        requires { IsSync R.row × (low ≤ pieces) × IsItemsPart trace.now report.now asked_then.now answers_then.now (length back.now) }
        ensures { (length back.exit.now ≡ length back.entry.now)
            × IfOk result (λ all. all ≡ true → ArePartSeated trace.entry.now report.entry.now asked_then.entry.now answers_then.entry.now back.exit.now) }
    {
        seat_parts(
            rt,
            alloc,
            trace,
            report,
            asked_then,
            answers_then,
            back,
            pieces - low,
        )
    };
    let (a, b) = join_mut(rt, &mut one, &mut two);
    if !a? {
        return Ok(false);
    }
    b
}

// Gives the items of a part their requests, answers and seats, up to the first that can't have them.
fn seat_part(
    alloc: Global,
    trace: &Trace,
    report: &ReportView,
    asked: &[Asked],
    answers: &[Answer],
    items: &mut [Item],
) -> Result<bool, NoMemory>
    requires { IsItemsPart trace.now report.now asked.now answers.now (length items.old) }
    ensures { IfOk result (λ all. all ≡ true → ArePartSeated trace.now report.now asked.now answers.now items.new) }
{
    let mut opened = Opened::new(alloc, trace)?;
    for number in 0..items.len() {
        let request = asked[number];
        opened.take_up(trace, report, request.cycle);
        match seated_item(&opened.lives, request, answers[number]) {
            Some(item) => items[number] = item,
            None => return Ok(false),
        }
    }
    Ok(true)
}

// The item of a request with this answer, in its seat in the lives of the table where it is placed.
fn seated_item(lives: &[Option<OpenLife>], asked: Asked, answer: Answer) -> Option<Item>
    requires pages { AreAtPages lives.now }
    requires size { asked.event.size ≤ 2 ^ 40 }
    ensures item { IfSome result (IsItem (request_of asked)) }
    ensures answer { IfSome result (λ item. item.answer ≡ answer) }
    ensures seat { IfSome result (λ item. is_placed item.answer ≡ true → HasOne lives.now item) }
{
    if !is_right(answer, asked.event.size) {
        return None;
    }
    let item = Item::new(asked, answer);
    match answer {
        Answer::Placed(address) => {
            let seat = seat_of(lives, &item, address)?;
            Some(Item {
                life: seat.life,
                index: seat.index,
                ..item
            })
        }
        _ => Some(item),
    }
}
