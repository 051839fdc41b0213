//! Rule 4: the seats of placed objects, cycle by cycle beside the journal.

ghost use Rattle.std.specs.Prelude.{◌≡◌, ℕ, ◌+◌, ◌≤◌, ◌<◌, length, take, true, IfErr, OnOk, Some, slice_set};
ghost use Rattle.std.specs.List.{slice_get};
ghost use Rattle.page_alloc.specs.Journal.{IsBy, at_end, past_of};
ghost use Rattle.cycle_history.specs.Before.{IsLimited};
ghost use Rattle.cycle_history.specs.Objects.{is_placed};
ghost use Rattle.cycle_history.specs.Requests.{is_within, marked_by, region_of};
ghost use Rattle.cycle_history.specs.Rules.{AreSeated};
ghost use Rattle.cycle_history.specs.Sound.{HasAnswers, HasJournal, past_in};
ghost use Rattle.report_check.specs.Placing.{BreaksPlaces};
ghost use Rattle.report_check.specs.declared.items.Item.{Item as Entry};
ghost use Rattle.report_check.specs.Fault.{IsFaultOf};
ghost use Rattle.report_check.specs.Items.{objects_of};
ghost use Rattle.report_check.specs.Lives.{AreAtPages, AreLives};
ghost use Rattle.report_check.specs.Seats.{AllHaveLives, AreSameBut, AreSeatedIn, IsFirstLost, at_seat};

use crate::CheckFault;
use crate::items::Item;
use crate::lives::{OpenLife, Seat, has_life, no_lives, seat_of, take_up};
use crate::replay::cycle_of;
use crate::view::ReportView;
use cycle_history::{Answer, spans_at};
use size_classes::CHUNK_PAGES;
use std::alloc::Global;
use trace_reader::{Span, Trace};

/// Whether each placed object sits in one life that is open while it lives: rule 4. Then each such item has its seat: the
/// number of the life and the index. It takes time in the objects, the journal's lines, the marks and the chunks.
pub fn judge_places(
    alloc: Global,
    trace: &Trace,
    report: &ReportView,
    items: &mut [Item],
) -> Result<(), CheckFault>
    requires limited { IsLimited trace.now }
    requires answers { HasAnswers trace.now report.now (objects_of items.old) }
    requires journal { HasJournal trace.now report.now }
    ensures same { AreSameBut items.old items.new }
    ensures places { OnOk result (AreSeated (marked_by trace.now) (past_in report.now) (objects_of items.new)) }
    ensures fault { IfErr result (IsFaultOf 4 (BreaksPlaces (marked_by trace.now) (past_in report.now) (objects_of items.old))) }
{
    let mut lives = no_lives(alloc, CHUNK_PAGES as usize * trace.header.chunks as usize)?;
    let mut next = 0;
    let mut first = 0;
    let mut bound = items.len();
    let mut cycle = 0;
    for part in trace.cycles.as_slice() {
        next = take_up_to(&mut lives, trace, report, next, cycle);
        bound = first_lost(&lives, items, spans_at(trace, cycle), bound);
        let last = first + part.events.len();
        bound = seat_all(&lives, items, first, last, bound);
        first = last;
        cycle += 1;
    }
    if bound < items.len() {
        let line = bound as u64 + 1;
        return Err(CheckFault::Broken { rule: 4, line });
    }
    Ok(())
}

/// Takes up the journal's lines up to the end of a cycle, from the next one on, and answers how many there are then.
pub(crate) fn take_up_to(
    lives: &mut [Option<OpenLife>],
    trace: &Trace,
    report: &ReportView,
    next: usize,
    cycle: u32,
) -> usize
    // the lines before the next one are taken up
    requires journal { HasJournal trace.now report.now }
    requires next { next ≤ length report.now.journal }
    requires by { IsBy cycle (past_of (take next report.now.journal)) }
    requires lives { AreLives (region_of trace.now) (past_of (take next report.now.journal)) lives.old }

    // those of the cycle are too
    ensures next { result ≤ length report.now.journal }
    ensures by { IsBy cycle (past_of (take result report.now.journal)) }
    ensures end { past_of (take result report.now.journal) ≡ at_end cycle (past_in report.now) }
    ensures lives { AreLives (region_of trace.now) (past_of (take result report.now.journal)) lives.new }
{
    let journal = report.journal();
    let mut next = next;
    while next < journal.len() && cycle_of(journal[next]) <= cycle {
        take_up(lives, next as u64, journal[next]);
        next += 1;
    }
    next
}

/// The first item below the bound that the spans have and whose life isn't in the table, or the bound.
pub fn first_lost(lives: &[Option<OpenLife>], items: &[Item], spans: &[Span], bound: usize) -> usize
    requires bound { bound ≤ length items.now }
    requires seats { AllHaveLives (λ i. is_within spans.now i ≡ true) items.now bound }
    ensures { IsFirstLost lives.now (λ i. is_within spans.now i ≡ true) items.now bound result }
{
    let mut lost = bound;
    for span in spans {
        lost = first_lost_in(lives, items, span.lo as usize, span.hi as usize + 1, lost);
    }
    lost
}

// The first item from low up to high, and below the bound, whose life isn't in the table, or the bound.
fn first_lost_in(
    lives: &[Option<OpenLife>],
    items: &[Item],
    low: usize,
    high: usize,
    bound: usize,
) -> usize
    requires bound { bound ≤ length items.now }
    requires seats { AllHaveLives (λ i. (low ≤ i) × (i < high)) items.now bound }
    ensures { IsFirstLost lives.now (λ i. (low ≤ i) × (i < high)) items.now bound result }
{
    for number in low..high {
        if number >= bound {
            return bound;
        }
        let item = items[number];
        if let Answer::Placed(address) = item.answer {
            if !has_life(lives, &item, address) {
                return number;
            }
        }
    }
    bound
}

// Gives the items from first up to last, and below the bound, their seats in the lives of the table. It answers the first
// that has none, or the bound.
fn seat_all(
    lives: &[Option<OpenLife>],
    items: &mut [Item],
    first: usize,
    last: usize,
    bound: usize,
) -> usize
    requires pages { AreAtPages lives.now }
    requires order { first ≤ last }
    requires last { last ≤ length items.old }
    requires slots { (i : ℕ) (item : Entry) → slice_get items.old i ≡ Some item → is_placed item.answer ≡ true → 1 ≤ item.slot }
    ensures { AreSeatedIn lives.now items.old items.new first last bound result }
{
    for number in first..last {
        if number >= bound {
            return bound;
        }
        let item = items[number];
        if let Answer::Placed(address) = item.answer {
            match seat_of(lives, &item, address) {
                Some(seat) => sit(items, number, item, seat),
                None => return number,
            }
        }
    }
    bound
}

// Gives the item with this number its seat.
fn sit(items: &mut [Item], number: usize, item: Item, seat: Seat)
    requires { number < length items.old }
    ensures { items.new ≡ slice_set items.old number (at_seat item seat) }
{
    items[number] = Item {
        life: seat.life,
        index: seat.index,
        ..item
    };
}
