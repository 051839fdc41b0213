//! The lives that are open as a cycle ends, by their first pages, and the seats that they give.

ghost use Rattle.std.specs.Prelude.{◌≡◌, ℕ, ◌*◌, ◌+◌, ◌-◌, ◌<◌, ◌≤◌, ◌/◌, ◌∷◌, List as Lines, replicate, length, slice_set, IfOk, MatchBool, MatchOption, None as Nothing};
ghost use Rattle.size_classes.specs.Classes.{region_start};
ghost use Rattle.page_bitmap.specs.declared.line.Line.{Line as Entry};
ghost use Rattle.page_alloc.specs.Lives.{Life};
ghost use Rattle.page_alloc.specs.Journal.{LegalFor};
ghost use Rattle.cycle_history.specs.declared.Answer.TheVariants.{Placed};
ghost use Rattle.report_check.specs.Items.{object_of};
ghost use Rattle.report_check.specs.declared.lives.Seat.{Seat as Place};
ghost use Rattle.report_check.specs.Lives.{AreAtPages, AreLives, HasLife, HasNumber, IsOne, IsSeatAt, NoSeatAt};

use crate::items::Item;
use edge_io::NoMemory;
use page_bitmap::Line;
use size_classes::{PAGE_SIZE, REGION_START};
use std::alloc::Global;

/// The bytes of a page.
const PAGE: u128 = PAGE_SIZE as u128;

/// A life that no Give line has ended: the number of its Take or Cut line, with its cycle, its pages and its span class.
#[derive(Clone, Copy, Debug)]
pub struct OpenLife {
    /// The number of its Take or Cut line.
    pub number: u64,
    /// The cycle of that line.
    pub cycle: u32,
    /// Its first page.
    pub page: u32,
    /// How many pages it has.
    pub pages: u32,
    /// Its span class.
    pub class: u8,
}

/// Where an object sits: the number of a life, and an index in it.
#[derive(Clone, Copy, Debug)]
pub struct Seat {
    /// The number of the life.
    pub life: u64,
    /// The index, from 0.
    pub index: u32,
}

/// The lives of so many pages before the first line: none.
pub(crate) fn no_lives(alloc: Global, pages: usize) -> Result<Vec<Option<OpenLife>>, NoMemory>
    ensures { IfOk result (λ lives. lives.items ≡ replicate pages Nothing) }
{
    Ok(vec![in alloc; None; pages]?)
}

/// Takes up the line with this number: a life begins with a Take or a Cut, and ends with a Give.
pub(crate) fn take_up(lives: &mut [Option<OpenLife>], number: u64, line: Line)
    requires { (procs : ℕ) × (region : ℕ) × (goal : ℕ) × (past : Lines Entry) × AreLives region past lives.old × LegalFor procs region goal (line ∷ past) }
    ensures { (procs : ℕ) (region : ℕ) (goal : ℕ) (past : Lines Entry)
        → AreLives region past lives.old → LegalFor procs region goal (line ∷ past) → number ≡ length past → AreLives region (line ∷ past) lives.new }
{
    match line {
        Line::Take {
            cycle,
            page,
            pages,
            class,
        } => put(
            lives,
            page,
            Some(OpenLife {
                number,
                cycle,
                page,
                pages,
                class,
            }),
        ),
        Line::Cut {
            cycle,
            proc: _,
            page,
            pages,
            class,
        } => put(
            lives,
            page,
            Some(OpenLife {
                number,
                cycle,
                page,
                pages,
                class,
            }),
        ),
        Line::Give { page, .. } => put(lives, page, None),
        Line::Miss { .. } | Line::Scav { .. } | Line::Pull { .. } | Line::Drop { .. } => (),
    }
}

fn put(lives: &mut [Option<OpenLife>], page: u32, life: Option<OpenLife>)
    requires { page < length lives.old }
    ensures { lives.new ≡ slice_set lives.old page life }
{
    lives[page as usize] = life;
}

/// The seat of an object at this address in the lives of the table, where it sits in one and in no other.
pub fn seat_of(lives: &[Option<OpenLife>], item: &Item, address: u64) -> Option<Seat>
    requires pages { AreAtPages lives.now }
    requires slot { 1 ≤ item.now.slot }
    requires address { item.now.answer ≡ Placed address }
    ensures { MatchOption result ((seat : Place) → ¬ IsOne lives.now (object_of 0 item.now) seat) (IsOne lives.now (object_of 0 item.now)) }
{
    if address < REGION_START || item.count == 0 {
        return None;
    }
    let offset = address - REGION_START;
    let last = offset / PAGE_SIZE;
    let first = first_page(item, last);
    let mut found = None;
    for page in first..last + 1 {
        if let Some(seat) = seat_at(lives, item, offset, page) {
            if found.is_some() {
                return None;
            }
            found = Some(seat);
        }
    }
    found
}

// The first page that a life can have in which the object sits, if its address is in the last one.
fn first_page(item: &Item, last: u64) -> u64
    requires count { 1 ≤ item.now.count }
    ensures low { (k : ℕ) → k < item.now.count → result ≤ last - (item.now.slot * k) / PAGE_SIZE }
    ensures high { result ≤ last }
{
    let bytes = u128::from(item.slot) * u128::from(item.count - 1);
    let pages = bytes / PAGE;
    if pages < u128::from(last) {
        last - pages as u64
    } else {
        0
    }
}

// The seat of an object, which lies so many bytes into the region, in the life of the table that begins at a page.
fn seat_at(lives: &[Option<OpenLife>], item: &Item, offset: u64, page: u64) -> Option<Seat>
    requires pages { AreAtPages lives.now }
    requires slot { 1 ≤ item.now.slot }
    requires address { item.now.answer ≡ Placed (region_start + offset) }
    requires page { PAGE_SIZE * page ≤ offset }
    ensures { MatchOption result (NoSeatAt lives.now (object_of 0 item.now) page) (IsSeatAt lives.now (object_of 0 item.now) page) }
{
    if page >= lives.len() as u64 {
        return None;
    }
    let inside = offset - PAGE_SIZE * page;
    let index = inside / item.slot;
    let entry = lives[page as usize];
    match entry {
        Some(life) => {
            if !fits(life, item) || inside % item.slot != 0 || index >= u64::from(item.count) {
                return None;
            }
            Some(Seat {
                life: life.number,
                index: index as u32,
            })
        }
        None => None,
    }
}

// Whether the life is a span such as the object needs.
fn fits(life: OpenLife, item: &Item) -> bool
    ensures { MatchBool result ((life.class ≡ item.now.class) × (life.pages ≡ item.now.pages)) (¬ ((life.class ≡ item.now.class) × (life.pages ≡ item.now.pages))) }
{
    life.class == item.class && life.pages == item.pages
}

/// Whether the life in which an object sits at this address is still in the table.
pub(crate) fn has_life(lives: &[Option<OpenLife>], item: &Item, address: u64) -> bool
    requires address { item.now.answer ≡ Placed address }
    requires seat { (life : Life) × HasLife item.now life }
    ensures { (life : Life) → HasLife item.now life → MatchBool result (HasNumber lives.now life.page item.now.life) (¬ HasNumber lives.now life.page item.now.life) }
{
    let start = address - REGION_START - item.slot * u64::from(item.index);
    let page = start / PAGE_SIZE;
    if page >= lives.len() as u64 {
        return false;
    }
    let entry = lives[page as usize];
    match entry {
        Some(life) => life.number == item.life,
        None => false,
    }
}
