//! The lines that have to do with no page cache: each may stand where the pages' own call makes that same line.

ghost use Rattle.std.specs.Prelude.{◌≡◌, ◌≢◌, ◌<◌, ◌∷◌, ℕ, List, IfOk, MatchBool};
ghost use Rattle.page_bitmap.specs.declared.line.Line.{Line as Entry};
ghost use Rattle.page_bitmap.specs.declared.line.Line.TheVariants.{Give, Miss, Scav, Take};
ghost use Rattle.page_alloc.specs.Owners.{owner};
ghost use Rattle.page_alloc.specs.Blocks.{AreOfCycle};
ghost use Rattle.page_alloc.specs.Journal.{IsBy, cycle_of as cycle_in, past_of};
ghost use Rattle.report_check.specs.ReplayedLines.{HasLine, IsLegal, MayCome};

use crate::replay::lines::is_span_size;
use fallible_list::NoMemory;
use page_alloc::Pages;
use page_bitmap::Line;

/// Whether a line without page caches may come next, of this or a later cycle than the last; then it is there.
pub(crate) fn follows(pages: &mut Pages, line: Line) -> Result<bool, NoMemory>
    requires cycle { IsBy (cycle_in line) pages.old.past }
    requires blocks { AreOfCycle (cycle_in line) pages.old.past }
    requires legal { IsLegal pages.old }
    ensures { IfOk result (λ yes. MatchBool yes (HasLine pages.old pages.new line) (¬ MayCome pages.old line)) }
{
    match line {
        Line::Take {
            cycle,
            page,
            pages: n,
            class,
        } => takes(pages, cycle, page, n, class),
        Line::Miss {
            cycle,
            pages: n,
            class,
        } => misses(pages, cycle, n, class),
        Line::Give {
            cycle,
            page,
            pages: n,
        } => gives(pages, cycle, page, n),
        Line::Scav {
            cycle,
            page,
            pages: n,
        } => scavenges(pages, cycle, page, n),
        Line::Pull { .. } | Line::Cut { .. } | Line::Drop { .. } => Ok(false),
    }
}

fn takes(pages: &mut Pages, cycle: u32, page: u32, n: u32, class: u8) -> Result<bool, NoMemory>
    requires cycle { IsBy cycle pages.old.past }
    requires blocks { AreOfCycle cycle pages.old.past }
    ensures { IfOk result (λ yes. MatchBool yes (HasLine pages.old pages.new (Take cycle page n class)) (¬ MayCome pages.old (Take cycle page n class))) }
{
    if !is_span_size(n, class) {
        return Ok(false);
    }
    pages.reserve_line()?;
    match pages.take(cycle, n, class) {
        Ok(first) => Ok(first == page),
        Err(_) => Ok(false),
    }
}

fn misses(pages: &mut Pages, cycle: u32, n: u32, class: u8) -> Result<bool, NoMemory>
    requires cycle { IsBy cycle pages.old.past }
    requires blocks { AreOfCycle cycle pages.old.past }
    ensures { IfOk result (λ yes. MatchBool yes (HasLine pages.old pages.new (Miss cycle n class)) (¬ MayCome pages.old (Miss cycle n class))) }
{
    if n == 0 {
        return Ok(false);
    }
    if pages.find(n, &mut 0).is_some() {
        return Ok(false);
    }
    pages.reserve_line()?;
    Ok(pages.take(cycle, n, class).is_err())
}

fn gives(pages: &mut Pages, cycle: u32, page: u32, n: u32) -> Result<bool, NoMemory>
    requires cycle { IsBy cycle pages.old.past }
    requires blocks { AreOfCycle cycle pages.old.past }
    requires legal { IsLegal pages.old }
    ensures { IfOk result (λ yes. MatchBool yes (HasLine pages.old pages.new (Give cycle page n)) (¬ MayCome pages.old (Give cycle page n))) }
{
    if page >= pages.region() || !begins_at(pages, page) {
        return Ok(false);
    }
    pages.give(cycle, page);
    Ok(gave(pages.journal(), n))
}

// Whether a span begins at a page of the region.
fn begins_at(pages: &Pages, page: u32) -> bool
    requires { page < pages.now.region }
    ensures { MatchBool result (owner pages.now.past page ≡ Some page) (owner pages.now.past page ≢ Some page) }
{
    match pages.owner(page) {
        Some(first) => first == page,
        None => false,
    }
}

// Whether the journal's newest line, a Give, gives so many pages.
fn gave(journal: &[Line], n: u32) -> bool
    ensures { (cycle : ℕ) (page : ℕ) (pages : ℕ) (past : List Entry) → past_of journal.now ≡ Give cycle page pages ∷ past → MatchBool result (pages ≡ n) (pages ≢ n) }
{
    match journal.last() {
        Some(Line::Give { pages, .. }) => *pages == n,
        _ => false,
    }
}

fn scavenges(pages: &mut Pages, cycle: u32, page: u32, n: u32) -> Result<bool, NoMemory>
    requires cycle { IsBy cycle pages.old.past }
    requires blocks { AreOfCycle cycle pages.old.past }
    ensures { IfOk result (λ yes. MatchBool yes (HasLine pages.old pages.new (Scav cycle page n)) (¬ MayCome pages.old (Scav cycle page n))) }
{
    pages.reserve_line()?;
    match pages.scavenge(cycle) {
        Some(run) => Ok(run.page == page && run.pages == n),
        None => Ok(false),
    }
}
