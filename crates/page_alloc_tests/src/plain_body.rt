//! Random takes, gives and scavenging steps on three chunks, against a body that goes page by page.

ghost use Rattle.std.specs.Prelude.{[], ◌≡◌, ◌<◌, ◌≤◌};
ghost use Rattle.page_alloc.specs.FreeRuns.{IsSpanSize};
ghost use Rattle.page_alloc.specs.Blocks.{open_blocks};
ghost use Rattle.page_alloc.specs.Journal.{IsBy};

use page_alloc::Pages;
use page_bitmap::Run;
use rand_core::utils::NextWord;
use rand_pcg::Pcg32;
use size_classes::span_pages;
use std::process::Abort;
use std::test::Fail;

/// The pages of three chunks.
pub(crate) const PAGES: u32 = 1536;

/// The goal for backed pages.
pub(crate) const GOAL: u32 = 700;

/// The pages and the span class of the span that a random word asks for: one of the small classes, or one
/// time in sixteen a large span of 5 to 68 pages.
pub(crate) fn size_of(word: u32) -> (u32, u8)
    ensures some { 1 ≤ result.0 }
    ensures size { IsSpanSize result.1 result.0 }
{
    if word % 16 == 0 {
        (5 + word / 16 % 64, 1)
    } else {
        let class = (1 + word / 16 % 67) as u8;
        (span_pages(class), 2 * class)
    }
}

/// The first page from which `n` pages are free, with the length of the longest free run.
pub(crate) fn search(owners: &[Option<u32>], n: u32) -> (Option<u32>, u32) {
    let mut first = None;
    let mut longest = 0u32;
    let mut run = 0u32;
    let mut end = 0u32;
    for owner in owners {
        end = end.saturating_add(1);
        run = if owner.is_none() {
            run.saturating_add(1)
        } else {
            0
        };
        longest = longest.max(run);
        if run == n && first.is_none() {
            first = Some(end.saturating_sub(n));
        }
    }
    (first, longest)
}

/// The run of a scavenging step, and the number of backed pages.
pub(crate) fn loose(owners: &[Option<u32>], backed: &[bool]) -> (Option<Run>, u32) {
    let mut top: Option<Run> = None;
    let mut count = 0u32;
    let mut page = 0u32;
    for (owner, is_backed) in owners.iter().zip(backed) {
        if *is_backed {
            count = count.saturating_add(1);
        }
        if *is_backed && owner.is_none() {
            top = Some(longer(top, page));
        }
        page = page.saturating_add(1);
    }
    (top.map(last_pages), count)
}

/// The run with one page more where the page directly follows it in its chunk, otherwise a new one.
fn longer(top: Option<Run>, page: u32) -> Run {
    match top {
        Some(run) if page % 512 != 0 && run.page.saturating_add(run.pages) == page => Run {
            page: run.page,
            pages: run.pages.saturating_add(1),
        },
        _ => Run { page, pages: 1 },
    }
}

/// At most the last 64 pages of a run.
fn last_pages(run: Run) -> Run {
    let cut = run.pages.saturating_sub(64);
    Run {
        page: run.page.saturating_add(cut),
        pages: run.pages.min(64),
    }
}

/// Writes a value for each page of a run.
pub(crate) fn fill<T: Copy>(items: &mut [T], run: Run, value: T) {
    for item in items
        .iter_mut()
        .skip(run.page as usize)
        .take(run.pages as usize)
    {
        *item = value;
    }
}

/// How many pages have this owner.
pub(crate) fn count(owners: &[Option<u32>], first: u32) -> u32 {
    let mut pages = 0u32;
    for owner in owners {
        if *owner == Some(first) {
            pages = pages.saturating_add(1);
        }
    }
    pages
}

/// A take of a random size, and the same of the plain body.
pub(crate) fn take_some(
    rt: &impl Abort,
    pages: &mut Pages,
    owners: &mut [Option<u32>],
    backed: &mut [bool],
    word: u32,
) -> Result<(), Fail>
    requires by { IsBy 0 pages.old.past }
    requires blocks { open_blocks pages.old.past ≡ [] }
    requires region { pages.old.region ≡ 1536 }
    ensures by { IsBy 0 pages.new.past }
    ensures blocks { open_blocks pages.new.past ≡ [] }
    ensures region { pages.new.region ≡ 1536 }
{
    pages.reserve_line()?;
    let (n, class) = size_of(word);
    let (first, _) = search(owners, n);
    assert_eq!(rt; pages.find(n, &mut 0), first, "find {n}");
    assert_eq!(rt; pages.take(0, n, class).ok(), first, "take {n}");
    if let Some(page) = first {
        fill(owners, Run { page, pages: n }, Some(page));
        fill(backed, Run { page, pages: n }, true);
    }
    Ok(())
}

/// A give of the span that has a page, and the same of the plain body.
pub(crate) fn give_one(
    rt: &impl Abort,
    pages: &mut Pages,
    owners: &mut [Option<u32>],
    page: u32,
) -> Result<(), Fail>
    // the region, in cycle 0 and without open blocks
    requires by { IsBy 0 pages.old.past }
    requires blocks { open_blocks pages.old.past ≡ [] }
    requires region { pages.old.region ≡ 1536 }

    // the page
    requires page { page < 1536 }

    // the region behind it
    ensures by { IsBy 0 pages.new.past }
    ensures blocks { open_blocks pages.new.past ≡ [] }
    ensures region { pages.new.region ≡ 1536 }
{
    pages.reserve_line()?;
    let first = pages.owner(page);
    assert_eq!(rt;
        Some(first),
        owners.get(page as usize).copied(),
        "owner of {page}"
    );
    if let Some(first) = first
        && first < PAGES
        && pages.owner(first) == Some(first)
    {
        let run = Run {
            page: first,
            pages: count(owners, first),
        };
        pages.give(0, first);
        fill(owners, run, None);
    }
    Ok(())
}

/// One random call, and the same of the plain body.
fn step(
    rt: &impl Abort,
    pages: &mut Pages,
    owners: &mut [Option<u32>],
    backed: &mut [bool],
    word: u32,
) -> Result<(), Fail>
    requires by { IsBy 0 pages.old.past }
    requires blocks { open_blocks pages.old.past ≡ [] }
    requires region { pages.old.region ≡ 1536 }
    ensures by { IsBy 0 pages.new.past }
    ensures blocks { open_blocks pages.new.past ≡ [] }
    ensures region { pages.new.region ≡ 1536 }
{
    match word % 8 {
        0..4 => take_some(rt, pages, owners, backed, word / 8),
        4..7 => give_one(rt, pages, owners, word / 8 % PAGES),
        _ => {
            pages.reserve_line()?;
            let (top, count) = loose(owners, backed);
            let top = if count > GOAL { top } else { None };
            assert_eq!(rt; pages.scavenge(0), top, "scavenge");
            if let Some(run) = top {
                fill(backed, run, false);
            }
            Ok(())
        }
    }
}

#[test]
fn random_calls_are_those_of_a_plain_body(rt: HostRuntime) -> Result<(), Fail> {
    let alloc = rt.alloc();
    let mut pages = Pages::new(alloc, 3, GOAL)?;
    let mut owners = vec![in alloc; None; PAGES as usize]?;
    let mut backed = vec![in alloc; false; PAGES as usize]?;
    let mut words = Pcg32::new(7, 1);
    for _ in 0..4000 {
        step(
            &rt,
            &mut pages,
            owners.as_mut_slice(),
            backed.as_mut_slice(),
            words.next_word(),
        )?;
        let (_, longest) = search(owners.as_slice(), 1);
        let (_, count) = loose(owners.as_slice(), backed.as_slice());
        assert_eq!(rt; (pages.longest_free(), pages.backed()), (longest, count));
    }
    let owned = owners.iter().filter(|owner| owner.is_some()).count();
    assert_eq!(rt; pages.taken() as usize, owned);
    Ok(())
}
