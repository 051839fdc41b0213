//! Scavenging steps over a whole region.

ghost use Rattle.std.specs.Prelude.{[], ◌≡◌, ◌≤◌};
ghost use Rattle.page_alloc.specs.Blocks.{open_blocks};
ghost use Rattle.page_alloc.specs.Journal.{IsBy};

use crate::pages::steps::give;
use fallible_list::NoMemory;
use page_alloc::Pages;
use std::alloc::Global;

const CHUNKS: u32 = 128;

const PAGES: u32 = 512 * CHUNKS;

/// Takes all pages as one span, and gives them back.
fn refill(pages: &mut Pages, live: &mut Vec<u32>) -> Result<(), NoMemory>
    requires by { IsBy 0 pages.old.past }
    requires blocks { open_blocks pages.old.past ≡ [] }
    requires region { 65536 ≤ pages.old.region }
    ensures by { IsBy 0 pages.new.past }
    ensures blocks { open_blocks pages.new.past ≡ [] }
    ensures region { pages.new.region ≡ pages.old.region }
{
    pages.reserve_line()?;
    live.reserve(1)?;
    if let Ok(page) = pages.take(0, PAGES, 1) {
        live.push(page)?;
        give(pages, live, 0);
    }
    Ok(())
}

/// Makes scavenging steps until one releases nothing, and counts the runs.
fn release(pages: &mut Pages) -> Result<u64, NoMemory>
    requires by { IsBy 0 pages.old.past }
    requires blocks { open_blocks pages.old.past ≡ [] }
    ensures by { IsBy 0 pages.new.past }
    ensures blocks { open_blocks pages.new.past ≡ [] }
    ensures region { pages.new.region ≡ pages.old.region }
{
    for run in 0..u64::from(PAGES) {
        pages.reserve_line()?;
        if pages.scavenge(0).is_none() {
            return Ok(run);
        }
    }
    Ok(u64::from(PAGES))
}

/// Releases all pages where it is asked to, and counts the runs.
fn release_if(pages: &mut Pages, releases: bool) -> Result<u64, NoMemory>
    requires by { IsBy 0 pages.old.past }
    requires blocks { open_blocks pages.old.past ≡ [] }
    ensures by { IsBy 0 pages.new.past }
    ensures blocks { open_blocks pages.new.past ≡ [] }
    ensures region { pages.new.region ≡ pages.old.region }
{
    if releases { release(pages) } else { Ok(0) }
}

/// Takes all pages and gives them back so many times, and each time releases them too where it is asked to. The answer is the
/// number of runs that were released.
pub fn rounds(alloc: Global, calls: u64, releases: bool) -> Result<u64, NoMemory> {
    let mut pages = Pages::new(alloc, CHUNKS, 0)?;
    let mut live = Vec::new(alloc);
    let mut runs = 0u64;
    for _ in 0..calls {
        refill(&mut pages, &mut live)?;
        runs = runs.wrapping_add(release_if(&mut pages, releases)?);
    }
    Ok(runs)
}
