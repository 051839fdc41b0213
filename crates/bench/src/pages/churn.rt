//! What is timed.

ghost use Rattle.std.specs.Prelude.{[], ◌≡◌, IfOk};
ghost use Rattle.page_alloc.specs.Blocks.{open_blocks};
ghost use Rattle.page_alloc.specs.Journal.{IsBy};

use crate::pages::steps::{give, size_of, take, take_one};
use fallible_list::NoMemory;
use page_alloc::Pages;
use rand_core::utils::NextWord;
use rand_pcg::Pcg32;
use std::alloc::Global;

/// The chunks and the pages of the largest region.
const CHUNKS: u32 = 128;

const PAGES: u32 = 512 * CHUNKS;

/// The takes and gives that mix the pages before searches are timed.
pub const MIXED: u64 = 100_000;

/// Fills a percentage of the pages, and then gives and takes in turn.
fn churned(
    alloc: Global,
    percent: u32,
    calls: u64,
    words: &mut Pcg32,
) -> Result<(Pages, u64), NoMemory>
    ensures by { IfOk result (λ done. IsBy 0 done.0.past) }
    ensures blocks { IfOk result (λ done. open_blocks done.0.past ≡ []) }
    ensures region { IfOk result (λ done. done.0.region ≡ 65536) }
{
    let mut pages = Pages::new(alloc, CHUNKS, PAGES)?;
    let mut live = Vec::new(alloc);
    for _ in 0..PAGES {
        if u64::from(pages.taken()) * 100 >= u64::from(PAGES) * u64::from(percent) {
            break;
        }
        take(&mut pages, &mut live, words.next_word())?;
    }
    let mut sum = 0u64;
    for _ in 0..calls / 2 {
        let given = give(&mut pages, &mut live, words.next_word());
        let taken = take(&mut pages, &mut live, words.next_word())?;
        sum = sum.wrapping_add(u64::from(given.unwrap_or(PAGES)));
        sum = sum.wrapping_add(u64::from(taken.unwrap_or(PAGES)));
    }
    Ok((pages, sum))
}

/// Takes and gives, where a percentage of the pages is taken.
pub fn churn(alloc: Global, percent: u32, calls: u64) -> Result<u64, NoMemory> {
    let mut words = Pcg32::new(1, 1);
    let (_, sum) = churned(alloc, percent, calls, &mut words)?;
    Ok(sum)
}

/// Searches for runs of random sizes, where a percentage of the pages is taken.
pub fn finds(alloc: Global, percent: u32, calls: u64) -> Result<u64, NoMemory> {
    let mut words = Pcg32::new(1, 1);
    let (pages, mut sum) = churned(alloc, percent, MIXED, &mut words)?;
    for _ in 0..calls {
        let (n, _) = size_of(words.next_word());
        let page = pages.find(n, &mut 0);
        sum = sum.wrapping_add(u64::from(page.unwrap_or(PAGES)));
    }
    Ok(sum)
}

/// Takes all pages but the last one, and then looks for one page. How many pages a search looks for stands in the
/// sum before it, so that none can begin early.
pub fn last(alloc: Global, calls: u64) -> Result<u64, NoMemory> {
    let mut pages = Pages::new(alloc, CHUNKS, PAGES)?;
    pages.reserve_line()?;
    let mut sum = u64::from(pages.take(0, PAGES - 1, 0).unwrap_or(PAGES));
    for _ in 0..calls {
        let n = 1 + (sum >> 63) as u32;
        let page = pages.find(n, &mut 0);
        sum = sum.wrapping_add(u64::from(page.unwrap_or(PAGES)));
    }
    Ok(sum)
}

/// Takes all pages but the last one, and then takes that one and gives it back in turn.
pub fn ends(alloc: Global, calls: u64) -> Result<u64, NoMemory> {
    let mut pages = Pages::new(alloc, CHUNKS, PAGES)?;
    pages.reserve_line()?;
    let mut sum = u64::from(pages.take(0, PAGES - 1, 0).unwrap_or(PAGES));
    let mut live = Vec::new(alloc);
    for _ in 0..calls / 2 {
        let taken = take_one(&mut pages, &mut live)?;
        let given = give(&mut pages, &mut live, 0);
        sum = sum.wrapping_add(u64::from(taken.unwrap_or(PAGES)));
        sum = sum.wrapping_add(u64::from(given.unwrap_or(PAGES)));
    }
    Ok(sum)
}
