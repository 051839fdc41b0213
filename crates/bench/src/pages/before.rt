//! The search that stood before the levels of sums: chunk by chunk, from the first one that has a free page. It takes and
//! gives runs of pages alone, without a journal or spans.

ghost use Rattle.std.specs.Prelude.{◌≤◌};

use crate::pages::steps::size_of;
use fallible_list::NoMemory;
use page_bitmap::Bitmap;
use rand_core::utils::NextWord;
use rand_pcg::Pcg32;
use std::alloc::Global;

const CHUNKS: u32 = 128;

const PAGES: u32 = 512 * CHUNKS;

/// Which pages are free, and which are scavenged, one map a chunk.
#[derive(Drop)]
struct Before {
    free: Vec<Bitmap>,
    scavenged: Vec<Bitmap>,
    // So many chunks at the front have no free page.
    full: u32,
    taken: u32,
}

/// The free pages at a chunk's front, in its longest run and at its back.
fn sums(map: &Bitmap) -> (u32, u32, u32)
    ensures { result.1 ≤ 512 }
{
    (map.front_run(), map.longest_run(), map.back_run())
}

impl Before {
    fn new(alloc: Global) -> Result<Before, NoMemory> {
        Ok(Before {
            free: vec![in alloc; Bitmap::full(); CHUNKS as usize]?,
            scavenged: vec![in alloc; Bitmap::full(); CHUNKS as usize]?,
            full: 0,
            taken: 0,
        })
    }

    /// The first page of the lowest run of `n` free pages.
    fn find(&self, n: u32) -> Option<u32>
        requires { 1 ≤ n }
    {
        let mut back = 0u32;
        for index in self.full..CHUNKS {
            let map = self.free.get(index as usize)?;
            let base = 512 * index;
            let (start, max, end) = sums(map);
            if n <= back.saturating_add(start) {
                return Some(base.saturating_sub(back));
            }
            if n <= max {
                let page = map.first_run(n, 0)?;
                return Some(base.saturating_add(page));
            }
            back = if end == 512 {
                back.saturating_add(end)
            } else {
                end
            };
        }
        None
    }

    /// How many chunks at the front have no free page.
    fn full_chunks(&self) -> u32 {
        for index in self.full..CHUNKS {
            if let Some(map) = self.free.get(index as usize) {
                let (_, max, _) = sums(map);
                if max > 0 {
                    return index;
                }
            }
        }
        CHUNKS
    }

    fn take(&mut self, n: u32) -> Option<u32>
        requires { 1 ≤ n }
    {
        let page = self.find(n)?;
        set(self.free.as_mut_slice(), page, n, false);
        set(self.scavenged.as_mut_slice(), page, n, false);
        self.full = self.full_chunks();
        self.taken = self.taken.saturating_add(n);
        Some(page)
    }

    fn give(&mut self, page: u32, n: u32) {
        set(self.free.as_mut_slice(), page, n, true);
        self.full = self.full.min(page / 512);
        self.taken = self.taken.saturating_sub(n);
    }
}

/// Puts the `n` pages from `page` on in or out of the maps.
fn set(maps: &mut [Bitmap], page: u32, n: u32, value: bool) {
    let end = page.saturating_add(n);
    for index in page / 512..end.div_ceil(512) {
        let base = index.saturating_mul(512);
        let high = end.saturating_sub(base).min(512);
        let low = page.saturating_sub(base).min(high);
        if let Some(map) = maps.get_mut(index as usize) {
            map.set_run(low, high - low, value);
        }
    }
}

/// Takes a run of a random size, and notes it.
fn take(before: &mut Before, live: &mut Vec<(u32, u32)>, word: u32) -> Result<u32, NoMemory> {
    let (n, _) = size_of(word);
    match before.take(n) {
        Some(page) => {
            live.push((page, n))?;
            Ok(page)
        }
        None => Ok(PAGES),
    }
}

/// Gives back a random one of the runs that were noted.
fn give(before: &mut Before, live: &mut Vec<(u32, u32)>, word: u32) -> u32 {
    if live.is_empty() {
        return PAGES;
    }
    let index = word as usize % live.len();
    let (page, n) = live.swap_remove(index);
    before.give(page, n);
    page
}

/// Fills a percentage of the pages, and then gives and takes in turn.
fn churned(
    alloc: Global,
    percent: u32,
    calls: u64,
    words: &mut Pcg32,
) -> Result<(Before, u64), NoMemory> {
    let mut before = Before::new(alloc)?;
    let mut live = Vec::new(alloc);
    for _ in 0..PAGES {
        if u64::from(before.taken).saturating_mul(100) >= u64::from(PAGES) * u64::from(percent) {
            break;
        }
        take(&mut before, &mut live, words.next_word())?;
    }
    let mut sum = 0u64;
    for _ in 0..calls / 2 {
        let given = give(&mut before, &mut live, words.next_word());
        let taken = take(&mut before, &mut live, words.next_word())?;
        sum = sum.wrapping_add(u64::from(given));
        sum = sum.wrapping_add(u64::from(taken));
    }
    Ok((before, sum))
}

/// The same as `churn` of the levels.
pub fn churn(alloc: Global, percent: u32, calls: u64) -> Result<u64, NoMemory> {
    let mut words = Pcg32::new(1, 1);
    let (_, sum) = churned(alloc, percent, calls, &mut words)?;
    Ok(sum)
}

/// The same as `finds` of the levels.
pub fn finds(alloc: Global, percent: u32, calls: u64) -> Result<u64, NoMemory> {
    let mut words = Pcg32::new(1, 1);
    let (before, mut sum) = churned(alloc, percent, crate::pages::churn::MIXED, &mut words)?;
    for _ in 0..calls {
        let (n, _) = size_of(words.next_word());
        sum = sum.wrapping_add(u64::from(before.find(n).unwrap_or(PAGES)));
    }
    Ok(sum)
}

/// The same as `last` of the levels.
pub fn last(alloc: Global, calls: u64) -> Result<u64, NoMemory> {
    let mut before = Before::new(alloc)?;
    let mut sum = u64::from(before.take(PAGES - 1).unwrap_or(PAGES));
    for _ in 0..calls {
        let n = 1 + (sum >> 63) as u32;
        sum = sum.wrapping_add(u64::from(before.find(n).unwrap_or(PAGES)));
    }
    Ok(sum)
}

/// The same as `ends` of the levels.
pub fn ends(alloc: Global, calls: u64) -> Result<u64, NoMemory> {
    let mut before = Before::new(alloc)?;
    let mut sum = u64::from(before.take(PAGES - 1).unwrap_or(PAGES));
    for _ in 0..calls / 2 {
        let page = before.take(1).unwrap_or(PAGES);
        before.give(page, 1);
        sum = sum.wrapping_add(2 * u64::from(page));
    }
    Ok(sum)
}
