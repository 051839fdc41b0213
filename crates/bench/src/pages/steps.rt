//! Takes and gives of mixed sizes.

ghost use Rattle.std.specs.Prelude.{[], ◌≡◌, ◌≤◌, ◌<◌};
ghost use Rattle.page_alloc.specs.FreeRuns.{IsSpanSize};
ghost use Rattle.page_alloc.specs.Blocks.{open_blocks};
ghost use Rattle.page_alloc.specs.Journal.{IsBy};

use fallible_list::NoMemory;
use page_alloc::Pages;
use size_classes::span_pages;

/// The pages and the span class of the span that a random word asks for: one of the small classes, or one
/// time in sixteen a large span of 5 to 68 pages.
pub fn size_of(word: u32) -> (u32, u8)
    ensures some { 1 ≤ result.0 }
    ensures size { IsSpanSize result.1 result.0 }
{
    if word % 16 == 0 {
        (5 + word / 16 % 64, 1)
    } else {
        let class = (1 + word / 16 % 67) as u8;
        (span_pages(class), 2 * class)
    }
}

/// Takes a span of a random size, and notes its first page: None where no run was free.
pub fn take(pages: &mut Pages, live: &mut Vec<u32>, word: u32) -> Result<Option<u32>, NoMemory>
    requires by { IsBy 0 pages.old.past }
    requires blocks { open_blocks pages.old.past ≡ [] }
    ensures by { IsBy 0 pages.new.past }
    ensures blocks { open_blocks pages.new.past ≡ [] }
    ensures region { pages.new.region ≡ pages.old.region }
{
    let (n, class) = size_of(word);
    take_sized(pages, live, n, class)
}

/// Takes a span of one page, and notes its first page: None where no page was free.
pub fn take_one(pages: &mut Pages, live: &mut Vec<u32>) -> Result<Option<u32>, NoMemory>
    requires by { IsBy 0 pages.old.past }
    requires blocks { open_blocks pages.old.past ≡ [] }
    ensures by { IsBy 0 pages.new.past }
    ensures blocks { open_blocks pages.new.past ≡ [] }
    ensures region { pages.new.region ≡ pages.old.region }
{
    take_sized(pages, live, span_pages(1), 2)
}

fn take_sized(
    pages: &mut Pages,
    live: &mut Vec<u32>,
    n: u32,
    class: u8,
) -> Result<Option<u32>, NoMemory>
    // the pages
    requires by { IsBy 0 pages.old.past }
    requires blocks { open_blocks pages.old.past ≡ [] }

    // the span
    requires some { 1 ≤ n }
    requires size { IsSpanSize class n }

    // the pages behind it
    ensures by { IsBy 0 pages.new.past }
    ensures blocks { open_blocks pages.new.past ≡ [] }
    ensures region { pages.new.region ≡ pages.old.region }
{
    pages.reserve_line()?;
    live.reserve(1)?;
    match pages.take(0, n, class) {
        Ok(page) => {
            live.push(page)?;
            Ok(Some(page))
        }
        Err(_) => Ok(None),
    }
}

/// Gives back a random one of the spans that were noted: None where none is left.
pub fn give(pages: &mut Pages, live: &mut Vec<u32>, word: u32) -> Option<u32>
    requires by { IsBy 0 pages.old.past }
    requires blocks { open_blocks pages.old.past ≡ [] }
    requires region { 65536 ≤ pages.old.region }
    ensures by { IsBy 0 pages.new.past }
    ensures blocks { open_blocks pages.new.past ≡ [] }
    ensures region { pages.new.region ≡ pages.old.region }
{
    if live.is_empty() {
        return None;
    }
    let index = word as usize % live.len();
    let page = live.swap_remove(index);
    if page >= 65536 || pages.owner(page) != Some(page) {
        return None;
    }
    pages.give(0, page);
    Some(page)
}
