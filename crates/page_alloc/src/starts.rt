//! The pages of a region at which a span begins, one bitmap a chunk.

ghost use Rattle.std.specs.Prelude.{◌≡◌, ℕ, ◌*◌, ◌<◌, ◌≤◌, false, length, IfNone, IfSome};
ghost use Rattle.page_bitmap.specs.Runs.{SetsRun};
ghost use Rattle.page_alloc.specs.Region.{IsLastIn, pages_in};

use page_bitmap::Bitmap;
use size_classes::CHUNK_PAGES;

/// Says of a page whether it is the first of a span.
pub(crate) fn mark_start(starts: &mut [Bitmap], page: u32, begins: bool)
    requires { page < 512 * length starts.old }
    ensures { SetsRun (pages_in starts.old) (pages_in starts.new) page 1 begins }
{
    starts[(page / CHUNK_PAGES) as usize].set_run(page % CHUNK_PAGES, 1, begins);
}

/// The last page at or below this one at which a span begins.
pub(crate) fn last_start(starts: &[Bitmap], page: u32) -> Option<u32>
    requires { page < 512 * length starts.now }
    ensures found { IfSome result (IsLastIn (pages_in starts.now) page) }
    ensures none { IfNone result ((p : ℕ) → p ≤ page → pages_in starts.now p ≡ false) }
{
    let mut end = page % CHUNK_PAGES + 1;
    for index in (0..page / CHUNK_PAGES + 1).rev() {
        if let Some(first) = starts[index as usize].last_below(end) {
            return Some(CHUNK_PAGES * index + first);
        }
        end = CHUNK_PAGES;
    }
    None
}
