//! Five levels of sums over the chunks of a region.

ghost use Rattle.std.specs.Prelude.{◌≡◌, ℕ, ◌+◌, ◌*◌, ◌/◌, ◌^◌, ◌<◌, ◌≤◌, false, length, IfNone, IfOk, IfSome, IsSome};
ghost use Rattle.page_bitmap.specs.Pages.{is_free};
ghost use Rattle.page_summary.specs.Places.{IsInside, IsPlaced};
ghost use Rattle.page_summary.specs.Sums.{AreSums, AreSumsBut, IsSum, max_of};
ghost use Rattle.page_alloc.specs.Levels.{AreRight, AreRightBut};
ghost use Rattle.page_alloc.specs.Region.{HasNoRunIn, IsFirstRunIn, free_in};

use fallible_list::NoMemory;
use page_bitmap::Chunk;
use page_summary::{Place, Sum, descend, merge, rebuild};
use size_classes::{CHUNK_PAGES, MAX_CHUNKS};
use std::alloc::Global;

/// The pages that an entry of each level below the top covers.
const LEVEL_1: u32 = 1 << 18;

const LEVEL_2: u32 = 1 << 15;

const LEVEL_3: u32 = 1 << 12;

const LEVEL_4: u32 = CHUNK_PAGES;

/// Five levels of sums. An entry of a level is the sum of the pages that it covers: 2^21, 2^18, 2^15, 2^12 or 2^9 (a
/// chunk). No page beyond the region is free, and a level ends with the block of eight entries that has the region's
/// last page (`mpagealloc_64bit.go`, `levelShift`).
#[derive(Drop)]
pub(crate) struct Levels {
    top: Sum,
    level_1: Vec<Sum>,
    level_2: Vec<Sum>,
    level_3: Vec<Sum>,
    level_4: Vec<Sum>,
}

impl Levels {
    /// The levels over these chunks.
    pub(crate) fn new(alloc: Global, chunks: &[Chunk]) -> Result<Levels, NoMemory>
        requires some { 1 ≤ length chunks.now }
        requires few { length chunks.now ≤ MAX_CHUNKS }
        ensures { IfOk result (λ levels. AreRight (free_in chunks.now) (length chunks.now) levels) }
    {
        let none = Sum::pack(0, 0, 0);
        let mut levels = Levels {
            top: none,
            level_1: vec![in alloc; none; 8]?,
            level_2: vec![in alloc; none; 8 * chunks.len().div_ceil(512)]?,
            level_3: vec![in alloc; none; 8 * chunks.len().div_ceil(64)]?,
            level_4: vec![in alloc; none; 8 * chunks.len().div_ceil(8)]?,
        };
        levels.update(chunks, 0, chunks.len() - 1);
        Ok(levels)
    }

    /// Makes each entry right that covers one of the chunks from `first` to `last`, level by level from below, once each
    /// (`mpagealloc.go`, `update`).
    pub(crate) fn update(&mut self, chunks: &[Chunk], first: usize, last: usize)
        requires order { first ≤ last }
        requires within { last < length chunks.now }
        requires few { length chunks.now ≤ MAX_CHUNKS }
        requires others { AreRightBut (free_in chunks.now) (length chunks.now) self.old first last }
        ensures { AreRight (free_in chunks.now) (length chunks.now) self.new }
    {
        refresh(self.level_4.as_mut_slice(), chunks, first, last);
        rebuild(
            self.level_3.as_mut_slice(),
            self.level_4.as_slice(),
            9,
            first / 8,
            last / 8,
        );
        rebuild(
            self.level_2.as_mut_slice(),
            self.level_3.as_slice(),
            12,
            first / 64,
            last / 64,
        );
        rebuild(
            self.level_1.as_mut_slice(),
            self.level_2.as_slice(),
            15,
            first / 512,
            last / 512,
        );
        self.top = merge(self.level_1.as_slice(), 18);
    }

    /// The first page of the lowest run of `n` free pages, where no page below `search` is free. It looks at the entry at
    /// the top, at eight of each other level and at eight words of a chunk at most, and raises the counter by one for each
    /// (`mpagealloc.go`, `find`).
    pub(crate) fn find(&self, chunks: &[Chunk], search: u32, n: u32, steps: &mut u64) -> Option<u32>
        // the chunks, and the levels
        requires few { length chunks.now ≤ MAX_CHUNKS }
        requires levels { AreRight (free_in chunks.now) (length chunks.now) self.now }

        // the run that is looked for
        requires taken { (p : ℕ) → p < search → free_in chunks.now p ≡ false }
        requires some { 1 ≤ n }

        // the counter
        requires room { steps.old ≤ 2 ^ 63 }

        // the answer
        ensures found { IfSome result (IsFirstRunIn (free_in chunks.now) (512 * length chunks.now) n) }
        ensures none { IfNone result (HasNoRunIn (free_in chunks.now) (512 * length chunks.now) n) }

        // the counter behind it
        ensures steps { (steps.old < steps.new) × (steps.new ≤ steps.old + 41) }
    {
        *steps += 1;
        if self.top.max() < n {
            return None;
        }
        let place = Place::Entry(0);
        let place = descend(
            self.level_1.as_slice(),
            LEVEL_1,
            place,
            search / LEVEL_1,
            n,
            steps,
        );
        let place = descend(
            self.level_2.as_slice(),
            LEVEL_2,
            place,
            search / LEVEL_2,
            n,
            steps,
        );
        self.find_below(chunks, place, search, n, steps)
    }

    /// The same from the place on that the level of 2^15 pages an entry showed: it looks at the two levels below and at a
    /// chunk.
    fn find_below(
        &self,
        chunks: &[Chunk],
        place: Place,
        search: u32,
        n: u32,
        steps: &mut u64,
    ) -> Option<u32>
        // the chunks, and the levels
        requires few { length chunks.now ≤ MAX_CHUNKS }
        requires levels { AreRight (free_in chunks.now) (length chunks.now) self.now }

        // the run that is looked for
        requires taken { (p : ℕ) → p < search → free_in chunks.now p ≡ false }
        requires some { 1 ≤ n }
        requires placed { IsPlaced (free_in chunks.now) (2 ^ 21) (2 ^ 15) n place }

        // the counter
        requires room { steps.old + 24 < 2 ^ 64 }

        // the answer
        ensures found { IfSome result (IsFirstRunIn (free_in chunks.now) (512 * length chunks.now) n) }
        ensures none { IfNone result (HasNoRunIn (free_in chunks.now) (512 * length chunks.now) n) }

        // the counter behind it
        ensures steps { (steps.old ≤ steps.new) × (steps.new ≤ steps.old + 24) }
    {
        let place = descend(
            self.level_3.as_slice(),
            LEVEL_3,
            place,
            search / LEVEL_3,
            n,
            steps,
        );
        let place = descend(
            self.level_4.as_slice(),
            LEVEL_4,
            place,
            search / LEVEL_4,
            n,
            steps,
        );
        match place {
            Place::Page(page) => Some(page),
            Place::Entry(index) => first_run(chunks, index, n, steps),
            Place::Nowhere => None,
        }
    }

    /// The pages of the longest run of free pages.
    pub(crate) fn longest(&self) -> u32
        ensures { result ≡ max_of self.now.top }
    {
        self.top.max()
    }
}

/// The sum of a chunk's pages.
fn sum_of(chunk: &Chunk) -> Sum
    ensures { IsSum (is_free chunk.now) 512 result }
{
    let (start, max, end) = chunk.sums();
    Sum::pack(start, max, end)
}

/// Makes the entries of the chunks from `first` to `last` the sums of their pages.
fn refresh(level: &mut [Sum], chunks: &[Chunk], first: usize, last: usize)
    requires within { last < length chunks.now }
    requires room { length chunks.now ≤ length level.old }
    requires others { AreSumsBut (free_in chunks.now) 512 level.old first (last + 1) }
    ensures { AreSums (free_in chunks.now) 512 level.new }
{
    for index in first..last + 1 {
        level[index] = sum_of(&chunks[index]);
    }
}

/// The first run of `n` free pages that begins in the chunk with this number, which has one. It reads the chunk's words up
/// to the run's end, and raises the counter by one for each.
fn first_run(chunks: &[Chunk], index: u32, n: u32, steps: &mut u64) -> Option<u32>
    // the chunk
    requires chunk { index < length chunks.now }
    requires few { length chunks.now ≤ MAX_CHUNKS }

    // the run in it
    requires some { 1 ≤ n }
    requires inside { IsInside (free_in chunks.now) (2 ^ 21) (512 * index) 512 n }

    // the counter
    requires room { steps.old + 8 < 2 ^ 64 }

    // the answer
    ensures found { IfSome result (IsFirstRunIn (free_in chunks.now) (2 ^ 21) n) }
    ensures some { IsSome result }

    // the counter behind it
    ensures steps { (steps.old ≤ steps.new) × (steps.new ≤ steps.old + 8) }
{
    let page = chunks[index as usize].find(n, 0)?;
    *steps += u64::from((page + n - 1) / 64 + 1);
    Some(CHUNK_PAGES * index + page)
}
