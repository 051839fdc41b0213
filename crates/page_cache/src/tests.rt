//! Cuts of blocks worked out by hand, and random ones against a body that goes page by page.

use crate::{Block, CutNote, PageCache};
use std::process::Abort;

/// Cuts of so many pages, and their answers.
type Cuts = &'static [(u32, Option<u32>)];

/// A block, the cuts that are tried in turn, and what is left of the block.
#[derive(Clone, Copy)]
struct Row {
    page: u32,
    free: u64,
    cuts: Cuts,
    left: u64,
}

const ROWS: &[Row] = &[
    // a whole block: four cuts of 15 pages leave 4
    Row {
        page: 0,
        free: u64::MAX,
        cuts: &[
            (15, Some(0)),
            (15, Some(15)),
            (15, Some(30)),
            (15, Some(45)),
            (15, None),
            (5, None),
            (4, Some(60)),
            (1, None),
        ],
        left: 0,
    },
    // the pages 65 and 66, and 68 to 70
    Row {
        page: 64,
        free: 0b0111_0110,
        cuts: &[(4, None), (3, Some(68)), (2, Some(65)), (1, None)],
        left: 0,
    },
    // the first run that fits, and not the one that fits best
    Row {
        page: 128,
        free: 0b1101_1111,
        cuts: &[
            (2, Some(128)),
            (2, Some(130)),
            (2, Some(134)),
            (2, None),
            (1, Some(132)),
        ],
        left: 0,
    },
    // the last page of all
    Row {
        page: 4294967232,
        free: 1 << 63,
        cuts: &[(2, None), (1, Some(4294967295)), (1, None)],
        left: 0,
    },
    // no page, and every second one
    Row {
        page: 640,
        free: 0,
        cuts: &[(1, None), (15, None)],
        left: 0,
    },
    Row {
        page: 640,
        free: 0x5555_5555_5555_5555,
        cuts: &[(2, None), (1, Some(640)), (1, Some(642))],
        left: 0x5555_5555_5555_5550,
    },
    // 15 and 14 pages at the back
    Row {
        page: 64,
        free: 0xFFFE_0000_0000_0000,
        cuts: &[(15, Some(113)), (1, None)],
        left: 0,
    },
    Row {
        page: 64,
        free: 0xFFFC_0000_0000_0000,
        cuts: &[(15, None), (14, Some(114))],
        left: 0,
    },
    // runs of 8, 7 and 9 pages, with one page between them
    Row {
        page: 0,
        free: 0b11_1111_1110_1111_1110_1111_1111,
        cuts: &[
            (9, Some(17)),
            (7, Some(0)),
            (7, Some(9)),
            (2, None),
            (1, Some(7)),
        ],
        left: 0,
    },
];

/// Tries a row's cuts; the span class of each is the number of its pages.
fn play(rt: &impl Abort, row: Row) {
    assert!(rt; row.page % 64 == 0);
    let mut cache = PageCache::new(3);
    cache.fill(Block {
        page: row.page,
        free: row.free,
    });
    for &(n, want) in row.cuts {
        assert!(rt; 1 <= n && n < 16);
        assert_eq!(rt; cache.cut(n, n as u8), want, "{n} pages of {}", row.page);
    }
    let left = Block {
        page: row.page,
        free: row.left,
    };
    assert_eq!(rt; cache.block(), Some(left));
    let made = row
        .cuts
        .iter()
        .filter_map(|&(n, want)| want.map(|page| (page, n)));
    let noted = cache.cuts().iter().map(|cut| (cut.page, cut.pages));
    assert!(rt; noted.eq(made), "the cuts of {}", row.page);
}

#[test]
fn blocks_by_hand(rt: HostRuntime) {
    for row in ROWS {
        play(&rt, *row);
    }
}

// A whole block makes 64 cuts of one page.
#[test]
fn most_cuts(rt: HostRuntime) {
    let mut cache = PageCache::new(0);
    assert_eq!(rt; cache.cut(1, 5), None);
    cache.fill(Block {
        page: 192,
        free: u64::MAX,
    });
    for page in 192..256 {
        assert_eq!(rt; cache.cut(1, 5), Some(page));
    }
    assert_eq!(rt; cache.cut(1, 5), None);
    assert_eq!(rt; cache.cuts().len(), 64);
    assert_eq!(rt;
        cache.cuts().last(),
        Some(&CutNote {
            page: 255,
            pages: 1,
            class: 5,
        })
    );
    cache.clear();
    assert_eq!(rt; (cache.block(), cache.cuts().len()), (None, 0));
    assert_eq!(rt; (cache.cut(1, 5), cache.proc()), (None, 0));
}

// A block has pages of its 64 alone.
#[test]
fn pages_of_a_block(rt: HostRuntime) {
    let block = Block {
        page: 128,
        free: 1 | 1 << 5 | 1 << 63,
    };
    assert_eq!(rt; block.count(), 3);
    for page in 0..512 {
        let wanted = page == 128 || page == 133 || page == 191;
        assert_eq!(rt; block.has(page), wanted, "page {page}");
    }
}

/// The next of a row of random words (Knuth's MMIX generator), whose high half is the better one.
fn next_word(words: &mut u64) -> u64 {
    *words = words
        .wrapping_mul(6364136223846793005)
        .wrapping_add(1442695040888963407);
    *words
}

/// A random word of 64 bits, about three quarters of them ones.
fn many_ones(words: &mut u64) -> u64 {
    let low = next_word(words) >> 32;
    let high = next_word(words) >> 32 << 32;
    let more = next_word(words) >> 32;
    low | high | more | more << 32
}

/// The place from which `n` of the places are free, found one by one.
fn plain_run(free: &[bool], n: u32) -> Option<u32> {
    let mut run = 0u32;
    let mut end = 0u32;
    for is_free in free {
        end = end.saturating_add(1);
        run = if *is_free { run.saturating_add(1) } else { 0 };
        if run == n {
            return Some(end.saturating_sub(n));
        }
    }
    None
}

/// Takes the places of a run.
fn plain_take(free: &mut [bool], place: u32, n: u32) {
    for is_free in free.iter_mut().skip(place as usize).take(n as usize) {
        *is_free = false;
    }
}

/// Sixty random cuts of a block, each as the plain body makes it.
fn cut_at_random(rt: &impl Abort, page: u32, words: &mut u64) {
    assert!(rt; page % 64 == 0);
    let block = Block {
        page,
        free: many_ones(words),
    };
    let mut free = [false; 64];
    let mut at = page;
    for is_free in &mut free {
        *is_free = block.free.checked_shr(at.saturating_sub(page)).unwrap_or(0) % 2 == 1;
        at = at.saturating_add(1);
    }
    let mut cache = PageCache::new(1);
    cache.fill(block);
    for _ in 0..60 {
        let n = (next_word(words) >> 40) % 15 + 1;
        let n = n as u32;
        let wanted = plain_run(&free, n);
        let found = cache.cut(n, 2);
        assert_eq!(rt; found, wanted.map(|place| page.saturating_add(place)));
        if let Some(place) = wanted {
            plain_take(&mut free, place, n);
        }
        let left = free.iter().filter(|is_free| **is_free).count();
        let count = cache.block().map(|block| block.count() as usize);
        assert_eq!(rt; count, Some(left));
    }
}

#[test]
fn random_cuts_are_those_of_a_plain_body(rt: HostRuntime) {
    let mut words = 2023;
    for chunk in 0..200 {
        cut_at_random(&rt, 64 * chunk, &mut words);
    }
}
