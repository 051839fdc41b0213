//! Words of sums, and merges.

ghost use Rattle.std.specs.Prelude.{◌^◌, ◌≤◌, IfSome};
ghost use Rattle.page_summary.specs.Runs.{Fits};
ghost use Rattle.page_summary.specs.Sums.{end_of, max_of, start_of};

use page_summary::{MOST_PAGES, Sum, merge};
use std::process::Abort;
use std::test::Fail;

/// The free pages at the front, in the longest run and at the back.
type Triple = (u32, u32, u32);

/// The sum of `pages` pages with these numbers, where it has them.
fn packed(pages: u32, triple: Triple) -> Option<Sum>
    requires { pages ≤ 2 ^ 21 }
    ensures { IfSome result (λ sum. Fits pages (start_of sum) (max_of sum) (end_of sum)) }
{
    let (start, max, end) = triple;
    let whole = start == pages && end == pages;
    if start <= max && end <= max && (max < pages || max == pages && whole) {
        Some(Sum::pack(start, max, end))
    } else {
        None
    }
}

/// The sum of the joined pages, and its word.
fn merged<R: Abort + AllocGlobal>(
    rt: &R,
    log_pages: u32,
    triples: &[Triple],
) -> Result<(Triple, u64), Fail> {
    if triples.is_empty() || triples.len() > 8 || log_pages > 20 {
        return Err("out of range".into());
    }
    let pages: u32 = 1 << log_pages;
    if MOST_PAGES < pages.saturating_mul(triples.len() as u32) {
        return Err("too many pages".into());
    }
    let mut sums = Vec::new(rt.alloc());
    for triple in triples {
        sums.push(packed(pages, *triple).expect(rt, "a sum"))?;
    }
    let whole = merge(sums.as_slice(), log_pages);
    Ok(((whole.start(), whole.max(), whole.end()), whole.bits()))
}

/// A sum's numbers, and its word.
const WORDS: &[(Triple, u64)] = &[
    ((0, 0, 0), 0),
    ((1, 3, 2), 8_796_099_313_665),
    ((512, 512, 512), 2_251_800_887_427_584),
    ((0, 2_097_151, 0), 4_398_044_413_952),
    ((2_097_152, 2_097_152, 2_097_152), 9_223_372_036_854_775_808),
];

#[test]
fn words_of_sums(rt: HostRuntime) {
    for &(triple, bits) in WORDS {
        let sum = packed(MOST_PAGES, triple).expect(&rt, "a sum");
        assert_eq!(rt; sum.bits(), bits, "{triple:?}");
        assert_eq!(rt; (sum.start(), sum.max(), sum.end()), triple);
    }
}

const FULL: Triple = (512, 512, 512);

const NONE: Triple = (0, 0, 0);

const HALF: Triple = (1 << 20, 1 << 20, 1 << 20);

/// The logarithm of an entry's pages, the entries' sums, and that of the joined pages.
const MERGES: &[(u32, &[Triple], Triple)] = &[
    (9, &[FULL, NONE], (512, 512, 0)),
    (9, &[(0, 4, 4), (8, 8, 0)], (0, 12, 0)),
    // one sum is that of its own pages
    (9, &[(3, 7, 5)], (3, 7, 5)),
    // a run that crosses three entries
    (9, &[(0, 10, 10), FULL, (20, 20, 0)], (0, 542, 0)),
    // the front and the back go on over whole entries
    (9, &[FULL, FULL, (5, 9, 2)], (1029, 1029, 2)),
    (9, &[(2, 9, 5), FULL, FULL], (2, 1029, 1029)),
    // the longest run is inside one entry
    (9, &[(1, 100, 1), (1, 99, 1)], (1, 100, 1)),
    // runs that end at the entry's last page do not go on where the next entry begins taken
    (9, &[(0, 7, 7), (0, 3, 0), (6, 6, 0)], (0, 7, 0)),
    (0, &[(1, 1, 1), (0, 0, 0), (1, 1, 1), (1, 1, 1)], (1, 2, 2)),
    (12, &[NONE, NONE, NONE, NONE, NONE, NONE, NONE, NONE], NONE),
    // all pages that a sum can say, and one entry of them less than whole
    (20, &[HALF, HALF], (1 << 21, 1 << 21, 1 << 21)),
    (
        20,
        &[HALF, (1_048_575, 1_048_575, 0)],
        (2_097_151, 2_097_151, 0),
    ),
];

#[test]
fn sums_of_joined_pages(rt: HostRuntime) -> Result<(), Fail> {
    for &(log_pages, sums, whole) in MERGES {
        let (triple, bits) = merged(&rt, log_pages, sums)?;
        assert_eq!(rt; triple, whole, "{sums:?}");
        assert_eq!(rt; bits == 1 << 63, whole.1 == MOST_PAGES);
    }
    Ok(())
}
