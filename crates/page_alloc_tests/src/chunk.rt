//! What a chunk answers after a few steps. Every expected value is worked out by hand from the rules.

ghost use Rattle.page_bitmap.specs.Pages.{is_taken};
ghost use Rattle.page_bitmap.specs.Runs.{IsRun};

use page_bitmap::{Chunk, Run};
use std::process::Abort;

/// What is done to a chunk.
#[derive(Clone, Copy)]
enum Step {
    /// Takes so many pages from a page on.
    Take(u32, u32),
    /// Takes them and frees them again, which leaves them free and backed.
    Touch(u32, u32),
    /// Takes every second page, from 0 or 1 on.
    Alternate(u32),
    /// Marks so many pages from a page on as scavenged.
    Scavenge(u32, u32),
}

/// A question and its answer.
#[derive(Clone, Copy)]
enum Ask {
    /// `find` of so many pages from a page on.
    Find(u32, u32, Option<u32>),
    /// `scavenge_candidate` of at most so many pages: the first page and their number.
    Candidate(u32, Option<(u32, u32)>),
    /// `scavenged_in` of so many pages from a page on.
    Scavenged(u32, u32, u32),
    /// `sums`: start, max and end.
    Sums(u32, u32, u32),
}

use Ask::{Candidate, Find, Scavenged, Sums};
use Step::{Alternate, Scavenge, Take, Touch};

/// The pages 5, 69, 133 and so on are free, one in each word.
const ONE_A_WORD: &[Step] = &[
    Take(0, 5),
    Take(6, 63),
    Take(70, 63),
    Take(134, 63),
    Take(198, 63),
    Take(262, 63),
    Take(326, 63),
    Take(390, 63),
    Take(454, 58),
];

const CASES: &[(&[Step], Ask)] = &[
    (&[Take(0, 4), Take(6, 1)], Find(2, 0, Some(4))),
    (&[Take(0, 4), Take(6, 1)], Find(3, 0, Some(7))),
    (&[Take(0, 4), Take(6, 1)], Find(506, 0, None)),
    (&[], Candidate(64, None)),
    (&[Touch(0, 128)], Candidate(64, Some((64, 64)))),
    // a new chunk
    (&[], Find(1, 0, Some(0))),
    (&[], Find(512, 0, Some(0))),
    (&[], Find(512, 1, None)),
    (&[], Find(511, 1, Some(1))),
    (&[], Find(64, 3, Some(3))),
    (&[], Find(1, 511, Some(511))),
    (&[], Find(1, 512, None)),
    (&[], Sums(512, 512, 512)),
    // a full one
    (&[Take(0, 512)], Find(1, 0, None)),
    (&[Take(0, 512)], Sums(0, 0, 0)),
    (&[Take(0, 512)], Candidate(64, None)),
    // runs over the border between two words
    (&[Take(0, 63), Take(65, 447)], Find(2, 0, Some(63))),
    (&[Take(0, 63), Take(65, 447)], Find(3, 0, None)),
    (&[Take(0, 63), Take(65, 447)], Sums(0, 2, 0)),
    (&[Take(0, 127), Take(129, 383)], Find(2, 0, Some(127))),
    (&[Take(0, 191), Take(193, 319)], Find(2, 0, Some(191))),
    (&[Take(0, 255), Take(257, 255)], Find(2, 0, Some(255))),
    (&[Take(0, 319), Take(321, 191)], Find(2, 0, Some(319))),
    (&[Take(0, 383), Take(385, 127)], Find(2, 0, Some(383))),
    (&[Take(0, 447), Take(449, 63)], Find(2, 0, Some(447))),
    // runs of 63, 64 and 65 pages
    (&[Take(0, 1), Take(64, 448)], Find(63, 0, Some(1))),
    (&[Take(0, 1), Take(64, 448)], Find(64, 0, None)),
    (&[Take(0, 60), Take(124, 388)], Find(64, 0, Some(60))),
    (&[Take(0, 60), Take(124, 388)], Find(65, 0, None)),
    (&[Take(0, 60), Take(125, 387)], Find(65, 0, Some(60))),
    (&[Take(0, 60), Take(125, 387)], Sums(0, 65, 0)),
    (&[Take(0, 64)], Find(64, 0, Some(64))),
    // runs at the front and at the back
    (&[Take(511, 1)], Find(511, 0, Some(0))),
    (&[Take(511, 1)], Sums(511, 511, 0)),
    (&[Take(0, 1)], Find(511, 0, Some(1))),
    (&[Take(0, 1)], Sums(0, 511, 511)),
    (&[Take(256, 1)], Sums(256, 256, 255)),
    (&[Take(255, 1)], Find(256, 0, Some(256))),
    (&[Take(255, 1)], Sums(255, 256, 256)),
    // the first fit, and not the best
    (&[Take(10, 5), Take(17, 5)], Find(2, 0, Some(0))),
    (&[Take(10, 5), Take(17, 5)], Find(2, 10, Some(15))),
    (&[Take(10, 5), Take(17, 5)], Find(3, 10, Some(22))),
    (&[Take(0, 100)], Find(10, 50, Some(100))),
    (&[Take(200, 1)], Find(100, 150, Some(201))),
    // one free page in each word
    (ONE_A_WORD, Find(1, 6, Some(69))),
    (ONE_A_WORD, Find(1, 390, Some(453))),
    (ONE_A_WORD, Find(1, 454, None)),
    (ONE_A_WORD, Find(2, 0, None)),
    (ONE_A_WORD, Sums(0, 1, 0)),
    // alternating pages
    (&[Alternate(1)], Find(1, 1, Some(2))),
    (&[Alternate(1)], Find(2, 0, None)),
    (&[Alternate(1)], Sums(1, 1, 0)),
    (&[Alternate(0)], Find(1, 0, Some(1))),
    (&[Alternate(0)], Sums(0, 1, 1)),
    // the highest pages that can be scavenged
    (&[Touch(0, 512)], Candidate(64, Some((448, 64)))),
    (&[Touch(0, 512)], Candidate(65, Some((447, 65)))),
    (&[Touch(0, 512)], Candidate(u32::MAX, Some((0, 512)))),
    (&[Touch(511, 1)], Candidate(64, Some((511, 1)))),
    (&[Touch(0, 3)], Candidate(64, Some((0, 3)))),
    (&[Touch(60, 8)], Candidate(64, Some((60, 8)))),
    (&[Touch(60, 8)], Candidate(3, Some((65, 3)))),
    (&[Touch(0, 10), Touch(20, 5)], Candidate(64, Some((20, 5)))),
    (
        &[Touch(0, 128), Take(100, 1)],
        Candidate(64, Some((101, 27))),
    ),
    (
        &[Touch(0, 128), Scavenge(100, 10)],
        Candidate(64, Some((110, 18))),
    ),
    (&[Touch(0, 512), Scavenge(0, 512)], Candidate(64, None)),
    (
        &[Scavenge(0, 512), Touch(5, 2)],
        Candidate(64, Some((5, 2))),
    ),
    (&[Take(0, 128)], Candidate(64, None)),
    // how many pages are scavenged
    (&[], Scavenged(0, 512, 512)),
    (&[Touch(60, 8)], Scavenged(58, 10, 2)),
    (&[Touch(60, 8)], Scavenged(60, 10, 2)),
    (&[Touch(0, 512), Scavenge(63, 2)], Scavenged(0, 512, 2)),
    (&[Touch(0, 512), Scavenge(63, 2)], Scavenged(64, 64, 1)),
];

/// Does a step, whose pages are to be free.
fn act(rt: &impl Abort, chunk: &mut Chunk, step: Step) {
    match step {
        Take(page, n) => take_free(rt, chunk, page, n),
        Touch(page, n) => {
            take_free(rt, chunk, page, n);
            chunk.free(page, n);
        }
        Alternate(first) => {
            for page in 0..512 {
                if page % 2 == first {
                    take_free(rt, chunk, page, 1);
                }
            }
        }
        Scavenge(page, n) => {
            assert!(rt; 1 <= n && n <= 512 && page <= 512);
            assert_eq!(rt; chunk.find(n, page), Some(page));
            chunk.mark_scavenged(Run { page, pages: n });
        }
    }
}

/// Takes pages that are to be free.
fn take_free(rt: &impl Abort, chunk: &mut Chunk, page: u32, n: u32)
    ensures { IsRun (is_taken chunk.new) page n }
{
    assert!(rt; 1 <= n && n <= 512 && page <= 512);
    assert_eq!(rt; chunk.find(n, page), Some(page));
    chunk.take(page, n);
}

/// The run with a first page and a number of pages, if one is wanted.
fn wanted_run(want: Option<(u32, u32)>) -> Option<Run> {
    match want {
        Some((page, pages)) => Some(Run { page, pages }),
        None => None,
    }
}

fn expect_found(rt: &impl Abort, chunk: &Chunk, n: u32, from: u32, want: Option<u32>, case: usize) {
    assert!(rt; 1 <= n && n <= 512 && from <= 512);
    assert_eq!(rt; chunk.find(n, from), want, "case {case}");
}

fn expect_candidate(rt: &impl Abort, chunk: &Chunk, max: u32, want: Option<Run>, case: usize) {
    assert!(rt; 1 <= max);
    assert_eq!(rt; chunk.scavenge_candidate(max), want, "case {case}");
}

fn expect_scavenged(rt: &impl Abort, chunk: &Chunk, page: u32, n: u32, want: u32, case: usize) {
    assert!(rt; page <= 512 && n <= 512 - page);
    assert_eq!(rt; chunk.scavenged_in(page, n), want, "case {case}");
}

fn expect_sums(rt: &impl Abort, chunk: &Chunk, want: (u32, u32, u32), case: usize) {
    assert_eq!(rt; chunk.sums(), want, "case {case}");
}

/// Asks a chunk, and wants the answer.
fn expect(rt: &impl Abort, chunk: &Chunk, ask: Ask, case: usize) {
    match ask {
        Find(n, from, want) => expect_found(rt, chunk, n, from, want, case),
        Candidate(max, want) => expect_candidate(rt, chunk, max, wanted_run(want), case),
        Scavenged(page, n, want) => expect_scavenged(rt, chunk, page, n, want, case),
        Sums(start, max, end) => expect_sums(rt, chunk, (start, max, end), case),
    }
}

#[test]
fn answers(rt: HostRuntime) {
    for (case, (steps, ask)) in CASES.iter().enumerate() {
        let mut chunk = Chunk::new();
        for step in *steps {
            act(&rt, &mut chunk, *step);
        }
        expect(&rt, &chunk, *ask, case);
    }
}
