//! What the calls answer over one, two, three, 128 and 4096 chunks.

ghost use Rattle.std.specs.Prelude.{[], ◌≡◌, ◌*◌, ◌<◌, ◌≤◌, IsTrue};
ghost use Rattle.page_alloc.specs.FreeRuns.{IsSpanSize};
ghost use Rattle.page_alloc.specs.Blocks.{open_blocks};
ghost use Rattle.page_alloc.specs.Journal.{IsBy};

use page_alloc::{NoRun, Pages};
use page_bitmap::{Line, Run};
use size_classes::{MAX_CHUNKS, span_pages};
use std::process::Abort;
use std::test::Fail;

/// A call with what it is to answer.
#[derive(Clone, Copy, Debug)]
enum Step {
    /// A take of so many pages for a span class.
    Take(u32, u8, Option<u32>),
    Give(u32),
    Scavenge(Option<Run>),
    Find(u32, Option<u32>),
    Owner(u32, Option<u32>),
    /// The longest free run, the pages that are taken, and those that are backed.
    Sizes(u32, u32, u32),
}

use Step::{Find, Give, Owner, Scavenge, Sizes, Take};

fn is_span_size(n: u32, class: u8) -> bool
    ensures { IsTrue result → IsSpanSize class n }
{
    if class < 2 {
        n >= 5
    } else if class < 136 {
        span_pages(class / 2) == n
    } else {
        false
    }
}

fn take(pages: &mut Pages, n: u32, class: u8) -> Result<Option<u32>, Fail>
    requires by { IsBy 0 pages.old.past }
    requires blocks { open_blocks pages.old.past ≡ [] }
    ensures by { IsBy 0 pages.new.past }
    ensures blocks { open_blocks pages.new.past ≡ [] }
    ensures region { pages.new.region ≡ pages.old.region }
{
    if n == 0 || !is_span_size(n, class) {
        return Err("no span has that size".into());
    }
    pages.reserve_line()?;
    Ok(pages.take(0, n, class).ok())
}

fn give(pages: &mut Pages, page: u32) -> Result<(), Fail>
    requires by { IsBy 0 pages.old.past }
    requires blocks { open_blocks pages.old.past ≡ [] }
    requires inside { page < pages.old.region }
    ensures by { IsBy 0 pages.new.past }
    ensures blocks { open_blocks pages.new.past ≡ [] }
    ensures region { pages.new.region ≡ pages.old.region }
{
    if pages.owner(page) != Some(page) {
        return Err("no span begins there".into());
    }
    pages.give(0, page);
    Ok(())
}

fn scavenge(pages: &mut Pages) -> Result<Option<Run>, Fail>
    requires by { IsBy 0 pages.old.past }
    requires blocks { open_blocks pages.old.past ≡ [] }
    ensures by { IsBy 0 pages.new.past }
    ensures blocks { open_blocks pages.new.past ≡ [] }
    ensures region { pages.new.region ≡ pages.old.region }
{
    pages.reserve_line()?;
    Ok(pages.scavenge(0))
}

fn answer(rt: &impl Abort, pages: &mut Pages, chunks: u32, step: Step) -> Result<(), Fail>
    // the region, in cycle 0 and without open blocks
    requires by { IsBy 0 pages.old.past }
    requires blocks { open_blocks pages.old.past ≡ [] }

    // its chunks
    requires region { pages.old.region ≡ 512 * chunks }
    requires few { chunks ≤ MAX_CHUNKS }

    // the region behind it
    ensures by { IsBy 0 pages.new.past }
    ensures blocks { open_blocks pages.new.past ≡ [] }
    ensures region { pages.new.region ≡ 512 * chunks }
{
    match step {
        Take(n, class, page) => assert_eq!(rt; take(pages, n, class)?, page, "{step:?}"),
        Give(page) if page < 512 * chunks => give(pages, page)?,
        Owner(page, first) if page < 512 * chunks => {
            assert_eq!(rt; pages.owner(page), first, "{step:?}")
        }
        Find(n, page) if n > 0 => {
            let mut steps = 0;
            assert_eq!(rt; pages.find(n, &mut steps), page, "{step:?}");
            assert!(rt; 0 < steps && steps <= 41, "{step:?}: {steps}");
        }
        Scavenge(run) => assert_eq!(rt; scavenge(pages)?, run, "{step:?}"),
        Sizes(free, taken, backed) => {
            let sizes = (pages.longest_free(), pages.taken(), pages.backed());
            assert_eq!(rt; sizes, (free, taken, backed), "{step:?}");
        }
        _ => return Err("out of range".into()),
    }
    Ok(())
}

fn answers<R: Abort + AllocGlobal>(
    rt: &R,
    chunks: u32,
    goal: u32,
    steps: &[Step],
) -> Result<(), Fail>
    requires some { 1 ≤ chunks }
    requires few { chunks ≤ MAX_CHUNKS }
{
    let mut pages = Pages::new(rt.alloc(), chunks, goal)?;
    for step in steps {
        answer(rt, &mut pages, chunks, *step)?;
    }
    Ok(())
}

const OVER_THREE_CHUNKS: [Step; 42] = [
    Sizes(1536, 0, 0),
    Find(1536, Some(0)),
    Find(1537, None),
    Take(500, 0, Some(0)),
    Take(20, 1, Some(500)),
    Owner(511, Some(500)),
    Owner(512, Some(500)),
    Owner(519, Some(500)),
    Owner(520, None),
    Take(4, 134, Some(520)),
    Take(1012, 0, Some(524)),
    Owner(1535, Some(524)),
    Sizes(0, 1536, 1536),
    Find(1, None),
    Take(1, 2, None),
    Scavenge(None),
    Give(500),
    Owner(512, None),
    Sizes(20, 1516, 1536),
    Find(20, Some(500)),
    Find(21, None),
    Scavenge(Some(Run {
        page: 512,
        pages: 8,
    })),
    Scavenge(Some(Run {
        page: 500,
        pages: 12,
    })),
    Scavenge(None),
    Sizes(20, 1516, 1516),
    Take(1, 3, Some(500)),
    Sizes(19, 1517, 1517),
    Take(19, 0, Some(501)),
    Give(524),
    Sizes(1012, 524, 1536),
    Take(512, 1, Some(524)),
    Owner(1035, Some(524)),
    Give(0),
    Sizes(500, 536, 1536),
    Find(500, Some(0)),
    Take(501, 0, None),
    Scavenge(Some(Run {
        page: 1472,
        pages: 64,
    })),
    Scavenge(Some(Run {
        page: 1408,
        pages: 64,
    })),
    Take(5, 0, Some(0)),
    Owner(4, Some(0)),
    Owner(5, None),
    Sizes(500, 541, 1408),
];

// All pages but the last one are taken.
const OVER_128_CHUNKS: [Step; 6] = [
    Find(65536, Some(0)),
    Take(65535, 0, Some(0)),
    Find(1, Some(65535)),
    Find(2, None),
    Give(0),
    Find(65536, Some(0)),
];

// The same of the largest region, with a run over the border of the entries of two blocks of the second level.
const OVER_4096_CHUNKS: [Step; 11] = [
    Find(2097152, Some(0)),
    Find(2097153, None),
    Take(2097151, 0, Some(0)),
    Find(1, Some(2097151)),
    Find(2, None),
    Give(0),
    Take(262100, 0, Some(0)),
    Take(100, 0, Some(262100)),
    Take(1834952, 0, Some(262200)),
    Give(262100),
    Find(100, Some(262100)),
];

// The pages 500 to 531, over the border of two chunks, are free.
const ACROSS_TWO_CHUNKS: [Step; 7] = [
    Take(500, 0, Some(0)),
    Take(32, 0, Some(500)),
    Take(492, 0, Some(532)),
    Give(500),
    Find(32, Some(500)),
    Find(33, None),
    Sizes(32, 992, 1024),
];

const OVER_TWO_CHUNKS: [Step; 9] = [
    Take(600, 0, Some(0)),
    Take(425, 0, None),
    Find(424, Some(600)),
    Take(424, 1, Some(600)),
    Give(0),
    Scavenge(None),
    Take(1, 3, Some(0)),
    Owner(1023, Some(600)),
    Sizes(599, 425, 1024),
];

#[test]
fn calls_are_answered(rt: HostRuntime) -> Result<(), Fail> {
    answers(&rt, 3, 600, OVER_THREE_CHUNKS.as_slice())?;
    answers(&rt, 2, 1024, OVER_TWO_CHUNKS.as_slice())?;
    answers(&rt, 2, 1024, ACROSS_TWO_CHUNKS.as_slice())?;
    answers(&rt, 128, 65536, OVER_128_CHUNKS.as_slice())?;
    answers(&rt, MAX_CHUNKS, 2097152, OVER_4096_CHUNKS.as_slice())
}

#[test]
fn a_miss_is_written(rt: HostRuntime) -> Result<(), Fail> {
    let mut pages = Pages::new(rt.alloc(), 1, 512)?;
    pages.reserve_line()?;
    assert_eq!(rt; pages.take(0, 513, 0), Err(NoRun { line: 0 }));
    let miss = Line::Miss {
        cycle: 0,
        pages: 513,
        class: 0,
    };
    assert_eq!(rt; pages.journal(), [miss].as_slice());
    Ok(())
}
