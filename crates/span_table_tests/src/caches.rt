ghost use Rattle.std.specs.Prelude.{◌≡◌};
ghost use Rattle.span_laws.specs.CacheAnswers.{IsSettled};
ghost use Rattle.span_table_tests.specs.Caches.{AreOut};
ghost use Rattle.span_table_tests.specs.Claims.{KeepsClaim};

use fallible_list::{List, NoMemory};
use page_bitmap::Line;
use size_classes::span_pages;
use span_laws::Pulled;
use span_table::{Shared, Worker};
use std::alloc::Global;
use std::process::Abort;
use std::sync::Wait;
use std::test::Fail;

// The shared spans of a region of one chunk, the driver, and the workers of processors 0 and 1, which are out with page caches.
#[derive(Drop)]
struct Caches {
    shared: Shared,
    driver: Worker,
    zero: Worker,
    one: Worker,
    ghost out: { AreOut shared driver zero one },
}

// Who makes a call.
#[derive(Clone, Copy)]
enum By {
    Driver,
    Zero,
    One,
}

// A call of a worker.
#[derive(Clone, Copy)]
enum Call {
    // `take_span` of so many pages, at least five.
    Take(u32),
    // `pull`, behind a `settle`.
    Pull,
    // `cut` of a span of a size class from 1 to 67, or of a large one of so many pages from 5 to 15.
    Small(u8),
    Large(u32),
    // `settle`.
    Settle,
}

// What a call answers.
#[derive(Clone, Copy, Debug, PartialEq, Eq)]
enum Answer {
    // The first page of a span.
    Page(u32),
    // There is no such run.
    NoRun,
    // So many pages were pulled, or none was free.
    Got(u32),
    NoPage,
    // So many pages had been left, where the worker has a page cache.
    Left(Option<u32>),
}

// Settles the worker's block, where it has one: how many pages that had left.
fn settle<R: Wait>(rt: &R, shared: &Shared, w: &mut Worker) -> Option<u32>
    requires table { w.old.table ≡ shared.now }
    ensures keeps { KeepsClaim w.old w.new }
    ensures settled { IsSettled w.new }
{
    let left = w.cached_pages();
    shared.settle(rt, w);
    left
}

// Settles the worker's block and pulls another. NoMemory also where the worker has no page cache.
fn pull<R: Wait>(rt: &R, shared: &Shared, w: &mut Worker) -> Result<Answer, NoMemory>
    requires table { w.old.table ≡ shared.now }
    ensures keeps { KeepsClaim w.old w.new }
{
    settle(rt, shared, w);
    if w.cached_pages().is_none() {
        return Err(NoMemory);
    }
    match shared.pull(rt, w)? {
        Pulled::Got(pages) => Ok(Answer::Got(pages)),
        Pulled::NoPage => Ok(Answer::NoPage),
    }
}

fn small(shared: &Shared, w: &mut Worker, class: u8) -> Answer
    requires table { w.old.table ≡ shared.now }
    ensures keeps { KeepsClaim w.old w.new }
{
    let class = class.max(1).min(67);
    match shared.cut(w, span_pages(class), class * 2) {
        Some(body) => Answer::Page(body.page),
        None => Answer::NoRun,
    }
}

fn large(shared: &Shared, w: &mut Worker, pages: u32) -> Answer
    requires table { w.old.table ≡ shared.now }
    ensures keeps { KeepsClaim w.old w.new }
{
    match shared.cut(w, pages.max(5).min(15), 0) {
        Some(body) => Answer::Page(body.page),
        None => Answer::NoRun,
    }
}

fn take<R: Wait>(rt: &R, shared: &Shared, w: &mut Worker, pages: u32) -> Result<Answer, NoMemory>
    requires table { w.old.table ≡ shared.now }
    ensures keeps { KeepsClaim w.old w.new }
{
    match shared.try_span(rt, w, pages.max(5), 0)? {
        Some(body) => Ok(Answer::Page(body.page)),
        None => Ok(Answer::NoRun),
    }
}

fn make<R: Wait>(rt: &R, shared: &Shared, w: &mut Worker, call: Call) -> Result<Answer, NoMemory>
    requires table { w.old.table ≡ shared.now }
    ensures keeps { KeepsClaim w.old w.new }
{
    match call {
        Call::Take(pages) => take(rt, shared, w, pages),
        Call::Pull => pull(rt, shared, w),
        Call::Small(class) => Ok(small(shared, w, class)),
        Call::Large(pages) => Ok(large(shared, w, pages)),
        Call::Settle => Ok(Answer::Left(settle(rt, shared, w))),
    }
}

impl Caches {
    fn new(alloc: Global) -> Result<Caches, NoMemory> {
        let (shared, mut driver) = Shared::new(alloc, 1, 512, 2)?;
        let zero = shared.hand_out_for(&mut driver, 0);
        let one = shared.hand_out_for(&mut driver, 1);
        Ok(Caches {
            shared,
            driver,
            zero,
            one,
        })
    }

    fn make<R: Wait>(&mut self, rt: &R, by: By, call: Call) -> Result<Answer, NoMemory> {
        match by {
            By::Driver => make(rt, &self.shared, &mut self.driver, call),
            By::Zero => make(rt, &self.shared, &mut self.zero, call),
            By::One => make(rt, &self.shared, &mut self.one, call),
        }
    }

    // The journal, behind a `settle` of both workers, which are taken in.
    fn close<R: Wait>(self, rt: &R, alloc: Global) -> Result<List<Line>, NoMemory> {
        let Caches {
            shared,
            mut driver,
            mut zero,
            mut one,
        } = self;
        settle(rt, &shared, &mut zero);
        settle(rt, &shared, &mut one);
        shared.take_in(&mut driver, zero);
        shared.take_in(&mut driver, one);
        shared.learn_journal(&mut driver);
        shared.journal_copy(alloc, &mut driver)
    }
}

// A line of the first cycle.
#[derive(Clone, Copy)]
enum Row {
    // The first page and the pages of a large span.
    Take(u32, u32),
    // The processor, the block's first page, and how many of its pages were free, or are again.
    Pull(u32, u32, u32),
    Drop(u32, u32, u32),
    // The processor, the first page, the pages and the span class.
    Cut(u32, u32, u32, u8),
}

fn line(row: Row) -> Line {
    let cycle = 0;
    match row {
        Row::Take(page, pages) => Line::Take {
            cycle,
            page,
            pages,
            class: 0,
        },
        Row::Pull(proc, page, pages) => Line::Pull {
            cycle,
            proc,
            page,
            pages,
        },
        Row::Drop(proc, page, pages) => Line::Drop {
            cycle,
            proc,
            page,
            pages,
        },
        Row::Cut(proc, page, pages, class) => Line::Cut {
            cycle,
            proc,
            page,
            pages,
            class,
        },
    }
}

// Calls and what they answer, and the journal behind them.
struct Case {
    calls: &'static [(By, Call, Answer)],
    lines: &'static [Row],
}

const CASES: [Case; 3] = [
    // size class 1 has spans of one page, and size class 41 of three. Of the block's pages 0..63 the last five are dropped, and pulled again
    Case {
        calls: &[
            (By::Zero, Call::Large(5), Answer::NoRun),
            (By::Zero, Call::Pull, Answer::Got(64)),
            (By::Zero, Call::Small(1), Answer::Page(0)),
            (By::Zero, Call::Small(41), Answer::Page(1)),
            (By::Zero, Call::Large(15), Answer::Page(4)),
            (By::Zero, Call::Large(15), Answer::Page(19)),
            (By::Zero, Call::Large(15), Answer::Page(34)),
            (By::Zero, Call::Large(10), Answer::Page(49)),
            (By::Zero, Call::Large(6), Answer::NoRun),
            (By::Zero, Call::Settle, Answer::Left(Some(5))),
            (By::Zero, Call::Large(5), Answer::NoRun),
            (By::Zero, Call::Pull, Answer::Got(5)),
            (By::Zero, Call::Large(5), Answer::Page(59)),
            (By::Zero, Call::Small(1), Answer::NoRun),
        ],
        lines: &[
            Row::Pull(0, 0, 64),
            Row::Cut(0, 0, 1, 2),
            Row::Cut(0, 1, 3, 82),
            Row::Cut(0, 4, 15, 0),
            Row::Cut(0, 19, 15, 0),
            Row::Cut(0, 34, 15, 0),
            Row::Cut(0, 49, 10, 0),
            Row::Drop(0, 0, 5),
            Row::Pull(0, 0, 5),
            Row::Cut(0, 59, 5, 0),
            Row::Drop(0, 0, 0),
        ],
    },
    // two blocks are out beside each other, and a run at first fit lies behind both. What one worker drops another pulls
    Case {
        calls: &[
            (By::Zero, Call::Pull, Answer::Got(64)),
            (By::One, Call::Pull, Answer::Got(64)),
            (By::Driver, Call::Take(5), Answer::Page(128)),
            (By::One, Call::Small(1), Answer::Page(64)),
            (By::Zero, Call::Large(5), Answer::Page(0)),
            (By::Zero, Call::Settle, Answer::Left(Some(59))),
            (By::One, Call::Settle, Answer::Left(Some(63))),
            (By::One, Call::Pull, Answer::Got(59)),
            (By::One, Call::Large(5), Answer::Page(5)),
        ],
        lines: &[
            Row::Pull(0, 0, 64),
            Row::Pull(1, 64, 64),
            Row::Take(128, 5),
            Row::Cut(0, 0, 5, 0),
            Row::Drop(0, 0, 59),
            Row::Cut(1, 64, 1, 2),
            Row::Drop(1, 64, 63),
            Row::Pull(1, 0, 59),
            Row::Cut(1, 5, 5, 0),
            Row::Drop(1, 0, 54),
        ],
    },
    // the block of page 500 has its last 12 pages free. Where none is free, a pull writes nothing; nor does a settle without a block
    Case {
        calls: &[
            (By::Driver, Call::Take(500), Answer::Page(0)),
            (By::Zero, Call::Pull, Answer::Got(12)),
            (By::One, Call::Pull, Answer::NoPage),
            (By::One, Call::Settle, Answer::Left(Some(0))),
            (By::Zero, Call::Large(12), Answer::Page(500)),
            (By::Zero, Call::Settle, Answer::Left(Some(0))),
            (By::One, Call::Pull, Answer::NoPage),
        ],
        lines: &[
            Row::Take(0, 500),
            Row::Pull(0, 448, 12),
            Row::Cut(0, 500, 12, 0),
            Row::Drop(0, 448, 0),
        ],
    },
];

// The calls answer as they should.
fn try_calls<R: Abort + Wait>(
    rt: &R,
    caches: &mut Caches,
    calls: &[(By, Call, Answer)],
) -> Result<(), NoMemory> {
    for (by, call, wanted) in calls {
        let found = caches.make(rt, *by, *call)?;
        assert_eq!(rt; found, *wanted);
    }
    Ok(())
}

// The lines are these, in this order.
fn try_lines<R: Abort>(rt: &R, lines: &[Line], rows: &[Row]) {
    assert_eq!(rt; lines.len(), rows.len());
    for (found, row) in lines.iter().zip(rows.iter()) {
        assert_eq!(rt; *found, line(*row));
    }
}

fn try_case<R: Abort + Wait>(rt: &R, alloc: Global, case: &Case) -> Result<(), NoMemory> {
    let mut caches = Caches::new(alloc)?;
    try_calls(rt, &mut caches, case.calls)?;
    let lines = caches.close(rt, alloc)?;
    try_lines(rt, lines.as_slice(), case.lines);
    Ok(())
}

#[test]
fn page_caches_pull_cut_and_settle(rt: HostRuntime) -> Result<(), Fail> {
    for case in &CASES {
        try_case(&rt, rt.alloc(), case)?;
    }
    Ok(())
}
