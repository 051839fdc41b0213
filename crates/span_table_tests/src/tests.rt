use crate::next_cycle::{Returned, given, met, popped_and_reset, stale, swept, unmarked, unswept};
use crate::table::{Popped, Table};
use crate::turns::start;
use fallible_list::NoMemory;
use page_bitmap::Line;
use span_set::PopBase;
use span_table::{Refused, Uncached};
use std::alloc::Global;
use std::process::Abort;
use std::sync::Wait;
use std::test::Fail;

// A call on a table.
#[derive(Clone, Copy)]
enum Call {
    // `take_span` and `try_span` of so many pages.
    Take(u32),
    TryTake(u32),
    // `acquire` of the page.
    Word(u32),
    // A span of so many pages is taken, cached, acquired and uncached.
    Cache(u32),
    // A span of so many pages is taken and pushed, by `push`; or by `claim` and `fill`, with a pop of the same set between them.
    Push(u32),
    Claim(u32),
    // The pops of a swept and an unswept set, by class and whether it is the full one.
    Pop(u8, bool),
    PopUnswept(u8, bool),
    // `raise_swept` or `raise_unswept`, by set, head and tail.
    Raise(u32, u32, u32),
    // `reset_set` of an unswept set, if it is empty.
    Reset(u32),
    // Head and tail of a set, and one of its cells.
    Look(u32),
    LookCell(u32, u32),
    // The counters.
    Generation,
    AddSwept(u32),
    Swept,
    AddSpent(u64),
    Spent,
    ClaimChunk,
    // How many pages spans have.
    PagesTaken,
    // `scavenge_step`.
    Scavenge,
}

// What a call answers.
#[derive(Clone, Copy, Debug, PartialEq, Eq)]
enum Answer {
    // Nothing.
    Done,
    // The body of a span that waited.
    Got,
    // The first page of a span.
    Page(u32),
    // No run is free, and no line says so; or the line of this number does.
    NoPage,
    NoRun(u64),
    // A word, a cell, a counter or a number of pages.
    Is(u64),
    // The word of a cached span, and what its way out answered.
    Cached(u64, Uncached),
    // A claim's set, index and page, and what was popped before it was filled.
    Claimed(u32, u32, u32, Popped),
    // What a pop answers.
    Pops(Popped),
    // Head and tail of a set.
    Ends(u32, u32),
    // Pages were released.
    Released(u32, u32),
}

fn page(taken: Result<u32, Refused>) -> Result<Answer, NoMemory> {
    match taken {
        Ok(page) => Ok(Answer::Page(page)),
        Err(Refused::NoRun { line }) => Ok(Answer::NoRun(line)),
        Err(Refused::NoMemory) => Err(NoMemory),
    }
}

fn sets<R: Wait>(rt: &R, table: &mut Table, call: Call) -> Result<Answer, NoMemory> {
    match call {
        Call::Push(pages) => page(table.push(rt, pages)),
        Call::Claim(pages) => match table.claim(rt, pages) {
            Ok((claim, between)) => Ok(Answer::Claimed(
                claim.set,
                claim.index,
                claim.page,
                between,
            )),
            Err(_) => Err(NoMemory),
        },
        Call::Pop(class, full) => Ok(Answer::Pops(table.pop(class, full))),
        Call::PopUnswept(class, full) => match table.pop_unswept(class, full) {
            PopBase::Popped(page) => Ok(Answer::Pops(Popped::Taken(page))),
            PopBase::Empty { head, tail } => Ok(Answer::Pops(Popped::Empty(head, tail))),
        },
        Call::Raise(set, head, tail) => match table.raise(set, head, tail)? {
            Ok(page) => Ok(Answer::Page(page)),
            Err(found) => Ok(Answer::Ends(found.0, found.1)),
        },
        Call::Reset(set) => match table.reset(set)? {
            Some(found) => Ok(Answer::Ends(found.0, found.1)),
            None => Ok(Answer::Done),
        },
        Call::Look(set) => {
            let (head, tail) = table.look(set);
            Ok(Answer::Ends(head, tail))
        }
        Call::LookCell(set, index) => Ok(Answer::Is(table.look_cell(set, index))),
        _ => Err(NoMemory),
    }
}

fn make<R: Wait>(rt: &R, table: &mut Table, call: Call) -> Result<Answer, NoMemory> {
    match call {
        Call::Take(pages) => page(table.take(rt, pages)),
        Call::TryTake(pages) => match table.try_take(rt, pages)? {
            Some(page) => Ok(Answer::Page(page)),
            None => Ok(Answer::NoPage),
        },
        Call::Word(page) => match table.word(page)? {
            Some(word) => Ok(Answer::Is(word)),
            None => Ok(Answer::Got),
        },
        Call::Cache(pages) => match table.cache(rt, pages) {
            Ok((word, way)) => Ok(Answer::Cached(word, way)),
            Err(_) => Err(NoMemory),
        },
        Call::Generation => Ok(Answer::Is(table.generation())),
        Call::AddSwept(pages) => Ok(Answer::Is(table.add_swept(pages))),
        Call::Swept => Ok(Answer::Is(table.swept())),
        Call::AddSpent(bytes) => Ok(Answer::Is(table.add_spent(bytes))),
        Call::Spent => Ok(Answer::Is(table.spent())),
        Call::ClaimChunk => Ok(Answer::Is(table.claim_chunk())),
        Call::PagesTaken => Ok(Answer::Is(u64::from(table.pages_taken(rt)))),
        Call::Scavenge => {
            let step = table.scavenge(rt)?;
            match step.run {
                Some(run) => Ok(Answer::Released(run.page, run.pages)),
                None => Ok(Answer::Is(u64::from(step.backed))),
            }
        }
        _ => sets(rt, table, call),
    }
}

// Calls on a new table of 512 pages, with the goal for backed pages. The generation is 4.
struct Case {
    goal: u32,
    calls: &'static [(Call, Answer)],
}

const CASES: [Case; 10] = [
    // untouched sets are empty
    Case {
        goal: 512,
        calls: &[
            (Call::Pop(0, true), Answer::Pops(Popped::Empty(0, 0))),
            (Call::Pop(135, false), Answer::Pops(Popped::Empty(0, 0))),
            (Call::PopUnswept(0, true), Answer::Pops(Popped::Empty(0, 0))),
            (
                Call::PopUnswept(135, false),
                Answer::Pops(Popped::Empty(0, 0)),
            ),
            (Call::Look(543), Answer::Ends(0, 0)),
            (Call::LookCell(0, 0), Answer::Is(0)),
        ],
    },
    // runs are taken at first fit, 5 and 6 and 501 pages of 512. Then none is free: a try writes no line, and a take one. The lines of the
    // three spans are 0 to 2
    Case {
        goal: 512,
        calls: &[
            (Call::Take(5), Answer::Page(0)),
            (Call::TryTake(6), Answer::Page(5)),
            (Call::PagesTaken, Answer::Is(11)),
            (Call::TryTake(502), Answer::NoPage),
            (Call::Take(501), Answer::Page(11)),
            (Call::TryTake(5), Answer::NoPage),
            (Call::Take(5), Answer::NoRun(3)),
            (Call::Take(512), Answer::NoRun(4)),
            (Call::PagesTaken, Answer::Is(512)),
        ],
    },
    // more pages than the region has
    Case {
        goal: 512,
        calls: &[
            (Call::TryTake(513), Answer::NoPage),
            (Call::Take(u32::MAX), Answer::NoRun(0)),
            (Call::Take(512), Answer::Page(0)),
        ],
    },
    // a free page has the word 0, a held span's first page 4, its other pages 0
    Case {
        goal: 512,
        calls: &[
            (Call::Word(0), Answer::Is(0)),
            (Call::Take(5), Answer::Page(0)),
            (Call::Word(0), Answer::Is(4)),
            (Call::Word(4), Answer::Is(0)),
            (Call::Word(511), Answer::Is(0)),
        ],
    },
    // a span that was cached in this cycle has the word 4 + 3, and leaves the cache fresh, with the word 4
    Case {
        goal: 512,
        calls: &[
            (Call::Cache(5), Answer::Cached(7, Uncached::Fresh)),
            (Call::Word(0), Answer::Is(4)),
            (Call::Cache(507), Answer::Cached(7, Uncached::Fresh)),
            (Call::Word(5), Answer::Is(4)),
        ],
    },
    // the full set of large spans is number 2 at this generation. A claimed cell is not popped before it is filled, and spans are
    // popped in the order in which they were pushed. A cell names a page plus 1, and an entry behind the tail is 0
    Case {
        goal: 512,
        calls: &[
            (Call::Claim(5), Answer::Claimed(2, 0, 0, Popped::NotYet(0))),
            (Call::Look(2), Answer::Ends(0, 1)),
            (Call::LookCell(2, 0), Answer::Is(1)),
            (Call::Claim(6), Answer::Claimed(2, 1, 5, Popped::Taken(0))),
            (Call::Look(2), Answer::Ends(1, 2)),
            (Call::LookCell(2, 1), Answer::Is(6)),
            (Call::LookCell(2, 2), Answer::Is(0)),
            (Call::Pop(1, true), Answer::Pops(Popped::Empty(0, 0))),
            (Call::Pop(0, true), Answer::Pops(Popped::Taken(5))),
            (Call::Pop(0, true), Answer::Pops(Popped::Empty(2, 2))),
            (Call::Push(7), Answer::Page(11)),
            (Call::Pop(0, true), Answer::Pops(Popped::Taken(11))),
        ],
    },
    // the head is raised where head and tail are as given; else they are told as they are
    Case {
        goal: 512,
        calls: &[
            (Call::Push(5), Answer::Page(0)),
            (Call::Push(6), Answer::Page(5)),
            (Call::Look(2), Answer::Ends(0, 2)),
            (Call::Raise(2, 0, 1), Answer::Ends(0, 2)),
            (Call::Raise(2, 0, 2), Answer::Page(0)),
            (Call::Raise(2, 0, 2), Answer::Ends(1, 2)),
            (Call::Raise(2, 1, 2), Answer::Page(5)),
            (Call::Raise(2, 1, 2), Answer::Ends(2, 2)),
            (Call::Look(2), Answer::Ends(2, 2)),
        ],
    },
    // each counter goes on from what it was, and wraps: 8192 + 2^64 - 1 is 8191
    Case {
        goal: 512,
        calls: &[
            (Call::Generation, Answer::Is(4)),
            (Call::Swept, Answer::Is(0)),
            (Call::AddSwept(5), Answer::Is(0)),
            (Call::AddSwept(7), Answer::Is(5)),
            (Call::Spent, Answer::Is(0)),
            (Call::AddSpent(8192), Answer::Is(0)),
            (Call::AddSpent(u64::MAX), Answer::Is(8192)),
            (Call::Spent, Answer::Is(8191)),
            (Call::ClaimChunk, Answer::Is(0)),
            (Call::ClaimChunk, Answer::Is(1)),
            (Call::Swept, Answer::Is(12)),
            (Call::Generation, Answer::Is(4)),
        ],
    },
    // a span of the whole region leaves the cache, and nothing is left to take or to release: its line is number 0, the miss's number 1
    Case {
        goal: 512,
        calls: &[
            (Call::Word(0), Answer::Is(0)),
            (Call::Cache(512), Answer::Cached(7, Uncached::Fresh)),
            (Call::Scavenge, Answer::Is(512)),
            (Call::PagesTaken, Answer::Is(512)),
            (Call::TryTake(5), Answer::NoPage),
            (Call::Take(5), Answer::NoRun(1)),
        ],
    },
    // more pages are backed than the goal, but all of them are taken
    Case {
        goal: 4,
        calls: &[
            (Call::Scavenge, Answer::Is(0)),
            (Call::Take(5), Answer::Page(0)),
            (Call::Scavenge, Answer::Is(5)),
        ],
    },
];

// The calls answer as they should.
fn try_rows<R: Abort + Wait>(
    rt: &R,
    table: &mut Table,
    rows: &[(Call, Answer)],
) -> Result<(), NoMemory> {
    for (call, wanted) in rows {
        let found = make(rt, table, *call)?;
        assert_eq!(rt; found, *wanted);
    }
    Ok(())
}

// The calls of a case answer as they should. A table is let go in one place, since each place costs the proof much.
fn try_case<R: Abort + Wait + AllocGlobal>(rt: &R, row: &Case) -> Result<(), NoMemory> {
    let mut table = Table::new(rt.alloc(), row.goal)?;
    try_rows(rt, &mut table, row.calls)
}

#[test]
fn calls_answer_by_the_rules(rt: HostRuntime) -> Result<(), Fail> {
    for row in &CASES {
        try_case(&rt, row)?;
    }
    Ok(())
}

// A span's line and a miss in the first cycle.
const LINES: [Line; 2] = [
    Line::Take {
        cycle: 0,
        page: 0,
        pages: 5,
        class: 0,
    },
    Line::Miss {
        cycle: 0,
        pages: 508,
        class: 0,
    },
];

fn try_lines<R: Abort + Wait + AllocGlobal>(rt: &R, table: &mut Table) -> Result<(), NoMemory> {
    assert_eq!(rt; table.lines(rt, rt.alloc())?.as_slice().len(), 0);
    assert_eq!(rt; page(table.take(rt, 5))?, Answer::Page(0));
    assert_eq!(rt; page(table.take(rt, 508))?, Answer::NoRun(1));
    assert_eq!(rt; table.lines(rt, rt.alloc())?.as_slice(), LINES.as_slice());
    Ok(())
}

fn try_journal<R: Abort + Wait + AllocGlobal>(rt: &R) -> Result<(), NoMemory> {
    let mut table = Table::new(rt.alloc(), 512)?;
    try_lines(rt, &mut table)
}

#[test]
fn the_journal_has_the_lines_as_they_were_made(rt: HostRuntime) -> Result<(), Fail> {
    try_journal(&rt)?;
    let (taken, lines) = Table::new(rt.alloc(), 512)?.close(&rt)?;
    assert_eq!(rt; (taken, lines.len()), (0, 0));
    Ok(())
}

// Behind a mark end, at generation 6, for which large spans of so many pages were pushed to the full set, of which none is marked.
struct Behind {
    spans: &'static [u32],
    calls: &'static [(Call, Answer)],
}

const BEHIND: [Behind; 4] = [
    // a waiting span is acquired once, and has the word 5 then; the first words of other pages are 0
    Behind {
        spans: &[5],
        calls: &[
            (Call::Generation, Answer::Is(6)),
            (Call::Word(0), Answer::Got),
            (Call::Word(0), Answer::Is(5)),
            (Call::Word(1), Answer::Is(0)),
            (Call::Word(5), Answer::Is(0)),
        ],
    },
    // a new span has the word 6, or 6 + 3 in the cache, and goes to set 3
    Behind {
        spans: &[],
        calls: &[
            (Call::Take(5), Answer::Page(0)),
            (Call::Word(0), Answer::Is(6)),
            (Call::Cache(5), Answer::Cached(9, Uncached::Fresh)),
            (Call::Claim(5), Answer::Claimed(3, 0, 10, Popped::NotYet(0))),
            (Call::Pop(0, true), Answer::Pops(Popped::Taken(10))),
        ],
    },
    // the unswept full set of large spans is number 2, and the swept one, 3, is empty. A page of an unswept set is popped once, in order
    Behind {
        spans: &[5, 6],
        calls: &[
            (Call::Look(2), Answer::Ends(0, 2)),
            (Call::Look(3), Answer::Ends(0, 0)),
            (Call::Pop(0, true), Answer::Pops(Popped::Empty(0, 0))),
            (
                Call::PopUnswept(0, false),
                Answer::Pops(Popped::Empty(0, 0)),
            ),
            (Call::PopUnswept(0, true), Answer::Pops(Popped::Taken(0))),
            (Call::PopUnswept(0, true), Answer::Pops(Popped::Taken(5))),
            (Call::PopUnswept(0, true), Answer::Pops(Popped::Empty(2, 2))),
        ],
    },
    // the head of an unswept set is raised where head and tail are as given. A set is reset once it is seen empty,
    // and keeps its head and tail until the generation rises
    Behind {
        spans: &[5, 6],
        calls: &[
            (Call::Raise(2, 0, 1), Answer::Ends(0, 2)),
            (Call::Raise(2, 0, 2), Answer::Page(0)),
            (Call::Raise(2, 0, 2), Answer::Ends(1, 2)),
            (Call::Reset(2), Answer::Ends(1, 2)),
            (Call::Raise(2, 1, 2), Answer::Page(5)),
            (Call::Look(2), Answer::Ends(2, 2)),
            (Call::Reset(2), Answer::Done),
            (Call::Look(2), Answer::Ends(2, 2)),
            (Call::Reset(0), Answer::Done),
        ],
    },
];

fn try_behind<R: Abort + Wait + AllocGlobal>(rt: &R, row: &Behind) -> Result<(), NoMemory> {
    let mut table = Table::behind_mark_end(rt, rt.alloc(), row.spans)?;
    try_rows(rt, &mut table, row.calls)
}

#[test]
fn calls_answer_by_the_rules_behind_a_mark_end(rt: HostRuntime) -> Result<(), Fail> {
    for row in &BEHIND {
        try_behind(&rt, row)?;
    }
    Ok(())
}

fn stale_at_start<R: Wait>(rt: &R, alloc: Global) -> Result<(u64, Uncached), NoMemory> {
    let (shared, mut driver) = start(alloc, 1, 512)?;
    stale(rt, alloc, &shared, &mut driver)
}

// Cached at generation 4, its word is 7; the mark end leaves that, which is the word of a span cached before it.
#[test]
fn a_span_that_was_cached_before_a_mark_end_is_stale(rt: HostRuntime) -> Result<(), Fail> {
    assert_eq!(rt; stale_at_start(&rt, rt.alloc())?, (7, Uncached::Stale));
    Ok(())
}

fn swept_at_start<R: Wait>(rt: &R, alloc: Global) -> Result<(u32, Option<u64>), NoMemory> {
    let (shared, mut driver) = start(alloc, 1, 512)?;
    swept(rt, alloc, &shared, &mut driver)
}

// Swept at generation 6, its word is 6.
#[test]
fn a_swept_span_is_not_acquired_again(rt: HostRuntime) -> Result<(), Fail> {
    assert_eq!(rt; swept_at_start(&rt, rt.alloc())?, (0, Some(6)));
    Ok(())
}

fn met_at_start<R: Wait>(rt: &R, alloc: Global) -> Result<(Option<u64>, Option<u64>), NoMemory> {
    let (shared, mut driver) = start(alloc, 1, 512)?;
    met(rt, alloc, &shared, &mut driver)
}

// The first of two workers that are out together gets the span, and the other finds the word of a span that is swept: 6 - 1.
#[test]
fn one_of_two_workers_acquires_a_span_that_waits(rt: HostRuntime) -> Result<(), Fail> {
    assert_eq!(rt; met_at_start(&rt, rt.alloc())?, (None, Some(5)));
    Ok(())
}

fn given_at_start<R: Wait>(rt: &R, alloc: Global) -> Result<Returned, NoMemory> {
    let (shared, mut driver) = start(alloc, 1, 512)?;
    given(rt, alloc, &shared, &mut driver)
}

// The five pages are free again: their word is 0, and the next run of five is theirs.
#[test]
fn a_span_that_was_given_back_leaves_its_pages_free(rt: HostRuntime) -> Result<(), Fail> {
    let wanted = Returned {
        page: 0,
        next: 0,
        before: 5,
        behind: 0,
        word: Some(0),
    };
    assert_eq!(rt; given_at_start(&rt, rt.alloc())?, wanted);
    Ok(())
}

fn reset_at_start<R: Wait>(rt: &R, alloc: Global) -> Result<(PopBase, PopBase), NoMemory> {
    let (shared, mut driver) = start(alloc, 1, 512)?;
    popped_and_reset(rt, alloc, &shared, &mut driver)
}

// The entry is of page 0. The head stands behind it, and the reset sets are empty until the generation rises.
#[test]
fn unswept_sets_are_reset_once_they_are_empty(rt: HostRuntime) -> Result<(), Fail> {
    let wanted = (PopBase::Popped(0), PopBase::Empty { head: 1, tail: 1 });
    assert_eq!(rt; reset_at_start(&rt, rt.alloc())?, wanted);
    Ok(())
}

fn unmarked_at_start<R: Wait>(rt: &R, alloc: Global) -> Result<Option<u32>, NoMemory> {
    let (shared, mut driver) = start(alloc, 1, 512)?;
    unmarked(rt, alloc, &shared, &mut driver)
}

// The first span, at page 0, has a mark and is left. The second one, at page 5, waits and has none.
#[test]
fn the_next_span_without_a_mark_is_acquired(rt: HostRuntime) -> Result<(), Fail> {
    assert_eq!(rt; unmarked_at_start(&rt, rt.alloc())?, Some(5));
    Ok(())
}

fn unswept_at_start<R: Wait>(
    rt: &R,
    alloc: Global,
) -> Result<(Option<u32>, Option<u32>), NoMemory> {
    let (shared, mut driver) = start(alloc, 1, 512)?;
    unswept(rt, alloc, &shared, &mut driver)
}

// The full set of class 0 comes first, and has the one entry.
#[test]
fn the_next_unswept_set_is_the_first_with_an_entry(rt: HostRuntime) -> Result<(), Fail> {
    assert_eq!(rt; unswept_at_start(&rt, rt.alloc())?, (Some(0), None));
    Ok(())
}

fn none_at_start(alloc: Global) -> Result<Option<u32>, NoMemory> {
    let (shared, mut driver) = start(alloc, 1, 512)?;
    Ok(shared.next_unswept(&mut driver, 0))
}

#[test]
fn no_unswept_set_has_an_entry_in_the_first_cycle(rt: HostRuntime) -> Result<(), Fail> {
    assert_eq!(rt; none_at_start(rt.alloc())?, None);
    Ok(())
}
