ghost use Rattle.std.specs.Prelude.{◌≡◌, ℕ, ◌<◌, ◌≤◌, true, IfOk};
ghost use Rattle.span_state.specs.Bits.{IsFull};
ghost use Rattle.span_state.specs.MarkSet.{is_marked};
ghost use Rattle.span_state.specs.Spans.{allocated};

use fallible_list::NoMemory;
use span_state::{Body, Marks, Swept};
use std::alloc::Global;
use std::marker::{Send, Sync};
use std::process::Abort;
use std::test::Fail;

const PAGE: u32 = 7;

// The indices from `low` up to `high` of the page are marked, and one of another page.
fn marks_of(alloc: Global, low: u32, high: u32) -> Result<Marks, NoMemory>
    ensures { IfOk result (λ marks. (k : ℕ) → is_marked marks PAGE k ≡ true → k < high) }
{
    let mut marks = Marks::empty(alloc);
    for index in low..high {
        marks.add(PAGE, index)?;
    }
    marks.add(PAGE + 1, 0)?;
    Ok(marks)
}

// A body of which each index was taken in turn.
fn full(rt: &impl Abort, count: u32) -> Body
    requires { (1 ≤ count) × (count ≤ 1024) }
    ensures page { result.page ≡ PAGE }
    ensures count { result.count ≡ count }
    ensures full { IsFull count (allocated result) }
{
    let mut body = Body::new(PAGE, 1, 8, count, 2, 0);
    for want in 0..count {
        let index = body.next_free().expect(rt, "an index is free");
        assert_eq!(rt; index, want);
        body.take_index(index);
    }
    assert!(rt; body.next_free().is_none(), "full at {count}");
    body
}

// What a sweep of a full body answers, and the lowest free index after it.
fn swept(rt: &impl Abort, marks: &Marks, count: u32) -> (Swept, u32, Option<u32>)
    requires count { (1 ≤ count) × (count ≤ 1024) }
    requires marks { (k : ℕ) → is_marked marks.now PAGE k ≡ true → k < count }
{
    let mut body = full(rt, count);
    let swept = body.sweep(marks);
    (swept, body.next, body.next_free())
}

// Bodies are handed from thread to thread, and marks are shared by threads.
fn crosses_threads<T: Send + Sync>(_: &T) {}

// The count; the marked indices, from .. up to ..; after the sweep: kept, freed, the lowest free index.
const SWEPT: &[(u32, u32, u32, u32, u32, Option<u32>)] = &[
    (1, 0, 0, 0, 1, Some(0)),
    (1, 0, 1, 1, 0, None),
    (64, 0, 63, 63, 1, Some(63)),
    (64, 63, 64, 1, 63, Some(0)),
    (64, 0, 64, 64, 0, None),
    (341, 0, 1, 1, 340, Some(1)),
    (341, 0, 64, 64, 277, Some(64)),
    (341, 0, 65, 65, 276, Some(65)),
    (341, 63, 65, 2, 339, Some(0)),
    (341, 0, 341, 341, 0, None),
    (1024, 0, 1023, 1023, 1, Some(1023)),
    (1024, 1023, 1024, 1, 1023, Some(0)),
    (1024, 0, 1024, 1024, 0, None),
];

#[test]
fn bodies_at_word_borders(rt: HostRuntime) -> Result<(), Fail> {
    for &(count, low, high, kept, freed, free) in SWEPT {
        assert!(rt; 1 <= count && count <= 1024 && high <= count);
        let marks = marks_of(rt.alloc(), low, high)?;
        let (swept, next, lowest) = swept(&rt, &marks, count);
        assert_eq!(rt; swept, Swept { kept, freed }, "{count}, {low} to {high}");
        assert_eq!(rt; next, 0);
        assert_eq!(rt; lowest, free, "{count}, {low} to {high}");
    }
    Ok(())
}

// A page and an index that no region has.
const FAR_PAGE: u32 = 70_000;

const FAR_INDEX: u32 = 100_000;

// Marks of three pages, added out of order and some twice, and dead of two.
fn marks_out_of_order(alloc: Global) -> Result<Marks, NoMemory> {
    let mut marks = Marks::empty(alloc);
    let added = [
        (5, 63),
        (5, 64),
        (2, 1023),
        (FAR_PAGE, FAR_INDEX),
        (5, 0),
        (5, 63),
        (2, FAR_INDEX),
        (FAR_PAGE, 0),
    ];
    for (page, index) in added {
        marks.add(page, index)?;
    }
    for (page, bucket) in [(5, 9), (2, 1), (5, 9), (5, 3)] {
        marks.add_dead(page, bucket)?;
    }
    Ok(marks)
}

// Of those marks, a page; an index of it, and whether that is marked; how many are; the dead buckets.
const MARKED: [(u32, u32, bool, u32, &[u32]); 7] = [
    (5, 63, true, 3, &[9, 9, 3]),
    (5, 62, false, 3, &[9, 9, 3]),
    (5, 1, false, 3, &[9, 9, 3]),
    (2, 1023, true, 2, &[1]),
    (2, 1022, false, 2, &[1]),
    (FAR_PAGE, FAR_INDEX, true, 2, &[]),
    (3, 0, false, 0, &[]),
];

fn expect_marked(rt: &impl Abort, marks: &Marks) {
    for (page, index, marked, count, dead) in MARKED {
        assert_eq!(rt; marks.marked(page, index), marked, "{page}, {index}");
        assert_eq!(rt; marks.count(page), count, "{page}");
        assert_eq!(rt; marks.dead(page), dead, "{page}");
    }
}

// Wants these marks, in rising order, and no others.
fn expect_pairs(rt: &impl Abort, marks: &Marks, wanted: &[(u32, u32)]) -> Result<(), NoMemory> {
    let pairs = marks.pairs()?;
    assert_eq!(rt; pairs.as_slice(), wanted);
    Ok(())
}

#[test]
fn marks_in_any_order(rt: HostRuntime) -> Result<(), Fail> {
    let marks = marks_out_of_order(rt.alloc())?;
    crosses_threads(&marks);
    crosses_threads(&Body::new(PAGE, 1, 8, 1, 2, 0));
    expect_marked(&rt, &marks);
    let rising = [
        (2, 1023),
        (2, FAR_INDEX),
        (5, 0),
        (5, 63),
        (5, 64),
        (FAR_PAGE, 0),
        (FAR_PAGE, FAR_INDEX),
    ];
    expect_pairs(&rt, &marks, &rising)?;
    Ok(())
}

#[test]
fn marks_that_are_taken_back(rt: HostRuntime) -> Result<(), Fail> {
    let mut marks = marks_out_of_order(rt.alloc())?;
    // marked ones in and past a row, one that is not marked in each, one of a page without a row, and one of a page past the last
    let removed = [
        (5, 63),
        (FAR_PAGE, FAR_INDEX),
        (2, FAR_INDEX),
        (5, 62),
        (2, FAR_INDEX + 64),
        (5, FAR_INDEX),
        (3, 0),
        (3, FAR_INDEX),
        (FAR_PAGE + 1, 0),
    ];
    for (page, index) in removed {
        marks.remove(page, index);
        assert!(rt; !marks.marked(page, index), "{page}, {index}");
    }
    let left = [(2, 1023), (5, 0), (5, 64), (FAR_PAGE, 0)];
    expect_pairs(&rt, &marks, &left)?;

    assert_eq!(rt; marks.dead(5), [9, 9, 3].as_slice());
    marks.forget_dead();
    for page in [2, 5, FAR_PAGE] {
        assert!(rt; marks.dead(page).is_empty(), "at page {page}");
    }
    expect_pairs(&rt, &marks, &left)?;
    Ok(())
}

// The marked indices of a page.
fn indices_of(alloc: Global, marks: &Marks, page: u32) -> Result<Vec<u32>, NoMemory> {
    let mut indices = Vec::with_capacity(alloc, marks.len_at(page))?;
    marks.copy_indices(page, &mut indices);
    Ok(indices)
}

// Wants these indices of a page.
fn expect_indices(
    rt: &(impl Abort + AllocGlobal),
    marks: &Marks,
    page: u32,
    wanted: &[u32],
) -> Result<(), NoMemory> {
    let indices = indices_of(rt.alloc(), marks, page)?;
    assert_eq!(rt; indices.as_slice(), wanted, "{page}");
    Ok(())
}

// A page, and its marked indices; page 3 and the last have no row.
const INDICES: [(u32, &[u32]); 5] = [
    (5, &[0, 63, 64]),
    (2, &[1023, FAR_INDEX]),
    (FAR_PAGE, &[0, FAR_INDEX]),
    (3, &[]),
    (FAR_PAGE + 1, &[]),
];

#[test]
fn indices_of_pages(rt: HostRuntime) -> Result<(), Fail> {
    let marks = marks_out_of_order(rt.alloc())?;
    for (page, wanted) in INDICES {
        expect_indices(&rt, &marks, page, wanted)?;
    }
    Ok(())
}
