ghost use Rattle.std.specs.Prelude.{◌≡◌, ◌-◌, ◌≤◌, ◌⊎◌, [], length, take, IfOk, OnOk};
ghost use Rattle.cycle_history.specs.Marked.{ArePlacesOf};
ghost use Rattle.cycle_history.specs.Before.{AreClear, objects_before};
ghost use Rattle.cycle_history.specs.Found.{AreFound};
ghost use Rattle.cycle_history_tests.specs.Example.{answers, event_of_size, example};

use cycle_history::{Answer, PackedPlace, Total, marks_of, totals_of};
use fallible_list::{List, NoMemory};
use span_state::Marks;
use std::alloc::Global;
use std::process::Abort;
use std::test::Fail;
use trace_reader::{Cycle, Event, Header, MarkEnd, Span, Trace};

fn event(size: u64) -> Event
    ensures { result ≡ event_of_size size }
{
    Event {
        proc: 0,
        size,
        scan: true,
        stack: 0,
    }
}

// The list of these items.
fn list<T: Copy, const N: usize>(alloc: Global, items: [T; N]) -> Result<List<T>, NoMemory>
    ensures { IfOk result (λ list. list ≡ items) }
{
    Ok(List::from_vec(Vec::from_slice(alloc, items.as_slice())?))
}

// The trace: five objects, a mark end, three objects, another mark end, one object.
fn trace(alloc: Global) -> Result<Trace, NoMemory>
    ensures { IfOk result (λ trace. trace ≡ example) }
{
    let mut cycles = List::new(alloc);
    cycles.push(Cycle {
        events: list(
            alloc,
            [event(16), event(16), event(0), event(1400), event(40000)],
        )?,
        mark: Some(MarkEnd {
            distance: 4096,
            marks: list(alloc, [Span { lo: 0, hi: 0 }, Span { lo: 2, hi: 3 }])?,
        }),
    })?;
    cycles.push(Cycle {
        events: list(alloc, [event(16), event(3_000_000), event(24)])?,
        mark: Some(MarkEnd {
            distance: 4096,
            marks: list(alloc, [Span { lo: 0, hi: 0 }, Span { lo: 6, hi: 7 }])?,
        }),
    })?;
    cycles.push(Cycle {
        events: list(alloc, [event(32768)])?,
        mark: None,
    })?;
    Ok(Trace {
        header: Header {
            version: 1,
            chunks: 1,
            procs: 1,
            rate: 0,
            seed: 1,
            goal: 512,
        },
        cycles,
    })
}

// The answers of the first objects: object 3 lies in the second page of its span, object 4 is large, object 5 has the
// place of object 1, which is dead, and object 7 has the last index of its span.
fn first_answers(alloc: Global, count: usize) -> Result<List<Answer>, NoMemory>
    requires { count ≤ 9 }
    ensures { IfOk result (λ list. list ≡ take count answers) }
{
    let all = [
        Answer::Placed(0xc0_0000_0000),
        Answer::Placed(0xc0_0000_0010),
        Answer::Zero,
        Answer::Placed(0xc0_0000_8c00),
        Answer::Placed(0xc0_0000_a000),
        Answer::Placed(0xc0_0000_0010),
        Answer::Missed(4),
        Answer::Placed(0xc0_0001_5fe0),
        Answer::Placed(0xc0_0002_8000),
    ];
    Ok(List::from_vec(Vec::from_slice(alloc, &all[..count])?))
}

// What is kept from mark end to mark end: where the objects lie, of how many first ones none is sampled, and the marks.
#[derive(Drop)]
struct Kept {
    places: List<PackedPlace>,
    clear: usize,
    marks: Marks,
}

impl Kept {
    // What is kept before the first mark end.
    fn nothing(alloc: Global) -> Self
        ensures places { result.places ≡ [] }
        ensures clear { result.clear ≡ 0 }
        ensures marks { result.marks.pairs ≡ [] }
    {
        Kept {
            places: List::new(alloc),
            clear: 0,
            marks: Marks::empty(alloc),
        }
    }
}

// The bucket of object n is n + 10.
fn next_marks(
    alloc: Global,
    trace: &Trace,
    mark: u32,
    count: usize,
    sampled: &[bool; 8],
    kept: &mut Kept,
) -> Result<(), NoMemory>
    // the trace, and the mark end
    requires trace { trace.now ≡ example }
    requires mark { ((mark ≡ 1) × (count ≡ 5)) ⊎ ((mark ≡ 2) × (count ≡ 8)) }

    // what was kept from the mark end before
    requires kept { length kept.old.places ≡ objects_before example (mark - 1) }
    requires found { AreFound example (take count answers) kept.old.places }
    requires clear { AreClear (take count sampled.now) kept.old.clear }
    requires before { ArePlacesOf example (mark - 1) (take count answers) kept.old.marks }

    // the marks of this one
    ensures marks { OnOk result (ArePlacesOf example mark (take count answers) kept.new.marks) }

    // what is kept for the next
    ensures kept { OnOk result (length kept.new.places ≡ count) }
    ensures found { OnOk result (AreFound example (take count answers) kept.new.places) }
    ensures clear { OnOk result (AreClear (take count sampled.now) kept.new.clear) }
{
    let answers = first_answers(alloc, count)?;
    let buckets = [10, 11, 12, 13, 14, 15, 16, 17];
    let sampled = List::from_vec(Vec::from_slice(alloc, &sampled[..count])?);
    let buckets = List::from_vec(Vec::from_slice(alloc, &buckets[..count])?);
    marks_of(
        alloc,
        trace,
        mark,
        &answers,
        &sampled,
        &buckets,
        &mut kept.places,
        &mut kept.clear,
        &mut kept.marks,
    )
}

// Wants these marks, and of these pages these dead.
fn expect_marks<R: AllocGlobal + Abort>(
    rt: &R,
    marks: &Marks,
    wanted: &[(u32, u32)],
    dead: &[(u32, &[u32])],
) -> Result<(), Fail> {
    for (page, buckets) in dead {
        assert_eq!(rt; marks.dead(*page), *buckets, "at page {page}");
    }
    let pairs = marks.pairs()?;
    assert_eq!(rt; pairs.as_slice(), wanted);
    Ok(())
}

// Object 2 is marked, but of size 0; object 6 is marked, but refused; object 3 dies, but isn't sampled; objects 1 and 4 died before.
#[test]
fn marks_of_two_mark_ends(rt: HostRuntime) -> Result<(), Fail> {
    let trace = trace(rt.alloc())?;
    let mut kept = Kept::nothing(rt.alloc());
    // all but objects 3 and 7
    let sampled = [true, true, true, false, true, true, true, false];

    next_marks(rt.alloc(), &trace, 1, 5, &sampled, &mut kept)?;
    let dead: [(u32, &[u32]); 3] = [(0, &[11]), (5, &[14]), (3, &[])];
    expect_marks(&rt, &kept.marks, &[(0, 0), (3, 8)], &dead)?;

    next_marks(rt.alloc(), &trace, 2, 8, &sampled, &mut kept)?;
    let dead: [(u32, &[u32]); 3] = [(0, &[15]), (3, &[]), (5, &[])];
    expect_marks(&rt, &kept.marks, &[(0, 0), (10, 340)], &dead)
}

const NO_DEAD: [(u32, &[u32]); 4] = [(0, &[]), (3, &[]), (5, &[]), (10, &[])];

// No dead is looked for: objects 1 and 4 die, and then 3 and 5. Object 0 has the region's first bytes, so index 0 of page 0; object 3 of
// 1400 bytes has a slot of 1408, and its address is 3 * 8192 + 8 * 1408 behind the region's start; object 7 has a slot of 24, and is
// 10 * 8192 + 340 * 24 behind.
#[test]
fn marks_of_two_mark_ends_where_none_is_sampled(rt: HostRuntime) -> Result<(), Fail> {
    let trace = trace(rt.alloc())?;
    let mut kept = Kept::nothing(rt.alloc());
    let sampled = [false; 8];

    next_marks(rt.alloc(), &trace, 1, 5, &sampled, &mut kept)?;
    let first = kept.clear;
    expect_marks(&rt, &kept.marks, &[(0, 0), (3, 8)], &NO_DEAD)?;

    next_marks(rt.alloc(), &trace, 2, 8, &sampled, &mut kept)?;
    assert_eq!(rt; (first, kept.clear), (5, 8));
    expect_marks(&rt, &kept.marks, &[(0, 0), (10, 340)], &NO_DEAD)
}

// Wants of totals the classes, the placed objects, and those of them that don't live in the last cycle.
fn expect_totals<R: Abort>(rt: &R, totals: &[Total], rows: &[(u8, u64, u64)]) {
    assert_eq!(rt; totals.len(), rows.len());
    for (total, (class, mallocs, frees)) in totals.iter().zip(rows) {
        let want = Total {
            class: *class,
            mallocs: *mallocs,
            frees: *frees,
        };
        assert_eq!(rt; *total, want);
    }
}

#[test]
fn totals_of_five_classes(rt: HostRuntime) -> Result<(), Fail> {
    let trace = trace(rt.alloc())?;
    let answers = first_answers(rt.alloc(), 9)?;
    let totals = totals_of(rt.alloc(), &trace, &answers)?;
    let rows = [(0, 1, 1), (2, 3, 2), (3, 1, 0), (35, 1, 1), (67, 1, 0)];
    expect_totals(&rt, totals.as_slice(), &rows);
    Ok(())
}
