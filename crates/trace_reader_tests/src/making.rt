//! Made traces against a generator that was written apart, in another language.

use std::alloc::Global;
use std::process::Abort;
use std::test::Fail;
use trace_gen::make_trace;
use trace_reader::{Cycle, Event, Span, Trace};

// The event of an object, counted over all cycles.
fn event_at(trace: &Trace, object: usize) -> Option<Event> {
    let mut left = object;
    for cycle in trace.cycles.as_slice() {
        let events = cycle.events.as_slice();
        if left < events.len() {
            return Some(events[left]);
        }
        left -= events.len();
    }
    None
}

// The event of an object of a made trace.
fn made_event(
    alloc: Global,
    seed: u64,
    objects: u32,
    object: usize,
) -> Result<Option<Event>, Fail> {
    let trace = make_trace(alloc, seed, objects)?;
    Ok(event_at(&trace, object))
}

/// A seed, a number of objects, an object's number, and its processor, size, pointers and stack.
type EventRow = (u64, u32, usize, u8, u64, bool, u32);

const EVENTS: &[EventRow] = &[
    (1, 1, 0, 6, 758, true, 6),
    (1, 70, 62, 5, 547, false, 8),
    (1, 70, 63, 1, 78493, true, 9),
    (1, 70, 64, 5, 514, false, 28),
    (1, 70, 69, 7, 421, false, 22),
    (u64::MAX, 3, 0, 0, 141, false, 9),
    (u64::MAX, 3, 2, 5, 800, false, 9),
    (7, 20001, 9999, 7, 813, false, 10),
    (7, 20001, 10000, 3, 960, false, 22),
    (7, 20001, 19999, 6, 586, true, 26),
    (7, 20001, 20000, 0, 182, true, 23),
];

#[test]
fn objects_are_those_of_the_words(rt: HostRuntime) -> Result<(), Fail> {
    for &(seed, objects, object, proc, size, scan, stack) in EVENTS {
        let event = Event {
            proc,
            size,
            scan,
            stack,
        };
        assert_eq!(rt;
            made_event(rt.alloc(), seed, objects, object)?,
            Some(event),
            "object {object} of seed {seed}"
        );
    }
    Ok(())
}

/// Of a mark end the second range and the last.
type End = (u32, u32, u32, u32);

// A number of objects, and the mark ends of the trace that is made of them.
const ENDS: &[(u32, &[End])] = &[
    (9_999, &[]),
    (10_000, &[(2000, 2003, 9992, 9995)]),
    (
        20_001,
        &[(2000, 2003, 9992, 9995), (12000, 12003, 19992, 19995)],
    ),
];

// Wants that a cycle has a mark end of 1001 ranges, of which the second and the last are these.
fn expect_end<R: Abort>(rt: &R, cycle: &Cycle, end: End) {
    let Some(mark) = &cycle.mark else {
        panic!(rt; "no mark end {end:?}");
    };
    let marks = mark.marks.as_slice();
    let (lo, hi, last, last_hi) = end;
    assert_eq!(rt; (mark.distance, marks.len()), (4_194_304, 1001));
    assert_eq!(rt; marks[0], Span { lo: 0, hi: 999 });
    assert_eq!(rt; marks[1], Span { lo, hi });
    let wanted = Span {
        lo: last,
        hi: last_hi,
    };
    assert_eq!(rt; marks[1000], wanted);
}

// Wants that a trace has these mark ends.
fn expect_ends<R: Abort>(rt: &R, trace: &Trace, ends: &[End]) {
    let cycles = trace.cycles.as_slice();
    assert_eq!(rt; cycles.len(), ends.len() + 1);
    for (cycle, end) in cycles.iter().zip(ends) {
        expect_end(rt, cycle, *end);
    }
    assert!(rt; cycles[ends.len()].mark.is_none());
}

#[test]
fn mark_ends_mark_five_thousand(rt: HostRuntime) -> Result<(), Fail> {
    for &(objects, ends) in ENDS {
        let trace = make_trace(rt.alloc(), 7, objects)?;
        expect_ends(&rt, &trace, ends);
    }
    Ok(())
}
