//! Marks of each object of many full spans, and sweeps of the spans: what `bench/marks.sh` times.
//!
//! The words are the number of spans, the objects of a span, the stride with which the objects are marked
//! (1 marks them in rising order), and how far to go: `add`, `fill` or `sweep`.

ghost use Rattle.std.specs.Prelude.{◌≡◌, ℕ, ◌<◌, ◌≤◌, true, IfOk};
ghost use Rattle.span_state.specs.Bits.{IsFull};
ghost use Rattle.span_state.specs.MarkSet.{is_marked};
ghost use Rattle.span_state.specs.Spans.{allocated};

use crate::stop::Stop;
use fallible_list::NoMemory;
use span_state::{Body, Marks};
use std::alloc::Global;

/// How far to go.
#[derive(Clone, Copy, Debug, PartialEq, Eq)]
enum Work {
    Add,
    Fill,
    Sweep,
}

/// How many objects were marked, and what the sweeps kept and freed.
#[derive(Clone, Copy, Debug)]
pub struct Marked {
    pub marked: u64,
    pub kept: u64,
    pub freed: u64,
}

/// How many spans there are, and how many objects each has.
#[derive(Clone, Copy, Debug)]
struct Size {
    spans: u32,
    objects: u32,
    ghost some_spans: { 1 ≤ spans },
    ghost some_objects: { 1 ≤ objects },
    ghost few_objects: { objects ≤ 1024 },
}

impl Size {
    /// At least one span, and from 1 to 1024 objects each.
    fn new(spans: u32, objects: u32) -> Option<Self> {
        if spans == 0 || objects == 0 || objects > 1024 {
            return None;
        }
        Some(Size { spans, objects })
    }
}

/// Marks each object of the spans once, where the stride has no common factor with their number.
fn marks_of(alloc: Global, size: &Size, stride: u32) -> Result<Marks, NoMemory>
    ensures { IfOk result (λ marks. (q k : ℕ) → is_marked marks q k ≡ true → k < size.now.objects) }
{
    let objects = u64::from(size.objects);
    let all = u64::from(size.spans) * objects;
    let mut marks = Marks::empty(alloc);
    for turn in 0..all {
        let object = turn.wrapping_mul(u64::from(stride)) % all;
        marks.add((object / objects) as u32, (object % objects) as u32)?;
    }
    Ok(marks)
}

/// A span at the page of which each object was taken in turn.
fn full(page: u32, size: &Size) -> Body
    ensures page { result.page ≡ page }
    ensures count { result.count ≡ size.now.objects }
    ensures full { IsFull size.now.objects (allocated result) }
{
    let mut body = Body::new(page, 1, 8, size.objects, 2, 0);
    while let Some(index) = body.next_free() {
        body.take_index(index);
    }
    body
}

pub fn asked(alloc: Global, words: &[String]) -> Result<Marked, Stop> {
    let [spans, objects, stride, work] = words else {
        return Err(Stop::Words);
    };
    let (Ok(spans), Ok(objects), Ok(stride)) = (spans.parse(), objects.parse(), stride.parse())
    else {
        return Err(Stop::Words);
    };
    match work.as_str() {
        "add" => mark_and_sweep(alloc, spans, objects, stride, Work::Add),
        "fill" => mark_and_sweep(alloc, spans, objects, stride, Work::Fill),
        "sweep" => mark_and_sweep(alloc, spans, objects, stride, Work::Sweep),
        _ => Err(Stop::Words),
    }
}

pub fn few(alloc: Global) -> Result<Marked, Stop> {
    mark_and_sweep(alloc, 64, 16, 7, Work::Sweep)
}

fn mark_and_sweep(
    alloc: Global,
    spans: u32,
    objects: u32,
    stride: u32,
    work: Work,
) -> Result<Marked, Stop> {
    let Some(size) = Size::new(spans, objects) else {
        return Err(Stop::Words);
    };
    let marks = marks_of(alloc, &size, stride)?;
    let mut kept: u64 = 0;
    let mut freed: u64 = 0;
    if work != Work::Add {
        for page in 0..spans {
            let mut body = full(page, &size);
            if work == Work::Sweep {
                let swept = body.sweep(&marks);
                kept = kept.saturating_add(u64::from(swept.kept));
                freed = freed.saturating_add(u64::from(swept.freed));
            }
        }
    }
    Ok(Marked {
        marked: u64::from(spans) * u64::from(objects),
        kept,
        freed,
    })
}
