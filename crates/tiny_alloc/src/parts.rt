//! The part of each object of a trace.

ghost use Rattle.std.specs.Prelude.{◌≡◌, ℕ, ◌+◌, ◌^◌, ◌<◌, ◌≤◌, length, slice_index_or, None, IfOk, OnOk, IfSome};
ghost use Rattle.trace_reader.specs.Limits.{events_of};
ghost use Rattle.cycle_history.specs.Before.{IsLimited, objects_before};
ghost use Rattle.cycle_history.specs.Objects.{is_placed as is_placed_at};
ghost use Rattle.tiny_alloc.specs.Riders.{is_tiny as is_tiny_event};
ghost use Rattle.tiny_alloc.specs.Base.{as_version_2};
ghost use Rattle.tiny_alloc.specs.Parts.{AreAllParts, AreParts, next_block, next_part as part_behind, tried_of};

use crate::block::BLOCK;
use crate::part::Part;
use crate::tiny::Tiny;
use cycle_history::Answer;
use edge_io::NoMemory;
use std::alloc::Global;
use trace_reader::{Event, Trace};

/// The part of each object of a trace with these answers, one for each object.
pub(crate) fn parts_of(
    alloc: Global,
    trace: &Trace,
    answers: &[Answer],
) -> Result<Vec<Part>, NoMemory>
    requires limited { IsLimited (as_version_2 trace.now) }
    requires answers { length answers.now ≡ length (events_of trace.now) }
    ensures size { IfOk result (λ parts. length parts.items ≡ length (events_of trace.now)) }
    ensures parts { IfOk result (λ parts. AreAllParts trace.now answers.now parts.items) }
{
    let mut parts = Vec::new(alloc);
    let mut blocks = blocks_of(alloc, trace.header.procs)?;
    for cycle in 0..trace.cycles.len() {
        add_parts(trace, cycle, answers, &mut blocks, &mut parts)?;
    }
    Ok(parts)
}

// A tiny allocator for each of so many processors.
pub(crate) fn blocks_of(alloc: Global, procs: u32) -> Result<Vec<Tiny>, NoMemory>
    ensures { IfOk result (λ blocks. length blocks.items ≡ procs) }
{
    let mut blocks = Vec::new(alloc);
    for _proc in 0..procs {
        blocks.push(Tiny::new())?;
    }
    Ok(blocks)
}

// Adds the parts of the objects of a cycle, at whose begin the processors have no blocks.
pub(crate) fn add_parts(
    trace: &Trace,
    cycle: usize,
    answers: &[Answer],
    blocks: &mut [Tiny],
    parts: &mut Vec<Part>,
) -> Result<(), NoMemory>
    // the cycle, with its answers
    requires limited { IsLimited (as_version_2 trace.now) }
    requires cycle { cycle < length trace.now.cycles }
    requires answers { objects_before trace.now (cycle + 1) ≤ length answers.now }

    // the processors' blocks
    requires blocks { length blocks.old ≡ trace.now.header.procs }

    // the parts so far
    requires done { length parts.old.items ≡ objects_before trace.now cycle }
    requires parts { AreParts trace.now answers.now parts.old.items }

    // the same behind it
    ensures blocks { length blocks.new ≡ length blocks.old }
    ensures done { OnOk result (length parts.new.items ≡ objects_before trace.now (cycle + 1)) }
    ensures parts { OnOk result (AreParts trace.now answers.now parts.new.items) }
{
    let cycles = trace.cycles.as_slice();
    let events = cycles[cycle].events.as_slice();
    clear_all(blocks);
    for event in events {
        let number = parts.len();
        let placed = is_placed(answers[number]);
        let tiny = &mut blocks[usize::from(event.proc)];
        parts.push(next_part(tiny, number as u32, *event, placed))?;
    }
    Ok(())
}

// Forgets all blocks.
fn clear_all(blocks: &mut [Tiny])
    ensures size { length blocks.new ≡ length blocks.old }
    ensures none { (proc : ℕ) → slice_index_or blocks.new proc None ≡ None }
{
    for proc in 0..blocks.len() {
        blocks[proc].clear();
    }
}

// The part of an object of the processor, whose block goes on behind it.
fn next_part(tiny: &mut Tiny, number: u32, event: Event, placed: bool) -> Part
    requires { IfSome tiny.old (λ block. block.start < 2 ^ 32) }
    ensures part { result ≡ part_behind tiny.old (tried_of 0 event placed) }
    ensures block { tiny.new ≡ next_block tiny.old number (tried_of 0 event placed) }
{
    if !is_tiny(event) {
        return Part::Other;
    }
    let size = event.size as u32;
    if let Some(seat) = tiny.seat(size) {
        return Part::Ride(seat.start as u32, seat.offset);
    }
    if placed {
        tiny.lead(size, u64::from(number));
    }
    Part::Lead
}

/// Whether an event's object is tiny: of 1 to 15 bytes, and without pointers.
pub fn is_tiny(event: Event) -> bool
    ensures { result ≡ is_tiny_event event }
{
    0 < event.size && event.size < u64::from(BLOCK) && !event.scan
}

fn is_placed(answer: Answer) -> bool
    ensures { result ≡ is_placed_at answer }
{
    matches!(answer, Answer::Placed(_))
}
