//! Answers for the objects of a trace, whatever their sizes.

ghost use Rattle.std.specs.Prelude.{◌≡◌, ℕ, ◌+◌, ◌*◌, ◌^◌, ◌<◌, ◌≤◌, ◌↔◌, length, OnOk, Some};
ghost use Rattle.std.specs.List.{slice_get};
ghost use Rattle.trace_reader.specs.Limits.{events_of};
ghost use Rattle.cycle_history.specs.declared.Answer.TheVariants.{Zero};
ghost use Rattle.cycle_history.specs.Before.{IsLimited, objects_before};
ghost use Rattle.bench.specs.Filled.{AreFilled};

use cycle_history::Answer;
use edge_io::{List, NoMemory};
use size_classes::{Kind, MAX_PAGES, PAGE_SIZE, REGION_START, class_of};
use trace_reader::{Event, Trace};

/// Puts the answers of a cycle's objects at the end.
pub fn grow(answers: &mut List<Answer>, trace: &Trace, cycle: usize) -> Result<(), NoMemory>
    requires limited { IsLimited trace.now }
    requires cycle { cycle < length trace.now.cycles }
    requires filled { AreFilled trace.now (objects_before trace.now cycle) answers.old }
    ensures { OnOk result (AreFilled trace.now (objects_before trace.now (cycle + 1)) answers.new) }
{
    let pages = 512 * trace.header.chunks;
    for event in trace.cycles.as_slice()[cycle].events.as_slice() {
        push(answers, trace, pages, event)?;
    }
    Ok(())
}

// Puts the answer of the next object at the end.
fn push(
    answers: &mut List<Answer>,
    trace: &Trace,
    pages: u32,
    event: &Event,
) -> Result<(), NoMemory>
    requires limited { IsLimited trace.now }
    requires pages { pages ≡ 512 * trace.now.header.chunks }
    requires event { slice_get (events_of trace.now) (length answers.old) ≡ Some event.now }
    requires filled { AreFilled trace.now (length answers.old) answers.old }
    ensures { OnOk result (AreFilled trace.now (length answers.old + 1) answers.new) }
{
    let object = answers.len();
    answers.push(answer_of(event.size, (object % pages as usize) as u32))
}

// The answer of an object of this size at index 0 of a span at this page.
fn answer_of(size: u64, page: u32) -> Answer
    requires size { size ≤ 2 ^ 40 }
    requires page { page < MAX_PAGES }
    ensures { (result ≡ Zero) ↔ (size ≡ 0) }
{
    let address = REGION_START + PAGE_SIZE * u64::from(page);
    match class_of(size) {
        Kind::Zero => Answer::Zero,
        Kind::Small(_) => Answer::Placed(address),
        Kind::Large(_) => Answer::Placed(address),
    }
}
