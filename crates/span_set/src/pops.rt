ghost use Rattle.std.specs.Prelude.{◌≡◌, ◌<◌, ◌≤◌, true, false};
ghost use Rattle.sweep_laws.specs.Reading.{is_swept_set};
ghost use Rattle.span_laws.specs.Asks.{IsAtWork};
ghost use Rattle.span_laws.specs.Logs.{is_look};
ghost use Rattle.worker_log.specs.Entries.{many};
ghost use Rattle.span_set.specs.Pops.{PopsSwept, PopsUnswept, TriesSwept, TriesUnswept};
ghost use Rattle.span_set.specs.Sets.{swept_of, unswept_of};

use crate::answers::{Pop, PopBase};
use crate::sets::{SetId, swept_number, unswept_number};
use span_table::{Shared, Worker};

/// Pops a span of the swept part of a set, which the worker then holds. It reads the cell at the head, and then raises the
/// head; where another worker was faster, it looks again (`mspanset.go`, `pop`). Takes no memory.
///
/// `Empty` comes only where head and tail, read in this call, were equal, and `NotYet` only where this call read 0 in the cell at
/// the head. A try is lost only where head or tail rose, so the call ends.
pub fn pop_swept(shared: &Shared, w: &mut Worker, set: SetId) -> Pop
    requires works { IsAtWork shared.now w.old }
    requires class { set.class < 136 }
    ensures { PopsSwept (swept_of w.old.view.generation set) w.old w.new result }
{
    let generation = shared.generation(w);
    let number = swept_number(set, generation);
    let (mut head, mut tail) = shared.look(w, number);
    for _ in 0..u64::MAX {
        match try_swept(shared, w, number, head, tail) {
            Ok(pop) => return pop,
            Err(found) => {
                head = found.0;
                tail = found.1;
            }
        }
    }
    unreachable!()
}

/// Pops the entry at the head of the unswept part of a set; it names a span that waits for its sweep, or that was swept or
/// cached since. Where another worker was faster, it looks again. Takes no memory.
///
/// `Empty` comes only where head and tail, read in this call, were equal. Cells of unswept sets are filled, so no answer says that
/// one is not. The call ends for the same reason as `pop_swept`.
pub fn pop_unswept(shared: &Shared, w: &mut Worker, set: SetId) -> PopBase
    requires works { IsAtWork shared.now w.old }
    requires class { set.class < 136 }
    ensures { PopsUnswept (unswept_of w.old.view.generation set) w.old w.new result }
{
    let generation = shared.generation(w);
    let number = unswept_number(set, generation);
    let (mut head, mut tail) = shared.look(w, number);
    for _ in 0..u64::MAX {
        match try_unswept(shared, w, number, head, tail) {
            Ok(pop) => return pop,
            Err(found) => {
                head = found.0;
                tail = found.1;
            }
        }
    }
    unreachable!()
}

// One try, where head and tail were seen last: the pop's answer, or the head and the tail that were found in their place.
fn try_swept(
    shared: &Shared,
    w: &mut Worker,
    set: u32,
    head: u32,
    tail: u32,
) -> Result<Pop, (u32, u32)>
    requires works { IsAtWork shared.now w.old }
    requires set { set < 544 }
    requires part { is_swept_set w.old.view.generation set ≡ true }
    requires order { head ≤ tail }
    requires seen { 0 < many (is_look set head tail) w.old.view.own.log }
    ensures { TriesSwept set head tail w.old w.new result }
{
    if head == tail {
        return Ok(Pop::Empty { head, tail });
    }
    let cell = shared.look_cell(w, set, head);
    if cell == 0 {
        return Ok(Pop::NotYet { head });
    }
    let page = (cell - 1) as u32;
    match shared.raise_swept(w, set, head, tail, page) {
        Ok(body) => Ok(Pop::Taken(body)),
        Err(found) => Err(found),
    }
}

// The same of an unswept set.
fn try_unswept(
    shared: &Shared,
    w: &mut Worker,
    set: u32,
    head: u32,
    tail: u32,
) -> Result<PopBase, (u32, u32)>
    requires works { IsAtWork shared.now w.old }
    requires set { set < 544 }
    requires part { is_swept_set w.old.view.generation set ≡ false }
    requires order { head ≤ tail }
    requires seen { 0 < many (is_look set head tail) w.old.view.own.log }
    ensures { TriesUnswept set head tail w.old w.new result }
{
    if head == tail {
        return Ok(PopBase::Empty { head, tail });
    }
    let cell = shared.look_cell(w, set, head);
    let page = (cell - 1) as u32;
    match shared.raise_unswept(w, set, head, tail, page) {
        Ok(()) => Ok(PopBase::Popped(page)),
        Err(found) => Err(found),
    }
}
