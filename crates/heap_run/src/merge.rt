//! What a cycle's events come to: the lists that the processors put it in, and the run's own list.

ghost use Rattle.std.specs.Prelude.{◌≡◌, ◌≢◌, ℕ, ◌<◌, ◌++◌, [], ◌∷◌, All, List as Items, length, slice_index_or, vec_len, IfOk, OnOk};
ghost use Rattle.sample_laws.specs.By.{answers_by, events_by};

use crate::lists::empty_lists;
use edge_io::{List, NoMemory};
use std::alloc::Global;
use std::mem::replace;
use trace_reader::Event;

/// Lends each processor a list in which to put what its events come to. A single one gets the run's own list, since what it puts
/// behind that is in the order of all events already; of several each gets an empty one. Without memory the run's own may be lost.
pub(crate) fn lend<T: Drop>(
    alloc: Global,
    procs: u32,
    own: &mut List<T>,
) -> Result<Vec<List<T>>, NoMemory>
    ensures length { IfOk result (λ lent. vec_len lent ≡ procs) }
    ensures one { procs ≡ 1 → IfOk result (λ lent. lent.items ≡ own.old ∷ []) }
    ensures several { procs ≢ 1 → IfOk result (λ lent. (w : ℕ) → slice_index_or lent.items w [] ≡ []) }
    ensures kept { procs ≢ 1 → own.new ≡ own.old }
{
    if procs == 1 {
        let mut lent = Vec::new(alloc);
        lent.push(replace(own, List::new(alloc)))?;
        return Ok(lent);
    }
    empty_lists(alloc, procs, 0)
}

/// Takes the lists back, with what the events of a cycle came to. A single one is the run's own again; what several got is put
/// behind the run's own, in the order of all events.
pub(crate) fn take_back<T: Copy + Drop>(
    alloc: Global,
    events: &[Event],
    mut lent: Vec<List<T>>,
    own: &mut List<T>,
) -> Result<(), NoMemory>
    requires below { All (λ e. e.proc < length lent.items) events.now }
    requires sizes { length lent.items ≢ 1 → (w : ℕ) → length (slice_index_or lent.items w []) ≡ length (events_by w events.now) }
    ensures one { length lent.items ≡ 1 → OnOk result (own.new ≡ slice_index_or lent.items 0 []) }
    ensures several { length lent.items ≢ 1 → OnOk result ((more : Items T) × (own.new ≡ own.old ++ more) × (length more ≡ length events.now)
        × ((w : ℕ) → answers_by w events.now more ≡ slice_index_or lent.items w [])) }
{
    if lent.len() == 1 {
        *own = lent.swap_remove(0);
        return Ok(());
    }
    merge(alloc, events, lent.as_slice(), own)
}

// Puts what came of a cycle's events, which each processor gave in the order of its own, behind what came before, in the order
// of all events.
fn merge<T: Copy + Drop>(
    alloc: Global,
    events: &[Event],
    given: &[List<T>],
    merged: &mut List<T>,
) -> Result<(), NoMemory>
    requires below { All (λ e. e.proc < length given.now) events.now }
    requires sizes { (w : ℕ) → length (slice_index_or given.now w []) ≡ length (events_by w events.now) }
    ensures { OnOk result ((more : Items T) × (merged.new ≡ merged.old ++ more) × (length more ≡ length events.now)
        × ((w : ℕ) → answers_by w events.now more ≡ slice_index_or given.now w [])) }
{
    let mut next = vec![in alloc; 0usize; given.len()]?;
    for event in events {
        let proc = event.proc as usize;
        let at = next[proc];
        next[proc] = at + 1;
        merged.push(given[proc].as_slice()[at])?;
    }
    Ok(())
}
