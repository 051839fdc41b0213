//! One move: the only way by which a core changes. A move first tries all its needs, which write nothing, then makes room, and
//! writes last; so a refused move, and one without memory, leaves the core as it was. For a caller that proves what a move needs,
//! `step_met` does not try the needs of an allocation, the move of which there are most, and of a mark end, the move that has most to try.

ghost use Rattle.std.specs.Prelude.{◌≡◌, ◌≢◌, Err, None};
ghost use Rattle.sweep_laws.specs.Owned.{Owned};
ghost use Rattle.sweep_laws.specs.NeedsOfRange.{refusal};
ghost use Rattle.sweep_laws.specs.Step.{Steps, needs_of};
ghost use Rattle.sweep_laws.specs.Tidy.{IsTidy, HasSpace, IsProvided};

use crate::mark_end::{next, next_met};
use crate::moves_cache::{allocate, allocate_met, allocate_usual, cache, uncache};
use crate::moves_lock::{lock, unlock};
use crate::moves_pages::{give, take};
use crate::moves_pull::{cut, drop_block, pull};
use crate::moves_sets::{claim, fill, pop_swept, pop_unswept};
use crate::moves_sweep::{acquire, drop_popped, release, stale_uncache};
use crate::state::Core;
use sweep_laws::{Move, Reply, StepFault};

// Makes one move.
pub(crate) fn step_by(core: &mut Core, mv: &Move) -> Result<Reply, StepFault>
    ensures { Steps core.old core.new mv.now result }
{
    match mv {
        Move::Lock(worker) => lock(core, *worker),
        Move::Unlock(worker) => unlock(core, *worker),
        Move::Take(worker, page, pages, count, class) => {
            take(core, *worker, *page, *pages, *count, *class)
        }
        Move::Give(worker, page) => give(core, *worker, *page),
        Move::Acquire(worker, page) => acquire(core, *worker, *page),
        Move::Release(worker, page) => release(core, *worker, *page),
        Move::Cache(worker, page) => cache(core, *worker, *page),
        Move::Allocate(worker, page, index) => allocate(core, *worker, *page, *index),
        Move::Uncache(worker, page) => uncache(core, *worker, *page),
        Move::StaleUncache(worker, page) => stale_uncache(core, *worker, *page),
        Move::Claim(worker, set, page) => claim(core, *worker, *set, *page),
        Move::Fill(worker) => fill(core, *worker),
        Move::PopSwept(worker, set) => pop_swept(core, *worker, *set),
        Move::PopUnswept(worker, set) => pop_unswept(core, *worker, *set),
        Move::DropPopped(worker, page) => drop_popped(core, *worker, *page),
        Move::Pull(worker) => pull(core, *worker),
        Move::Cut(worker, page, pages, count, class) => {
            cut(core, *worker, *page, *pages, *count, *class)
        }
        Move::Drop(worker) => drop_block(core, *worker),
        Move::Next(marks) => next(core, marks.as_slice()),
    }
}

// The same where the move is given away.
#[inline(never)]
fn step_given(core: &mut Core, mv: Move) -> Result<Reply, StepFault>
    ensures { Steps core.old core.new mv result }
{
    step_by(core, &mv)
}

// The same, with a look first for an allocation, which is not to pay for what the others need.
#[inline(always)]
fn step_usual(core: &mut Core, mv: Move) -> Result<Reply, StepFault>
    ensures { Steps core.old core.new mv result }
{
    if let Move::Allocate(worker, page, index) = &mv {
        return allocate_usual(core, *worker, *page, *index);
    }
    step_given(core, mv)
}

/// Makes one move. It is done and answered as defined, or refused at the first need that fails with what was
/// found; or memory ran out. After a refusal and without memory nothing changed. Memory is not asked for where
/// the lists that the move puts something into have room. So it does not run out in a core that has the rule of
/// ownership, is tidy as a new one is, and has space: room for as many entries as there are pages
/// (`Core::make_room`), and in no set more claimed cells than that. A Take asks beside that for a prepared life
/// (`Core::make_life_room`), and a Claim for a set with fewer claimed cells than there are pages. The room stays.
#[inline]
pub fn step(core: &mut Core, mv: Move) -> Result<Reply, StepFault>
    ensures exact { Steps core.old core.new mv result }
    ensures owned { Owned core.old → Owned core.new }
    ensures tidy { Owned core.old → IsTidy core.old → IsTidy core.new }
    ensures room { core.new.room ≡ core.old.room }
    ensures space { HasSpace core.old → IsProvided core.old mv → HasSpace core.new }
    ensures memory { Owned core.old → IsTidy core.old → HasSpace core.old → IsProvided core.old mv → result ≢ Err StepFault.NoMemory }
{
    step_usual(core, mv)
}

// Makes a move whose needs are met, and that is no allocation. A mark end tries none of them.
#[inline(never)]
fn step_given_met(core: &mut Core, mv: Move) -> Result<Reply, StepFault>
    requires met { refusal (needs_of core.old mv) ≡ None }
    ensures { Steps core.old core.new mv result }
{
    match &mv {
        Move::Next(marks) => next_met(core, marks.as_slice()),
        _ => step_by(core, &mv),
    }
}

// The same for any move, with a look first for an allocation, as in `step_usual`.
#[inline(always)]
fn step_usual_met(core: &mut Core, mv: Move) -> Result<Reply, StepFault>
    requires met { refusal (needs_of core.old mv) ≡ None }
    ensures { Steps core.old core.new mv result }
{
    if let Move::Allocate(worker, page, index) = &mv {
        return allocate_met(core, *worker, *page, *index);
    }
    step_given_met(core, mv)
}

/// Makes one move whose needs are all met, as [`step`] does, but tries none of them for an allocation, the move of which a trace has
/// most, and for a mark end, whose marks need not be looked through once more. For a caller that proves the needs.
#[inline(always)]
pub fn step_met(core: &mut Core, mv: Move) -> Result<Reply, StepFault>
    // the needs are met
    requires met { refusal (needs_of core.old mv) ≡ None }

    // what was done
    ensures exact { Steps core.old core.new mv result }

    // what stays
    ensures owned { Owned core.old → Owned core.new }
    ensures tidy { Owned core.old → IsTidy core.old → IsTidy core.new }
    ensures room { core.new.room ≡ core.old.room }

    // where the core has space
    ensures space { HasSpace core.old → IsProvided core.old mv → HasSpace core.new }
    ensures memory { Owned core.old → IsTidy core.old → HasSpace core.old → IsProvided core.old mv → result ≢ Err StepFault.NoMemory }
{
    step_usual_met(core, mv)
}
