//! A sweep. Who moves a word from G-2 to G-1 has the span alone, until that worker moves it to G (`mgcsweep.go`, `tryAcquire`):
//! a worker that popped the span's entry, or one that had it cached over a mark end. Only Release writes what is allocated, since
//! only then is it known that nobody else has the span.

ghost use Rattle.sweep_laws.specs.Step.{Steps};

use crate::state::Core;
use sweep_laws::{Move, Reply, StepFault};

// Begins to sweep a span.
pub(crate) fn acquire(core: &mut Core, worker: u32, page: u32) -> Result<Reply, StepFault>
    ensures { Steps core.old core.new (Move.Acquire worker page) result }
{
    core.try_acquire(worker, page)?;
    core.hands[worker as usize].start_sweep(page)?;
    core.words.put(page, core.generation.saturating_sub(1));
    Ok(Reply::Done)
}

// Ends the sweep of a span: what was marked stays allocated.
pub(crate) fn release(core: &mut Core, worker: u32, page: u32) -> Result<Reply, StepFault>
    ensures { Steps core.old core.new (Move.Release worker page) result }
{
    core.try_release(worker, page)?;
    core.hands[worker as usize].reserve_end()?;
    core.lives.keep_marked(page)?;
    core.hands[worker as usize].end_sweep(page);
    core.words.put(page, core.generation);
    Ok(Reply::Done)
}

// Takes a span that is to be swept out of the cache, and begins to sweep it.
pub(crate) fn stale_uncache(core: &mut Core, worker: u32, page: u32) -> Result<Reply, StepFault>
    ensures { Steps core.old core.new (Move.StaleUncache worker page) result }
{
    core.try_stale_uncache(worker, page)?;
    core.hands[worker as usize].sweep_from_cache(page)?;
    core.words.put(page, core.generation.saturating_sub(1));
    Ok(Reply::Done)
}

// Forgets a popped entry whose span is swept already.
pub(crate) fn drop_popped(core: &mut Core, worker: u32, page: u32) -> Result<Reply, StepFault>
    ensures { Steps core.old core.new (Move.DropPopped worker page) result }
{
    core.try_drop_popped(worker, page)?;
    core.hands[worker as usize].drop_entry(page);
    Ok(Reply::Done)
}
