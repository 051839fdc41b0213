//! The caches. A worker puts a span that it holds into its cache, and allocates in it; nobody else may touch the span until it is
//! taken out again (`mcache.go`, `refill`; `mcentral.go`, `cacheSpan` and `uncacheSpan`). Over a mark end the span stays cached with
//! the word G+1, and only its worker may begin to sweep it.

ghost use Rattle.std.specs.Prelude.{◌≡◌, true, false, Ok, Err, None};
ghost use Rattle.sweep_laws.specs.Needs.{allocate_needs};
ghost use Rattle.sweep_laws.specs.NeedsOfRange.{refusal};
ghost use Rattle.sweep_laws.specs.Step.{Steps};

use crate::state::Core;
use sweep_laws::{Move, Reply, StepFault};

// Caches a span that the worker holds.
pub(crate) fn cache(core: &mut Core, worker: u32, page: u32) -> Result<Reply, StepFault>
    ensures { Steps core.old core.new (Move.Cache worker page) result }
{
    core.try_cache(worker, page)?;
    core.hands[worker as usize].put_in_cache(page)?;
    core.words.put(page, core.generation + 3);
    Ok(Reply::Done)
}

// Takes a swept span out of the cache.
pub(crate) fn uncache(core: &mut Core, worker: u32, page: u32) -> Result<Reply, StepFault>
    ensures { Steps core.old core.new (Move.Uncache worker page) result }
{
    core.try_uncache(worker, page)?;
    core.hands[worker as usize].take_from_cache(page)?;
    core.words.put(page, core.generation);
    Ok(Reply::Done)
}

// Allocates an object.
pub(crate) fn allocate(
    core: &mut Core,
    worker: u32,
    page: u32,
    index: u32,
) -> Result<Reply, StepFault>
    ensures { Steps core.old core.new (Move.Allocate worker page index) result }
{
    core.try_allocate(worker, page, index)?;
    allocate_met(core, worker, page, index)
}

// The same, with a look first for the usual allocation, in a span that the worker has cached: each need is asked once there, and no
// fault is made.
#[inline(always)]
pub(crate) fn allocate_usual(
    core: &mut Core,
    worker: u32,
    page: u32,
    index: u32,
) -> Result<Reply, StepFault>
    ensures { Steps core.old core.new (Move.Allocate worker page index) result }
{
    let mut fault = StepFault::NoMemory;
    if is_allocated(core, worker, page, index, &mut fault) {
        Ok(Reply::Done)
    } else {
        Err(fault)
    }
}

// The same. Answers whether it is done; where it is not, `fault` tells why. It is written only where a need fails: without memory
// it stays as it is.
#[inline(never)]
fn is_allocated(core: &mut Core, worker: u32, page: u32, index: u32, fault: &mut StepFault) -> bool
    requires { fault.old ≡ StepFault.NoMemory }
    ensures done { result ≡ true → Steps core.old core.new (Move.Allocate worker page index) (Ok Reply.Done) }
    ensures refused { result ≡ false → Steps core.old core.new (Move.Allocate worker page index) (Err fault.new) }
{
    if !core.is_usual(worker, page, index) {
        return is_allocated_rarely(core, worker, page, index, fault);
    }
    match core.lives.allocate(page, index) {
        Ok(()) => true,
        Err(_) => false,
    }
}

// The same where it is not seen to be the usual one.
#[cold]
#[inline(never)]
fn is_allocated_rarely(
    core: &mut Core,
    worker: u32,
    page: u32,
    index: u32,
    fault: &mut StepFault,
) -> bool
    ensures done { result ≡ true → Steps core.old core.new (Move.Allocate worker page index) (Ok Reply.Done) }
    ensures refused { result ≡ false → Steps core.old core.new (Move.Allocate worker page index) (Err fault.new) }
{
    match allocate(core, worker, page, index) {
        Ok(_) => true,
        Err(found) => {
            *fault = found;
            false
        }
    }
}

// The same where all needs are met, so that none is tried.
#[inline(always)]
pub(crate) fn allocate_met(
    core: &mut Core,
    worker: u32,
    page: u32,
    index: u32,
) -> Result<Reply, StepFault>
    requires met { refusal (allocate_needs core.old worker page index) ≡ None }
    ensures { Steps core.old core.new (Move.Allocate worker page index) result }
{
    if is_put(core, worker, page, index) {
        Ok(Reply::Done)
    } else {
        Err(StepFault::NoMemory)
    }
}

// The same. Answers whether it is done; where it is not, memory ran out.
#[inline(always)]
fn is_put(core: &mut Core, worker: u32, page: u32, index: u32) -> bool
    requires met { refusal (allocate_needs core.old worker page index) ≡ None }
    ensures done { result ≡ true → Steps core.old core.new (Move.Allocate worker page index) (Ok Reply.Done) }
    ensures refused { result ≡ false → Steps core.old core.new (Move.Allocate worker page index) (Err StepFault.NoMemory) }
{
    let _worker = worker;
    core.lives.allocate(page, index).is_ok()
}
