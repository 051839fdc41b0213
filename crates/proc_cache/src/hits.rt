ghost use Rattle.std.specs.Prelude.{◌≡◌, ◌+◌, ◌*◌, ◌/◌, ◌^◌, ◌<◌, ◌≤◌, []};
ghost use Rattle.span_laws.specs.Asks.{IsAtWork};
ghost use Rattle.proc_cache.specs.Cache.{address_of};
ghost use Rattle.proc_cache.specs.Hits.{HitsCache, HitsLow};
ghost use Rattle.proc_cache.specs.Serves.{Serves};

use crate::proc::Proc;
use size_classes::{PAGE_SIZE, REGION_START, slot_size};
use span_state::Body;
use span_table::{Shared, Worker};

/// What an allocation from the cache answers.
#[derive(Clone, Copy, Debug, PartialEq, Eq)]
pub enum Hit {
    /// The address of the object.
    At(u64),
    /// No span of the class is cached, or the one that is has no free index.
    Miss,
}

// The address of an object of at most 32768 bytes. It is below 2^48 by the ranges of its parts.
fn address(page: u32, slot: u32, index: u32) -> u64
    requires { slot ≤ 32768 }
    ensures address { result ≡ address_of page slot index }
    ensures low { result < 2 ^ 48 }
{
    REGION_START + PAGE_SIZE * u64::from(page) + u64::from(slot) * u64::from(index)
}

/// Places an object of a span class, from 2 to 135, at the lowest free index of the cached span (`malloc.go`, `nextFreeFast`). The
/// processor has flushed in this cycle, and the worker holds no span. Miss exactly where no span is cached or the cached one has no free index; then nothing
/// changes. Takes no memory, and waits for nobody.
pub fn alloc_hit(proc: &mut Proc, shared: &Shared, w: &mut Worker, class: u8) -> Hit
    // the worker
    requires works { IsAtWork shared.now w.old }
    requires held { w.old.view.own.held ≡ [] }

    // the processor serves it
    requires serves { Serves w.old.view.generation w.old.view.own proc.old }
    requires flushed { proc.old.flushed ≡ w.old.view.generation }

    // the span class
    requires small { 2 ≤ class }
    requires class { class < 136 }

    // what was done
    ensures low { HitsLow result }
    ensures hits { HitsCache class proc.old proc.new w.old w.new result }

    // the processor serves it still
    ensures serves { Serves w.new.view.generation w.new.view.own proc.new }
    ensures countdown { proc.new.countdown ≡ proc.old.countdown }
{
    let Some(body) = &mut proc.slots[class as usize] else {
        return Hit::Miss;
    };
    let Some(index) = body.next_free() else {
        return Hit::Miss;
    };
    shared.note_alloc(w, body, index);
    Hit::At(address(body.page, slot_size(class / 2), index))
}
