ghost use Rattle.std.specs.Prelude.{◌≡◌, ◌^◌, ◌<◌, ◌≤◌, [], None, IfOk};
ghost use Rattle.profile_cycle.specs.Sampling.{behind, countdown, is_sample};
ghost use Rattle.sweep_laws.specs.Start.{copies};

use fallible_list::NoMemory;
use profile_cycle::Sampler;
use size_classes::SPAN_CLASSES;
use span_state::Body;
use std::alloc::Global;
use std::marker::Model;
use trace_reader::Header;

/// A processor with its cache, at most one span of each span class, and the countdown of its samples (`mcache.go`).
#[derive(Drop)]
pub struct Proc {
    number: u32,
    // the heap generation at which it flushed last, 0 before the first flush
    pub(crate) flushed: u64,
    // the cached span of each span class
    pub(crate) slots: Vec<Option<Body>>,
    // says which of its placed objects are sampled
    sampler: Sampler,
}

impl Model for Proc {
    ghost use Rattle.std.specs.Prelude.{◌≡◌, length};
    ghost use Rattle.proc_cache.specs.Cache.{Cache, spans_of};

    ghost Value = { Cache };

    ghost view = { λ p. record { number = p.number; flushed = p.flushed; slots = spans_of p.slots.items; countdown = p.sampler } };

    ghost invariant = { λ p. length p.slots.items ≡ 136 };
}

// A place for each span class.
fn no_slots(alloc: Global) -> Result<Vec<Option<Body>>, NoMemory>
    ensures { IfOk result (λ slots. slots.items ≡ copies 136 None) }
{
    let slots = (0..SPAN_CLASSES).map(|_| None).collect(alloc)?;
    Ok(slots)
}

impl Proc {
    /// The processor of a number, from 0 to 63, in a trace with this header: with an empty cache, and the countdown to its first
    /// sample by the header's rate, which is at most 2^30 bytes, and seed.
    pub fn new(alloc: Global, number: u32, header: &Header) -> Result<Proc, NoMemory>
        requires rate { header.now.rate ≤ 2 ^ 30 }
        ensures { IfOk result (λ p. p ≡ record { number = number; flushed = 0; slots = copies 136 None; countdown = countdown header.now.rate header.now.seed number [] }) }
    {
        let slots = no_slots(alloc)?;
        Ok(Proc {
            number,
            flushed: 0,
            slots,
            sampler: Sampler::new(header.rate, header.seed, number),
        })
    }

    /// Whether the next placed object, which takes a slot of this many bytes, is sampled (`malloc.go`, `mallocgc` by the cache's
    /// `nextSample`). The countdown falls by the slot, or is drawn anew.
    pub fn sample(&mut self, slot: u64) -> bool
        ensures sampled { result ≡ is_sample self.old.countdown slot }
        ensures cache { self.new ≡ record self.old { countdown = behind self.old.countdown slot } }
    {
        self.sampler.sample(slot)
    }

    /// The number.
    pub fn number(&self) -> u32
        ensures { result ≡ self.now.number }
    {
        self.number
    }
}
