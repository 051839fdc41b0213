ghost use Rattle.std.specs.Prelude.{◌≡◌, ℕ, ◌^◌, ◌≤◌, List, [], ◌∷◌};
ghost use Rattle.profile_cycle.specs.Sampling.{behind, countdown, drawn, is_sample, is_sampled};

use rand_core::utils::NextWord;
use rand_pcg::Pcg32;
use std::marker::Model;

/// Says which placed objects of a processor are sampled. It takes no memory.
///
/// A countdown of bytes falls by the slot of each object; an object whose slot isn't below it is sampled, and the
/// countdown is drawn anew (`mcache.nextSample` and `mallocgc` of `malloc.go`). The distances are this project's own:
/// `1 + word % (2 * rate - 1)` bytes, by the words of a `Pcg32` with the trace's seed and the processor's stream.
#[derive(Drop)]
pub struct Sampler {
    rate: u64,
    left: u64,
    words: Pcg32,
}

impl Model for Sampler {
    ghost use Rattle.std.specs.Prelude.{◌^◌, ◌≤◌};
    ghost use Rattle.profile_cycle.specs.Sampling.{Countdown};

    ghost Value = { Countdown };

    ghost view = { λ s. record { rate = s.rate; left = s.left; words = s.words } };

    ghost invariant = { λ s. s.rate ≤ 2 ^ 30 };
}

impl Sampler {
    /// The sampler of a processor, for a rate in bytes of at most 2^30. Its first word is drawn.
    #[tactic(auto, unfolding(crate::specs::Sampling::words_of))]
    pub fn new(rate: u64, seed: u64, proc: u32) -> Sampler
        requires { rate ≤ 2 ^ 30 }
        ensures { result ≡ countdown rate seed proc [] }
    {
        let mut words = Pcg32::new(seed, u64::from(proc));
        let left = draw(rate, &mut words);
        Sampler { rate, left, words }
    }

    /// Whether the processor's next placed object, which takes a slot of this many bytes, is sampled: never at rate 0,
    /// and always at rate 1.
    pub fn sample(&mut self, slot: u64) -> bool
        ensures sampled { result ≡ is_sample self.old slot }
        ensures behind { self.new ≡ behind self.old slot }
        ensures all { (rate seed proc : ℕ) (older : List ℕ) → self.old ≡ countdown rate seed proc older → (result ≡ is_sampled rate seed proc older slot) × (self.new ≡ countdown rate seed proc (slot ∷ older)) }
    {
        let sampled = 0 < self.rate && self.left <= slot;
        if sampled {
            self.left = draw(self.rate, &mut self.words);
        } else {
            self.left = self.left.saturating_sub(slot);
        }
        sampled
    }
}

// The bytes until the next sample, by the generator's next word.
#[tactic(auto, unfolding(crate::specs::Sampling::drawn))]
fn draw(rate: u64, words: &mut Pcg32) -> u64
    requires { rate ≤ 2 ^ 30 }
    ensures { drawn rate words.old ≡ record { rate = rate; left = result; words = words.new } }
{
    let distances = (2 * rate).saturating_sub(1).max(1);
    1 + u64::from(words.next_word()) % distances
}
