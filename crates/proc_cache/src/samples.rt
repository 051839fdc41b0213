//! Which placed objects count in the profile.

ghost use Rattle.std.specs.Prelude.{◌≡◌, ◌<◌};
ghost use Rattle.profile_cycle.specs.Sampling.{behind, is_sample};
ghost use Rattle.proc_cache.specs.Samples.{counted};

use crate::proc::Proc;
use span_set::{Hand, Shop};

/// Whether a placed object of the processor, which takes a slot of this many bytes, is sampled. Where it is, the hand's tally counts one
/// allocation of the object's bucket (`mprof.go`, `mProf_Malloc`). Takes no memory.
pub fn count_placed(proc: &mut Proc, shop: &Shop, hand: &mut Hand, slot: u64, bucket: u32) -> bool
    // the bucket
    requires ring { hand.old.tally.ring ≡ shop.now.ring.now }
    requires bucket { bucket < shop.now.ring.now.buckets }

    // whether it is sampled
    ensures sampled { result ≡ is_sample proc.old.countdown slot }
    ensures cache { proc.new ≡ record proc.old { countdown = behind proc.old.countdown slot } }

    // the hand
    ensures worker { hand.new.worker ≡ hand.old.worker }
    ensures notes { hand.new.notes ≡ hand.old.notes }
    ensures tally { hand.new.tally ≡ counted result bucket hand.old.tally }
{
    if proc.sample(slot) {
        shop.ring.allocated(&mut hand.tally, bucket);
        return true;
    }
    false
}
