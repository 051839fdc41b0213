//! How many unswept sets still have an entry. The core counts them, so that whether all are popped is one comparison.

ghost use Rattle.std.specs.Prelude.{◌≡◌, ◌<◌, ◌≤◌, ℕ, map, length, not, true, false, slice_set};
ghost use Rattle.std.specs.Option.{is_some};
ghost use Rattle.sweep_laws.specs.ChangesOfSets.{raise_head};
ghost use Rattle.sweep_laws.specs.NeedsOfMarkEnd.{unpopped_set};
ghost use Rattle.sweep_laws.specs.Reading.{set_of, is_swept_set};
ghost use Rattle.sweep_lists.specs.Views.{set_view};
ghost use Rattle.sweep_generation.specs.Unpopped.{count_unpopped as counted, unpopped_at as counts};

use crate::state::Core;
use crate::tries_next::is_swept;
use sweep_lists::CoreSet;

// 1 for an unswept set with head and tail apart, else 0.
fn unpopped_at(set: &CoreSet, generation: u64, number: u64) -> usize
    ensures is { result ≡ counts generation number (set_view set.now) }
    ensures most { result ≤ 1 }
{
    if is_swept(generation, number) || set.head == set.tail {
        0
    } else {
        1
    }
}

// How many unswept sets have head and tail apart.
pub(crate) fn count_unpopped(sets: &[CoreSet], generation: u64) -> usize
    ensures { result ≡ counted generation 0 (map set_view sets.now) }
{
    let mut count = 0;
    for (number, set) in sets.iter().enumerate() {
        count += unpopped_at(set, generation, number as u64);
    }
    count
}

impl Core {
    /// Whether all entries of the unswept sets are popped.
    pub fn all_popped(&self) -> bool
        ensures none { result ≡ not (is_some (unpopped_set self.now)) }
        ensures apart { result ≡ true → (k : ℕ) → is_swept_set self.now.generation k ≡ false → (set_of self.now k).head ≡ (set_of self.now k).tail }
    {
        self.unpopped == 0
    }

    // How many unswept sets have head and tail apart once the head of this one rose.
    pub(crate) fn unpopped_after_pop(&self, set: u32) -> usize
        requires set { set < length self.now.sets }
        requires part { is_swept_set self.now.generation set ≡ false }
        requires head { (set_of self.now set).head < (set_of self.now set).tail }
        ensures { result ≡ counted self.now.generation 0 (slice_set self.now.sets set (raise_head (set_of self.now set))) }
    {
        let entries = &self.sets[set as usize];
        if entries.tail - entries.head == 1 {
            self.unpopped - 1
        } else {
            self.unpopped
        }
    }
}
