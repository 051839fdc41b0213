//! Which lines may stand behind which.

ghost use Rattle.std.specs.Prelude.{◌≡◌, ◌^◌, ◌<◌, [], List, ◌++◌, ◌∷◌, MatchBool};
ghost use Rattle.heap_text.specs.declared.text.HeapLine.{HeapLine as ALine};
ghost use Rattle.heap_text.specs.Lawful.{AreLow, HasSlot, IsLawfulLine, IsTwice};
ghost use Rattle.heap_text.specs.Past.{Allows, IsPast, added};
ghost use Rattle.heap_text.specs.Refusal.{IsTop};

use crate::HeapLine;
use crate::sums::Sums;
use crate::words::Top;

/// The most that twice a rate may be.
const MOST_TWICE: u64 = 1 << 31;

/// A bound of the sums, which keeps them from wrapping in a reader of signed numbers.
const LIMIT: u64 = 1 << 63;

/// What the lines so far leave for those behind them.
#[derive(Clone, Copy)]
pub(crate) struct Past {
    /// The sums of their numbers.
    pub sums: Sums,
    /// The least number of bytes in use of any of them.
    pub least: u64,
}

impl Past {
    /// What no lines leave.
    pub(crate) fn none() -> Past
        ensures { IsPast [] result }
    {
        Past {
            sums: Sums::none(),
            least: u64::MAX,
        }
    }

    /// Whether the line of a bucket, whose stack is a number of 32 bits, may stand behind them.
    pub(crate) fn allows(&self, line: &HeapLine) -> bool
        requires { AreLow self.now.sums }
        ensures { MatchBool result (Allows self.now line.now) (¬ Allows self.now line.now) }
    {
        is_lawful(line) && line.bytes <= self.least && self.has_room(line)
    }

    // Whether their sums with the line's numbers are below the limit.
    fn has_room(&self, line: &HeapLine) -> bool
        requires { AreLow self.now.sums }
        ensures { MatchBool result (AreLow (added self.now.sums line.now)) (¬ AreLow (added self.now.sums line.now)) }
    {
        line.objects < LIMIT - self.sums.objects
            && line.bytes < LIMIT - self.sums.bytes
            && line.all_objects < LIMIT - self.sums.all_objects
            && line.all_bytes < LIMIT - self.sums.all_bytes
    }

    /// What they leave together with the line.
    pub(crate) fn with(&self, line: &HeapLine) -> Past
        requires allowed { Allows self.now line.now }
        ensures past { (lines : List ALine) → IsPast lines self.now → IsPast (lines ++ line.now ∷ []) result }
        ensures low { AreLow result.sums }
    {
        Past {
            sums: Sums {
                objects: self.sums.objects + line.objects,
                bytes: self.sums.bytes + line.bytes,
                all_objects: self.sums.all_objects + line.all_objects,
                all_bytes: self.sums.all_bytes + line.all_bytes,
            },
            least: line.bytes,
        }
    }
}

// Whether the line has allocations, of which at most all are in use, and one slot size.
fn is_lawful(line: &HeapLine) -> bool
    ensures { MatchBool result (IsLawfulLine line.now) (¬ IsLawfulLine line.now) }
{
    if line.all_objects == 0 || line.objects > line.all_objects {
        return false;
    }
    let slot = line.all_bytes / line.all_objects;
    if slot == 0 || line.all_bytes != line.all_objects * slot {
        return false;
    }
    line.bytes == line.objects * slot
}

/// Whether the first line has twice a rate, and sums below the limit.
pub(crate) fn is_top(top: &Top) -> bool
    ensures { MatchBool result (IsTop top.now.twice top.now.sums) (¬ IsTop top.now.twice top.now.sums) }
{
    top.twice % 2 == 0 && top.twice <= MOST_TWICE && are_low(&top.sums)
}

// Whether the sums are below the limit.
fn are_low(sums: &Sums) -> bool
    ensures { MatchBool result (AreLow sums.now) (¬ AreLow sums.now) }
{
    sums.objects < LIMIT && sums.bytes < LIMIT && sums.all_objects < LIMIT && sums.all_bytes < LIMIT
}
