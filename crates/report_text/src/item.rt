//! What the lines of a report say, and which may stand behind which.

ghost use Rattle.std.specs.Prelude.{◌≡◌, MatchBool};
ghost use Rattle.report_text.specs.Items.{IsFirst, IsNext, MayFollow, rank};

use crate::order::Ordered;
use cycle_history::{Answer, Prof, Total};
use page_bitmap::Line;
use span_state::SweepNote;

/// What one line of a report says.
#[derive(Clone, Copy)]
pub(crate) enum Item {
    /// The answer of the object with this number.
    Object(u64, Answer),
    /// The journal line with this number.
    Journal(u64, Line),
    /// A sweep.
    Sweep(SweepNote),
    /// The objects of a size class.
    Class(Total),
    /// A bucket of the profile.
    Bucket(Prof),
    /// The last line, `end`.
    End,
}

impl Item {
    // The place of its kind among the kinds of lines.
    fn rank(self) -> u32
        ensures { result ≡ rank self }
    {
        match self {
            Item::Object(..) => 1,
            Item::Journal(..) => 2,
            Item::Sweep(_) => 3,
            Item::Class(_) => 4,
            Item::Bucket(_) => 5,
            Item::End => 6,
        }
    }

    // Whether it may be the first of its kind.
    fn is_first(self) -> bool
        ensures { MatchBool result (IsFirst self) (¬ IsFirst self) }
    {
        match self {
            Item::Object(number, _) | Item::Journal(number, _) => number == 0,
            _ => true,
        }
    }

    // Whether the other is of the same kind, and may stand directly behind it.
    fn is_before(self, other: Item) -> bool
        ensures { MatchBool result (IsNext self other) (¬ IsNext self other) }
    {
        match (self, other) {
            (Item::Object(before, _), Item::Object(number, _))
            | (Item::Journal(before, _), Item::Journal(number, _)) => {
                number > before && number - before == 1
            }
            (Item::Sweep(before), Item::Sweep(note)) => before.is_before(&note),
            (Item::Class(before), Item::Class(total)) => before.is_before(&total),
            (Item::Bucket(before), Item::Bucket(prof)) => before.is_before(&prof),
            _ => false,
        }
    }

    /// Whether it may stand directly behind what the line before says, if there is one.
    pub(crate) fn may_follow(self, before: Option<Item>) -> bool
        ensures { MatchBool result (MayFollow before self) (¬ MayFollow before self) }
    {
        match before {
            None => self.is_first(),
            Some(before) => {
                before.is_before(self) || (before.rank() < self.rank() && self.is_first())
            }
        }
    }
}
