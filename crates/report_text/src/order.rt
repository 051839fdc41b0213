//! The orders of a report's lists.

ghost use Rattle.std.specs.Prelude.{MatchBool};
ghost use Rattle.cycle_history.specs.Orders.{IsProfBefore, IsSweepBefore, IsTotalBefore};

use cycle_history::{Prof, Total};
use span_state::SweepNote;

/// What a report lists in an order. Whoever makes a report shows by it that its lists rise.
pub trait Ordered {
    // the first comes before the second
    ghost Before: { Self → Self → Type 0 };

    /// Whether it comes before the other.
    fn is_before(&self, other: &Self) -> bool
        ensures { MatchBool result (Before self.now other.now) (¬ Before self.now other.now) };
}

impl Ordered for SweepNote {
    ghost Before = { IsSweepBefore };

    fn is_before(&self, other: &SweepNote) -> bool {
        self.cycle < other.cycle || (self.cycle == other.cycle && self.page < other.page)
    }
}

impl Ordered for Total {
    ghost Before = { IsTotalBefore };

    fn is_before(&self, other: &Total) -> bool {
        self.class < other.class
    }
}

impl Ordered for Prof {
    ghost Before = { IsProfBefore };

    fn is_before(&self, other: &Prof) -> bool {
        self.mark < other.mark
            || (self.mark == other.mark
                && (self.stack < other.stack
                    || (self.stack == other.stack && self.size < other.size)))
    }
}
