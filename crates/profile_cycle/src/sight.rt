//! What a tally's seat knows, the rule of the table of words, and what each kind of step tells. No value of `Sight` is
//! made, and nothing of this is there when the program runs.

use crate::calls::View;
use atomic_table::{Join, Play, Shared, Split, TableRule};
use std::collections::LinkedList;
use std::marker::{Brand, PhantomData};

/// What a tally's seat knows.
pub(crate) struct Sight {
    /// What contracts see of the tally.
    pub view: View,
    /// Whether the tally is split off, and not joined yet.
    pub lent: bool,
    /// The buckets whose words of the next cycle it found empty as it counted.
    pub due: LinkedList<u64>,
    /// The same of the cycle behind the next.
    pub later: LinkedList<u64>,
    /// The places of the words that a publication has moved so far: those of what is published that have their sum, and
    /// those of what waits that are 0.
    pub moved: LinkedList<u64>,
}

/// The rule: each word is the sum of its parts of all views (`specs/Rule.antt`).
pub(crate) struct SumOfViews;

impl TableRule<(), Sight, u32> for SumOfViews {
    ghost use Rattle.profile_cycle.specs.Rule.{Ruled, first_sight};

    ghost holds = { λ buckets. Ruled buckets };

    ghost first = { λ _. first_sight };
}

/// The table that the seats are of.
pub(crate) type Counts = Shared<(), Sight, u32, SumOfViews>;

/// A call that a proof picks.
pub(crate) trait Picked {
    ghost use Rattle.profile_cycle.specs.declared.calls.What.{What};

    ghost what: { What };
}

impl Picked for Brand {
    ghost use Rattle.profile_cycle.specs.declared.calls.What.TheVariants.{NextCycle};

    ghost what = { NextCycle };
}

/// A call counts.
pub(crate) struct Enters<J> {
    what: PhantomData<J>,
}

impl<J: Picked> Play<(), Sight> for Enters<J> {
    ghost use Rattle.std.specs.Prelude.{◌≡◌};
    ghost use Rattle.profile_cycle.specs.Rule.{counted};

    ghost then = { λ _ m n w. w ≡ (counted J.what n m.0, m.1) };
}

/// A word is read, while no other tally is out.
pub(crate) struct Reads;

impl Play<(), Sight> for Reads {
    ghost use Rattle.profile_cycle.specs.Rule.{Found};

    ghost then = { Found };
}

/// A word is moved: what waits was added to it, or it is 0.
pub(crate) struct Moves;

impl Play<(), Sight> for Moves {
    ghost use Rattle.std.specs.Prelude.{◌≡◌};
    ghost use Rattle.profile_cycle.specs.Rule.{moves};

    ghost then = { λ step m _ w. w ≡ (moves step.word m.0, m.1) };
}

/// A publication ends.
pub(crate) struct Publishes<J> {
    what: PhantomData<J>,
}

impl<J: Picked> Play<(), Sight> for Publishes<J> {
    ghost use Rattle.std.specs.Prelude.{◌≡◌};
    ghost use Rattle.profile_cycle.specs.Rule.{published_sight};

    ghost then = { λ _ m _ w. w ≡ (published_sight J.what m.0, m.1) };
}

/// A tally is split off.
pub(crate) struct HandsOut;

impl Split<Sight> for HandsOut {
    ghost use Rattle.profile_cycle.specs.Rule.{lent_sight, split_sight};

    ghost left = { lent_sight };

    ghost right = { split_sight };
}

/// A tally is joined.
pub(crate) struct TakesIn;

impl Join<Sight> for TakesIn {
    ghost use Rattle.profile_cycle.specs.Rule.{joined_sight, spent_sight};

    ghost both = { joined_sight };

    ghost spent = { spent_sight };
}
