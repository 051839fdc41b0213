//! Numbers in rising order, among which those below a bound are counted by a binary search.

ghost use Rattle.std.specs.Prelude.{◌≡◌, nat_lt, IsPermutation, MatchBool};
ghost use Rattle.page_alloc.specs.Lists.{In, count};

use std::marker::Model;

/// Numbers in rising order.
#[derive(Drop)]
pub(crate) struct Sorted {
    numbers: Vec<u128>,
}

impl Model for Sorted {
    ghost use Rattle.std.specs.Prelude.{ℕ, List};
    ghost use Rattle.report_check.specs.Order.{AreRising};

    ghost Value = { List ℕ };

    ghost view = { λ s. s.numbers.items };

    ghost invariant = { λ s. AreRising s.numbers.items };
}

impl Sorted {
    /// These numbers.
    pub(crate) fn of(mut numbers: Vec<u128>) -> Sorted
        ensures { IsPermutation numbers.items result }
    {
        numbers.sort_unstable();
        Sorted { numbers }
    }

    /// How many of them are below the bound.
    pub(crate) fn below(&self, bound: u128) -> u64
        ensures { result ≡ count (λ x. nat_lt x bound) self.now }
    {
        self.numbers.as_slice().partition_point(|x| *x < bound) as u64
    }

    /// Whether the number is one of them.
    pub(crate) fn has(&self, number: u128) -> bool
        ensures { MatchBool result (In number self.now) (¬ In number self.now) }
    {
        self.numbers.as_slice().binary_search(&number).is_ok()
    }
}
