ghost use Rattle.std.specs.Prelude.{◌≡◌, ◌≤◌, max};

use size_classes::PAGE_SIZE;
use std::marker::Model;

/// By how many allocated bytes the sweeping of a cycle is paced, at least a page: while so many are allocated, all pages that the mark
/// end left are to be swept (`mgcsweep.go`, `gcPaceSweeper`).
#[derive(Drop)]
pub struct Distance {
    bytes: u64,
}

impl Model for Distance {
    ghost use Rattle.size_classes.specs.declared.TheConstants.{PAGE_SIZE};
    ghost use Rattle.std.specs.Prelude.{ℕ, ◌≤◌};

    ghost Value = { ℕ };

    ghost view = { λ d. d.bytes };

    ghost invariant = { λ d. PAGE_SIZE ≤ d.bytes };
}

impl Distance {
    /// So many bytes, or a page where they are fewer.
    pub fn of(bytes: u64) -> Distance
        ensures { result ≡ max bytes PAGE_SIZE }
    {
        Distance {
            bytes: bytes.max(PAGE_SIZE),
        }
    }

    /// The bytes, at least a page.
    pub fn bytes(&self) -> u64
        ensures value { result ≡ self.now }
        ensures least { PAGE_SIZE ≤ result }
    {
        self.bytes
    }
}
