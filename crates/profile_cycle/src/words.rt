//! The words of a ring.
ghost use Rattle.std.specs.Prelude.{◌≡◌, ◌<◌};
ghost use Rattle.profile_cycle.specs.Words.{place, rank};

/// What a word counts.
#[derive(Clone, Copy)]
pub(crate) enum Kind {
    Allocs,
    Frees,
}

/// A word of a bucket. What waits stands apart by whether the cycle that it waits for is odd, since only two cycles ever
/// have calls that wait: the next, and the one behind it. Go keeps a third (`memRecordCycle` of `mprof.go`), since its
/// threads count while a cycle is published.
#[derive(Clone, Copy)]
pub(crate) enum Word {
    Published(Kind, u32),
    Waiting(Kind, bool, u32),
}

/// The words of a bucket stand side by side.
pub(crate) const WORDS_PER_BUCKET: usize = 6;

impl Kind {
    fn rank(self) -> usize
        ensures value { result ≡ rank self }
        ensures small { result < 2 }
    {
        match self {
            Kind::Allocs => 0,
            Kind::Frees => 1,
        }
    }
}

impl Word {
    /// Where the word stands in the table.
    pub fn place(self) -> usize
        ensures { result ≡ place self }
    {
        match self {
            Word::Published(kind, bucket) => bucket as usize * WORDS_PER_BUCKET + (kind.rank() + 1),
            Word::Waiting(kind, odd, bucket) => {
                let first = if odd { 5 } else { 3 };
                bucket as usize * WORDS_PER_BUCKET + (kind.rank() + first)
            }
        }
    }
}
