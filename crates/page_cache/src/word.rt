//! Runs of ones in a word of 64 bits.

ghost use Rattle.std.specs.Prelude.{◌≡◌, ℕ, ◌+◌, ◌<◌, ◌≤◌, IfSome, IfNone};
ghost use Rattle.page_cache.specs.Counts.{count_below};
ghost use Rattle.page_cache.specs.Words.{has_bit};
ghost use Rattle.page_cache.specs.Runs.{HasNoRun, IsFirstRun, IsRun, LosesRun};
ghost use Rattle.page_cache.specs.Starts.{IsStartsOf};

/// The places where `n` ones begin: to have twice as many ones from a place on is to have that many there and that many behind them
/// (`findBitRange64` of `mpallocbits.go`).
fn run_starts(word: u64, n: u32) -> u64
    requires some { 1 ≤ n }
    requires word { n ≤ 64 }
    ensures { IsStartsOf word n result }
{
    let mut starts = word;
    let mut have = 1;
    while have < n && starts != 0 {
        let step = have.min(n - have);
        starts &= starts >> step;
        have += step;
    }
    starts
}

/// The lowest place where `n` ones begin (`findBitRange64` of `mpallocbits.go`).
pub fn first_run(word: u64, n: u32) -> Option<u32>
    requires some { 1 ≤ n }
    requires word { n ≤ 64 }
    ensures found { IfSome result (λ place. IsFirstRun (has_bit word) n place) }
    ensures within { IfSome result (λ place. place + n ≤ 64) }
    ensures none { IfNone result (HasNoRun (has_bit word) n) }
{
    let starts = run_starts(word, n);
    if starts == 0 {
        return None;
    }
    Some(starts.trailing_zeros())
}

/// The word without the `n` ones from `place` on (`pageCache.allocN` of `mpagecache.go`).
pub fn without_run(word: u64, place: u32, n: u32) -> u64
    requires some { 1 ≤ n }
    requires within { place + n ≤ 64 }
    requires ones { IsRun (has_bit word) place n }
    ensures places { LosesRun (has_bit word) (has_bit result) place n }
    ensures fewer { count_below 64 (has_bit result) + 1 ≤ count_below 64 (has_bit word) }
{
    word & !((u64::MAX << place) & (u64::MAX >> (64 - (place + n))))
}
