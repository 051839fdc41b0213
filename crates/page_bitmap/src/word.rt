//! Ones in a word of 64 bits.

ghost use Rattle.std.specs.Prelude.{◌≡◌, ℕ, ◌+◌, ◌-◌, ◌<◌, ◌≤◌, true, false, IfSome, IfNone};
ghost use Rattle.page_bitmap.specs.Words.{has_bit};
ghost use Rattle.page_bitmap.specs.WordRuns.{
  IsBitRun,
  IsFirstBitRun,
  IsHighOnes,
  IsLowOnes,
  IsStartsOf,
};

/// The word with ones from the place `low` on, below `high`.
pub fn span(low: u32, high: u32) -> u64
    requires low { low < 64 }
    requires some { 1 ≤ high }
    requires high { high ≤ 64 }
    ensures inside { (k : ℕ) → low ≤ k → k < high → has_bit result k ≡ true }
    ensures below { (k : ℕ) → k < low → has_bit result k ≡ false }
    ensures above { (k : ℕ) → high ≤ k → has_bit result k ≡ false }
{
    (u64::MAX << low) & (u64::MAX >> (64 - high))
}

/// The word with the places from `low` on, below `high`, set to the value.
pub fn with_span(word: u64, low: u32, high: u32, value: bool) -> u64
    requires low { low < 64 }
    requires some { 1 ≤ high }
    requires high { high ≤ 64 }
    ensures inside { (k : ℕ) → low ≤ k → k < high → has_bit result k ≡ value }
    ensures below { (k : ℕ) → k < low → has_bit result k ≡ has_bit word k }
    ensures above { (k : ℕ) → high ≤ k → k < 64 → has_bit result k ≡ has_bit word k }
{
    let mask = span(low, high);
    if value { word | mask } else { word & !mask }
}

/// How many ones the word has at its low end.
pub fn low_ones(word: u64) -> u32
    ensures { IsLowOnes word result }
{
    word.trailing_ones()
}

/// How many ones the word has at its high end.
pub fn high_ones(word: u64) -> u32
    ensures { IsHighOnes word result }
{
    word.leading_ones()
}

/// The lowest place with a one.
pub fn lowest_one(word: u64) -> Option<u32>
    ensures one { IfSome result (λ place. (place < 64) × (has_bit word place ≡ true)) }
    ensures lowest { IfSome result (λ place. (k : ℕ) → k < place → has_bit word k ≡ false) }
    ensures none { IfNone result ((k : ℕ) → has_bit word k ≡ false) }
{
    if word == 0 {
        None
    } else {
        Some(word.trailing_zeros())
    }
}

/// The highest place with a one.
pub fn highest_one(word: u64) -> Option<u32>
    ensures one { IfSome result (λ place. (place < 64) × (has_bit word place ≡ true)) }
    ensures highest { IfSome result (λ place. (k : ℕ) → place < k → has_bit word k ≡ false) }
    ensures none { IfNone result ((k : ℕ) → has_bit word k ≡ false) }
{
    if word == 0 {
        None
    } else {
        Some(63 - word.leading_zeros())
    }
}

/// The places where `n` ones begin: to have twice as many ones from a place on is to have that many there
/// and that many behind them (`mpallocbits.go`, `findBitRange64`).
fn run_starts(word: u64, n: u32) -> u64
    requires some { 1 ≤ n }
    requires word { n ≤ 64 }
    ensures { IsStartsOf word n result }
{
    let mut starts = word;
    let mut have = 1;
    while have < n && starts != 0 {
        let step = have.min(n - have);
        starts &= starts >> step;
        have += step;
    }
    starts
}

/// The lowest place where `n` ones begin.
pub fn first_run(word: u64, n: u32) -> Option<u32>
    requires { 1 ≤ n }
    ensures found { IfSome result (λ place. IsFirstBitRun word n place) }
    ensures none { IfNone result ((place : ℕ) → ¬ IsBitRun word place n) }
{
    if n <= 64 {
        lowest_one(run_starts(word, n))
    } else {
        None
    }
}

/// The length of the word's longest run of ones, or `least` where that is more.
pub fn longest_run(word: u64, least: u32) -> u32
    ensures least { least ≤ result }
    ensures longest { (place n : ℕ) → IsBitRun word place n → n ≤ result }
    ensures run { least < result → (place : ℕ) × IsBitRun word place result }
{
    if least >= 64 {
        return least;
    }
    let mut longest = least;
    let mut starts = run_starts(word, least + 1);
    while starts != 0 {
        longest += 1;
        starts &= starts >> 1;
    }
    longest
}
