//! A word that is a number.

ghost use Rattle.std.specs.Prelude.{◌≡◌, ◌≢◌, ◌^◌, ◌<◌, ℕ, MatchOption, decimal};

use trace_reader::words::number;

// The number that the whole word is.
pub(crate) fn whole_number(word: &[u8]) -> Option<u128>
    ensures { MatchOption result ((n : ℕ) → n < 10 ^ 20 → word.now ≢ decimal n) (λ n. (n < 10 ^ 20) × (word.now ≡ decimal n)) }
{
    let (value, rest) = number(word)?;
    if rest.is_empty() { Some(value) } else { None }
}
