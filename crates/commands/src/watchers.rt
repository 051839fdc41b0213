//! The words `watch N`.

ghost use Rattle.std.specs.Prelude.{◌≡◌, ◌≢◌, ◌≤◌, ℕ, MatchOption, decimal};
ghost use Rattle.commands.specs.Watchers.{AsksWatchers};

use crate::numbers::whole_number;

/// The number of watchers that the words ask for: from 1 to 4, in decimal digits without a sign or a leading zero. None exactly
/// where the words are others.
pub fn watchers_of(words: &[String]) -> Option<u32>
    ensures { MatchOption result ((n : ℕ) → ¬ AsksWatchers words.now n) (λ n. AsksWatchers words.now n) }
{
    if words.len() != 2 || words[0].as_str() != "watch" {
        return None;
    }
    read_watchers(words[1].as_str().as_bytes())
}

// The number of watchers that the one word asks for.
fn read_watchers(word: &[u8]) -> Option<u32>
    ensures { MatchOption result ((n : ℕ) → 1 ≤ n → n ≤ 4 → word.now ≢ decimal n)
        (λ n. (1 ≤ n) × (n ≤ 4) × (word.now ≡ decimal n)) }
{
    let count = whole_number(word)?;
    if count < 1 || count > 4 {
        return None;
    }
    Some(count as u32)
}
