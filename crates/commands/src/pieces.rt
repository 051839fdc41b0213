//! The words `check --pieces=N`.

ghost use Rattle.std.specs.Prelude.{◌≡◌, ◌≢◌, ◌≤◌, ◌++◌, ℕ, MatchOption, codes, decimal};
ghost use Rattle.commands.specs.Pieces.{AsksPieces};

use crate::numbers::whole_number;
use trace_reader::words::after;

/// The number of pieces that the words ask for: from 1 to 64, in decimal digits without a sign or a leading zero. None exactly
/// where the words are others.
pub fn pieces_of(words: &[String]) -> Option<u32>
    ensures { MatchOption result ((n : ℕ) → ¬ AsksPieces words.now n) (λ n. AsksPieces words.now n) }
{
    if words.len() != 2 || words[0].as_str() != "check" {
        return None;
    }
    read_pieces(words[1].as_str().as_bytes())
}

// The number of pieces that the one word asks for.
fn read_pieces(word: &[u8]) -> Option<u32>
    ensures { MatchOption result ((n : ℕ) → 1 ≤ n → n ≤ 64 → word.now ≢ codes "--pieces=" ++ decimal n)
        (λ n. (1 ≤ n) × (n ≤ 64) × (word.now ≡ codes "--pieces=" ++ decimal n)) }
{
    let count = whole_number(after(word, b"--pieces=")?)?;
    if count < 1 || count > 64 {
        return None;
    }
    Some(count as u32)
}
