//! The words `SEED OBJECTS`.

ghost use Rattle.std.specs.Prelude.{◌≤◌, ℕ, MatchOption};
ghost use Rattle.commands.specs.Asks.{Asks};

use crate::numbers::whole_number;

/// The made trace that is wanted.
#[derive(Clone, Copy, Debug, PartialEq, Eq)]
pub struct Wanted {
    /// The seed of its words.
    pub seed: u64,
    /// Its objects, from 1 to 1000000.
    pub objects: u32,
    ghost some: { 1 ≤ objects },
    ghost few: { objects ≤ 1000000 },
}

/// What the words for the seed and the objects ask for: numbers as in a trace, in decimal digits without a sign or a leading
/// zero, the seed below 2^64 and the objects from 1 to 1000000. None exactly where they are others.
pub fn read_words(seed: &[u8], objects: &[u8]) -> Option<Wanted>
    ensures { MatchOption result ((s o : ℕ) → ¬ Asks seed.now objects.now s o) (λ wanted. Asks seed.now objects.now wanted.seed wanted.objects) }
{
    let seed = whole_number(seed)?;
    let objects = whole_number(objects)?;
    if seed > u128::from(u64::MAX) || objects < 1 || objects > 1_000_000 {
        return None;
    }
    Some(Wanted {
        seed: seed as u64,
        objects: objects as u32,
    })
}
