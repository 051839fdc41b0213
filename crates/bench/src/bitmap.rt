//! Searches in a chunk: what `bench/bitmap.sh` times. The words `CHUNK N ROUNDS` look ROUNDS times for N pages in an
//! `empty`, `checkered`, `full` or `gapped` chunk, or run the loop `alone`. The sum of what was found is answered.

ghost use Rattle.std.specs.Prelude.{◌≤◌};

use crate::stop::Stop;
use page_bitmap::Chunk;

/// What stands in the way of the search.
#[derive(Clone, Copy)]
enum Filling {
    /// There is no search.
    Alone,
    /// Every page is free.
    Empty,
    /// Every second page is free, the first included.
    Checkered,
    /// The last two pages alone are free.
    Full,
    /// Every page whose number ends a block of 32 is taken.
    Gapped,
}

impl Filling {
    fn named(word: &str) -> Option<Filling> {
        match word {
            "alone" => Some(Filling::Alone),
            "empty" => Some(Filling::Empty),
            "checkered" => Some(Filling::Checkered),
            "full" => Some(Filling::Full),
            "gapped" => Some(Filling::Gapped),
            _ => None,
        }
    }

    fn takes(self, page: u32) -> bool {
        match self {
            Filling::Alone | Filling::Empty => false,
            Filling::Checkered => page % 2 == 1,
            Filling::Full => page < 510,
            Filling::Gapped => page % 32 == 31,
        }
    }

    fn chunk(self) -> Chunk {
        let mut chunk = Chunk::new();
        for page in 0..512 {
            if self.takes(page) && chunk.find(1, page) == Some(page) {
                chunk.take(page, 1);
            }
        }
        chunk
    }
}

// The sum of the pages where the searches found `n` free ones, with 512 for none. Each search begins at a page that
// the sum before it gives, so that none can begin early.
fn searches(filling: Filling, n: u32, rounds: u64) -> u64
    requires some { 1 ≤ n }
    requires pages { n ≤ 512 }
{
    let chunk = filling.chunk();
    let mut sum = 0u64;
    for _ in 0..rounds {
        let from = (sum % 2) as u32;
        let page = match filling {
            Filling::Alone => n,
            _ => chunk.find(n, from).unwrap_or(512),
        };
        sum = sum.wrapping_add(u64::from(page));
    }
    sum
}

pub fn few() -> u64 {
    let mut sum = 0u64;
    for filling in [
        Filling::Empty,
        Filling::Checkered,
        Filling::Full,
        Filling::Gapped,
    ] {
        for n in [1, 2, 64, 512] {
            sum = sum.wrapping_add(searches(filling, n, 2));
        }
    }
    sum
}

fn searched(words: &[String]) -> Option<u64> {
    let [filling, n, rounds] = words else {
        return None;
    };
    let filling = Filling::named(filling.as_str())?;
    let n = n.as_str().parse::<u32>().ok()?;
    let rounds = rounds.as_str().parse::<u64>().ok()?;
    if 1 <= n && n <= 512 {
        Some(searches(filling, n, rounds))
    } else {
        None
    }
}

pub fn asked(words: &[String]) -> Result<u64, Stop> {
    searched(words).ok_or(Stop::Words)
}
