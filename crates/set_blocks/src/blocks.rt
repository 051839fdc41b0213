//! How many blocks there are, and how many are used.

ghost use Rattle.std.specs.Prelude.{◌≡◌, ℕ, ◌+◌, ◌*◌, ◌/◌, ◌<◌, ◌≤◌, ◌^◌, length, sum};
ghost use Rattle.set_blocks.specs.Blocks.{blocks_for as blocks_below_tails};
ghost use Rattle.set_blocks.specs.Names.{blocks_of};

use crate::parts::{BLOCK_CELLS, CHUNK_PAGES, MAX_CHUNKS, PART_SETS, SPARES};

/// How many blocks each part of the table has, for a region of at most 4096 chunks.
pub fn part_blocks(chunks: u32) -> u64
    requires { chunks ≤ MAX_CHUNKS }
    ensures { result ≡ blocks_of chunks }
{
    2 * u64::from(chunks) + PART_SETS + SPARES
}

/// How many blocks the used cells of sets with these tails take. The sets of a part, whose tails add up to at most twice the region's
/// pages, leave a block of the part for each spare.
pub fn blocks_for(tails: &[u32]) -> u64
    requires { length tails.now < 2 ^ 32 }
    ensures blocks { result ≡ blocks_below_tails tails.now }
    ensures few { (pages : ℕ) → length tails.now ≡ PART_SETS → sum tails.now ≤ 2 * pages → result ≤ pages / 256 + PART_SETS }
    ensures spares { (chunks : ℕ) → length tails.now ≡ PART_SETS → sum tails.now ≤ 2 * (CHUNK_PAGES * chunks) → result + SPARES ≤ blocks_of chunks }
{
    tails
        .iter()
        .map(|tail| u64::from(tail.div_ceil(BLOCK_CELLS)))
        .sum()
}
