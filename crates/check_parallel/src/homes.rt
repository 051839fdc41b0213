//! The pieces of the objects.

ghost use Rattle.std.specs.Prelude.{◌≡◌, IfOk};
ghost use Rattle.check_parallel.specs.Homes.{AreHomes, home_at};

use cycle_history::Answer;
use edge_io::NoMemory;
use rayon::prelude::*;
use report_check::{Item, Pieces};
use std::alloc::Global;
use std::thread::Threads;

/// The home of an object that has no place: no piece's number.
const NOWHERE: u8 = 255;

/// The number of the piece of each object, of so many pieces.
pub(crate) fn homes_of<R: Threads + Sync>(
    rt: &R,
    alloc: Global,
    items: &[Item],
    pieces: Pieces,
) -> Result<Vec<u8>, NoMemory>
    ensures { IfOk result (λ homes. AreHomes pieces.count items.now homes.items) }
{
    let homes = items
        .par_iter()
        .map(
            |item: &Item| -> u8
                ensures { result ≡ home_at pieces.count item.now }
            { home_of(item, pieces) },
        )
        .collect::<Vec<_>>(rt, alloc)?;
    Ok(homes)
}

// The number of the piece of an object.
fn home_of(item: &Item, pieces: Pieces) -> u8
    ensures { result ≡ home_at pieces.count item.now }
{
    match item.answer {
        Answer::Placed(_) => (u32::from(item.class) / 2 % pieces.count) as u8,
        _ => NOWHERE,
    }
}
