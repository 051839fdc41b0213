//! Take and Give: the moves that begin and end a life. Only the holder of the heap lock makes them (`mheap.go`, `allocSpan` and
//! `freeSpan`). Take writes the word of a page that no span has, and Give that of a span that its worker holds: so nobody else
//! looks at the word meanwhile.

ghost use Rattle.sweep_laws.specs.Step.{Steps};

use crate::owners::put_owner;
use crate::state::Core;
use sweep_laws::{Move, Reply, StepFault};

// Makes a span of free pages, which the worker holds.
pub(crate) fn take(
    core: &mut Core,
    worker: u32,
    page: u32,
    pages: u32,
    count: u32,
    class: u8,
) -> Result<Reply, StepFault>
    ensures { Steps core.old core.new (Move.Take worker page pages count class) result }
{
    core.try_take(worker, page, pages, count, class)?;
    core.lives.reserve_one()?;
    core.hands[worker as usize].reserve_held()?;
    let life = core.spare.make(core.alloc, page, pages, count, class)?;
    core.lives.push(life);
    core.hands[worker as usize].take_hold(page);
    put_owner(&mut core.owners, page, pages, Some(page));
    core.words.put(page, core.generation);
    Ok(Reply::Done)
}

// Gives a span without objects back: its pages are free again.
pub(crate) fn give(core: &mut Core, worker: u32, page: u32) -> Result<Reply, StepFault>
    ensures { Steps core.old core.new (Move.Give worker page) result }
{
    core.try_give(worker, page)?;
    core.hands[worker as usize].let_go(page);
    let pages = core.lives.drop_life(page);
    put_owner(&mut core.owners, page, pages, None);
    core.words.put(page, 0);
    Ok(Reply::Done)
}
