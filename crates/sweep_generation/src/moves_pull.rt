//! Pull, Cut and Drop: the moves of a page cache (`mpagecache.go`). A Pull and a Drop are made by the holder of the heap lock. A Cut
//! writes the word of a page that its worker has pulled and the owners of such pages, at which nobody else looks: so it needs no lock.

ghost use Rattle.sweep_laws.specs.Step.{Steps};

use crate::owners::put_owner;
use crate::pulled::BLOCK_PAGES;
use crate::state::Core;
use sweep_laws::{Move, Reply, StepFault};

// The free pages of the block with the least free page go to the worker.
pub(crate) fn pull(core: &mut Core, worker: u32) -> Result<Reply, StepFault>
    ensures { Steps core.old core.new (Move.Pull worker) result }
{
    let page = core.try_pull(worker)?;
    let mut block = [0; BLOCK_PAGES as usize];
    let count = core.list_block(page, &mut block);
    core.hands[worker as usize].reserve_pulled(count)?;
    core.hands[worker as usize].pull_pages(&block[..count]);
    Ok(Reply::Done)
}

// Makes a span of pages that the worker has pulled, which it holds.
pub(crate) fn cut(
    core: &mut Core,
    worker: u32,
    page: u32,
    pages: u32,
    count: u32,
    class: u8,
) -> Result<Reply, StepFault>
    ensures { Steps core.old core.new (Move.Cut worker page pages count class) result }
{
    core.try_cut(worker, page, pages, count, class)?;
    core.lives.reserve_one()?;
    core.hands[worker as usize].reserve_held()?;
    let life = core.spare.make(core.alloc, page, pages, count, class)?;
    core.lives.push(life);
    core.hands[worker as usize].cut_span(page, pages);
    put_owner(&mut core.owners, page, pages, Some(page));
    core.words.put(page, core.generation);
    Ok(Reply::Done)
}

// Frees the pages that the worker has pulled and not cut.
pub(crate) fn drop_block(core: &mut Core, worker: u32) -> Result<Reply, StepFault>
    ensures { Steps core.old core.new (Move.Drop worker) result }
{
    core.try_drop(worker)?;
    core.hands[worker as usize].drop_pulled();
    Ok(Reply::Done)
}
