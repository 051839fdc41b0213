//! The sets (`mspanset.go`, `push` and `pop`). A push has two moves, since its index is given away before its cell is written:
//! Claim raises the tail, and Fill writes the cell and lets go of the span. Of swept sets an entry is the span itself, so
//! PopSwept holds it; of unswept ones it is a hint alone, so PopUnswept notes the entry, and the word decides who sweeps.

ghost use Rattle.sweep_laws.specs.Step.{Steps};

use crate::state::Core;
use sweep_laws::{Claimed, Move, Reply, StepFault};
use sweep_lists::name_page;

// Takes the next index of a swept set for a span that the worker holds.
pub(crate) fn claim(core: &mut Core, worker: u32, set: u32, page: u32) -> Result<Reply, StepFault>
    ensures { Steps core.old core.new (Move.Claim worker set page) result }
{
    core.try_claim(worker, set, page)?;
    let index = core.sets[set as usize].raise_tail();
    core.hands[worker as usize].claim_cell(Claimed { set, index, page });
    Ok(Reply::Index(index))
}

// Puts the page into the cell of the claimed index; the worker lets go of the span.
pub(crate) fn fill(core: &mut Core, worker: u32) -> Result<Reply, StepFault>
    ensures { Steps core.old core.new (Move.Fill worker) result }
{
    let claim = core.try_fill(worker)?;
    name_page(&mut core.sets, claim)?;
    core.hands[worker as usize].fill_cell(claim.page);
    Ok(Reply::Done)
}

// Takes a span out of a swept set and holds it.
pub(crate) fn pop_swept(core: &mut Core, worker: u32, set: u32) -> Result<Reply, StepFault>
    ensures { Steps core.old core.new (Move.PopSwept worker set) result }
{
    core.try_pop_swept(worker, set)?;
    let base = core.head_base(set);
    core.hands[worker as usize].hold(base)?;
    core.sets[set as usize].raise_head();
    Ok(Reply::Base(base))
}

// Takes an entry out of an unswept set.
pub(crate) fn pop_unswept(core: &mut Core, worker: u32, set: u32) -> Result<Reply, StepFault>
    ensures { Steps core.old core.new (Move.PopUnswept worker set) result }
{
    core.try_pop_unswept(worker, set)?;
    let base = core.head_base(set);
    let unpopped = core.unpopped_after_pop(set);
    core.hands[worker as usize].pop_entry(base)?;
    core.sets[set as usize].raise_head();
    core.unpopped = unpopped;
    Ok(Reply::Base(base))
}
