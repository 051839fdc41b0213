//! The heap lock. Any worker takes it while nobody has it, and only its holder lets it go; these two moves alone write it. It
//! guards what Take and Give write: lives and owners.

ghost use Rattle.std.specs.Prelude.{◌<◌};
ghost use Rattle.sweep_laws.specs.Step.{Steps};

use crate::state::Core;
use sweep_laws::{Move, Reply, StepFault};

// Takes the heap lock.
pub(crate) fn lock(core: &mut Core, worker: u32) -> Result<Reply, StepFault>
    ensures { Steps core.old core.new (Move.Lock worker) result }
{
    core.try_lock(worker)?;
    core.lock = Some(worker);
    Ok(Reply::Done)
}

// Lets go of the heap lock.
pub(crate) fn unlock(core: &mut Core, worker: u32) -> Result<Reply, StepFault>
    ensures { Steps core.old core.new (Move.Unlock worker) result }
{
    core.try_unlock(worker)?;
    core.lock = None;
    Ok(Reply::Done)
}
