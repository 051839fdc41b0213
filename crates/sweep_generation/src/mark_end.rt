//! A mark end: the one move that touches what is of no worker. All hands must be idle and all spans of the generation before
//! swept; then the marks become what each life keeps, the sets of the other part become those to sweep, and the generation rises
//! by 2, so that each word means something else without being written.

ghost use Rattle.std.specs.Prelude.{◌≡◌, ◌≤◌, ◌<◌, ◌+◌, ◌^◌, ℕ, map, None};
ghost use Rattle.std.specs.List.{All};
ghost use Rattle.sweep_laws.specs.ChangesOfHands.{forget_swept as swept_forgotten};
ghost use Rattle.sweep_laws.specs.ChangesOfSets.{empty_unswept as unswept_emptied};
ghost use Rattle.sweep_lists.specs.Views.{hand_view, set_view, HandRoom};
ghost use Rattle.sweep_laws.specs.Needs.{next_needs};
ghost use Rattle.sweep_laws.specs.NeedsOfRange.{refusal};
ghost use Rattle.sweep_laws.specs.Step.{Steps};

use crate::state::Core;
use crate::tries_next::is_swept;
use crate::unpopped::count_unpopped;
use span_state::Marks;
use sweep_laws::{Move, Reply, StepFault};
use sweep_lists::{CoreHand, CoreSet};

// The unswept sets of a generation are emptied.
fn empty_unswept(sets: &mut [CoreSet], generation: u64)
    ensures view { map set_view sets.new ≡ unswept_emptied generation 0 (map set_view sets.old) }
    ensures room { (n : ℕ) → All (λ set. n ≤ set.cells.space) sets.old → All (λ set. n ≤ set.cells.space) sets.new }
{
    for k in 0..sets.len() {
        sets[k].empty_unless(is_swept(generation, k as u64));
    }
}

// All hands forget what they swept.
fn forget_swept(hands: &mut [CoreHand])
    ensures view { map hand_view hands.new ≡ map swept_forgotten (map hand_view hands.old) }
    ensures room { (pages n : ℕ) → All (HandRoom pages n) hands.old → All (HandRoom pages n) hands.new }
{
    for k in 0..hands.len() {
        hands[k].forget_swept();
    }
}

// Begins a cycle where each life has its marks.
fn begin_cycle(core: &mut Core)
    requires { core.old.generation < 2 ^ 63 }
    ensures { core.new ≡ record core.old { generation = core.old.generation + 2; sets = unswept_emptied core.old.generation 0 core.old.sets; hands = map swept_forgotten core.old.hands } }
{
    empty_unswept(&mut core.sets, core.generation);
    forget_swept(&mut core.hands);
    core.generation += 2;
    core.unpopped = count_unpopped(&core.sets, core.generation);
}

// Ends a mark phase.
pub(crate) fn next(core: &mut Core, marks: &[(u32, u32)]) -> Result<Reply, StepFault>
    ensures { Steps core.old core.new (Move.Next marks.now) result }
{
    core.try_next(marks)?;
    next_met(core, marks)
}

// The same where all needs are met, so that none is tried.
pub(crate) fn next_met(core: &mut Core, marks: &[(u32, u32)]) -> Result<Reply, StepFault>
    requires met { refusal (next_needs core.old marks.now) ≡ None }
    ensures { Steps core.old core.new (Move.Next marks.now) result }
{
    core.lives.mark(marks)?;
    begin_cycle(core);
    Ok(Reply::Done)
}

/// Ends a mark phase with these marks, where all needs are met: as `step_met` does with the list of their pairs, which is not
/// made. Memory runs out only where a life has more marks than objects.
pub fn next_marked(core: &mut Core, marks: &Marks) -> Result<Reply, StepFault>
    requires met { refusal (next_needs core.old marks.now.pairs) ≡ None }
    ensures { Steps core.old core.new (Move.Next marks.now.pairs) result }
{
    core.lives.mark_by(marks)?;
    begin_cycle(core);
    Ok(Reply::Done)
}
