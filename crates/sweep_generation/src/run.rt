//! Moves one after another. What holds behind each step holds behind them all; that each span is swept once between two mark
//! ends is a law of whole runs, and stands here for that reason.

ghost use Rattle.std.specs.Prelude.{◌≡◌, ◌≢◌, Ok, Err};
ghost use Rattle.sweep_laws.specs.Owned.{Owned};
ghost use Rattle.sweep_laws.specs.Once.{Once};
ghost use Rattle.sweep_laws.specs.Run.{Runs};
ghost use Rattle.sweep_laws.specs.Tidy.{IsTidy, HasSpace, AreProvided};

use crate::state::Core;
use crate::steps::step_by;
use fallible_list::List;
use sweep_laws::{Move, StepFault};

// Does moves up to the first that a step refuses.
fn run_all(core: &mut Core, moves: &[Move]) -> Result<(), StepFault>
    ensures { Runs core.old core.new moves.now result }
{
    for mv in moves {
        let answer = step_by(core, mv);
        answer?;
    }
    Ok(())
}

/// Does moves one after another, and stops at the first that a step refuses, with the moves before it done.
/// Memory does not run out where `step` says so of each move: a list has one Take at most that is provided for, since
/// a Take uses up the prepared life.
pub fn run_moves(core: &mut Core, moves: &List<Move>) -> Result<(), StepFault>
    // what was done
    ensures exact { Runs core.old core.new moves.now result }

    // what stays
    ensures owned { Owned core.old → Owned core.new }
    ensures tidy { Owned core.old → IsTidy core.old → IsTidy core.new }
    ensures room { core.new.room ≡ core.old.room }

    // where the core has space
    ensures space { HasSpace core.old → AreProvided core.old moves.now → HasSpace core.new }
    ensures memory { Owned core.old → IsTidy core.old → HasSpace core.old → AreProvided core.old moves.now → result ≢ Err StepFault.NoMemory }

    // each span is swept once
    ensures once { Owned core.old → result ≡ Ok tt → Once core.old moves.now }
{
    run_all(core, moves.as_slice())
}
