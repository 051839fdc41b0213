//! What a run of a list of moves answers, and what it leaves. Expected values are worked out by hand from the
//! table of moves.

use fallible_list::{List, NoMemory};
use std::alloc::Global;
use std::test::Fail;
use sweep_generation::{Core, Found, Move, StepFault, run_moves};

// What a run of the moves on a new core of one page and two workers, with room for a life of 341 objects, answers, the
// core's words after it and who holds the lock.
fn outcome(
    alloc: Global,
    moves: Vec<Move>,
) -> Result<(Result<(), StepFault>, u64, Option<u32>), NoMemory> {
    let mut core = Core::new(alloc, 1, 2)?;
    core.make_room()?;
    core.make_life_room(341)?;
    let answer = run_moves(&mut core, &List::from_vec(moves));
    let word = core.words().first().copied().unwrap_or(0);
    Ok((answer, word, core.lock()))
}

#[test]
fn runs_stop_at_the_first_refusal(rt: HostRuntime) -> Result<(), Fail> {
    let alloc = rt.alloc();
    let refused = |found: Found| Err(StepFault::NotAllowed { found });

    // The second worker finds the first one's lock, which stays.
    let moves = vec![in alloc; Move::Lock(0), Move::Lock(1)]?;
    let wanted = (refused(Found::Holder(Some(0))), 0, Some(0));
    assert_eq!(rt; outcome(alloc, moves)?, wanted);

    // A claimed cell that is not filled yet cannot be popped.
    let moves = vec![in alloc;
        Move::Lock(0),
        Move::Take(0, 0, 1, 341, 6),
        Move::Unlock(0),
        Move::Claim(0, 24, 0),
        Move::PopSwept(1, 24),
    ]?;
    assert_eq!(rt; outcome(alloc, moves)?, (refused(Found::Cell(0)), 4, None));

    // A cycle: the span is queued, the mark end marks nothing, and the other worker sweeps it and gives it back.
    let marks = List::new(alloc);
    let moves = vec![in alloc;
        Move::Lock(0),
        Move::Take(0, 0, 1, 341, 6),
        Move::Unlock(0),
        Move::Claim(0, 24, 0),
        Move::Fill(0),
        Move::Next(marks),
        Move::PopUnswept(1, 24),
        Move::Acquire(1, 0),
        Move::Release(1, 0),
        Move::Lock(1),
        Move::Give(1, 0),
    ]?;
    assert_eq!(rt; outcome(alloc, moves)?, (Ok(()), 0, Some(1)));

    // Nothing is done for no moves.
    assert_eq!(rt; outcome(alloc, Vec::new(alloc))?, (Ok(()), 0, None));
    Ok(())
}
