use fallible_list::List;
use std::alloc::Global;
use std::process::Abort;
use std::test::Fail;
use sweep_generation::{Core, CoreSet, Entries, Found, Move, Reply, Role, StepFault, role, step};

type Answer = Result<Reply, StepFault>;

const DONE: Answer = Ok(Reply::Done);

const RANGE: Answer = Err(StepFault::NotAllowed {
    found: Found::Range,
});

// The answer of a refused move.
fn not(found: Found) -> Answer {
    Err(StepFault::NotAllowed { found })
}

fn word(found: u64) -> Answer {
    not(Found::Word(found))
}

fn holder(found: u32) -> Answer {
    not(Found::Holder(Some(found)))
}

fn index(found: u32) -> Answer {
    not(Found::Index(Some(found)))
}

const NOBODY: Answer = Err(StepFault::NotAllowed {
    found: Found::Holder(None),
});

const NO_INDEX: Answer = Err(StepFault::NotAllowed {
    found: Found::Index(None),
});

// Makes a move and compares its answer.
fn gives(rt: &impl Abort, core: &mut Core, mv: Move, want: Answer) {
    let got = step(core, mv);
    assert_eq!(rt; got, want);
}

// A mark end with these marks.
fn next(alloc: Global, marks: &[(u32, u32)]) -> Result<Move, Fail> {
    let marks = Vec::from_slice(alloc, marks)?;
    Ok(Move::Next(List::from_vec(marks)))
}

#[test]
fn roles_of_words(rt: HostRuntime) {
    let words = [0, 4, 5, 6, 7, 9, 8];
    let roles = [
        Role::Nothing,
        Role::Unswept,
        Role::Sweeping,
        Role::Swept,
        Role::StaleCached,
        Role::Cached,
        Role::Foreign,
    ];
    for (word, want) in words.iter().zip(&roles) {
        assert_eq!(rt; role(*word, 6), *want);
    }
}

// The lock of one page, which two workers ask for.
fn locks(rt: &impl Abort, core: &mut Core) {
    gives(rt, core, Move::Acquire(0, 0), word(0));
    gives(rt, core, Move::Lock(0), DONE);
    gives(rt, core, Move::Lock(1), holder(0));
    assert_eq!(rt; core.lock(), Some(0));
}

#[test]
fn lock_of_a_page(rt: HostRuntime) -> Result<(), Fail> {
    let mut core = Core::new(rt.alloc(), 1, 2)?;
    locks(&rt, &mut core);
    Ok(())
}

// A span is taken, and claims a cell that is not filled.
fn first_claim(rt: &impl Abort, core: &mut Core) -> Result<(), Fail> {
    core.make_room()?;
    core.make_life_room(341)?;
    gives(rt, core, Move::Lock(0), DONE);
    gives(rt, core, Move::Take(0, 0, 1, 341, 6), DONE);
    gives(rt, core, Move::Unlock(0), DONE);
    gives(rt, core, Move::Claim(0, 24, 0), Ok(Reply::Index(0)));
    gives(rt, core, Move::PopSwept(1, 24), not(Found::Cell(0)));
    Ok(())
}

#[test]
fn claim_of_a_page(rt: HostRuntime) -> Result<(), Fail> {
    let mut core = Core::new(rt.alloc(), 1, 2)?;
    first_claim(&rt, &mut core)
}

// Generation 4 of eight pages and three workers. The lock, and a Take without it.
fn without_lock(rt: &impl Abort, core: &mut Core) {
    gives(rt, core, Move::Lock(3), RANGE);
    gives(rt, core, Move::Unlock(0), NOBODY);
    gives(rt, core, Move::Take(0, 0, 1, 10, 6), NOBODY);
    gives(rt, core, Move::Lock(0), DONE);
    gives(rt, core, Move::Unlock(1), holder(0));
    gives(rt, core, Move::Take(1, 0, 0, 10, 6), holder(0));
}

// What a Take asks of its numbers.
fn ranges_of_take(rt: &impl Abort, core: &mut Core) {
    gives(rt, core, Move::Take(0, 8, 0, 10, 6), RANGE);
    gives(rt, core, Move::Take(0, 7, 2, 10, 6), RANGE);
    gives(rt, core, Move::Take(0, 0, 1, 10, 136), RANGE);
    gives(rt, core, Move::Take(0, 0, 0, 10, 6), RANGE);
    gives(rt, core, Move::Take(0, 0, 1, 0, 6), RANGE);
}

// Spans are taken at 2 (class 6), 0 (large) and 4 (class 7).
fn takes(rt: &impl Abort, core: &mut Core) {
    gives(rt, core, Move::Take(0, 2, 2, 3, 6), DONE);
    gives(rt, core, Move::Take(0, 0, 4, 3, 6), not(Found::Owner(2)));
    gives(rt, core, Move::Take(0, 0, 1, 1, 0), DONE);
    gives(rt, core, Move::Take(0, 4, 1, 3, 7), DONE);
    gives(rt, core, Move::Give(1, 2), holder(0));
    gives(rt, core, Move::Give(0, 1), NOBODY);
    gives(rt, core, Move::Unlock(0), DONE);
}

// Cache and Allocate while the spans are held.
fn at_hand(rt: &impl Abort, core: &mut Core) {
    gives(rt, core, Move::Cache(1, 2), holder(0));
    gives(rt, core, Move::Allocate(1, 2, 0), holder(0));
    gives(rt, core, Move::Allocate(0, 1, 0), NOBODY);
    gives(rt, core, Move::Allocate(0, 2, 0), word(4));
    gives(rt, core, Move::Allocate(0, 0, 1), index(0));
    gives(rt, core, Move::Allocate(0, 0, 0), DONE);
    gives(rt, core, Move::Allocate(0, 0, 0), NO_INDEX);
}

// Allocate while the span at 2 is cached.
fn from_the_cache(rt: &impl Abort, core: &mut Core) {
    gives(rt, core, Move::Cache(0, 2), DONE);
    gives(rt, core, Move::Cache(0, 2), NOBODY);
    gives(rt, core, Move::Allocate(0, 2, 1), index(0));
    gives(rt, core, Move::Allocate(0, 2, 0), DONE);
    gives(rt, core, Move::Allocate(0, 2, 1), DONE);
    gives(rt, core, Move::Allocate(1, 2, 2), holder(0));
}

// The span at 2 leaves the cache.
fn out_of_the_cache(rt: &impl Abort, core: &mut Core) {
    gives(rt, core, Move::Uncache(1, 2), holder(0));
    gives(rt, core, Move::StaleUncache(0, 2), word(7));
    gives(rt, core, Move::Acquire(0, 2), word(7));
    gives(rt, core, Move::Release(0, 2), NOBODY);
    gives(rt, core, Move::Uncache(0, 2), DONE);
    gives(rt, core, Move::Uncache(0, 2), NOBODY);
}

// The sets of generation 4: part 0 is swept. A Claim.
fn claims(rt: &impl Abort, core: &mut Core) {
    gives(rt, core, Move::Claim(0, 25, 2), RANGE);
    gives(rt, core, Move::Claim(0, 24, 1), RANGE);
    gives(rt, core, Move::Claim(0, 28, 2), RANGE);
    gives(rt, core, Move::Claim(0, 544, 2), RANGE);
    gives(rt, core, Move::Claim(1, 24, 2), holder(0));
    gives(rt, core, Move::Claim(0, 24, 2), Ok(Reply::Index(0)));
}

// What a worker with a claim may not do.
fn with_a_claim(rt: &impl Abort, core: &mut Core) {
    gives(rt, core, Move::Claim(0, 28, 4), index(0));
    gives(rt, core, Move::Cache(0, 4), index(0));
    gives(rt, core, Move::Lock(0), DONE);
    gives(rt, core, Move::Give(0, 4), index(0));
    gives(rt, core, Move::Give(0, 2), index(0));
}

// Pops of sets without a filled cell.
fn pops_of_nothing(rt: &impl Abort, core: &mut Core) {
    gives(rt, core, Move::PopSwept(1, 24), not(Found::Cell(0)));
    gives(rt, core, Move::PopSwept(1, 28), not(Found::HeadTail(0, 0)));
    gives(rt, core, Move::PopSwept(1, 25), RANGE);
    gives(rt, core, Move::PopUnswept(1, 24), RANGE);
    gives(
        rt,
        core,
        Move::PopUnswept(1, 25),
        not(Found::HeadTail(0, 0)),
    );
    gives(rt, core, Move::Unlock(0), DONE);
}

// Cells are filled and popped.
fn fills(rt: &impl Abort, core: &mut Core) {
    gives(rt, core, Move::Fill(1), NO_INDEX);
    gives(rt, core, Move::Fill(0), DONE);
    gives(rt, core, Move::PopSwept(1, 24), Ok(Reply::Base(2)));
    gives(rt, core, Move::Claim(1, 24, 2), Ok(Reply::Index(1)));
    gives(rt, core, Move::Fill(1), DONE);
    gives(rt, core, Move::Claim(0, 2, 0), Ok(Reply::Index(0)));
    gives(rt, core, Move::Fill(0), DONE);
    gives(rt, core, Move::Claim(0, 28, 4), Ok(Reply::Index(0)));
}

// Generation 6: the sets of part 0 are unswept.
fn pops_of_unswept(rt: &impl Abort, core: &mut Core) {
    gives(rt, core, Move::PopSwept(0, 24), RANGE);
    gives(rt, core, Move::PopUnswept(0, 24), Ok(Reply::Base(2)));
    gives(
        rt,
        core,
        Move::PopUnswept(0, 24),
        not(Found::HeadTail(2, 2)),
    );
    gives(rt, core, Move::DropPopped(1, 2), holder(0));
    gives(rt, core, Move::DropPopped(0, 2), word(4));
}

// The span at 2 is swept, and the entry leaves the popped ones.
fn sweeps(rt: &impl Abort, core: &mut Core) {
    gives(rt, core, Move::Acquire(0, 2), DONE);
    gives(rt, core, Move::Acquire(1, 2), word(5));
    gives(rt, core, Move::DropPopped(0, 2), NOBODY);
    gives(rt, core, Move::Release(1, 2), holder(0));
    gives(rt, core, Move::Release(0, 2), DONE);
}

// The span at 4 is swept by one worker and popped by another, and given back.
fn sweep_of_another(rt: &impl Abort, core: &mut Core) {
    gives(rt, core, Move::Acquire(2, 4), DONE);
    gives(rt, core, Move::PopUnswept(1, 28), Ok(Reply::Base(4)));
    gives(rt, core, Move::DropPopped(1, 4), DONE);
    gives(rt, core, Move::Release(2, 4), DONE);
    gives(rt, core, Move::Lock(2), DONE);
    gives(rt, core, Move::Give(2, 4), DONE);
    gives(rt, core, Move::Unlock(2), DONE);
    gives(rt, core, Move::Cache(0, 2), DONE);
    gives(rt, core, Move::Allocate(0, 2, 0), DONE);
}

// Generation 8: the span at 2 was cached before the mark end.
fn stale_cached(rt: &impl Abort, core: &mut Core) {
    gives(rt, core, Move::Allocate(0, 2, 1), word(9));
    gives(rt, core, Move::StaleUncache(1, 2), holder(0));
    gives(rt, core, Move::Uncache(0, 2), word(9));
    gives(rt, core, Move::StaleUncache(0, 2), DONE);
    gives(rt, core, Move::Release(0, 2), DONE);
}

// Both spans are swept and queued.
fn queued_again(rt: &impl Abort, core: &mut Core) {
    gives(rt, core, Move::Acquire(1, 0), DONE);
    gives(rt, core, Move::Release(1, 0), DONE);
    gives(rt, core, Move::Claim(0, 24, 2), Ok(Reply::Index(0)));
    gives(rt, core, Move::Fill(0), DONE);
    gives(rt, core, Move::Claim(1, 2, 0), Ok(Reply::Index(0)));
    gives(rt, core, Move::Fill(1), DONE);
}

fn first_cycle(rt: &impl Abort, core: &mut Core) {
    without_lock(rt, core);
    ranges_of_take(rt, core);
    takes(rt, core);
    at_hand(rt, core);
    from_the_cache(rt, core);
    out_of_the_cache(rt, core);
}

fn first_sets(rt: &impl Abort, core: &mut Core) {
    claims(rt, core);
    with_a_claim(rt, core);
    pops_of_nothing(rt, core);
    fills(rt, core);
}

// What the first mark end asks for, and its marks.
fn first_mark_end(rt: &impl Abort, alloc: Global, core: &mut Core) -> Result<(), Fail> {
    gives(rt, core, Move::Lock(2), DONE);
    gives(rt, core, next(alloc, &[])?, holder(2));
    gives(rt, core, Move::Unlock(2), DONE);
    gives(rt, core, next(alloc, &[])?, holder(0));
    gives(rt, core, Move::Fill(0), DONE);
    Ok(())
}

fn marks_of_the_first(rt: &impl Abort, alloc: Global, core: &mut Core) -> Result<(), Fail> {
    gives(rt, core, next(alloc, &[(2, 1), (2, 0)])?, RANGE);
    gives(rt, core, next(alloc, &[(2, 1), (2, 1)])?, RANGE);
    let marks = [(2, 1), (2, 2), (9, 0)];
    gives(rt, core, next(alloc, &marks)?, index(2));
    gives(rt, core, next(alloc, &[(9, 0)])?, index(0));
    gives(rt, core, next(alloc, &[(0, 0), (2, 1)])?, DONE);
    Ok(())
}

// The second mark end: the span at 0 is to be swept first.
fn second_mark_end(rt: &impl Abort, alloc: Global, core: &mut Core) -> Result<(), Fail> {
    gives(rt, core, next(alloc, &[])?, word(4));
    gives(rt, core, Move::PopUnswept(1, 2), Ok(Reply::Base(0)));
    gives(rt, core, Move::Acquire(1, 0), DONE);
    gives(rt, core, next(alloc, &[])?, holder(1));
    gives(rt, core, Move::Release(1, 0), DONE);
    gives(rt, core, Move::Claim(1, 3, 0), Ok(Reply::Index(0)));
    gives(rt, core, Move::Fill(1), DONE);
    gives(rt, core, next(alloc, &[(0, 0), (2, 0)])?, DONE);
    Ok(())
}

// The third mark end: an unswept set has an entry left.
fn third_mark_end(rt: &impl Abort, alloc: Global, core: &mut Core) -> Result<(), Fail> {
    let unpopped = not(Found::HeadTail(0, 1));
    gives(rt, core, next(alloc, &[])?, unpopped);
    gives(rt, core, Move::PopUnswept(2, 3), Ok(Reply::Base(0)));
    gives(rt, core, Move::DropPopped(2, 0), DONE);
    gives(rt, core, next(alloc, &[])?, DONE);
    Ok(())
}

// Four generations, with a mark end behind each of the first three.
fn generations(rt: &impl Abort, alloc: Global, core: &mut Core) -> Result<(), Fail> {
    first_cycle(rt, core);
    first_sets(rt, core);
    first_mark_end(rt, alloc, core)?;
    marks_of_the_first(rt, alloc, core)?;
    pops_of_unswept(rt, core);
    sweeps(rt, core);
    sweep_of_another(rt, core);
    second_mark_end(rt, alloc, core)?;
    stale_cached(rt, core);
    queued_again(rt, core);
    third_mark_end(rt, alloc, core)?;
    assert_eq!(rt; core.generation(), 10);
    Ok(())
}

#[test]
fn three_cycles(rt: HostRuntime) -> Result<(), Fail> {
    let mut core = Core::new(rt.alloc(), 8, 3)?;
    generations(&rt, rt.alloc(), &mut core)
}

// A mark end needs a generation behind it.
fn last_generation(rt: &impl Abort, alloc: Global, core: &mut Core) -> Result<(), Fail> {
    gives(rt, core, next(alloc, &[])?, word(1 << 63));
    Ok(())
}

#[test]
fn generations_are_limited(rt: HostRuntime) -> Result<(), Fail> {
    let alloc = rt.alloc();
    let mut core = Core::with_sets(alloc, 1, 1, 1 << 63, List::new(alloc))?;
    last_generation(&rt, alloc, &mut core)
}

// A set whose tail is at its limit, behind seven entries that left it.
fn full_set(alloc: Global) -> Result<List<CoreSet>, Fail> {
    let mut sets = Vec::new(alloc);
    sets.push(CoreSet {
        head: 7,
        tail: 4294967295,
        cells: Entries::new(alloc),
    })?;
    Ok(List::from_vec(sets))
}

// A claim in that set.
fn claim_behind_the_limit(rt: &impl Abort, core: &mut Core) {
    gives(rt, core, Move::Lock(0), DONE);
    gives(rt, core, Move::Take(0, 0, 5, 1, 0), DONE);
    gives(
        rt,
        core,
        Move::Claim(0, 0, 0),
        not(Found::HeadTail(7, 4294967295)),
    );
}

#[test]
fn tails_are_limited(rt: HostRuntime) -> Result<(), Fail> {
    let alloc = rt.alloc();
    let mut core = Core::with_sets(alloc, 5, 1, 4, full_set(alloc)?)?;
    claim_behind_the_limit(&rt, &mut core);
    Ok(())
}

// A region of 130 pages and two workers: blocks of pages 0 to 63, 64 to 127, and 128 and 129. A span stands at pages 1 and 2.
fn pulls(rt: &impl Abort, core: &mut Core) {
    gives(rt, core, Move::Pull(2), RANGE);
    gives(rt, core, Move::Pull(0), NOBODY);
    gives(rt, core, Move::Lock(0), DONE);
    gives(rt, core, Move::Take(0, 1, 2, 5, 6), DONE);
    gives(rt, core, Move::Pull(1), holder(0));
    gives(rt, core, Move::Pull(0), DONE);
    gives(rt, core, Move::Pull(0), index(0));
}

// The first page of a run that is not free decides what a Take finds.
fn takes_of_pulled_pages(rt: &impl Abort, core: &mut Core) {
    gives(rt, core, Move::Take(0, 0, 3, 5, 6), index(0));
    gives(rt, core, Move::Take(0, 2, 2, 5, 6), not(Found::Owner(1)));
    gives(rt, core, Move::Take(0, 63, 2, 5, 6), index(63));
    gives(rt, core, Move::Unlock(0), DONE);
}

// A worker cuts its own pulled pages alone, without the lock.
fn cuts(rt: &impl Abort, core: &mut Core) {
    gives(rt, core, Move::Cut(0, 130, 1, 8, 6), RANGE);
    gives(rt, core, Move::Cut(0, 129, 2, 8, 6), RANGE);
    gives(rt, core, Move::Cut(0, 3, 2, 8, 136), RANGE);
    gives(rt, core, Move::Cut(0, 3, 0, 8, 6), RANGE);
    gives(rt, core, Move::Cut(0, 3, 2, 0, 6), RANGE);
    gives(rt, core, Move::Cut(1, 3, 2, 8, 6), index(3));
    gives(rt, core, Move::Cut(0, 0, 2, 8, 6), index(1));
    gives(rt, core, Move::Cut(0, 63, 2, 8, 6), index(64));
    gives(rt, core, Move::Cut(0, 3, 2, 8, 6), DONE);
    gives(rt, core, Move::Cut(0, 4, 1, 8, 6), index(4));
    gives(rt, core, Move::Cache(0, 3), DONE);
}

// The other worker pulls the block behind. What is left of a block is free again after a Drop, one of nothing included.
fn drops(rt: &impl Abort, core: &mut Core) {
    gives(rt, core, Move::Drop(0), NOBODY);
    gives(rt, core, Move::Lock(1), DONE);
    gives(rt, core, Move::Pull(1), DONE);
    gives(rt, core, Move::Drop(0), holder(1));
    gives(rt, core, Move::Take(1, 128, 2, 5, 6), DONE);
    gives(rt, core, Move::Drop(1), DONE);
    gives(rt, core, Move::Drop(1), DONE);
    gives(rt, core, Move::Take(1, 64, 64, 5, 6), DONE);
    gives(rt, core, Move::Pull(1), NO_INDEX);
    gives(rt, core, Move::Unlock(1), DONE);
}

// How many pages are left of the block of worker 0.
fn left(core: &Core) -> Option<usize> {
    Some(core.hands().first()?.pulled.len())
}

// The page of this place among those that are left of the block of worker 0, lowest first.
fn page_left(core: &Core, place: usize) -> Option<u32> {
    Some(*core.hands().first()?.pulled.as_slice().get(place)?)
}

// The first page of the span that has this page.
fn owner(core: &Core, page: usize) -> Option<u32> {
    *core.owners().get(page)?
}

#[test]
fn blocks_of_two_workers(rt: HostRuntime) -> Result<(), Fail> {
    let mut core = Core::new(rt.alloc(), 130, 2)?;
    pulls(&rt, &mut core);
    takes_of_pulled_pages(&rt, &mut core);
    cuts(&rt, &mut core);
    assert_eq!(rt; left(&core), Some(60));
    assert_eq!(rt; page_left(&core, 0), Some(0));
    assert_eq!(rt; page_left(&core, 1), Some(5));
    assert_eq!(rt; owner(&core, 4), Some(3));
    drops(&rt, &mut core);
    Ok(())
}

// A mark end is refused while a block is out: behind what hands hold, and before a claim.
fn mark_end_with_a_block(rt: &impl Abort, alloc: Global, core: &mut Core) -> Result<(), Fail> {
    gives(rt, core, Move::Lock(1), DONE);
    gives(rt, core, Move::Take(1, 0, 128, 1, 0), DONE);
    gives(rt, core, Move::Pull(1), DONE);
    gives(rt, core, Move::Unlock(1), DONE);
    gives(rt, core, next(alloc, &[])?, holder(1));
    gives(rt, core, Move::Claim(1, 0, 0), Ok(Reply::Index(0)));
    gives(rt, core, Move::Fill(1), DONE);
    gives(rt, core, next(alloc, &[])?, index(128));
    gives(rt, core, Move::Cut(1, 128, 1, 8, 6), DONE);
    gives(rt, core, Move::Cache(1, 128), DONE);
    gives(rt, core, next(alloc, &[])?, index(129));
    gives(rt, core, Move::Cut(1, 129, 1, 8, 6), DONE);
    gives(rt, core, Move::Cache(1, 129), DONE);
    gives(rt, core, next(alloc, &[])?, DONE);
    Ok(())
}

#[test]
fn a_block_before_a_mark_end(rt: HostRuntime) -> Result<(), Fail> {
    let alloc = rt.alloc();
    let mut core = Core::new(alloc, 130, 2)?;
    mark_end_with_a_block(&rt, alloc, &mut core)
}
