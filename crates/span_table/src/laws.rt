//! Laws of the rule, each on a function with an empty body.
ghost use Rattle.std.specs.Prelude.{◌≡◌, ℕ, ◌<◌, List, suc, true, None, length};
ghost use lib.ListN.{get_elem?};
ghost use mathlib.Core.Option.{some};
ghost use Rattle.atomic_table.specs.Table.{State};
ghost use Rattle.sweep_laws.specs.Changes.{after_drop, after_give, after_pull, after_take};
ghost use Rattle.sweep_laws.specs.Counts.{times};
ghost use Rattle.sweep_laws.specs.State.{CoreState};
ghost use Rattle.sweep_laws.specs.Step.{after};
ghost use Rattle.sweep_laws.specs.declared.moves.Move.TheVariants.{Lock, Unlock, Take, Give, Acquire, Release, Cache, Allocate, Uncache, StaleUncache, Claim, Fill, PopSwept, PopUnswept, DropPopped, Pull, Cut, Drop, Next};
ghost use Rattle.span_laws.specs.declared.view.Part.{Part};
ghost use Rattle.span_table.specs.Running.{Running};
ghost use Rattle.span_table.specs.Same.{IsSameState};
ghost use Rattle.span_table.specs.Shown.{shown};
ghost use Rattle.span_table.specs.Turning.{Ruled, joint_of};
ghost use Rattle.span_table.specs.Sweeping.{SweepsAlone, IsCachedBy, IsSweptOnce};
ghost use Rattle.span_table.specs.declared.view.Item.{Item};
ghost use Rattle.span_table.specs.declared.view.SeatView.{SeatView};

/// The core of the rule has a free lock throughout, and the word of the lock stands apart. With the holder that the word shows, the
/// exchange that wins the lock, each store under it and each other step is the core's own move.
pub fn the_lock_stands_apart()
    // the lock, and the stores under it
    ensures lock { (c : CoreState) (n : ℕ) → shown c (suc n) ≡ after (shown c 0) (Lock n) }
    ensures unlock { (c : CoreState) (n : ℕ) → shown c 0 ≡ after (shown c (suc n)) (Unlock n) }
    ensures take { (c : CoreState) (n page pages count class : ℕ) → shown (record (after_take c n page pages count class) { lock = None }) (suc n) ≡ after (shown c (suc n)) (Take n page pages count class) }
    ensures give { (c : CoreState) (n page : ℕ) → shown (record (after_give c n page) { lock = None }) (suc n) ≡ after (shown c (suc n)) (Give n page) }
    ensures pull { (c : CoreState) (n : ℕ) → shown (record (after_pull c n) { lock = None }) (suc n) ≡ after (shown c (suc n)) (Pull n) }
    ensures drop { (c : CoreState) (n : ℕ) → shown (record (after_drop c n) { lock = None }) (suc n) ≡ after (shown c (suc n)) (Drop n) }

    // a worker's spans
    ensures cut { (c : CoreState) (lock n page pages count class : ℕ) → shown (after c (Cut n page pages count class)) lock ≡ after (shown c lock) (Cut n page pages count class) }
    ensures acquire { (c : CoreState) (lock n page : ℕ) → shown (after c (Acquire n page)) lock ≡ after (shown c lock) (Acquire n page) }
    ensures release { (c : CoreState) (lock n page : ℕ) → shown (after c (Release n page)) lock ≡ after (shown c lock) (Release n page) }
    ensures cache { (c : CoreState) (lock n page : ℕ) → shown (after c (Cache n page)) lock ≡ after (shown c lock) (Cache n page) }
    ensures uncache { (c : CoreState) (lock n page : ℕ) → shown (after c (Uncache n page)) lock ≡ after (shown c lock) (Uncache n page) }
    ensures stale_uncache { (c : CoreState) (lock n page : ℕ) → shown (after c (StaleUncache n page)) lock ≡ after (shown c lock) (StaleUncache n page) }
    ensures allocate { (c : CoreState) (lock n page index : ℕ) → shown (after c (Allocate n page index)) lock ≡ after (shown c lock) (Allocate n page index) }

    // the sets
    ensures claim { (c : CoreState) (lock n set page : ℕ) → shown (after c (Claim n set page)) lock ≡ after (shown c lock) (Claim n set page) }
    ensures fill { (c : CoreState) (lock n : ℕ) → shown (after c (Fill n)) lock ≡ after (shown c lock) (Fill n) }
    ensures pop_swept { (c : CoreState) (lock n set : ℕ) → shown (after c (PopSwept n set)) lock ≡ after (shown c lock) (PopSwept n set) }
    ensures pop_unswept { (c : CoreState) (lock n set : ℕ) → shown (after c (PopUnswept n set)) lock ≡ after (shown c lock) (PopUnswept n set) }
    ensures drop_popped { (c : CoreState) (lock n page : ℕ) → shown (after c (DropPopped n page)) lock ≡ after (shown c lock) (DropPopped n page) }

    // the mark end
    ensures next { (c : CoreState) (lock : ℕ) (marks : List (ℕ × ℕ)) → shown (after c (Next marks)) lock ≡ after (shown c lock) (Next marks) }
{}

/// In each state of the table: whoever sweeps a span is alone with it and has its body, nobody sweeps a span that somebody has cached, and
/// no span is swept twice in a cycle. The part of a seat that is out is that of its number.
pub fn a_span_is_swept_by_one()
    ensures sweeping { (R : ℕ) (s : State Item SeatView) (r : Ruled R s) (n p : ℕ) (h : Part) → get_elem? (joint_of R s r).parts n ≡ some h → 0 < times p h.sweeping → SweepsAlone (joint_of R s r) n p h }
    ensures cached { (R : ℕ) (s : State Item SeatView) (r : Ruled R s) (n p : ℕ) (h : Part) → get_elem? (joint_of R s r).parts n ≡ some h → 0 < times p h.cached → IsCachedBy (joint_of R s r) n p h }
    ensures once { (R : ℕ) (s : State Item SeatView) (r : Ruled R s) (p : ℕ) → p < R → IsSweptOnce (joint_of R s r) p }
    ensures seats { (R : ℕ) (s : State Item SeatView) (r : Ruled R s) (i : ℕ) (w : SeatView) → get_elem? s.views i ≡ some w → w.out ≡ true → get_elem? (joint_of R s r).parts w.number ≡ some w.view.own }
{}

/// Between two mark ends one state of the table shows one state of spans: words, slots and views determine who has the lock, the generation, all words, sets and
/// cells, all parts and hands, the life at each page and, while the lock is free, the pages with their journal.
pub fn the_table_shows_one_state()
    ensures { (R : ℕ) (s : State Item SeatView) (r t : Running R s) → IsSameState R r.joint t.joint }
{}
