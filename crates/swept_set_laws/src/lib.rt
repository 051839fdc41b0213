//! What the cells and claims of the swept sets name, popped ones included: a law over plain lists.
//!
//! `specs/Entered.antt` has the rule: in a swept set the cells and claims below the tail name different pages, at which
//! swept lives of the set's class begin that have an object, and in a full set no free index; and a log's pops are pops of
//! cells. So a set's tail is at most the number of pages; and since a life has one class, no page is named twice in all partial sets
//! together, nor in all full ones, so that the tails of the swept sets add up to at most twice the pages. `specs/NamesGoOn.antt` says how what the sets name goes on at a
//! move. `proofs/` has one law for each move of span ownership: it keeps the rule, from what the move needs and what its
//! call asks. Nothing here knows a step, a table or a handle.
#![tactic(auto)]

ghost use Rattle.std.specs.Prelude.{◌≡◌, ℕ, ◌*◌, ◌<◌, ◌≤◌, List, [], length, sum, None};
ghost use Rattle.sweep_laws.specs.declared.moves.Move.{Move};
ghost use Rattle.sweep_laws.specs.State.{CoreState};
ghost use Rattle.sweep_laws.specs.Reading.{set_of};
ghost use Rattle.sweep_laws.specs.NeedsOfRange.{refusal};
ghost use Rattle.sweep_laws.specs.Needs.{claim_needs};
ghost use Rattle.sweep_laws.specs.Owned.{Owned};
ghost use Rattle.sweep_laws.specs.Start.{new_state};
ghost use Rattle.sweep_laws.specs.Step.{needs_of, after};
ghost use Rattle.worker_log.specs.declared.Entry.{Entry};
ghost use Rattle.swept_set_laws.specs.Entered.{EnteredIn, log_of};
ghost use Rattle.swept_set_laws.specs.NamesGoOn.{MayClaim, NamesGoOn};
ghost use Rattle.swept_set_laws.specs.SweptTails.{AreOfKind, swept_tails, tails_of_kind};

/// At the start the swept sets name nothing, so any names serve, where all logs are empty.
pub fn a_new_state_names_nothing()
    ensures { (pages : ℕ) (workers : ℕ) (logs : List (List Entry)) (names : ℕ → ℕ → ℕ) → ((n : ℕ) → log_of logs n ≡ []) → EnteredIn (new_state pages workers) logs names }
{}

/// Each move of span ownership that may be made keeps what the swept sets name.
pub fn a_move_keeps_what_swept_sets_name()
    ensures { (c : CoreState) (logs : List (List Entry)) (names : ℕ → ℕ → ℕ) (move : Move) (new_logs : List (List Entry)) (new_names : ℕ → ℕ → ℕ)
        → EnteredIn c logs names → Owned c → refusal (needs_of c move) ≡ None → NamesGoOn c logs names move new_logs new_names
        → EnteredIn (after c move) new_logs new_names }
{}

/// A claim that may be made finds room: in no swept set more cells were claimed than there are pages.
pub fn a_claim_finds_room()
    ensures { (c : CoreState) (logs : List (List Entry)) (names : ℕ → ℕ → ℕ) (w : ℕ) (s : ℕ) (p : ℕ) → EnteredIn c logs names → Owned c
        → refusal (claim_needs c w s p) ≡ None → MayClaim c logs w s p → (set_of c s).tail < length c.words }
{}

/// In all swept partial sets together, and in all swept full ones, the cells and claims below the tails name different pages: so the tails
/// of either kind add up to at most the number of pages, and those of the 272 swept sets to at most twice that.
pub fn swept_sets_name_a_page_once()
    ensures once { (c : CoreState) (logs : List (List Entry)) (names : ℕ → ℕ → ℕ) (k l i j : ℕ) → EnteredIn c logs names → AreOfKind c k l i j → names k i ≡ names l j → (k ≡ l) × (i ≡ j) }
    ensures kinds { (c : CoreState) (logs : List (List Entry)) (names : ℕ → ℕ → ℕ) (full : ℕ) → EnteredIn c logs names → full < 2 → sum (tails_of_kind c full 136) ≤ length c.words }
    ensures all { (c : CoreState) (logs : List (List Entry)) (names : ℕ → ℕ → ℕ) → EnteredIn c logs names → sum (swept_tails c 272) ≤ 2 * length c.words }
{}
