//! What the words of spines and blocks say of the cells of sets, and whose each block is: a law over functions.
//!
//! The cells of a set stand in blocks of 512 behind a spine of entries (`set_blocks`). `specs/Blocked.antt` has the rule: each cell of a set is
//! that of the block which its entry names, or 0; an entry has its block alone; a block that no entry names holds only 0; and of the part
//! of the swept sets each block that is drawn is a worker's spare or has an entry that a used cell needs. `specs/Steps.antt` says what a step
//! makes of spines and blocks, and `proofs/` has one law for each: it keeps the rule. As the tails of the swept sets add up to at most twice
//! the pages, whoever has no spare finds a block to draw. Nothing here knows a table or a handle.
#![tactic(auto)]

ghost use Rattle.std.specs.Prelude.{◌≡◌, ◌≢◌, ℕ, suc, ◌*◌, ◌/◌, ◌%◌, ◌<◌, List, length};
ghost use Rattle.set_blocks.specs.Names.{blocks_of};
ghost use Rattle.sweep_laws.specs.Reading.{cell_of};
ghost use Rattle.sweep_laws.specs.State.{CoreState, SetState};
ghost use Rattle.swept_set_laws.specs.Entered.{EnteredIn};
ghost use Rattle.worker_log.specs.declared.Entry.{Entry};
ghost use Rattle.block_laws.specs.Blocked.{Blocked, BlockState, set_in, swept_part};
ghost use Rattle.block_laws.specs.Steps.{draws, no_blocks, puts, turns};

/// With no block drawn the rule holds of sets whose cells are all 0.
pub fn no_blocks_show_empty_sets()
    ensures { (chunks : ℕ) (g : ℕ) (sets : List SetState) → ((s i : ℕ) → cell_of (set_in sets s) i ≡ 0) → Blocked chunks g sets no_blocks }
{}

/// A worker that has no spare finds a block to draw, however many workers there are below 70.
pub fn a_draw_finds_a_block()
    ensures { (c : CoreState) (chunks : ℕ) (b : BlockState) (logs : List (List Entry)) (names : ℕ → ℕ → ℕ) (n : ℕ) → Blocked chunks c.generation c.sets b → EnteredIn c logs names
        → length c.words ≡ 512 * chunks → n < 70 → b.spare n ≡ 0 → b.drawn (swept_part c.generation) < blocks_of chunks }
{}

/// A worker may draw a block, and put it in an entry that names none, which a cell below the tail of a swept set needs; a mark end gives up all
/// blocks of the other part, whose sets are empty then.
pub fn steps_keep_spines_and_blocks()
    ensures draw { (chunks : ℕ) (g : ℕ) (sets : List SetState) (b : BlockState) (n : ℕ) → Blocked chunks g sets b → n < 70 → b.spare n ≡ 0 → b.drawn (swept_part g) < blocks_of chunks → Blocked chunks g sets (draws g n b) }
    ensures put { (chunks : ℕ) (g : ℕ) (sets : List SetState) (b : BlockState) (n s e x : ℕ) → Blocked chunks g sets b → s < 544 → e < chunks → s % 2 ≡ swept_part g → b.entry s e ≡ 0 → b.spare n ≡ suc x
        → 512 * e < (set_in sets s).tail → Blocked chunks g sets (puts g n s e x b) }
    ensures turn { (chunks : ℕ) (g : ℕ) (sets : List SetState) (b : BlockState) (new_sets : List SetState) (new_g : ℕ) → Blocked chunks g sets b → swept_part new_g ≢ swept_part g
        → ((s : ℕ) → s % 2 ≡ swept_part g → set_in new_sets s ≡ set_in sets s) → ((s : ℕ) → s % 2 ≢ swept_part g → (i : ℕ) → cell_of (set_in new_sets s) i ≡ 0) → Blocked chunks new_g new_sets (turns g b) }
{}
