//! Closed runs that the laws of a run lead through, and cycles with a slip each that they refuse.
//!
//! `specs/TwoWorkers.antt` has a run of two processors, and `specs/Slips.antt` the slips: for each fact of a cycle the same
//! cycle without it, named after what is wrong. `proofs/Reused.antt` has a run in which a page is given back and taken again
//! in one cycle, wholly by the steps. `specs/Refusals.antt` says what a refusal in a log tells of the journal.
#![tactic(auto)]

mod refusals;

ghost use Rattle.std.specs.Prelude.{ℕ, ◌&&◌, ◌==◌, [], ◌∷◌, ◌++◌};
ghost use Rattle.worker_log.specs.Logs.{placings};
ghost use Rattle.cycle_history.specs.Sound.{IsScavenged};
ghost use Rattle.page_bitmap.specs.declared.line.Line.TheVariants.{Take, Miss};
ghost use Rattle.page_alloc.specs.Lives.{open_lives};
ghost use Rattle.run_laws.specs.CycleSoFar.{past_after};
ghost use Rattle.run_laws.specs.SweepFacts.{Notes, Sweeps};
ghost use Rattle.run_laws.specs.PlacingFacts.{Fills, Holdings, Places};
ghost use Rattle.run_laws.specs.ObjectFacts.{Misses, Objects};
ghost use Rattle.run_laws.specs.Facts.{Facts, Marks, Writes};
ghost use Rattle.run_laws.specs.Reached.{Began, Reached};
ghost use Rattle.run_laws_tests.specs.TwoWorkers.{bits0, bits1, cycle1, first, lines0, lines1, marked, note, notes1, object, second, small};
ghost use Rattle.run_laws_tests.specs.Slips.{NoneHas, Begins, AllBreak, marked_again, wrong_lines, wrong_sweeps, wrong_notes, wrong_marks, wrong_places, wrong_bits, wrong_filling, wrong_objects, wrong_refusals};

pub use refusals::{
    a_refusal_is_a_miss_of_the_journal, a_settled_refusal_is_a_miss_of_the_journal,
};

/// The run of two processors begins cycle 1, which has its facts, and reaches its end.
pub fn two_workers_reach_the_end()
    ensures began { Began marked 512 512 1 lines0 first [] bits0 }
    ensures facts { Facts marked 512 512 first cycle1 }
    ensures reached { Reached marked 512 512 1 (lines1 ++ lines0) (second ++ first) (notes1 ++ []) bits1 }
{}

/// Each slip takes a fact from the cycle: for each fact there is a cycle that lacks it.
pub fn each_fact_can_be_missing()
    // the lines, the sweeps and the notes
    ensures writes { NoneHas (Writes 512 512) wrong_lines }
    ensures sweeps { NoneHas Sweeps wrong_sweeps }
    ensures notes { NoneHas Notes wrong_notes }

    // the marks, and where objects are placed
    ensures marks { NoneHas (Marks marked first) wrong_marks }
    ensures places { NoneHas (λ e. Places e (open_lives (past_after e))) wrong_places }
    ensures holdings { NoneHas Holdings wrong_bits }
    ensures fills { NoneHas (λ e. (w : ℕ) → Fills e.marks (placings (e.logs w))) wrong_filling }

    // the objects and the misses
    ensures objects { NoneHas (Objects marked first) wrong_objects }
    ensures lasting { ¬ Objects marked_again first cycle1 }
    ensures misses { NoneHas Misses wrong_refusals }

    // the scavenged pages
    ensures scavenged { ¬ IsScavenged 8 0 (past_after cycle1) }
{}

/// So it is with what a cycle begins with.
pub fn each_fact_of_a_beginning_can_be_missing()
    // what comes from before
    ensures life_that_nobody_wanted { ¬ Begins (Take 0 7 1 88 ∷ lines0) first [] bits0 }
    ensures index_not_carried { ¬ Begins lines0 first [] (λ page k. bits0 page k && k == 0) }

    // what is of the cycle itself
    ensures line_of_the_cycle { ¬ Begins (Miss 1 600 1 ∷ lines0) first [] bits0 }
    ensures object_of_the_cycle { ¬ Begins lines0 (second ++ first) [] bits0 }
    ensures note_of_the_cycle { ¬ Begins lines0 first (note 0 1 0 ∷ []) bits0 }

    // the numbers of the objects
    ensures number_used_twice { ¬ Begins lines0 (object 0 0 0 small 0 0 0 ∷ first) [] bits0 }

    // the scavenged pages
    ensures not_scavenged { ¬ Began marked 8 0 2 (lines1 ++ lines0) (second ++ first) (notes1 ++ []) bits1 }
{}

/// Each slip breaks the run: it hasn't reached the end of the cycle.
pub fn each_slip_breaks_the_run()
    // the lines, the sweeps and the notes
    ensures writes { AllBreak wrong_lines }
    ensures sweeps { AllBreak wrong_sweeps }
    ensures notes { AllBreak wrong_notes }

    // the marks, and where objects are placed
    ensures marks { AllBreak wrong_marks }
    ensures places { AllBreak wrong_places }
    ensures holdings { AllBreak wrong_bits }
    ensures fills { AllBreak wrong_filling }

    // the objects and the misses
    ensures objects { AllBreak wrong_objects }
    ensures lasting { ¬ Reached marked_again 512 512 1 (lines1 ++ lines0) (second ++ first) (notes1 ++ []) bits1 }
    ensures misses { AllBreak wrong_refusals }

    // the scavenged pages
    ensures scavenged { ¬ Reached marked 8 0 1 (lines1 ++ lines0) (second ++ first) (notes1 ++ []) bits1 }
{}
