//! What a cycle of the run leaves behind, and that it keeps the run sound, whichever worker did what and when.
//!
//! `specs/CycleSoFar.antt` has what a cycle has left behind so far, as plain lists: lines, logs, objects and notes.
//! `specs/Facts.antt` has the facts of a cycle that has ended from which the run stays sound, those of sweeps, placings and
//! objects in files of their own beside it; `specs/Reached.antt` has what a run keeps from cycle to cycle, and
//! `specs/Profile.antt` and `specs/CycleCalls.antt` what the calls of the sampled profile add up to.
//!
//! `specs/Underway.antt` and `specs/ShowsCycle.antt` have what a state of span ownership and the logs keep while a cycle is
//! under way, and `specs/StepNeeds.antt` and `specs/Steps.antt` what each step needs and changes. `proofs/Moves.antt` has one law for each move, `proofs/Turns.antt` those for lines without a move, for a mark
//! end and for the end of a cycle, and `proofs/Law.antt` and `proofs/Ends.antt` lead from the facts to a sound report.
#![tactic(auto)]

ghost use Rattle.std.specs.Prelude.{◌≡◌, ℕ, suc, ◌<◌, ◌≤◌, Bool, ◌&&◌, ◌==◌, List, [], ◌++◌, length, reverse, None};
ghost use Rattle.page_bitmap.specs.declared.line.Line.{Line};
ghost use Rattle.page_bitmap.specs.declared.line.Line.TheVariants.{Miss, Scav};
ghost use Rattle.run_laws.specs.Steps.{after_line};
ghost use Rattle.page_alloc.specs.Lists.{In, count};
ghost use Rattle.page_alloc.specs.Lives.{Life, open_lives};
ghost use Rattle.page_alloc.specs.Blocks.{open_blocks};
ghost use Rattle.page_alloc.specs.Journal.{AreAllowed};
ghost use Rattle.span_state.specs.MarkSet.{MarkSet};
ghost use Rattle.span_state.specs.declared.sweep.SweepNote.{SweepNote};
ghost use Rattle.trace_reader.specs.declared.trace.Trace.{Trace};
ghost use Rattle.cycle_history.specs.declared.Answer.{Answer};
ghost use Rattle.cycle_history.specs.declared.Report.{Report};
ghost use Rattle.cycle_history.specs.Requests.{Marking, marked_by, last_cycle, region_of, caching_procs};
ghost use Rattle.cycle_history.specs.Objects.{Object};
ghost use Rattle.cycle_history.specs.Marked.{AreMarksOf};
ghost use Rattle.cycle_history.specs.Before.{AreObjectsBefore};
ghost use Rattle.sound_run.specs.Run.{IsRun, Lasts};
ghost use Rattle.cycle_history.specs.Sweeps.{AreTotals};
ghost use Rattle.cycle_history.specs.Sound.{past_in, HasAnswers, HasProfile, IsScavenged, IsSoundAndUsed};
ghost use Rattle.sweep_laws.specs.State.{CoreState};
ghost use Rattle.sweep_laws.specs.NeedsOfRange.{refusal};
ghost use Rattle.sweep_laws.specs.Needs.{next_needs};
ghost use Rattle.sweep_laws.specs.Changes.{after_next};
ghost use Rattle.sweep_laws.specs.Owned.{Owned};
ghost use Rattle.sweep_laws.specs.Start.{new_state};
ghost use Rattle.sweep_laws.specs.Step.{needs_of, after};
ghost use Rattle.sweep_laws.specs.declared.moves.Move.{Move};
ghost use Rattle.run_laws.specs.CycleSoFar.{CycleSoFar, past_after, with_objects};
ghost use Rattle.run_laws.specs.SweepFacts.{Notes};
ghost use Rattle.run_laws.specs.ObjectFacts.{Objects};
ghost use Rattle.run_laws.specs.Facts.{Facts, Marks};
ghost use Rattle.run_laws.specs.Occupied.{NamedHaveSome};
ghost use Rattle.run_laws.specs.ShowsCycle.{ShowsCycle, after_mark_end, first_cycle};
ghost use Rattle.run_laws.specs.GoesOn.{GoesOn};
ghost use Rattle.run_laws.specs.Blocks.{out_of};
ghost use Rattle.run_laws.specs.Known.{KnowsBlocks};
ghost use Rattle.run_laws.specs.ShowsBlocks.{BlocksGoOn, ShowsBlocks};
ghost use Rattle.run_laws.specs.Reached.{Began, Reached};
ghost use Rattle.run_laws.specs.Profile.{Calls, AreCalls, published_allocs, published_frees};
ghost use Rattle.run_laws.specs.CycleCalls.{KnowsSamples, has_died, dead_in};
ghost use Rattle.cycle_history.specs.Profile.{Samples, Bucket, allocs_at, frees_at};

/// Nothing written and nothing asked is a run as cycle 0 begins.
pub fn a_run_begins()
    ensures { (marked : Marking) (region : ℕ) (goal : ℕ) (carried : ℕ → ℕ → Bool) → Began marked region goal 0 [] [] [] carried }
{}

/// A cycle with its facts leads from its beginning to its end.
pub fn a_cycle_keeps_a_run_sound()
    ensures { (marked : Marking) (region : ℕ) (goal : ℕ) (objects : List Object) (notes : List SweepNote) (e : CycleSoFar)
        → Began marked region goal e.cycle e.before objects notes e.carried → Facts marked region goal objects e
        → Reached marked region goal e.cycle (past_after e) (e.news ++ objects) (e.notes ++ notes) e.bits }
{}

/// The next cycle begins behind a mark end, and carries the allocated indices.
pub fn a_mark_end_begins_a_cycle()
    ensures { (marked : Marking) (region : ℕ) (goal : ℕ) (c : ℕ) (past : List Line) (objects : List Object) (notes : List SweepNote) (bits : ℕ → ℕ → Bool)
        → Reached marked region goal c past objects notes bits → Began marked region goal (suc c) past objects notes bits }
{}

/// The report of a run that has reached the end of the trace's last cycle is sound and used, where its page caches are those of
/// the trace's processors, no block is out, and its profile is that of the run's samples.
pub fn a_reached_run_is_sound()
    ensures { (t : Trace) (report : Report) (objects : List Object) (notes : List SweepNote) (bits : ℕ → ℕ → Bool)
        → Reached (marked_by t) (region_of t) t.header.goal (last_cycle t) (past_in report) objects notes bits → AreAllowed (caching_procs t) (past_in report)
        → open_blocks (past_in report) ≡ [] → HasAnswers t report objects
        → report.sweeps ≡ reverse notes → AreTotals (marked_by t) (last_cycle t) objects report.totals
        → HasProfile t report objects → IsSoundAndUsed t report }
{}

/// What the tallies' calls of the cycles up to a mark end publish is what the samples of the trace's objects say.
pub fn calls_publish_the_profile()
    ensures { (marked : Marking) (s : Samples) (objects : List Object) (calls : Calls) (b : Bucket) (m : ℕ) → ((o : Object) → In o objects → Lasts marked o)
        → ((c : ℕ) → c ≤ m → AreCalls marked s objects calls c)
        → (published_allocs calls (suc m) b ≡ allocs_at s objects m b) × (published_frees calls (suc m) b ≡ frees_at marked s objects m b) }
{}

/// The deaths that the search for the marks of a mark end left at the page of an open life, with the number of a bucket, are
/// as many as the samples of the bucket that lived in the life in the cycle before and that the mark end doesn't mark.
pub fn marks_count_the_dead_of_a_life()
    ensures { (t : Trace) (s : Samples) (region : ℕ) (goal : ℕ) (m : ℕ) (past : List Line) (objects : List Object) (answers : List Answer) (sampled : List Bool) (buckets : List ℕ)
        (marks : MarkSet) (b : Bucket) (n : ℕ) (life : Life) → m < length t.cycles → IsRun (marked_by t) region goal m past objects → AreObjectsBefore t (suc m) answers objects
        → AreMarksOf t (suc m) answers sampled buckets marks → KnowsSamples s objects sampled buckets b n → In life (open_lives past)
        → dead_in marks n life.page ≡ count (λ (o : Object). has_died (marked_by t) s m b o && o.life == life.number) objects }
{}

/// At the start, where all pages are free, a state of span ownership shows the first cycle.
pub fn a_new_state_shows_the_first_cycle()
    ensures { (region : ℕ) (goal : ℕ) (workers : ℕ) → ShowsCycle region goal (new_state region workers) first_cycle }
{}

/// Each move of span ownership that may be made keeps a cycle under way, with the line and the entry that come with it.
pub fn a_move_keeps_the_cycle_under_way()
    ensures { (region : ℕ) (goal : ℕ) (c : CoreState) (e : CycleSoFar) (move : Move) (next : CycleSoFar) → ShowsCycle region goal c e → ShowsBlocks c e → Owned c
        → refusal (needs_of c move) ≡ None → GoesOn region goal c e move next → ShowsCycle region goal (after c move) next }
{}

/// Each move of span ownership keeps what a state, the journal and the logs say of the blocks of page caches, with the lines and the entry that
/// come with it.
pub fn a_move_keeps_what_logs_tell_of_blocks()
    ensures { (c : CoreState) (e : CycleSoFar) (move : Move) (next : CycleSoFar) → ShowsBlocks c e → Owned c
        → refusal (needs_of c move) ≡ None → BlocksGoOn c e move next → ShowsBlocks (after c move) next }
{}

/// So does a Miss line, and the line of a scavenging step.
pub fn a_line_keeps_what_logs_tell_of_blocks()
    ensures missed { (c : CoreState) (e : CycleSoFar) (pages : ℕ) (class : ℕ) → ShowsBlocks c e → ShowsBlocks c (after_line e (Miss e.cycle pages class)) }
    ensures scavenged { (c : CoreState) (e : CycleSoFar) (page : ℕ) (pages : ℕ) → ShowsBlocks c e → ShowsBlocks c (after_line e (Scav e.cycle page pages)) }
{}

/// Each move keeps which lives and blocks workers know.
pub fn a_move_keeps_which_lives_are_known()
    ensures { (c : CoreState) (e : CycleSoFar) (move : Move) (next : CycleSoFar) → KnowsBlocks e → BlocksGoOn c e move next → KnowsBlocks next }
{}

/// So does a Miss line, and the line of a scavenging step.
pub fn a_line_keeps_which_lives_are_known()
    ensures missed { (e : CycleSoFar) (pages : ℕ) (class : ℕ) → KnowsBlocks e → KnowsBlocks (after_line e (Miss e.cycle pages class)) }
    ensures scavenged { (e : CycleSoFar) (page : ℕ) (pages : ℕ) → KnowsBlocks e → KnowsBlocks (after_line e (Scav e.cycle page pages)) }
{}

/// At the start, where all pages are free and nothing is written, no block is out.
pub fn a_new_state_has_no_block_out()
    ensures { (region : ℕ) (workers : ℕ) → ShowsBlocks (new_state region workers) first_cycle }
{}

/// Where a mark end may come and no block is out, a state of span ownership that shows a cycle under way, with no span in it left
/// empty, gives the cycle its facts. Its objects, its notes, the marks of its beginning and the scavenging are added here.
pub fn a_settled_core_ends_a_cycle()
    ensures { (marked : Marking) (region : ℕ) (goal : ℕ) (objects : List Object) (news : List Object) (notes : List SweepNote) (c : CoreState) (e : CycleSoFar)
        (marks : List (ℕ × ℕ)) → ShowsCycle region goal c e → ShowsBlocks c e → Owned c → refusal (next_needs c marks) ≡ None
        → ((w : ℕ) → out_of (e.logs w) ≡ None) → NamedHaveSome c
        → Notes (with_objects e news notes) → Marks marked objects (with_objects e news notes) → Objects marked objects (with_objects e news notes)
        → IsScavenged region goal (past_after e) → Facts marked region goal objects (with_objects e news notes) }
{}

/// A mark end begins the next cycle under way: all open lives wait to be swept, nothing is written and no entry is made.
pub fn a_mark_end_shows_the_next_cycle()
    ensures { (region : ℕ) (goal : ℕ) (c : CoreState) (e : CycleSoFar) (marks : List (ℕ × ℕ)) → ShowsCycle region goal c e → ShowsBlocks c e → Owned c
        → refusal (next_needs c marks) ≡ None → ((w : ℕ) → out_of (e.logs w) ≡ None) → ShowsCycle region goal (after_next c marks) (after_mark_end e marks) }
{}
