//! A run that is sound so far, and what follows from it.
//!
//! `specs/Run.antt` has the invariant of a run in the middle of a cycle, over the lines that it has written and the objects
//! that it has answered, `specs/Notes.antt` what it keeps of its sweeps, and `specs/Spans.antt` what the allocation bits and
//! the marks of a span say of a run's objects. `proofs/Seats.antt` derives the rules on places, `proofs/Ends.antt` and
//! `proofs/Notes.antt` begin a run, lead over a mark end, and make the report sound; `proofs/Sweeps.antt` counts a sweep's
//! numbers over bits. Which steps keep a run so is said by the crates above.
#![tactic(auto)]

ghost use Rattle.std.specs.Prelude.{ℕ, suc, Bool, List};
ghost use Rattle.page_bitmap.specs.declared.line.Line.{Line};
ghost use Rattle.page_alloc.specs.Lists.{In};
ghost use Rattle.page_alloc.specs.Lives.{Life, open_lives};
ghost use Rattle.span_state.specs.MarkSet.{MarkSet, is_marked};
ghost use Rattle.trace_reader.specs.declared.trace.Trace.{Trace};
ghost use Rattle.cycle_history.specs.declared.Answer.{Answer};
ghost use Rattle.cycle_history.specs.Requests.{marked_by};
ghost use Rattle.cycle_history.specs.Objects.{Object};
ghost use Rattle.cycle_history.specs.Marked.{AreMarksOf};
ghost use Rattle.cycle_history.specs.Before.{AreObjectsBefore};
ghost use Rattle.sound_run.specs.Run.{IsRun};
ghost use Rattle.sound_run.specs.Spans.{AreMarks};

/// The marks of a mark end are those of a run's objects: of each life that is open as the mark end comes, the marked
/// indices of its page are those of the life's objects that the mark end marks.
pub fn a_mark_end_marks_by_objects()
    ensures { (t : Trace) (region : ℕ) (goal : ℕ) (c : ℕ) (past : List Line) (objects : List Object) (answers : List Answer) (sampled : List Bool)
        (buckets : List ℕ) (marks : MarkSet) (life : Life) → IsRun (marked_by t) region goal c past objects → AreObjectsBefore t (suc c) answers objects
        → AreMarksOf t (suc c) answers sampled buckets marks → In life (open_lives past)
        → AreMarks (marked_by t) (suc c) objects life.number (λ k. is_marked marks life.page k) }
{}
