ghost use Rattle.std.specs.Prelude.{◌≡◌, ℕ, List, Some};
ghost use Rattle.page_bitmap.specs.declared.line.Line.{Line};
ghost use Rattle.page_alloc.specs.Lists.{In};
ghost use Rattle.worker_log.specs.Logs.{Refusal, refusals};
ghost use Rattle.run_laws.specs.CycleSoFar.{CycleSoFar, past_after};
ghost use Rattle.run_laws.specs.Facts.{Writes};
ghost use Rattle.run_laws.specs.ObjectFacts.{Misses};
ghost use Rattle.swept_set_laws.specs.Entered.{log_of};
ghost use Rattle.span_laws.specs.Rule.{logs_of};
ghost use Rattle.span_laws.specs.Settles.{SettlesCycle};
ghost use Rattle.span_laws.specs.TakeAnswers.{cycle_at};
ghost use Rattle.span_laws.specs.Views.{Seen};
ghost use Rattle.run_laws_tests.specs.Refusals.{IsMissOf};

/// A refusal that a worker's log has in a cycle is a Miss line of the journal, with its number, and no run of so many pages was free behind
/// the lines before it. So it is while a cycle is under way, and as it ends.
pub fn a_refusal_is_a_miss_of_the_journal()
    ensures { (region : ℕ) (goal : ℕ) (e : CycleSoFar) (w : ℕ) (x : Refusal) → Writes region goal e → Misses e → In x (refusals (e.logs w)) → IsMissOf region (past_after e) e.cycle x }
{}

/// What `end_cycle` of the shared spans tells the driver as a cycle ends holds of each refusal that a log of the cycle has, whichever worker wrote it and
/// however many were out: it is a Miss line of the journal that the driver knows from then on, and no run of so many pages was free behind the lines before it.
pub fn a_settled_refusal_is_a_miss_of_the_journal()
    ensures { (old : Seen) (new : Seen) (w : ℕ) (x : Refusal) (past : List Line) → SettlesCycle old new → new.journal ≡ Some past → In x (refusals (log_of (logs_of old.number old.view) w))
        → IsMissOf old.view.region past (cycle_at old.view.generation) x }
{}
