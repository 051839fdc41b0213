ghost use Rattle.std.specs.Prelude.{ℕ, Err};
ghost use Rattle.atomic_table.specs.Seated.{TableId};
ghost use Rattle.profile_cycle.specs.History.{RingId};
ghost use Rattle.span_state.specs.MarkSet.{MarkSet};
ghost use Rattle.span_laws.specs.Asks.{IsIdle};
ghost use Rattle.span_laws.specs.declared.answers.Refused.{Refused};
ghost use Rattle.span_set.specs.Asks.{MaySearch};
ghost use Rattle.span_set.specs.Tallies.{Frees};
ghost use Rattle.span_set.specs.declared.hand.Hand.{Hand};
ghost use Rattle.large_objects.specs.Larges.{AllocatesLarge};

/// Where a large object was refused, what its call asks holds again, so that it may be made once more.
pub fn a_refused_large_object_may_be_asked_for_again()
    ensures { (t : TableId) (r : RingId) (m : MarkSet) (pages : ℕ) (distance : ℕ) (n : ℕ) (k : ℕ) (old : Hand) (new : Hand) (e : Refused)
        → MaySearch t r m old → AllocatesLarge pages distance n k old new (Err e) → Frees m old new → MaySearch t r m new × IsIdle new.worker.view.own }
{}
