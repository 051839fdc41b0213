ghost use Rattle.std.specs.Prelude.{ℕ, Err};
ghost use Rattle.atomic_table.specs.Seated.{TableId};
ghost use Rattle.fallible_list.specs.declared.list.NoMemory.{NoMemory};
ghost use Rattle.profile_cycle.specs.History.{RingId};
ghost use Rattle.span_state.specs.MarkSet.{MarkSet};
ghost use Rattle.span_set.specs.Asks.{MaySearch};
ghost use Rattle.span_set.specs.Tallies.{Frees};
ghost use Rattle.span_set.specs.declared.hand.Hand.{Hand};
ghost use Rattle.central_lists.specs.Lists.{Caches};

/// Where memory ran out in a call for a cached span, what that call asks holds again, so that it may be made once more.
pub fn a_refused_look_may_be_made_again()
    ensures { (t : TableId) (r : RingId) (m : MarkSet) (class : ℕ) (old : Hand) (new : Hand) (e : NoMemory)
        → MaySearch t r m old → Caches old.worker.view.generation class old new (Err e) → Frees m old new → MaySearch t r m new }
{}
