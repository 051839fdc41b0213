ghost use Rattle.std.specs.Prelude.{◌≡◌, ℕ, [], Err};
ghost use Rattle.atomic_table.specs.Seated.{TableId};
ghost use Rattle.fallible_list.specs.declared.list.NoMemory.{NoMemory};
ghost use Rattle.profile_cycle.specs.History.{RingId};
ghost use Rattle.span_state.specs.MarkSet.{MarkSet};
ghost use Rattle.span_laws.specs.declared.answers.Refused.{Refused};
ghost use Rattle.span_set.specs.Asks.{MaySearch};
ghost use Rattle.span_set.specs.Tallies.{Frees};
ghost use Rattle.span_set.specs.declared.hand.Hand.{Hand};
ghost use Rattle.sweeper.specs.NewSpans.{MakesSpan};
ghost use Rattle.sweeper.specs.Pays.{Pays};
ghost use Rattle.sweeper.specs.Reclaims.{Reclaims};
ghost use Rattle.sweeper.specs.Sweeps.{Finishes, SweepsOne};

/// Where one of this crate's calls was refused, what they ask holds again, so that it may be made once more.
pub fn a_refused_sweep_may_be_made_again()
    ensures sweep_one { (t : TableId) (r : RingId) (m : MarkSet) (old : Hand) (new : Hand) (e : NoMemory)
        → MaySearch t r m old → old.worker.view.own.popped ≡ [] → SweepsOne old new (Err e) → Frees m old new → MaySearch t r m new × (new.worker.view.own.popped ≡ []) }
    ensures pay { (t : TableId) (r : RingId) (m : MarkSet) (pages : ℕ) (distance : ℕ) (bytes : ℕ) (credit : ℕ) (old : Hand) (new : Hand) (e : NoMemory)
        → MaySearch t r m old → Pays pages distance bytes credit old new (Err e) → Frees m old new → MaySearch t r m new × (new.worker.view.own.popped ≡ []) }
    ensures finish { (t : TableId) (r : RingId) (m : MarkSet) (old : Hand) (new : Hand) (e : NoMemory)
        → MaySearch t r m old → Finishes old new (Err e) → Frees m old new → MaySearch t r m new × (new.worker.view.own.popped ≡ []) }
    ensures reclaim { (t : TableId) (r : RingId) (m : MarkSet) (asked : ℕ) (old : Hand) (new : Hand) (e : NoMemory)
        → MaySearch t r m old → Reclaims asked old new (Err e) → Frees m old new → MaySearch t r m new × (new.worker.view.own.popped ≡ []) }
    ensures new_span { (t : TableId) (r : RingId) (m : MarkSet) (n : ℕ) (class : ℕ) (old : Hand) (new : Hand) (e : Refused)
        → MaySearch t r m old → MakesSpan n class old new (Err e) → Frees m old new → MaySearch t r m new × (new.worker.view.own.popped ≡ []) }
{}
