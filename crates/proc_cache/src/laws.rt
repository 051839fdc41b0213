ghost use Rattle.std.specs.Prelude.{◌≡◌, ℕ, Err};
ghost use Rattle.atomic_table.specs.Seated.{TableId};
ghost use Rattle.fallible_list.specs.declared.list.NoMemory.{NoMemory};
ghost use Rattle.profile_cycle.specs.History.{RingId};
ghost use Rattle.span_state.specs.MarkSet.{MarkSet};
ghost use Rattle.span_laws.specs.Asks.{IsIdle};
ghost use Rattle.span_laws.specs.declared.answers.Refused.{Refused};
ghost use Rattle.span_set.specs.Asks.{MaySearch};
ghost use Rattle.span_set.specs.Tallies.{Frees};
ghost use Rattle.span_set.specs.declared.hand.Hand.{Hand};
ghost use Rattle.proc_cache.specs.Allocs.{AllocatesIn};
ghost use Rattle.proc_cache.specs.Cache.{Cache};
ghost use Rattle.proc_cache.specs.Flushes.{FlushesCache};
ghost use Rattle.proc_cache.specs.Hits.{IsMissing};
ghost use Rattle.proc_cache.specs.Refills.{RefillsCache};
ghost use Rattle.proc_cache.specs.Serves.{IsUsedBut, IsUsedCache, Serves};

/// Where one of this crate's calls was refused, what it asks holds again, so that it may be made once more. That the processor serves its worker,
/// and that its spans have objects, the calls say themselves.
pub fn a_refused_allocation_may_be_made_again()
    ensures flush { (t : TableId) (r : RingId) (m : MarkSet) (c : Cache) (d : Cache) (old : Hand) (new : Hand) (e : NoMemory)
        → MaySearch t r m old → FlushesCache c d old new (Err e) → Frees m old new → MaySearch t r m new × IsIdle new.worker.view.own }
    ensures refill { (t : TableId) (r : RingId) (m : MarkSet) (pages : ℕ) (distance : ℕ) (k : ℕ) (c : Cache) (d : Cache) (old : Hand) (new : Hand) (e : Refused)
        → MaySearch t r m old → RefillsCache pages distance k c d old new (Err e) → Frees m old new
        → Serves new.worker.view.generation new.worker.view.own d → IsUsedBut k new.worker.view.own d
        → MaySearch t r m new × IsIdle new.worker.view.own × IsMissing d k × (d.flushed ≡ c.flushed) × (new.worker.view.generation ≡ old.worker.view.generation) × IsUsedCache new.worker.view.own }
    ensures alloc { (t : TableId) (r : RingId) (m : MarkSet) (pages : ℕ) (distance : ℕ) (k : ℕ) (c : Cache) (d : Cache) (old : Hand) (new : Hand) (e : Refused)
        → MaySearch t r m old → AllocatesIn pages distance k c d old new (Err e) → Frees m old new → MaySearch t r m new × IsIdle new.worker.view.own }
{}
