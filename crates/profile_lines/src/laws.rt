//! Laws that lead from the calls of a run's tallies to the lines of a sound report.

ghost use Rattle.std.specs.Prelude.{◌≡◌, ℕ, suc, ◌^◌, ◌<◌, ◌≤◌, Bool, List, [], ◌++◌, length, map};
ghost use Rattle.page_alloc.specs.Lists.{In};
ghost use Rattle.profile_cycle.specs.declared.buckets.Bucket.{Bucket};
ghost use Rattle.profile_cycle.specs.declared.calls.Call.{Call};
ghost use Rattle.profile_cycle.specs.declared.calls.View.{View};
ghost use Rattle.profile_cycle.specs.declared.calls.What.TheVariants.{NextCycle, AfterSweep};
ghost use Rattle.profile_cycle.specs.declared.counts.Count.{Count};
ghost use Rattle.profile_cycle.specs.History.{first_view, noted};
ghost use Rattle.profile_cycle.specs.Naming.{buckets_of, pairs_of};
ghost use Rattle.trace_reader.specs.declared.trace.Trace.{Trace};
ghost use Rattle.trace_reader.specs.Limits.{events_of};
ghost use Rattle.cycle_history.specs.declared.Answer.{Answer};
ghost use Rattle.cycle_history.specs.declared.Prof.{Prof};
ghost use Rattle.cycle_history.specs.Before.{AreObjectsBefore};
ghost use Rattle.cycle_history.specs.Sampled.{samples_in};
ghost use Rattle.cycle_history.specs.Requests.{Marking};
ghost use Rattle.cycle_history.specs.Objects.{Object};
ghost use Rattle.sound_run.specs.Run.{Lasts};
ghost use Rattle.run_laws.specs.Profile.{AreCalls};
ghost use Rattle.cycle_history.specs.Profile.{IsProfile, IsProfileOfEach, Samples};
ghost use Rattle.profile_lines.specs.Read.{AreDifferent, AreFew, IsOrder, all_lines, changed_lines, count_of};
ghost use Rattle.profile_lines.specs.Counted.{AreMadeIn, AreNamed, HasCounted, IsCounting, ShowsMarkEnd, by_bucket};
ghost use Rattle.profile_lines.specs.Told.{HasTold};

use profile_cycle::a_pair_is_a_bucket_where_an_event_has_it;

/// The buckets of a trace are all different.
pub fn buckets_differ()
    ensures { (pairs : List Bucket) → AreDifferent (buckets_of pairs) }
{}

/// The objects of the cycles before a mark end have buckets that the trace names, if they are placed.
pub fn all_samples_are_named()
    ensures { (t : Trace) (which : ℕ → Bool) (m : ℕ) (answers : List Answer) (objects : List Object) → AreObjectsBefore t m answers objects
        → AreNamed (samples_in t which) (buckets_of (pairs_of (events_of t))) objects }
{
    a_pair_is_a_bucket_where_an_event_has_it();
}

/// The driver's tally of a new ring has counted nothing, and shows mark end 0.
pub fn a_run_begins_counting()
    ensures { (marked : Marking) (s : Samples) (buckets : List Bucket) → IsCounting marked s buckets 0 [] first_view }
{}

/// Where the calls of a cycle are those of its samples, the driver's tally that has taken them in has counted the cycle. Behind
/// cycle 0 it still shows mark end 0.
pub fn a_cycle_is_counted()
    ensures { (marked : Marking) (s : Samples) (buckets : List Bucket) (c : ℕ) (objects : List Object) (news : List Object) (v : View) (w : View) (made : List Call)
        → AreDifferent buckets → IsCounting marked s buckets c objects v → w.cycle ≡ c → w.calls ≡ made ++ v.calls → AreMadeIn c made
        → ((o : Object) → In o news → (o.cycle ≡ c) × Lasts marked o) → AreCalls marked s (news ++ objects) (by_bucket buckets made) c
        → HasCounted marked s buckets c (news ++ objects) w × (c ≡ 0 → ShowsMarkEnd marked s buckets 0 (news ++ objects) w.calls) }
{}

/// Behind the full sweep of a cycle its tally shows the mark end before the cycle.
pub fn a_sweep_shows_its_mark_end()
    ensures { (marked : Marking) (s : Samples) (buckets : List Bucket) (c : ℕ) (objects : List Object) (v : View) → AreDifferent buckets
        → ((o : Object) → In o objects → Lasts marked o) → HasCounted marked s buckets c objects v
        → HasCounted marked s buckets c objects (noted v AfterSweep) × ShowsMarkEnd marked s buckets c objects (noted v AfterSweep).calls }
{}

/// Behind a mark end the tally shows the mark end before it, and the next cycle begins.
pub fn a_mark_end_begins_counting()
    ensures { (marked : Marking) (s : Samples) (buckets : List Bucket) (c : ℕ) (objects : List Object) (v : View) → AreDifferent buckets
        → ((o : Object) → In o objects → Lasts marked o) → HasCounted marked s buckets c objects v
        → IsCounting marked s buckets (suc c) objects (noted v NextCycle) × ShowsMarkEnd marked s buckets c objects (noted v NextCycle).calls }
{}

/// Numbers that are as of a mark end are no more than there are objects.
pub fn shown_numbers_are_few()
    ensures { (marked : Marking) (s : Samples) (buckets : List Bucket) (m : ℕ) (objects : List Object) (calls : List Call)
        → ShowsMarkEnd marked s buckets m objects calls → length objects < 2 ^ 64 → AreFew (length buckets) calls }
{}

/// Nothing is told at the start, and all numbers are 0.
pub fn lines_begin()
    ensures { (marked : Marking) (s : Samples) (buckets : List Bucket) (order : List ℕ) → HasTold marked s buckets order 0 [] (map (λ (n : ℕ). record { allocs = 0; frees = 0 }) order) [] }
{}

/// Objects of a later cycle leave what is told of the mark ends before it as it was.
pub fn lines_stay()
    ensures { (marked : Marking) (s : Samples) (buckets : List Bucket) (order : List ℕ) (m : ℕ) (objects : List Object) (news : List Object) (before : List Count) (lines : List Prof)
        → ((o : Object) → In o news → m ≤ o.cycle) → HasTold marked s buckets order m objects before lines → HasTold marked s buckets order m (news ++ objects) before lines }
{}

/// The lines that `add_changed` reads, where the ring shows a mark end, are that mark end's.
pub fn lines_go_on()
    ensures { (marked : Marking) (s : Samples) (buckets : List Bucket) (order : List ℕ) (m : ℕ) (objects : List Object) (calls : List Call) (before : List Count) (lines : List Prof)
        → AreNamed s buckets objects → IsOrder buckets order → ShowsMarkEnd marked s buckets m objects calls
        → HasTold marked s buckets order m objects before lines
        → HasTold marked s buckets order (suc m) objects (map (count_of calls) order) (lines ++ changed_lines buckets calls m order before) }
{}

/// With the lines that `add_all` reads, where the ring shows the last mark end, the lines are those of each mark end.
pub fn lines_of_each_end()
    ensures { (marked : Marking) (s : Samples) (buckets : List Bucket) (order : List ℕ) (m : ℕ) (objects : List Object) (calls : List Call) (before : List Count) (lines : List Prof)
        → AreNamed s buckets objects → IsOrder buckets order → ShowsMarkEnd marked s buckets m objects calls → HasTold marked s buckets order m objects before lines
        → IsProfileOfEach marked s m objects (lines ++ all_lines buckets calls m order) }
{}

/// The lines that `add_all` reads, where the ring shows the last mark end, are those of that mark end.
pub fn lines_tell_the_last()
    ensures { (marked : Marking) (s : Samples) (buckets : List Bucket) (order : List ℕ) (m : ℕ) (objects : List Object) (calls : List Call)
        → AreNamed s buckets objects → IsOrder buckets order → ShowsMarkEnd marked s buckets m objects calls
        → IsProfile marked s m objects (all_lines buckets calls m order) }
{}
