//! Laws of the samples of a cycle.

ghost use Rattle.std.specs.Prelude.{◌≡◌, ℕ, ◌<◌, Bool, List, [], ◌++◌, length, map, position, reverse, slice_index_or, Some};
ghost use Rattle.std.specs.List.{AllByRecursion};
ghost use Rattle.page_alloc.specs.Lists.{count};
ghost use Rattle.trace_reader.specs.declared.trace.Event.{Event};
ghost use Rattle.trace_reader.specs.declared.trace.Trace.{Trace};
ghost use Rattle.trace_reader.specs.Limits.{events_of};
ghost use Rattle.cycle_history.specs.Before.{AreObjectsBefore};
ghost use Rattle.cycle_history.specs.Profile.{samples_in, Samples, is_sample};
ghost use Rattle.cycle_history.specs.declared.Answer.{Answer};
ghost use Rattle.cycle_history.specs.Objects.{Object};
ghost use Rattle.profile_cycle.specs.declared.buckets.Bucket.{Bucket};
ghost use Rattle.profile_cycle.specs.Naming.{is_same};
ghost use Rattle.profile_cycle.specs.Sampling.{Countdown};
ghost use Rattle.run_laws.specs.Asked.{AreAnsweredFrom};
ghost use Rattle.run_laws.specs.CycleCalls.{KnowsSamples};
ghost use Rattle.sample_laws.specs.By.{answers_by, events_by};
ghost use Rattle.sample_laws.specs.Counted.{Flags, Knows, all_counts, events_before, of_number, sampled_counts};
ghost use Rattle.sample_laws.specs.Countdowns.{IsSampledTo, flags, spent};
ghost use Rattle.sample_laws.specs.Numbers.{IsNamed, number_of};

/// The flags that a processor's countdown gives to its events of a cycle are those of a countdown at the trace's rate and seed.
pub fn a_countdown_samples_a_cycle()
    ensures { (rate : ℕ) (seed : ℕ) (p : ℕ) (cycle : ℕ) (n : ℕ) (s : Samples) (c : Countdown) (events : List Event) (answers : List Answer) (given : List Bool)
        (objects : List Object) (news : List Object) → AreAnsweredFrom n (map (λ (e : Event). record { cycle = cycle; event = e }) events) news → map (λ (o : Object). o.answer) news ≡ answers → Knows s events given news
        → answers_by p events given ≡ flags c (events_by p events) (answers_by p events answers) → IsSampledTo rate seed p s.sampled objects c
        → IsSampledTo rate seed p s.sampled (news ++ objects) (spent c (events_by p events) (answers_by p events answers)) }
{}

/// The flagged objects of a cycle that have the number of a bucket are the cycle's samples of it.
pub fn flagged_objects_are_samples()
    ensures { (s : Samples) (known : List Bucket) (b : Bucket) (cycle : ℕ) (n : ℕ) (c : ℕ → Countdown) (events : List Event) (answers : List Answer) (given : List Bool) (news : List Object)
        → AreAnsweredFrom n (map (λ (e : Event). record { cycle = cycle; event = e }) events) news → map (λ (o : Object). o.answer) news ≡ answers → Knows s events given news
        → length given ≡ length events → AllByRecursion (IsNamed known) events
        → ((w : ℕ) → answers_by w events given ≡ flags (c w) (events_by w events) (answers_by w events answers))
        → of_number (λ k. sampled_counts given (map (number_of known) events) k) (position (is_same b) known) ≡ count (is_sample s b) news }
{}

/// The counts of all processors are those of all objects of the cycle.
pub fn processors_count_a_cycle()
    ensures { (n : ℕ) (events : List Event) (given : List Bool) (numbers : List ℕ) (parts : List (List Bool)) (number_parts : List (List ℕ)) (b : ℕ) → AllByRecursion (λ (e : Event). e.proc < n) events
        → length given ≡ length events → length numbers ≡ length events → ((w : ℕ) → answers_by w events given ≡ slice_index_or parts w []) → ((w : ℕ) → answers_by w events numbers ≡ slice_index_or number_parts w [])
        → all_counts n parts number_parts b ≡ sampled_counts (reverse given) (reverse numbers) b }
{}

/// The lists of a run know the samples of the objects before a mark end: which of them are sampled, and which have a bucket's number.
pub fn lists_know_the_samples()
    ensures { (t : Trace) (m : ℕ) (answers : List Answer) (objects : List Object) (names : List Bucket) (sampled : List Bool) (numbers : List ℕ) (which : ℕ → Bool) (b : Bucket) (n : ℕ)
        → AreObjectsBefore t m answers objects → AllByRecursion (IsNamed names) (events_of t) → length sampled ≡ length answers → numbers ≡ map (number_of names) (events_before t m)
        → Flags sampled which → position (is_same b) names ≡ Some n → KnowsSamples (samples_in t which) objects sampled numbers b n }
{}
