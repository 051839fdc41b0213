//! A law of buckets.

ghost use Rattle.std.specs.Prelude.{◌≡◌, List};
ghost use Rattle.std.specs.List.{list_any};
ghost use Rattle.trace_reader.specs.declared.trace.Event.{Event};
ghost use Rattle.profile_cycle.specs.declared.buckets.Bucket.{Bucket};
ghost use Rattle.profile_cycle.specs.Naming.{buckets_of, is_same, pairs_of};

/// A pair of a stack and a slot is a bucket exactly where some event has it.
pub fn a_pair_is_a_bucket_where_an_event_has_it()
    ensures { (events : List Event) (pair : Bucket) → list_any (is_same pair) (buckets_of (pairs_of events)) ≡ list_any (is_same pair) (pairs_of events) }
{}
