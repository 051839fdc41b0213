//! A publication moves what waits for the next cycle to what is published, by the driver alone.

ghost use Rattle.std.specs.Prelude.{◌≡◌, ℕ, ◌<◌, true, not, length, slice_index};
ghost use Rattle.profile_cycle.specs.declared.words.Kind.{Kind as KindSeen};
ghost use Rattle.profile_cycle.specs.Listing.{Lists};
ghost use Rattle.profile_cycle.specs.Rule.{Fits, GoesOn, has, IsAlone, IsMoved, IsPublishing};
ghost use Rattle.profile_cycle.specs.Words.{is_odd};

use crate::listed::Listed;
use crate::sight::{Counts, Sight};
use crate::steps::{clear, raise, read};
use crate::words::{Kind, Word};
use atomic_table::Seat;

// Moves what waits of a bucket's allocations, or of its frees.
fn move_count(counts: &Counts, seat: &mut Seat<(), Sight>, kind: Kind, odd: bool, bucket: u32)
    // the seat
    requires fits { Fits counts.now.table_id counts.now.key seat.old.table_id }
    requires alone { IsAlone seat.old.me.0 }
    requires publishing { IsPublishing seat.old.me.0 }

    // the cycle, and the bucket
    requires next { odd ≡ not (is_odd seat.old.me.0.view.cycle) }
    requires bucket { bucket < counts.now.key }

    // the seat behind it
    ensures table { seat.new.table_id ≡ seat.old.table_id }
    ensures slots { seat.new.me.1 ≡ seat.old.me.1 }
    ensures goes { GoesOn seat.old.me.0 seat.new.me.0 }

    // what was moved
    ensures moved { IsMoved seat.new.me.0 kind bucket }
{
    let waiting = Word::Waiting(kind, odd, bucket);
    let found = read(counts, seat, waiting);
    if found != 0 {
        raise(counts, seat, Word::Published(kind, bucket), found);
        clear(counts, seat, waiting);
    }
}

// Moves what waits of a bucket.
fn move_bucket(counts: &Counts, seat: &mut Seat<(), Sight>, odd: bool, bucket: u32)
    // the seat
    requires fits { Fits counts.now.table_id counts.now.key seat.old.table_id }
    requires alone { IsAlone seat.old.me.0 }
    requires publishing { IsPublishing seat.old.me.0 }

    // the cycle, and the bucket
    requires next { odd ≡ not (is_odd seat.old.me.0.view.cycle) }
    requires bucket { bucket < counts.now.key }

    // the seat behind it
    ensures table { seat.new.table_id ≡ seat.old.table_id }
    ensures slots { seat.new.me.1 ≡ seat.old.me.1 }
    ensures goes { GoesOn seat.old.me.0 seat.new.me.0 }

    // what was moved
    ensures moved { (k : KindSeen) → IsMoved seat.new.me.0 k bucket }
{
    move_count(counts, seat, Kind::Allocs, odd, bucket);
    move_count(counts, seat, Kind::Frees, odd, bucket);
}

// Moves what waits of any bucket.
fn move_all(counts: &Counts, seat: &mut Seat<(), Sight>, odd: bool, buckets: u32)
    // the seat
    requires fits { Fits counts.now.table_id counts.now.key seat.old.table_id }
    requires alone { IsAlone seat.old.me.0 }
    requires publishing { IsPublishing seat.old.me.0 }

    // the cycle, and the buckets
    requires next { odd ≡ not (is_odd seat.old.me.0.view.cycle) }
    requires buckets { buckets ≡ counts.now.key }

    // the seat behind it
    ensures table { seat.new.table_id ≡ seat.old.table_id }
    ensures slots { seat.new.me.1 ≡ seat.old.me.1 }
    ensures goes { GoesOn seat.old.me.0 seat.new.me.0 }

    // what was moved
    ensures moved { (k : KindSeen) (b : ℕ) → b < buckets → IsMoved seat.new.me.0 k b }
{
    for bucket in 0..buckets {
        move_bucket(counts, seat, odd, bucket);
    }
}

// Moves what waits of the buckets of a list.
fn move_listed(counts: &Counts, seat: &mut Seat<(), Sight>, odd: bool, listed: &[u32])
    // the seat
    requires fits { Fits counts.now.table_id counts.now.key seat.old.table_id }
    requires alone { IsAlone seat.old.me.0 }
    requires publishing { IsPublishing seat.old.me.0 }

    // the cycle, and the buckets of the list
    requires next { odd ≡ not (is_odd seat.old.me.0.view.cycle) }
    requires within { (k : ℕ) → k < length listed.now → slice_index listed.now k < counts.now.key }

    // the seat behind it
    ensures table { seat.new.table_id ≡ seat.old.table_id }
    ensures slots { seat.new.me.1 ≡ seat.old.me.1 }
    ensures goes { GoesOn seat.old.me.0 seat.new.me.0 }

    // what was moved
    ensures moved { (k : KindSeen) (j : ℕ) → j < length listed.now → IsMoved seat.new.me.0 k (slice_index listed.now j) }
{
    for bucket in listed {
        move_bucket(counts, seat, odd, *bucket);
    }
}

/// Moves what waits of the buckets that were noted.
pub(crate) fn move_noted(
    counts: &Counts,
    seat: &mut Seat<(), Sight>,
    odd: bool,
    listed: &Listed,
    buckets: u32,
)
    // the seat
    requires fits { Fits counts.now.table_id counts.now.key seat.old.table_id }
    requires alone { IsAlone seat.old.me.0 }
    requires publishing { IsPublishing seat.old.me.0 }

    // the cycle, and the buckets that were noted
    requires next { odd ≡ not (is_odd seat.old.me.0.view.cycle) }
    requires buckets { buckets ≡ counts.now.key }
    requires lists { Lists buckets seat.old.me.0.due listed.now.all listed.now.buckets.items }

    // the seat behind it
    ensures table { seat.new.table_id ≡ seat.old.table_id }
    ensures slots { seat.new.me.1 ≡ seat.old.me.1 }
    ensures goes { GoesOn seat.old.me.0 seat.new.me.0 }

    // what was moved
    ensures moved { (k : KindSeen) (b : ℕ) → b < buckets → has b seat.old.me.0.due ≡ true → IsMoved seat.new.me.0 k b }
{
    if listed.all {
        move_all(counts, seat, odd, buckets);
    } else {
        move_listed(counts, seat, odd, listed.buckets.as_slice());
    }
}
