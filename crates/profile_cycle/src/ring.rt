ghost use Rattle.std.specs.Prelude.{◌≡◌, ◌%◌, ◌^◌, ◌<◌, true, false, OnOk, OnErr, IfOk};
ghost use Rattle.profile_cycle.specs.declared.calls.What.TheVariants.{Allocated, Freed, NextCycle, AfterSweep};
ghost use Rattle.profile_cycle.specs.History.{
  AreDated,
  calls,
  first_view,
  joined,
  lent,
  published_allocs,
  published_frees,
  split_off,
};

use crate::calls::What;
use crate::counts::Count;
use crate::listed::{Noted, take_spare};
use crate::moving::move_noted;
use crate::sight::{HandsOut, Sight, SumOfViews, TakesIn};
use crate::steps::{enter, finish, read};
use crate::words::{Kind, WORDS_PER_BUCKET, Word};
use atomic_table::{Seat, Table};
use edge_io::NoMemory;
use std::alloc::Global;
use std::marker::Model;
use std::mem;

/// The ring of a profile: what its tallies count waits in it until a mark end or a full sweep publishes it, so that each
/// published profile is as of one mark end (`mProf_NextCycle` and `mProf_Flush` of `mprof.go`).
///
/// Its counts are words of one table, which all tallies share: a call that counts is one add of 1, waits for nobody and
/// takes no memory. What is published is said through the calls alone: `specs/History.antt`.
#[derive(Drop)]
pub struct Ring {
    table: Table<(), Sight, u32, SumOfViews, Global>,
    buckets: u32,
    alloc: Global,
}

impl Model for Ring {
    ghost use Rattle.std.specs.Prelude.{◌≡◌};
    ghost use Rattle.profile_cycle.specs.History.{RingId};
    ghost use Rattle.profile_cycle.specs.Words.{word_count};

    ghost Value = { RingId };

    ghost view = { λ r. record { table = r.table.shared.table_id; buckets = r.buckets } };

    ghost invariant = { λ r. (r.table.shared.table_id.words ≡ word_count r.buckets) × (r.table.shared.key ≡ r.buckets) };
}

/// What one worker counts with. Contracts see its ring and its calls.
#[derive(Drop)]
pub struct Tally {
    seat: Seat<(), Sight>,
    buckets: u32,
    odd: bool,
    noted: Noted,
    spare: Option<Noted>,
}

impl Model for Tally {
    ghost use Rattle.std.specs.Prelude.{◌≡◌, [], IfSome};
    ghost use Rattle.profile_cycle.specs.History.{Standing};
    ghost use Rattle.profile_cycle.specs.Listing.{AreEmpty, Stands};

    ghost Value = { Standing };

    ghost view = { λ t. record { ring = record { table = t.seat.table_id; buckets = t.buckets }; view = t.seat.me.0.view } };

    ghost invariant = { λ t. (t.seat.me.1 ≡ []) × Stands t.buckets t.seat.me.0 t.odd t.noted × IfSome t.spare AreEmpty };
}

impl Ring {
    /// A ring of so many buckets, with the driver's tally.
    pub fn new(alloc: Global, buckets: u32) -> Result<(Ring, Tally), NoMemory>
        ensures buckets { IfOk result (λ r. r.0.buckets ≡ buckets) }
        ensures tally { IfOk result (λ r. r.1 ≡ record { ring = r.0; view = first_view }) }
    {
        let noted = Noted::new(alloc, buckets)?;
        let words = vec![in alloc; 0u64; buckets as usize * WORDS_PER_BUCKET + 1]?;
        let (table, seat) = Table::of_words(alloc, words.as_slice(), &buckets)?;
        let ring = Ring {
            table,
            buckets,
            alloc,
        };
        let tally = Tally {
            seat,
            buckets,
            odd: false,
            noted,
            spare: None,
        };
        Ok((ring, tally))
    }

    /// Splits a tally off the driver's, which then has one more out. Without memory the driver's stays as it was.
    pub fn split(&self, t: &mut Tally) -> Result<Tally, NoMemory>
        requires ring { t.old.ring ≡ self.now }
        requires drives { t.old.view.drives ≡ true }
        ensures driver { OnOk result (t.new ≡ record t.old { view = lent t.old.view }) }
        ensures tally { IfOk result (λ other. other ≡ record t.old { view = split_off t.old.view }) }
        ensures err { OnErr result (t.new ≡ t.old) }
    {
        let noted = take_spare(&mut t.spare, self.alloc, self.buckets)?;
        let shared = &self.table.shared;
        let seat = shared.split_seat::<HandsOut>(&mut t.seat);
        Ok(Tally {
            seat,
            buckets: self.buckets,
            odd: t.odd,
            noted,
            spare: None,
        })
    }

    /// Joins a tally that was split off since the last `next_cycle` into the driver's.
    pub fn join(&self, t: &mut Tally, other: Tally)
        requires ring { t.old.ring ≡ self.now }
        requires drives { t.old.view.drives ≡ true }
        requires of_ring { other.ring ≡ self.now }
        requires split { other.view.drives ≡ false }
        requires cycle { other.view.cycle ≡ t.old.view.cycle }
        ensures { t.new ≡ record t.old { view = joined t.old.view other.view } }
    {
        let Tally {
            seat,
            buckets: _,
            odd: _,
            mut noted,
            spare: _,
        } = other;
        let shared = &self.table.shared;
        shared.join_seat::<TakesIn>(&mut t.seat, seat);
        t.noted.due.add_all(&noted.due);
        t.noted.later.add_all(&noted.later);
        noted.clear();
        t.spare = Some(noted);
    }

    /// Counts a sampled allocation of a bucket: toward the second cycle from now.
    pub fn allocated(&self, t: &mut Tally, bucket: u32)
        requires ring { t.old.ring ≡ self.now }
        requires bucket { bucket < self.now.buckets }
        ensures { t.new ≡ calls t.old (Allocated bucket) }
    {
        let word = Word::Waiting(Kind::Allocs, t.odd, bucket);
        let found = enter(
            &self.table.shared,
            &mut t.seat,
            word,
            &What::Allocated(bucket),
        );
        t.noted.later.add_new(bucket, found);
    }

    /// Counts a free of a sampled object of a bucket, by the sweep that finds it dead: toward the next cycle.
    pub fn freed(&self, t: &mut Tally, bucket: u32)
        requires ring { t.old.ring ≡ self.now }
        requires bucket { bucket < self.now.buckets }
        ensures { t.new ≡ calls t.old (Freed bucket) }
    {
        let word = Word::Waiting(Kind::Frees, !t.odd, bucket);
        let found = enter(&self.table.shared, &mut t.seat, word, &What::Freed(bucket));
        t.noted.due.add_new(bucket, found);
    }

    /// Begins the next cycle, after a mark end, and publishes it (`mProf_NextCycle` and `mProf_Flush` of `mprof.go`). All
    /// other tallies are joined.
    pub fn next_cycle(&mut self, t: &mut Tally)
        requires ring { t.old.ring ≡ self.old }
        requires drives { t.old.view.drives ≡ true }
        requires alone { t.old.view.out ≡ 0 }
        ensures ring { self.new ≡ self.old }
        ensures tally { t.new ≡ calls t.old NextCycle }
    {
        let counts = &self.table.shared;
        move_noted(counts, &mut t.seat, !t.odd, &t.noted.due, self.buckets);
        finish(counts, &mut t.seat, &What::NextCycle);
        t.noted.due.clear();
        mem::swap(&mut t.noted.due, &mut t.noted.later);
        t.odd = !t.odd;
    }

    /// Publishes the next cycle, after a full sweep, and stays in this one (`mProf_PostSweep` of `mprof.go`). All other
    /// tallies are joined.
    pub fn after_sweep(&mut self, t: &mut Tally)
        requires ring { t.old.ring ≡ self.old }
        requires drives { t.old.view.drives ≡ true }
        requires alone { t.old.view.out ≡ 0 }
        ensures ring { self.new ≡ self.old }
        ensures tally { t.new ≡ calls t.old AfterSweep }
    {
        let counts = &self.table.shared;
        move_noted(counts, &mut t.seat, !t.odd, &t.noted.due, self.buckets);
        finish(counts, &mut t.seat, &What::AfterSweep);
        t.noted.due.clear();
    }

    /// What is published of a bucket, modulo 2^64. All other tallies are joined.
    pub fn published(&self, t: &mut Tally, bucket: u32) -> Count
        // the tally
        requires ring { t.old.ring ≡ self.now }
        requires drives { t.old.view.drives ≡ true }
        requires alone { t.old.view.out ≡ 0 }

        // the bucket
        requires bucket { bucket < self.now.buckets }

        // what is published
        ensures allocs { result.allocs ≡ published_allocs bucket t.old.view.calls % 2 ^ 64 }
        ensures frees { result.frees ≡ published_frees bucket t.old.view.calls % 2 ^ 64 }

        // the tally, as it was
        ensures dated { AreDated t.old.view.calls }
        ensures same { t.new ≡ t.old }
    {
        let counts = &self.table.shared;
        let allocs = read(counts, &mut t.seat, Word::Published(Kind::Allocs, bucket));
        let frees = read(counts, &mut t.seat, Word::Published(Kind::Frees, bucket));
        Count { allocs, frees }
    }
}
