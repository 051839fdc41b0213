//! The three counters: the pages swept in this cycle, the bytes spent in it and the next chunk to reclaim.
ghost use Rattle.std.specs.Prelude.{◌≡◌, ◌+◌, ◌<◌, ◌≤◌, true};
ghost use Rattle.span_laws.specs.OwnSteps.{after_said};
ghost use Rattle.span_table.specs.Seats.{says};

use crate::plays::{Add, ReadCount};
use crate::shared::{Shared, Worker};
use crate::view::{Item, SeatView};
use atomic_table::Seat;
use span_laws::Said;
use table_words::{NEXT_CHUNK, SPENT_BYTES, SWEPT_PAGES};

// Reads the word of a counter.
fn read(shared: &Shared, seat: &mut Seat<Item, SeatView>, word: u64) -> u64
    requires table { seat.old.table_id ≡ shared.now }
    requires out { seat.old.me.0.out ≡ true }
    requires word { word < 5 }
    ensures table { seat.new.table_id ≡ seat.old.table_id }
    ensures view { seat.new.me ≡ (says (Said.Reads word result) seat.old.me.0, seat.old.me.1) }
{
    let table = &shared.table;
    table.shared.load::<ReadCount>(seat, word as usize)
}

// Adds a number to the word of a counter, modulo 2^64, and answers what it was.
fn add(shared: &Shared, seat: &mut Seat<Item, SeatView>, word: u64, number: u64) -> u64
    requires table { seat.old.table_id ≡ shared.now }
    requires out { seat.old.me.0.out ≡ true }
    requires word { (2 ≤ word) × (word < 5) }
    ensures table { seat.new.table_id ≡ seat.old.table_id }
    ensures view { seat.new.me ≡ (says (Said.Adds word result number) seat.old.me.0, seat.old.me.1) }
{
    let table = &shared.table;
    table.shared.fetch_add::<Add>(seat, word as usize, number)
}

impl Shared {
    /// The swept pages of this cycle (word 2).
    pub fn swept(&self, w: &mut Worker) -> u64
        requires table { w.old.table ≡ self.now }
        ensures { w.new ≡ after_said (Said.Reads 2 result) w.old }
    {
        read(self, &mut w.seat, SWEPT_PAGES)
    }

    /// The spent bytes of this cycle (word 3).
    pub fn spent(&self, w: &mut Worker) -> u64
        requires table { w.old.table ≡ self.now }
        ensures { w.new ≡ after_said (Said.Reads 3 result) w.old }
    {
        read(self, &mut w.seat, SPENT_BYTES)
    }

    /// Adds swept pages of this cycle, modulo 2^64, and answers the number before (word 2). Takes no memory.
    pub fn add_swept(&self, w: &mut Worker, pages: u32) -> u64
        requires table { w.old.table ≡ self.now }
        ensures { w.new ≡ after_said (Said.Adds 2 result pages) w.old }
    {
        add(self, &mut w.seat, SWEPT_PAGES, u64::from(pages))
    }

    /// Adds bytes of spans cached or made in this cycle, modulo 2^64, and answers the number before (word 3). Takes no memory.
    pub fn add_spent(&self, w: &mut Worker, bytes: u64) -> u64
        requires table { w.old.table ≡ self.now }
        ensures { w.new ≡ after_said (Said.Adds 3 result bytes) w.old }
    {
        add(self, &mut w.seat, SPENT_BYTES, bytes)
    }

    /// Claims the next chunk for the page reclaimer, and answers its number (word 4; `mheap.go`, `reclaim`). Takes no memory.
    pub fn claim_chunk(&self, w: &mut Worker) -> u64
        requires table { w.old.table ≡ self.now }
        ensures { w.new ≡ after_said (Said.Adds 4 result 1) w.old }
    {
        add(self, &mut w.seat, NEXT_CHUNK, 1)
    }
}
