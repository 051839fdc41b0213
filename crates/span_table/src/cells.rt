//! Cells of sets, and the entries of unswept sets: no slot moves.
ghost use Rattle.std.specs.Prelude.{◌≡◌, ℕ, ◌+◌, ◌/◌, ◌<◌, ◌≤◌, ◌==◌, true, false, Option, Some};
ghost use Rattle.set_blocks.specs.Names.{blocks_of};
ghost use Rattle.sweep_laws.specs.Reading.{is_swept_set};
ghost use Rattle.span_laws.specs.Answers.{RaisesUnswept};
ghost use Rattle.span_laws.specs.Logs.{is_look};
ghost use Rattle.span_laws.specs.Views.{has_cell};
ghost use Rattle.worker_log.specs.Entries.{many};
ghost use Rattle.table_words.specs.Names.{head_tail};
ghost use Rattle.span_laws.specs.OwnSteps.{after_said};
ghost use Rattle.span_table.specs.Plays.{CellAt, RaisesEntryBy, SpineAt, chunks_at};
ghost use Rattle.span_table.specs.Seats.{says, with_found};
ghost use Rattle.span_table.specs.declared.view.Found.{Found};

use crate::blocks::claimed_block;
use crate::caches::check;
use crate::plays::{Fill, LookBeyond, LookCell, LookSpine, Numbered, OfCell, RaiseEntry};
use crate::shared::{Shared, Worker};
use crate::view::{Item, SeatView};
use crate::words::{halves, word_of_cell, word_of_entry, word_of_set};
use atomic_table::Seat;
use set_blocks::{BLOCK_CELLS, PARTS};
use size_classes::MAX_PAGES;
use span_laws::Said;
use std::marker::Brand;
use table_words::head_tail as join_halves;

fn look_beyond_as<J: OfCell>(
    shared: &Shared,
    seat: &mut Seat<Item, SeatView>,
    _set: u32,
    _index: u32,
)
    requires table { seat.old.table_id ≡ shared.now }
    requires out { seat.old.me.0.out ≡ true }
    requires cell { (J.set < 544) × (seat.old.table_id.slots ≤ J.index + 1) }
    ensures table { seat.new.table_id ≡ seat.old.table_id }
    ensures view { CellAt J.set J.index 0 seat.old.me seat.new.me }
{
    let table = &shared.table;
    table.shared.load::<LookBeyond<J>>(seat, 1);
}

// A cell beyond the region, which nobody claims, is told as one that holds 0.
fn look_beyond(shared: &Shared, seat: &mut Seat<Item, SeatView>, set: u32, index: u32)
    requires table { seat.old.table_id ≡ shared.now }
    requires out { seat.old.me.0.out ≡ true }
    requires cell { (set < 544) × (seat.old.table_id.slots ≤ index + 1) }
    ensures table { seat.new.table_id ≡ seat.old.table_id }
    ensures view { CellAt set index 0 seat.old.me seat.new.me }
{
    look_beyond_as::<Brand>(shared, seat, set, index);
}

// The load of an entry for a look at a cell.
fn look_spine_as<J: OfCell>(
    shared: &Shared,
    seat: &mut Seat<Item, SeatView>,
    set: u32,
    index: u32,
) -> u64
    // the seat
    requires table { seat.old.table_id ≡ shared.now }
    requires out { seat.old.me.0.out ≡ true }

    // the cell
    requires cell { (set < 544) × (index + 1 < seat.old.table_id.slots) }
    requires picked { (J.set ≡ set) × (J.index ≡ index) }

    // the seat behind it
    ensures table { seat.new.table_id ≡ seat.old.table_id }
    ensures view { SpineAt set index result seat.old.me seat.new.me }

    // the entry
    ensures low { result ≤ blocks_of (chunks_at seat.old.table_id.slots) }
{
    let table = &shared.table;
    let place = word_of_entry(shared.chunks, set, index / BLOCK_CELLS);
    table.shared.load::<LookSpine<J>>(seat, place)
}

// The entry of a set's spine that is for an index: where it names no block, this is the look at the cell.
fn look_spine(shared: &Shared, seat: &mut Seat<Item, SeatView>, set: u32, index: u32) -> u64
    requires table { seat.old.table_id ≡ shared.now }
    requires out { seat.old.me.0.out ≡ true }
    requires cell { (set < 544) × (index + 1 < seat.old.table_id.slots) }
    ensures table { seat.new.table_id ≡ seat.old.table_id }
    ensures view { SpineAt set index result seat.old.me seat.new.me }
    ensures low { result ≤ blocks_of (chunks_at seat.old.table_id.slots) }
{
    look_spine_as::<Brand>(shared, seat, set, index)
}

fn look_named_as<J: OfCell>(
    shared: &Shared,
    seat: &mut Seat<Item, SeatView>,
    set: u32,
    block: u32,
    index: u32,
) -> u64
    // the seat
    requires table { seat.old.table_id ≡ shared.now }
    requires out { seat.old.me.0.out ≡ true }

    // the cell and its block
    requires cell { (set < 544) × (index + 1 < seat.old.table_id.slots) }
    requires low { block < blocks_of (chunks_at seat.old.table_id.slots) }
    requires found { seat.old.me.0.found ≡ Some (record { set = set; entry = index / 512; block = block }) }
    requires picked { (J.set ≡ set) × (J.index ≡ index) }

    // the seat behind it
    ensures table { seat.new.table_id ≡ seat.old.table_id }
    ensures view { CellAt set index result seat.old.me seat.new.me }
{
    let table = &shared.table;
    let place = word_of_cell(shared.chunks, set % PARTS, block, index % BLOCK_CELLS);
    table.shared.load::<LookCell<J>>(seat, place)
}

// The load of a cell in the block that its entry was found to name.
fn look_named(
    shared: &Shared,
    seat: &mut Seat<Item, SeatView>,
    set: u32,
    block: u32,
    index: u32,
) -> u64
    // the seat
    requires table { seat.old.table_id ≡ shared.now }
    requires out { seat.old.me.0.out ≡ true }

    // the cell and its block
    requires cell { (set < 544) × (index + 1 < seat.old.table_id.slots) }
    requires low { block < blocks_of (chunks_at seat.old.table_id.slots) }
    requires found { seat.old.me.0.found ≡ Some (record { set = set; entry = index / 512; block = block }) }

    // the seat behind it
    ensures table { seat.new.table_id ≡ seat.old.table_id }
    ensures view { CellAt set index result seat.old.me seat.new.me }
{
    look_named_as::<Brand>(shared, seat, set, block, index)
}

// A cell of a set: 0 where its entry names no block.
fn look_inside(shared: &Shared, seat: &mut Seat<Item, SeatView>, set: u32, index: u32) -> u64
    requires table { seat.old.table_id ≡ shared.now }
    requires out { seat.old.me.0.out ≡ true }
    requires cell { (set < 544) × (index + 1 < seat.old.table_id.slots) }
    ensures table { seat.new.table_id ≡ seat.old.table_id }
    ensures view { (found : Option Found) × CellAt set index result (with_found found seat.old.me.0, seat.old.me.1) seat.new.me }
{
    let _chunks = shared.chunks;
    let entry = look_spine(shared, seat, set, index);
    if entry == 0 {
        return 0;
    }
    look_named(shared, seat, set, (entry - 1) as u32, index)
}

// The store in the cell of the worker's own claim, in the block that its entry was found to name.
fn fill(
    shared: &Shared,
    seat: &mut Seat<Item, SeatView>,
    set: u32,
    block: u32,
    index: u32,
    page: u32,
)
    // the seat
    requires table { seat.old.table_id ≡ shared.now }
    requires out { seat.old.me.0.out ≡ true }

    // the cell of its claim, and the block
    requires cell { (set < 544) × (index + 1 < seat.old.table_id.slots) }
    requires low { block < blocks_of (chunks_at seat.old.table_id.slots) }
    requires claimed { seat.old.me.0.view.own.claimed ≡ Some (record { set = set; index = index; page = page }) }
    requires found { seat.old.me.0.found ≡ Some (record { set = set; entry = index / 512; block = block }) }

    // the seat behind it
    ensures table { seat.new.table_id ≡ seat.old.table_id }
    ensures view { seat.new.me ≡ (says (Said.Fills set page) seat.old.me.0, seat.old.me.1) }
{
    let table = &shared.table;
    let place = word_of_cell(shared.chunks, set % PARTS, block, index % BLOCK_CELLS);
    table.shared.store::<Fill>(seat, place, u64::from(page) + 1);
}

fn raise_entry_as<J: Numbered>(
    shared: &Shared,
    seat: &mut Seat<Item, SeatView>,
    set: u32,
    head: u32,
    tail: u32,
    _page: u32,
) -> u64
    // the seat
    requires table { seat.old.table_id ≡ shared.now }
    requires out { seat.old.me.0.out ≡ true }

    // the set
    requires set { set < 544 }
    requires part { is_swept_set seat.old.me.0.view.generation set ≡ false }

    // its head and its tail
    requires order { head < tail }
    requires read { has_cell set head J.number seat.old.me.0.view.own.read ≡ true }

    // the seat behind it
    ensures table { seat.new.table_id ≡ seat.old.table_id }
    ensures view { RaisesEntryBy (result == head_tail head tail) set J.number result seat.old.me seat.new.me }
{
    let table = &shared.table;
    let place = word_of_set(shared.chunks, set);
    let old = join_halves(head, tail);
    table
        .shared
        .compare_exchange::<RaiseEntry<J>>(seat, place, old, old + (1 << 32))
}

// Raises the head of an unswept set by one where head and tail are these still.
fn raise_entry(
    shared: &Shared,
    seat: &mut Seat<Item, SeatView>,
    set: u32,
    head: u32,
    tail: u32,
    page: u32,
) -> u64
    // the seat
    requires table { seat.old.table_id ≡ shared.now }
    requires out { seat.old.me.0.out ≡ true }

    // the set
    requires set { set < 544 }
    requires part { is_swept_set seat.old.me.0.view.generation set ≡ false }

    // its head and its tail
    requires order { head < tail }
    requires read { has_cell set head page seat.old.me.0.view.own.read ≡ true }

    // the seat behind it
    ensures table { seat.new.table_id ≡ seat.old.table_id }
    ensures view { RaisesEntryBy (result == head_tail head tail) set page result seat.old.me seat.new.me }
{
    raise_entry_as::<Brand>(shared, seat, set, head, tail, page)
}

impl Shared {
    /// A cell of a set: a first page plus 1, or 0 where it is not filled. Below a tail that the worker saw, the cells of an unswept
    /// set are filled. Takes no memory, and waits for nobody.
    pub fn look_cell(&self, w: &mut Worker, set: u32, index: u32) -> u64
        requires table { w.old.table ≡ self.now }
        requires set { set < 544 }
        ensures view { w.new ≡ after_said (Said.LooksCell set index result) w.old }
        ensures filled { is_swept_set w.old.view.generation set ≡ false → (h t : ℕ) → 0 < many (is_look set h t) w.old.view.own.log → index < t → 0 < result }
        ensures low { result ≤ MAX_PAGES }
    {
        if index >= BLOCK_CELLS * self.chunks {
            look_beyond(self, &mut w.seat, set, index);
            return 0;
        }
        look_inside(self, &mut w.seat, set, index)
    }

    /// Fills the cell of the worker's own claim, and lets go of the span. Takes no memory, and waits for nobody.
    pub fn fill_cell(&self, w: &mut Worker, set: u32, index: u32, page: u32)
        requires table { w.old.table ≡ self.now }
        requires claimed { w.old.view.own.claimed ≡ Some (record { set = set; index = index; page = page }) }
        ensures { w.new ≡ after_said (Said.Fills set page) w.old }
    {
        check(self, &mut w.seat);
        let spare = w.spares[w.number as usize];
        let (block, left) = claimed_block(self, &mut w.seat, spare, set, index, page);
        w.spares[w.number as usize] = left;
        fill(self, &mut w.seat, set, block, index, page);
    }

    /// Pops the entry at the head of an unswept set, where head and tail are these still. It asks for the page that the worker read
    /// in the cell at that head. Else the head and the tail that were found. Takes no memory, and waits for nobody.
    pub fn raise_unswept(
        &self,
        w: &mut Worker,
        set: u32,
        head: u32,
        tail: u32,
        page: u32,
    ) -> Result<(), (u32, u32)>
        requires table { w.old.table ≡ self.now }
        requires set { set < 544 }
        requires part { is_swept_set w.old.view.generation set ≡ false }
        requires order { head < tail }
        requires read { has_cell set head page w.old.view.own.read ≡ true }
        ensures { RaisesUnswept set head tail page w.old w.new result }
    {
        let word = raise_entry(self, &mut w.seat, set, head, tail, page);
        let (found_head, found_tail) = halves(word);
        if found_head != head || found_tail != tail {
            return Err((found_head, found_tail));
        }
        Ok(())
    }
}
