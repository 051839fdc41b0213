//! Blocks for the cells of claims: a spine's entry is read, and where it names no block, the worker puts its spare there.
ghost use Rattle.std.specs.Prelude.{◌≡◌, ℕ, ◌+◌, ◌/◌, ◌<◌, ◌≤◌, ◌==◌, true, Some, length, slice_index};
ghost use Rattle.set_blocks.specs.Names.{blocks_of};
ghost use Rattle.span_table.specs.Plays.{PutsBy, chunks_at};
ghost use Rattle.span_table.specs.Seats.{found_in, with_found, with_spare};

use crate::plays::{Draw, OfCell, PutBlock, SeeEntry};
use crate::shared::Shared;
use crate::view::{Item, SeatView};
use crate::words::{word_of_drawn, word_of_entry};
use atomic_table::Seat;
use set_blocks::{BLOCK_CELLS, PARTS};
use std::marker::Brand;

fn see_entry_as<J: OfCell>(
    shared: &Shared,
    seat: &mut Seat<Item, SeatView>,
    set: u32,
    entry: u32,
) -> u64
    // the seat
    requires table { seat.old.table_id ≡ shared.now }
    requires out { seat.old.me.0.out ≡ true }

    // the entry
    requires entry { (set < 544) × (entry < chunks_at seat.old.table_id.slots) }
    requires picked { (J.set ≡ set) × (J.index ≡ entry) }

    // the seat behind it
    ensures table { seat.new.table_id ≡ seat.old.table_id }
    ensures view { seat.new.me ≡ (with_found (found_in set entry result) seat.old.me.0, seat.old.me.1) }

    // what was seen
    ensures low { result ≤ blocks_of (chunks_at seat.old.table_id.slots) }
{
    let table = &shared.table;
    let place = word_of_entry(shared.chunks, set, entry);
    table.shared.load::<SeeEntry<J>>(seat, place)
}

// The load of an entry.
fn see_entry(shared: &Shared, seat: &mut Seat<Item, SeatView>, set: u32, entry: u32) -> u64
    requires table { seat.old.table_id ≡ shared.now }
    requires out { seat.old.me.0.out ≡ true }
    requires entry { (set < 544) × (entry < chunks_at seat.old.table_id.slots) }
    ensures table { seat.new.table_id ≡ seat.old.table_id }
    ensures view { seat.new.me ≡ (with_found (found_in set entry result) seat.old.me.0, seat.old.me.1) }
    ensures low { result ≤ blocks_of (chunks_at seat.old.table_id.slots) }
{
    see_entry_as::<Brand>(shared, seat, set, entry)
}

// A worker with a claim and no spare draws a block.
fn draw(shared: &Shared, seat: &mut Seat<Item, SeatView>, set: u32, index: u32, page: u32) -> u64
    // the seat
    requires table { seat.old.table_id ≡ shared.now }
    requires out { seat.old.me.0.out ≡ true }
    requires number { seat.old.me.0.number < 70 }

    // its claim
    requires set { set < 544 }
    requires claimed { seat.old.me.0.view.own.claimed ≡ Some (record { set = set; index = index; page = page }) }

    // it has no spare
    requires none { slice_index seat.old.me.0.spares seat.old.me.0.number ≡ 0 }

    // the seat behind it
    ensures table { seat.new.table_id ≡ seat.old.table_id }
    ensures view { seat.new.me ≡ (with_spare (result + 1) seat.old.me.0, seat.old.me.1) }

    // the block
    ensures low { result < blocks_of (chunks_at seat.old.table_id.slots) }
{
    let (_index, _page) = (index, page);
    let table = &shared.table;
    let place = word_of_drawn(shared.chunks, set % PARTS);
    table.shared.fetch_add::<Draw>(seat, place, 1)
}

// The worker's spare, 1 plus its number: one is drawn where it has none.
fn spare_block(
    shared: &Shared,
    seat: &mut Seat<Item, SeatView>,
    spare: u32,
    set: u32,
    index: u32,
    page: u32,
) -> u32
    // the seat
    requires table { seat.old.table_id ≡ shared.now }
    requires out { seat.old.me.0.out ≡ true }
    requires number { seat.old.me.0.number < 70 }

    // its claim
    requires set { set < 544 }
    requires claimed { seat.old.me.0.view.own.claimed ≡ Some (record { set = set; index = index; page = page }) }

    // its spare
    requires spare { slice_index seat.old.me.0.spares seat.old.me.0.number ≡ spare }

    // the seat behind it
    ensures table { seat.new.table_id ≡ seat.old.table_id }
    ensures view { seat.new.me ≡ (with_spare result seat.old.me.0, seat.old.me.1) }

    // the spare behind it
    ensures some { 0 < result }
{
    let _chunks = shared.chunks;
    if spare > 0 {
        return spare;
    }
    draw(shared, seat, set, index, page) as u32 + 1
}

fn put_as<J: OfCell>(
    shared: &Shared,
    seat: &mut Seat<Item, SeatView>,
    set: u32,
    index: u32,
    page: u32,
    spare: u32,
) -> u64
    // the seat
    requires table { seat.old.table_id ≡ shared.now }
    requires out { seat.old.me.0.out ≡ true }

    // its claim
    requires cell { (set < 544) × (index + 1 < seat.old.table_id.slots) }
    requires claimed { seat.old.me.0.view.own.claimed ≡ Some (record { set = set; index = index; page = page }) }

    // its spare
    requires spare { slice_index seat.old.me.0.spares seat.old.me.0.number ≡ spare }
    requires some { 0 < spare }

    // the entry
    requires picked { (J.set ≡ set) × (J.index ≡ index / 512) }

    // the seat behind it
    ensures table { seat.new.table_id ≡ seat.old.table_id }
    ensures view { PutsBy (result == 0) set (index / 512) spare result seat.old.me seat.new.me }

    // the blocks
    ensures low { result ≤ blocks_of (chunks_at seat.old.table_id.slots) }
    ensures spare { spare ≤ blocks_of (chunks_at seat.old.table_id.slots) }
{
    let _page = page;
    let table = &shared.table;
    let place = word_of_entry(shared.chunks, set, index / BLOCK_CELLS);
    table
        .shared
        .compare_exchange::<PutBlock<J>>(seat, place, 0, u64::from(spare))
}

// Puts the worker's spare in the entry of its claim, where that names no block.
fn put(
    shared: &Shared,
    seat: &mut Seat<Item, SeatView>,
    set: u32,
    index: u32,
    page: u32,
    spare: u32,
) -> u64
    // the seat
    requires table { seat.old.table_id ≡ shared.now }
    requires out { seat.old.me.0.out ≡ true }

    // its claim
    requires cell { (set < 544) × (index + 1 < seat.old.table_id.slots) }
    requires claimed { seat.old.me.0.view.own.claimed ≡ Some (record { set = set; index = index; page = page }) }

    // its spare
    requires spare { slice_index seat.old.me.0.spares seat.old.me.0.number ≡ spare }
    requires some { 0 < spare }

    // the seat behind it
    ensures table { seat.new.table_id ≡ seat.old.table_id }
    ensures view { PutsBy (result == 0) set (index / 512) spare result seat.old.me seat.new.me }

    // the blocks
    ensures low { result ≤ blocks_of (chunks_at seat.old.table_id.slots) }
    ensures spare { spare ≤ blocks_of (chunks_at seat.old.table_id.slots) }
{
    put_as::<Brand>(shared, seat, set, index, page, spare)
}

/// The block that has the cell of the worker's own claim, and the worker's spare afterwards: 1 plus its number, or 0. Where the entry of the
/// claim names no block, the worker's spare is put there; where another one was faster, the spare stays for a later claim.
pub(crate) fn claimed_block(
    shared: &Shared,
    seat: &mut Seat<Item, SeatView>,
    spare: u32,
    set: u32,
    index: u32,
    page: u32,
) -> (u32, u32)
    // the seat
    requires table { seat.old.table_id ≡ shared.now }
    requires out { seat.old.me.0.out ≡ true }
    requires number { (seat.old.me.0.number < 70) × (seat.old.me.0.number < length seat.old.me.0.spares) }

    // its claim
    requires cell { (set < 544) × (index + 1 < seat.old.table_id.slots) }
    requires claimed { seat.old.me.0.view.own.claimed ≡ Some (record { set = set; index = index; page = page }) }

    // its spare
    requires spare { slice_index seat.old.me.0.spares seat.old.me.0.number ≡ spare }

    // the seat behind it
    ensures table { seat.new.table_id ≡ seat.old.table_id }
    ensures view { seat.new.me ≡ (with_spare result.1 (with_found (Some (record { set = set; entry = index / 512; block = result.0 })) seat.old.me.0), seat.old.me.1) }

    // the block
    ensures low { result.0 < blocks_of (chunks_at seat.old.table_id.slots) }
{
    let _chunks = shared.chunks;
    let seen = see_entry(shared, seat, set, index / BLOCK_CELLS);
    if seen > 0 {
        return ((seen - 1) as u32, spare);
    }
    let own = spare_block(shared, seat, spare, set, index, page);
    let found = put(shared, seat, set, index, page, own);
    if found == 0 {
        return (own - 1, 0);
    }
    ((found - 1) as u32, own)
}
