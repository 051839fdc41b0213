//! The mark end. The driver, alone, empties the unswept sets and the counters, one word after another, and stores the new generation. Its
//! seat is not out meanwhile (`specs/Turning.antt`).
ghost use Rattle.std.specs.Prelude.{◌≡◌, ℕ, ◌+◌, ◌*◌, ◌/◌, ◌<◌, ◌≤◌, true, false, Some};
ghost use Rattle.sweep_laws.specs.Lists.{rises};
ghost use Rattle.sweep_laws.specs.Reading.{is_swept_set};
ghost use Rattle.span_laws.specs.Asks.{IsAtWork};
ghost use Rattle.span_laws.specs.MarkEndAsks.{MayMark};
ghost use Rattle.span_laws.specs.MarkEnds.{after_next};
ghost use Rattle.span_laws.specs.OwnSteps.{after_said};
ghost use Rattle.worker_log.specs.Entries.{is_seen_empty, many};
ghost use Rattle.span_table.specs.Emptied.{IsUnswept, no_emptying};
ghost use Rattle.set_blocks.specs.Names.{blocks_of};
ghost use Rattle.span_table.specs.Known.{known};
ghost use Rattle.span_table.specs.Plays.{chunks_at};
ghost use Rattle.span_table.specs.Turning.{IsAlone, IsTurning, empties_cell, empties_counter, empties_drawn, empties_entry, empties_set, finds_block, goes_on, has_cells, has_entries, measures, turned_over, turning, with_sets};

use crate::plays::{
    Begin, EmptyCell, EmptyCounter, EmptyDrawn, EmptyEntry, EmptySet, FindBlock, Measure, Note,
    OfMarks, Turn,
};
use crate::scans::UNSWEPT_SETS;
use crate::shared::{Shared, Worker};
use crate::view::{Item, SeatView};
use crate::words::{halves, word_of_cell, word_of_drawn, word_of_entry, word_of_set};
use atomic_table::Seat;
use set_blocks::{BLOCK_CELLS, PARTS};
use span_laws::Said;
use span_state::Marks;
use std::marker::Brand;
use table_words::{GENERATION, LOCK, NEXT_CHUNK, SPENT_BYTES, SWEPT_PAGES, WORKERS};

// The unswept set of an index: every second set is unswept.
fn unswept_set(index: u32, generation: u64) -> u32
    requires { index < 272 }
    ensures set { IsUnswept generation result }
    ensures half { result / 2 ≡ index }
{
    2 * index + ((generation / 2 + 1) % 2) as u32
}

// The mark end begins.
fn begin(shared: &Shared, seat: &mut Seat<Item, SeatView>)
    requires table { seat.old.table_id ≡ shared.now }
    requires out { seat.old.me.0.out ≡ true }
    requires alone { IsAlone seat.old.me.0 }
    ensures table { seat.new.table_id ≡ seat.old.table_id }
    ensures view { seat.new.me ≡ (turning no_emptying seat.old.me.0, seat.old.me.1) }
{
    let table = &shared.table;
    table.shared.load::<Begin>(seat, LOCK as usize);
}

// The tail of the next set that is to be emptied.
fn measure(shared: &Shared, seat: &mut Seat<Item, SeatView>, set: u32) -> u32
    // the seat
    requires table { seat.old.table_id ≡ shared.now }
    requires turning { IsTurning seat.old.me.0 }

    // the next set
    requires set { IsUnswept seat.old.me.0.view.generation set }
    requires next { set / 2 ≡ seat.old.me.0.emptying.sets }

    // the seat behind it
    ensures table { seat.new.table_id ≡ seat.old.table_id }
    ensures view { seat.new.me ≡ (goes_on (measures result) seat.old.me.0, seat.old.me.1) }

    // the tail of the set
    ensures low { result ≤ seat.old.me.0.view.region }
{
    let table = &shared.table;
    let place = word_of_set(shared.chunks, set);
    let word = table.shared.load::<Measure>(seat, place);
    let (_, tail) = halves(word);
    tail
}

// The block that has the next cell of the next set.
fn find_block(
    shared: &Shared,
    seat: &mut Seat<Item, SeatView>,
    set: u32,
    index: u32,
    tail: u32,
) -> u32
    // the seat
    requires table { seat.old.table_id ≡ shared.now }
    requires turning { IsTurning seat.old.me.0 }

    // the next set
    requires set { IsUnswept seat.old.me.0.view.generation set }
    requires next { set / 2 ≡ seat.old.me.0.emptying.sets }

    // its next cell, below its tail
    requires index { index ≡ seat.old.me.0.emptying.cells }
    requires tail { seat.old.me.0.emptying.tail ≡ Some tail }
    requires used { index < tail }

    // its spine and the slots
    requires entries { seat.old.me.0.emptying.entries ≡ 0 }
    requires region { index + 1 < seat.old.table_id.slots }

    // the seat behind it
    ensures table { seat.new.table_id ≡ seat.old.table_id }
    ensures view { seat.new.me ≡ (goes_on (finds_block (result + 1)) seat.old.me.0, seat.old.me.1) }

    // the block
    ensures low { result < blocks_of (chunks_at seat.old.table_id.slots) }
{
    let _tail = tail;
    let table = &shared.table;
    let place = word_of_entry(shared.chunks, set, index / BLOCK_CELLS);
    let entry = table.shared.load::<FindBlock>(seat, place);
    (entry - 1) as u32
}

// The next cell of the next set becomes 0, in the block that was found.
fn empty_cell(shared: &Shared, seat: &mut Seat<Item, SeatView>, set: u32, block: u32, index: u32)
    // the seat
    requires table { seat.old.table_id ≡ shared.now }
    requires turning { IsTurning seat.old.me.0 }

    // the next set
    requires set { IsUnswept seat.old.me.0.view.generation set }
    requires next { set / 2 ≡ seat.old.me.0.emptying.sets }

    // its next cell
    requires index { index ≡ seat.old.me.0.emptying.cells }
    requires region { index + 1 < seat.old.table_id.slots }

    // the block
    requires block { seat.old.me.0.emptying.block ≡ block + 1 }
    requires low { block < blocks_of (chunks_at seat.old.table_id.slots) }

    // the seat behind it
    ensures table { seat.new.table_id ≡ seat.old.table_id }
    ensures view { seat.new.me ≡ (goes_on empties_cell seat.old.me.0, seat.old.me.1) }
{
    let table = &shared.table;
    let place = word_of_cell(shared.chunks, set % PARTS, block, index % BLOCK_CELLS);
    table.shared.store::<EmptyCell>(seat, place, 0);
}

// The used cells of the next set become 0.
fn empty_cells(shared: &Shared, seat: &mut Seat<Item, SeatView>, set: u32, tail: u32)
    // the seat
    requires table { seat.old.table_id ≡ shared.now }
    requires turning { IsTurning seat.old.me.0 }

    // the next set
    requires set { IsUnswept seat.old.me.0.view.generation set }
    requires next { set / 2 ≡ seat.old.me.0.emptying.sets }

    // nothing of it is emptied yet
    requires cells { seat.old.me.0.emptying.cells ≡ 0 }
    requires block { seat.old.me.0.emptying.block ≡ 0 }
    requires entries { seat.old.me.0.emptying.entries ≡ 0 }

    // its tail
    requires tail { seat.old.me.0.emptying.tail ≡ Some tail }
    requires region { tail < seat.old.table_id.slots }

    // the seat behind it
    ensures table { seat.new.table_id ≡ seat.old.table_id }
    ensures view { seat.new.me ≡ (goes_on (has_cells tail) seat.old.me.0, seat.old.me.1) }
{
    for index in 0..tail {
        let block = find_block(shared, seat, set, index, tail);
        empty_cell(shared, seat, set, block, index);
    }
}

// The next entry of the next set's spine becomes 0.
fn empty_entry(shared: &Shared, seat: &mut Seat<Item, SeatView>, set: u32, entry: u32)
    // the seat
    requires table { seat.old.table_id ≡ shared.now }
    requires turning { IsTurning seat.old.me.0 }

    // the next set
    requires set { IsUnswept seat.old.me.0.view.generation set }
    requires next { set / 2 ≡ seat.old.me.0.emptying.sets }

    // its next entry
    requires entry { entry ≡ seat.old.me.0.emptying.entries }
    requires region { entry < chunks_at seat.old.table_id.slots }

    // the seat behind it
    ensures table { seat.new.table_id ≡ seat.old.table_id }
    ensures view { seat.new.me ≡ (goes_on empties_entry seat.old.me.0, seat.old.me.1) }
{
    let table = &shared.table;
    let place = word_of_entry(shared.chunks, set, entry);
    table.shared.store::<EmptyEntry>(seat, place, 0);
}

// The first entries of the next set's spine become 0.
fn empty_entries(shared: &Shared, seat: &mut Seat<Item, SeatView>, set: u32, entries: u32)
    // the seat
    requires table { seat.old.table_id ≡ shared.now }
    requires turning { IsTurning seat.old.me.0 }

    // the next set
    requires set { IsUnswept seat.old.me.0.view.generation set }
    requires next { set / 2 ≡ seat.old.me.0.emptying.sets }

    // its first entries
    requires none { seat.old.me.0.emptying.entries ≡ 0 }
    requires region { entries ≤ chunks_at seat.old.table_id.slots }

    // the seat behind it
    ensures table { seat.new.table_id ≡ seat.old.table_id }
    ensures view { seat.new.me ≡ (goes_on (has_entries entries) seat.old.me.0, seat.old.me.1) }
{
    for entry in 0..entries {
        empty_entry(shared, seat, set, entry);
    }
}

// The word of the next set becomes 0, all whose cells below its tail are, and the entries for them.
fn empty_word(shared: &Shared, seat: &mut Seat<Item, SeatView>, set: u32, tail: u32)
    // the seat
    requires table { seat.old.table_id ≡ shared.now }
    requires turning { IsTurning seat.old.me.0 }

    // the next set
    requires set { IsUnswept seat.old.me.0.view.generation set }
    requires next { set / 2 ≡ seat.old.me.0.emptying.sets }

    // its tail, and what is empty below it
    requires tail { seat.old.me.0.emptying.tail ≡ Some tail }
    requires cells { tail ≤ seat.old.me.0.emptying.cells }
    requires entries { tail ≤ 512 * seat.old.me.0.emptying.entries }

    // the seat behind it
    ensures table { seat.new.table_id ≡ seat.old.table_id }
    ensures view { seat.new.me ≡ (goes_on empties_set seat.old.me.0, seat.old.me.1) }
{
    let table = &shared.table;
    let place = word_of_set(shared.chunks, set);
    let _tail = tail;
    table.shared.store::<EmptySet>(seat, place, 0);
}

// The next set is emptied: its cells, then its spine, and then its word.
fn empty_set(shared: &Shared, seat: &mut Seat<Item, SeatView>, set: u32)
    // the seat
    requires table { seat.old.table_id ≡ shared.now }
    requires turning { IsTurning seat.old.me.0 }

    // the next set
    requires set { IsUnswept seat.old.me.0.view.generation set }
    requires next { set / 2 ≡ seat.old.me.0.emptying.sets }

    // nothing of it is emptied yet
    requires cells { seat.old.me.0.emptying.cells ≡ 0 }
    requires block { seat.old.me.0.emptying.block ≡ 0 }
    requires entries { seat.old.me.0.emptying.entries ≡ 0 }

    // the region
    requires region { seat.old.me.0.view.region + 1 ≡ seat.old.table_id.slots }

    // the seat behind it
    ensures table { seat.new.table_id ≡ seat.old.table_id }
    ensures view { seat.new.me ≡ (goes_on empties_set seat.old.me.0, seat.old.me.1) }
{
    let _chunks = shared.chunks;
    let tail = measure(shared, seat, set);
    empty_cells(shared, seat, set, tail);
    empty_entries(shared, seat, set, tail.div_ceil(BLOCK_CELLS));
    empty_word(shared, seat, set, tail);
}

// All unswept sets are emptied.
fn empty_sets(shared: &Shared, seat: &mut Seat<Item, SeatView>, generation: u64)
    // the seat and its generation
    requires table { seat.old.table_id ≡ shared.now }
    requires turning { IsTurning seat.old.me.0 }
    requires generation { generation ≡ seat.old.me.0.view.generation }

    // nothing is emptied yet
    requires begun { seat.old.me.0.emptying ≡ no_emptying }

    // the region
    requires region { seat.old.me.0.view.region + 1 ≡ seat.old.table_id.slots }

    // the seat behind it
    ensures table { seat.new.table_id ≡ seat.old.table_id }
    ensures view { seat.new.me ≡ (with_sets 272 seat.old.me.0, seat.old.me.1) }
{
    for index in 0..UNSWEPT_SETS {
        empty_set(shared, seat, unswept_set(index, generation));
    }
}

// The next counter becomes 0.
fn empty_counter(shared: &Shared, seat: &mut Seat<Item, SeatView>, word: u64)
    requires table { seat.old.table_id ≡ shared.now }
    requires turning { IsTurning seat.old.me.0 }
    requires next { word ≡ seat.old.me.0.emptying.counters + 2 }
    requires word { word < 5 }
    ensures table { seat.new.table_id ≡ seat.old.table_id }
    ensures view { seat.new.me ≡ (goes_on empties_counter seat.old.me.0, seat.old.me.1) }
{
    let table = &shared.table;
    table.shared.store::<EmptyCounter>(seat, word as usize, 0);
}

// No block of the unswept sets' part is drawn any more: the part that is swept from now on.
fn empty_drawn(shared: &Shared, seat: &mut Seat<Item, SeatView>, generation: u64)
    requires table { seat.old.table_id ≡ shared.now }
    requires turning { IsTurning seat.old.me.0 }
    requires generation { generation ≡ seat.old.me.0.view.generation }
    ensures table { seat.new.table_id ≡ seat.old.table_id }
    ensures view { seat.new.me ≡ (goes_on empties_drawn seat.old.me.0, seat.old.me.1) }
{
    let table = &shared.table;
    let part = ((generation / 2 + 1) % 2) as u32;
    let place = word_of_drawn(shared.chunks, part);
    table.shared.store::<EmptyDrawn>(seat, place, 0);
}

fn turn_as<J: OfMarks>(
    shared: &Shared,
    seat: &mut Seat<Item, SeatView>,
    generation: u64,
    _marks: &Marks,
)
    // the seat and the next generation
    requires table { seat.old.table_id ≡ shared.now }
    requires turning { IsTurning seat.old.me.0 }
    requires generation { generation ≡ seat.old.me.0.view.generation + 2 }

    // the marks
    requires picked { J.marks ≡ _marks.now.pairs }
    requires rising { rises J.marks ≡ true }
    requires may { MayMark (known seat.old.table_id seat.old.me.0) J.marks }

    // all is emptied
    requires sets { seat.old.me.0.emptying.sets ≡ 272 }
    requires counters { seat.old.me.0.emptying.counters ≡ 3 }
    requires undrawn { seat.old.me.0.emptying.undrawn ≡ true }

    // the seat behind it
    ensures table { seat.new.table_id ≡ seat.old.table_id }
    ensures view { seat.new.me ≡ (turned_over J.marks seat.old.me.0, seat.old.me.1) }

    // how high the generation is
    ensures early { generation ≤ 8589934592 }
{
    let table = &shared.table;
    table
        .shared
        .store::<Turn<J>>(seat, GENERATION as usize, generation);
}

// The new generation is stored.
fn turn(shared: &Shared, seat: &mut Seat<Item, SeatView>, generation: u64, marks: &Marks)
    // the seat and the next generation
    requires table { seat.old.table_id ≡ shared.now }
    requires turning { IsTurning seat.old.me.0 }
    requires generation { generation ≡ seat.old.me.0.view.generation + 2 }

    // the marks
    requires rising { rises marks.now.pairs ≡ true }
    requires may { MayMark (known seat.old.table_id seat.old.me.0) marks.now.pairs }

    // all is emptied
    requires sets { seat.old.me.0.emptying.sets ≡ 272 }
    requires counters { seat.old.me.0.emptying.counters ≡ 3 }
    requires undrawn { seat.old.me.0.emptying.undrawn ≡ true }

    // the seat behind it
    ensures table { seat.new.table_id ≡ seat.old.table_id }
    ensures view { seat.new.me ≡ (turned_over marks.now.pairs seat.old.me.0, seat.old.me.1) }

    // how high the generation is
    ensures early { generation ≤ 8589934592 }
{
    turn_as::<Brand>(shared, seat, generation, marks);
}

// The whole mark end, on the driver's seat.
fn end_marking(shared: &Shared, seat: &mut Seat<Item, SeatView>, generation: u64, marks: &Marks)
    // the driver is alone
    requires table { seat.old.table_id ≡ shared.now }
    requires out { seat.old.me.0.out ≡ true }
    requires alone { IsAlone seat.old.me.0 }

    // the generation and the region
    requires generation { (generation ≡ seat.old.me.0.view.generation) × (generation < 8589934592) }
    requires region { seat.old.me.0.view.region + 1 ≡ seat.old.table_id.slots }

    // the marks
    requires rising { rises marks.now.pairs ≡ true }
    requires may { MayMark (known seat.old.table_id seat.old.me.0) marks.now.pairs }

    // the seat behind it
    ensures table { seat.new.table_id ≡ seat.old.table_id }
    ensures view { seat.new.me ≡ (turned_over marks.now.pairs seat.old.me.0, seat.old.me.1) }

    // how high the generation is
    ensures early { generation + 2 ≤ 8589934592 }
{
    begin(shared, seat);
    empty_sets(shared, seat, generation);
    empty_counter(shared, seat, SWEPT_PAGES);
    empty_counter(shared, seat, SPENT_BYTES);
    empty_counter(shared, seat, NEXT_CHUNK);
    empty_drawn(shared, seat, generation);
    turn(shared, seat, generation + 2, marks);
}

impl Shared {
    /// Notes an unswept set, which the driver saw empty, for the next mark end, which empties it. Takes no memory, and waits for nobody.
    pub fn reset_set(&self, driver: &mut Worker, set: u32)
        requires table { driver.old.table ≡ self.now }
        requires set { set < 544 }
        requires part { is_swept_set driver.old.view.generation set ≡ false }
        requires empty { 0 < many (is_seen_empty set) driver.old.view.own.log }
        ensures { driver.new ≡ after_said (Said.Resets set) driver.old }
    {
        let table = &self.table;
        let place = word_of_set(self.chunks, set);
        table.shared.load::<Note>(&mut driver.seat, place);
    }

    /// Ends a mark phase (`mgc.go`, `gcMarkTermination`): the generation rises by 2, each span waits for its sweep, the
    /// unswept sets become the swept ones, and all logs and the words 2 to 4 begin anew. `marks` names an object by the
    /// first page of its span and its index. No worker is out, and nothing was written since the driver was told of the journal.
    /// Takes no memory, and waits for nobody.
    pub fn next_generation(&self, driver: &mut Worker, marks: &Marks)
        requires works { IsAtWork self.now driver.old }
        requires may { MayMark driver.old marks.now.pairs }
        ensures { driver.new ≡ after_next marks.now.pairs driver.old }
    {
        marks.rising();
        let generation = driver.generation;
        end_marking(self, &mut driver.seat, generation, marks);
        driver.generation = generation + 2;
        driver.spares = [0; WORKERS as usize];
    }
}
