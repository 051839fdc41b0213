//! The table, and the workers' seats.
ghost use Rattle.std.specs.Prelude.{◌≡◌, ◌≢◌, ◌⊎◌, ℕ, ◌+◌, ◌*◌, ◌<◌, ◌≤◌, true, false, Some, None, [], IfOk, IfSome, length, slice_index};
ghost use mathlib.Core.Option.{some};
ghost use lib.ListN.{get_elem?};
ghost use Rattle.sweep_laws.specs.Lists.{has};
ghost use Rattle.span_laws.specs.Views.{first_view};
ghost use Rattle.table_words.specs.Names.{word_count};
ghost use Rattle.span_laws.specs.Views.{Seen, drives};
ghost use Rattle.span_table.specs.Known.{known};
ghost use Rattle.page_cache.specs.Cache.{only};
ghost use Rattle.span_laws.specs.CacheAnswers.{IsSettled};
ghost use Rattle.span_table.specs.Seats.{without_number, sent_out, with_number};

use crate::plays::{HandOut, Leaving, TakeIn};
use crate::rule::OneState;
use crate::view::{Item, SeatView, Size};
use crate::words::count_words;
use atomic_table::{Seat, Table};
use fallible_list::NoMemory;
use page_alloc::Pages;
use page_cache::PageCache;
use size_classes::{CHUNK_PAGES, MAX_CHUNKS, MAX_PAGES};
use std::alloc::Global;
use std::marker::{Brand, Model};
use table_words::WORKERS;

// The driver's number, the last of the workers.
const DRIVER: u32 = 69;

/// What all workers share.
#[derive(Drop)]
pub struct Shared {
    pub(crate) table: Table<Item, SeatView, Size, OneState, Global>,
    pub(crate) chunks: u32,
}

impl Model for Shared {
    ghost use Rattle.atomic_table.specs.Seated.{TableId};
    ghost use Rattle.std.specs.Prelude.{◌*◌};
    ghost use Rattle.span_table.specs.Known.{Fits};

    ghost Value = { TableId };

    ghost view = { λ s. s.table.shared.table_id };

    ghost invariant = { λ s. Fits (512 * s.chunks) s.table.shared.key.pages s.table.shared.table_id };
}

/// A worker: the driver, or one that it handed out.
#[derive(Drop)]
pub struct Worker {
    pub(crate) number: u32,
    // the generation, which stays while the worker is out
    pub(crate) generation: u64,
    // the goal for backed pages
    pub(crate) goal: u32,
    // for each worker's number 1 plus the block that it drew and put nowhere yet, or 0; those of numbers that are not with the seat are of an
    // earlier time
    pub(crate) spares: [u32; WORKERS as usize],
    // its page cache, where it went out with one
    pub(crate) cache: Option<PageCache>,
    // the number of the journal line that pulled the block which is out
    pub(crate) line: u64,
    pub(crate) seat: Seat<Item, SeatView>,
}

impl Model for Worker {
    ghost use Rattle.span_laws.specs.Views.{Seen};
    ghost use Rattle.span_table.specs.Known.{Rests, known};

    ghost Value = { Seen };

    ghost view = { λ w. known w.seat.table_id w.seat.me.0 };

    ghost invariant = { λ w. Rests w.number w.generation w.goal w.spares w.cache w.line w.seat.table_id w.seat.me };
}

// The words at the start.
fn first_words(alloc: Global, chunks: u32) -> Result<Vec<u64>, NoMemory>
    requires some { 1 ≤ chunks }
    requires few { chunks ≤ MAX_CHUNKS }
    ensures { IfOk result (λ v. (length v.items ≡ word_count (512 * chunks)) × (slice_index v.items 1 ≡ 4) × ((i : ℕ) → i ≢ 1 → slice_index v.items i ≡ 0)) }
{
    let mut words = vec![in alloc; 0u64; count_words(chunks)]?;
    words[1] = 4;
    Ok(words)
}

// The heap, and an empty slot for each page.
fn first_items(alloc: Global, heap: Pages, pages: u32) -> Result<Vec<Item>, NoMemory>
    requires { pages ≤ MAX_PAGES }
    ensures { IfOk result (λ v. (length v.items ≡ pages + 1) × (get_elem? v.items 0 ≡ some (Item.Heap heap))) }
{
    let mut items = Vec::new(alloc);
    items.push(Item::Heap(heap))?;
    for _ in 0..pages {
        items.push(Item::Nothing)?;
    }
    Ok(items)
}

fn hand_out_as<J: Leaving>(
    shared: &Shared,
    seat: &mut Seat<Item, SeatView>,
    _number: u32,
    _cache: &Option<PageCache>,
) -> Seat<Item, SeatView>
    // the driver
    requires table { seat.old.table_id ≡ shared.now }
    requires out { seat.old.me.0.out ≡ true }
    requires drives { seat.old.me.0.drives ≡ true }

    // who goes out
    requires number { J.number < length seat.old.me.0.view.parts }
    requires home { has J.number seat.old.me.0.away ≡ false }
    requires other { J.number ≢ seat.old.me.0.number }

    // its page cache
    requires cache { (J.cache ≡ None) ⊎ (J.cache ≡ Some (only J.number None)) }

    // the driver and the worker behind it
    ensures tables { (seat.new.table_id ≡ seat.old.table_id) × (result.table_id ≡ seat.old.table_id) }
    ensures driver { seat.new.me ≡ (without_number J.number seat.old.me.0, seat.old.me.1) }
    ensures worker { result.me ≡ (sent_out J.cache J.number seat.old.me.0, []) }
{
    let table = &shared.table;
    table.shared.split_seat::<HandOut<J>>(seat)
}

// The seat of a number goes out, with a page cache or without.
fn hand_out_seat(
    shared: &Shared,
    seat: &mut Seat<Item, SeatView>,
    number: u32,
    cache: &Option<PageCache>,
) -> Seat<Item, SeatView>
    // the driver
    requires table { seat.old.table_id ≡ shared.now }
    requires out { seat.old.me.0.out ≡ true }
    requires drives { seat.old.me.0.drives ≡ true }

    // who goes out
    requires number { number < length seat.old.me.0.view.parts }
    requires home { has number seat.old.me.0.away ≡ false }
    requires other { number ≢ seat.old.me.0.number }

    // its page cache
    requires cache { (cache.now ≡ None) ⊎ (cache.now ≡ Some (only number None)) }

    // the driver and the worker behind it
    ensures tables { (seat.new.table_id ≡ seat.old.table_id) × (result.table_id ≡ seat.old.table_id) }
    ensures driver { seat.new.me ≡ (without_number number seat.old.me.0, seat.old.me.1) }
    ensures worker { result.me ≡ (sent_out cache.now number seat.old.me.0, []) }
{
    hand_out_as::<Brand>(shared, seat, number, cache)
}

impl Shared {
    ghost use Rattle.span_laws.specs.Handed.{handed_out, handed_out_for, handing, taking_in};

    /// A region of so many chunks of 512 pages, from 1 to 4096, with this goal for backed pages, in which so many processors may have
    /// page caches, and the driver's worker, whose number is 69.
    pub fn new(
        alloc: Global,
        chunks: u32,
        goal: u32,
        procs: u32,
    ) -> Result<(Shared, Worker), NoMemory>
        requires some { 1 ≤ chunks }
        requires few { chunks ≤ MAX_CHUNKS }
        ensures { IfOk result (λ made. made.1 ≡ record { table = made.0; number = 69; away = []; caching = false; journal = None; view = first_view (512 * chunks) goal procs 70 }) }
    {
        let pages = CHUNK_PAGES * chunks;
        let heap = Pages::new(alloc, chunks, goal)?;
        let words = first_words(alloc, chunks)?;
        let items = first_items(alloc, heap, pages)?;
        let size = Size {
            pages,
            goal,
            procs,
            workers: WORKERS,
        };
        let Ok((table, seat)) = Table::new(alloc, &words, items, &size) else {
            return Err(NoMemory);
        };
        let driver = Worker {
            number: DRIVER,
            generation: 4,
            goal,
            spares: [0; WORKERS as usize],
            cache: None,
            line: 0,
            seat,
        };
        Ok((Shared { table, chunks }, driver))
    }

    /// Hands out the worker of a number that is not out, with the part of that number. Others may be out.
    pub fn hand_out(&self, driver: &mut Worker, number: u32) -> Worker
        // the driver
        requires table { driver.old.table ≡ self.now }
        requires drives { drives driver.old ≡ true }

        // who goes out
        requires home { has number driver.old.away ≡ false }
        requires number { number < 69 }
        requires part { number < length driver.old.view.parts }

        // the driver and the worker behind it
        ensures driver { driver.new ≡ handing number driver.old }
        ensures worker { result ≡ handed_out number driver.old }
    {
        let cache = None;
        let seat = hand_out_seat(self, &mut driver.seat, number, &cache);
        Worker {
            number,
            generation: driver.generation,
            goal: driver.goal,
            spares: driver.spares,
            cache,
            line: 0,
            seat,
        }
    }

    /// The same with a page cache for the processor of that number: one that may have one, and below 64.
    pub fn hand_out_for(&self, driver: &mut Worker, proc: u32) -> Worker
        // the driver
        requires table { driver.old.table ≡ self.now }
        requires drives { drives driver.old ≡ true }

        // who goes out, and for which processor
        requires home { has proc driver.old.away ≡ false }
        requires number { proc < 64 }
        requires procs { proc < driver.old.view.procs }
        requires part { proc < length driver.old.view.parts }

        // the driver and the worker behind it
        ensures driver { driver.new ≡ handing proc driver.old }
        ensures worker { result ≡ handed_out_for proc driver.old }
    {
        let cache = Some(PageCache::new(proc));
        let seat = hand_out_seat(self, &mut driver.seat, proc, &cache);
        Worker {
            number: proc,
            generation: driver.generation,
            goal: driver.goal,
            spares: driver.spares,
            cache,
            line: 0,
            seat,
        }
    }

    /// Takes a worker in, with its part. Where it went out with a page cache, that has no block.
    pub fn take_in(&self, driver: &mut Worker, worker: Worker)
        requires table { driver.old.table ≡ self.now }
        requires drives { drives driver.old ≡ true }
        requires out { worker.table ≡ self.now }
        requires settled { IsSettled worker }
        ensures { driver.new ≡ taking_in worker driver.old }
    {
        let Worker {
            number,
            spares,
            seat,
            ..
        } = worker;
        let table = &self.table;
        driver.spares[number as usize] = spares[number as usize];
        table.shared.join_seat::<TakeIn>(&mut driver.seat, seat);
    }
}
