//! The heap lock, with the heap in slot 0. The functions step on a worker's seat, since it holds the slot between them.
ghost use Rattle.std.specs.Prelude.{◌≡◌, ℕ, ◌+◌, ◌-◌, ◌/◌, ◌<◌, ◌≤◌, true, None, Some, [], ◌∷◌, length, MatchResult};
ghost use Rattle.page_alloc.specs.Heap.{PageHeap, AddsLine, HasMoreRoom};
ghost use Rattle.span_laws.specs.Asks.{IsUntouched, mine};
ghost use Rattle.span_laws.specs.MarkEndAsks.{MaySettle};
ghost use Rattle.span_laws.specs.ScavengeAnswers.{told_if};
ghost use Rattle.span_laws.specs.TakeAnswers.{IsNew, cycle_at};
ghost use Rattle.span_laws.specs.Views.{span_of};
ghost use Rattle.span_table.specs.Asks.{CutsRun, GivesRun, HasEnded, HeapSeen, IsOfRegion, KeepsHeap, MayGive, MissesRun, PullsRun, ScavengesRun, SettlesRun, TakesRun};
ghost use Rattle.span_table.specs.Known.{known};
ghost use Rattle.span_table.specs.Seats.{hears, locks, unlocks, says, says_of};

use crate::plays::{
    Cut, FindNoCut, FindNoPage, Give, Hear, Hearing, Lock, LockAlone, Miss, Missing, OfCut,
    OfNumbers, OfPull, OfRun, Pull, Settle, SettleBlock, Take, Unlock,
};
use crate::shared::Shared;
use crate::view::{Item, SeatView};
use crate::words::word_of_page;
use atomic_table::Seat;
use page_alloc::Pages;
use page_bitmap::{Line, Run};
use page_cache::Block;
use span_laws::{Said, SaidOf};
use span_state::Body;
use std::marker::Brand;
use std::sync::Wait;
use table_words::event_word;

// Takes the heap lock if it is free, and the heap out. Else the word that was found.
pub(crate) fn try_lock(
    shared: &Shared,
    seat: &mut Seat<Item, SeatView>,
    number: u32,
) -> Result<Pages, u64>
    requires table { seat.old.table_id ≡ shared.now }
    requires number { number ≡ seat.old.me.0.number }
    requires out { seat.old.me.0.out ≡ true }
    requires empty { seat.old.me.1 ≡ [] }
    ensures table { seat.new.table_id ≡ seat.old.table_id }
    ensures won { MatchResult result (λ heap. (seat.new.me ≡ (locks heap seat.old.me.0, (0, Item.Nothing) ∷ [])) × HeapSeen heap seat.old.me.0) (λ word. seat.new.me ≡ seat.old.me) }
{
    let table = &shared.table;
    let holder = table
        .shared
        .compare_exchange::<Lock>(seat, 0, 0, u64::from(number) + 1);
    if holder != 0 {
        return Err(holder);
    }
    let Item::Heap(heap) = table.shared.exchange(seat, 0, Item::Nothing) else {
        unreachable!()
    };
    Ok(heap)
}

// Waits for the heap lock, and takes the heap out.
pub(crate) fn lock<R: Wait>(
    rt: &R,
    shared: &Shared,
    seat: &mut Seat<Item, SeatView>,
    number: u32,
) -> Pages
    // the seat
    requires table { seat.old.table_id ≡ shared.now }
    requires number { number ≡ seat.old.me.0.number }
    requires out { seat.old.me.0.out ≡ true }
    requires empty { seat.old.me.1 ≡ [] }

    // the seat behind it
    ensures table { seat.new.table_id ≡ seat.old.table_id }
    ensures view { seat.new.me ≡ (locks result seat.old.me.0, (0, Item.Nothing) ∷ []) }

    // the heap
    ensures heap { HeapSeen result seat.old.me.0 }
{
    for _ in rt.forever() {
        match try_lock(shared, seat, number) {
            Ok(heap) => return heap,
            Err(word) => shared.table.shared.park(rt, 0, (word % (1 << 32)) as u32),
        }
    }
    unreachable!()
}

// Takes the heap lock, which is free while no worker is out, and the heap out.
pub(crate) fn lock_alone(shared: &Shared, seat: &mut Seat<Item, SeatView>, number: u32) -> Pages
    // the seat
    requires table { seat.old.table_id ≡ shared.now }
    requires number { number ≡ seat.old.me.0.number }
    requires out { seat.old.me.0.out ≡ true }

    // the driver is alone, and has nothing out
    requires alone { (seat.old.me.0.drives ≡ true) × (seat.old.me.0.away ≡ []) }
    requires unlocked { seat.old.me.0.heap ≡ None }
    requires empty { seat.old.me.1 ≡ [] }

    // the seat behind it
    ensures table { seat.new.table_id ≡ seat.old.table_id }
    ensures view { seat.new.me ≡ (locks result seat.old.me.0, (0, Item.Nothing) ∷ []) }

    // the heap
    ensures heap { HeapSeen result seat.old.me.0 }
{
    let table = &shared.table;
    table
        .shared
        .compare_exchange::<LockAlone>(seat, 0, 0, u64::from(number) + 1);
    let Item::Heap(heap) = table.shared.exchange(seat, 0, Item::Nothing) else {
        unreachable!()
    };
    heap
}

// The heap goes into its slot, which is out with the seat.
fn put_heap(shared: &Shared, seat: &mut Seat<Item, SeatView>, heap: Pages)
    requires table { seat.old.table_id ≡ shared.now }
    requires empty { seat.old.me.1 ≡ (0, Item.Nothing) ∷ [] }
    ensures table { seat.new.table_id ≡ seat.old.table_id }
    ensures view { seat.new.me ≡ (seat.old.me.0, (0, Item.Heap heap) ∷ []) }
{
    let table = &shared.table;
    drop(table.shared.exchange(seat, 0, Item::Heap(heap)));
}

// Gives the heap and the lock back.
pub(crate) fn unlock(shared: &Shared, seat: &mut Seat<Item, SeatView>, heap: Pages)
    requires table { seat.old.table_id ≡ shared.now }
    requires out { seat.old.me.0.out ≡ true }
    requires mine { KeepsHeap heap seat.old.me.0 }
    requires empty { seat.old.me.1 ≡ (0, Item.Nothing) ∷ [] }
    ensures table { seat.new.table_id ≡ seat.old.table_id }
    ensures view { seat.new.me ≡ (unlocks seat.old.me.0, []) }
{
    let table = &shared.table;
    put_heap(shared, seat, heap);
    table.shared.store::<Unlock>(seat, 0, 0);
    table.shared.wake_one(0);
}

// The store of G, at the first page of the run that the journal's line took for a body.
fn take_as<J: OfRun>(
    shared: &Shared,
    seat: &mut Seat<Item, SeatView>,
    body: &Body,
    _heap: &Pages,
    generation: u64,
)
    // the seat
    requires table { seat.old.table_id ≡ shared.now }
    requires out { seat.old.me.0.out ≡ true }

    // the page and the generation
    requires region { IsOfRegion body.now.page seat.old.table_id seat.old.me.0 }
    requires generation { generation ≡ seat.old.me.0.view.generation }

    // the run and its body
    requires picked { (J.span ≡ span_of body.now) × (J.heap ≡ _heap.now) }
    requires run { TakesRun _heap.now body.now seat.old.me.0 }
    requires is_new { IsNew body.now.pages body.now.class body.now }
    requires class { body.now.class < 136 }

    // the seat behind it
    ensures table { seat.new.table_id ≡ seat.old.table_id }
    ensures view { seat.new.me ≡ (locks J.heap (says_of (SaidOf.Takes (cycle_at seat.old.me.0.view.generation)) J.span seat.old.me.0), seat.old.me.1) }

    // what is known of the page
    ensures untouched { IsUntouched seat.old.me.0.view.generation seat.old.me.0.view.own J.span.page }
    ensures nothing { mine J.span.page seat.old.me.0.view.own ≡ 0 }
{
    let table = &shared.table;
    let place = word_of_page(body.page);
    table.shared.store::<Take<J>>(seat, place, generation);
}

pub(crate) fn take(
    shared: &Shared,
    seat: &mut Seat<Item, SeatView>,
    body: &Body,
    heap: &Pages,
    generation: u64,
)
    // the seat
    requires table { seat.old.table_id ≡ shared.now }
    requires out { seat.old.me.0.out ≡ true }

    // the page and the generation
    requires region { IsOfRegion body.now.page seat.old.table_id seat.old.me.0 }
    requires generation { generation ≡ seat.old.me.0.view.generation }

    // the run and its body
    requires run { TakesRun heap.now body.now seat.old.me.0 }
    requires is_new { IsNew body.now.pages body.now.class body.now }
    requires class { body.now.class < 136 }

    // the seat behind it
    ensures table { seat.new.table_id ≡ seat.old.table_id }
    ensures view { seat.new.me ≡ (locks heap.now (says_of (SaidOf.Takes (cycle_at seat.old.me.0.view.generation)) (span_of body.now) seat.old.me.0), seat.old.me.1) }

    // what is known of the page
    ensures untouched { IsUntouched seat.old.me.0.view.generation seat.old.me.0.view.own body.now.page }
    ensures nothing { mine body.now.page seat.old.me.0.view.own ≡ 0 }
{
    take_as::<Brand>(shared, seat, body, heap, generation);
}

fn give_as<J: OfRun>(shared: &Shared, seat: &mut Seat<Item, SeatView>, body: &Body, _heap: &Pages)
    // the seat
    requires table { seat.old.table_id ≡ shared.now }
    requires out { (seat.old.me.0.out ≡ true) × (seat.old.me.0.slot_out ≡ 0) }

    // the run that goes back
    requires region { IsOfRegion body.now.page seat.old.table_id seat.old.me.0 }
    requires picked { (J.span ≡ span_of body.now) × (J.heap ≡ _heap.now) }
    requires run { GivesRun _heap.now body.now seat.old.me.0 }
    requires may { MayGive body.now seat.old.me.0 }

    // the seat behind it
    ensures table { seat.new.table_id ≡ seat.old.table_id }
    ensures view { seat.new.me ≡ (locks J.heap (says (Said.Gives J.span.page J.span.pages) seat.old.me.0), seat.old.me.1) }
{
    let table = &shared.table;
    let place = word_of_page(body.page);
    table.shared.store::<Give<J>>(seat, place, 0);
}

// The store of 0, at the first page of the run that the journal's line gave back.
pub(crate) fn give(shared: &Shared, seat: &mut Seat<Item, SeatView>, body: &Body, heap: &Pages)
    // the seat
    requires table { seat.old.table_id ≡ shared.now }
    requires out { (seat.old.me.0.out ≡ true) × (seat.old.me.0.slot_out ≡ 0) }

    // the run that goes back
    requires region { IsOfRegion body.now.page seat.old.table_id seat.old.me.0 }
    requires run { GivesRun heap.now body.now seat.old.me.0 }
    requires may { MayGive body.now seat.old.me.0 }

    // the seat behind it
    ensures table { seat.new.table_id ≡ seat.old.table_id }
    ensures view { seat.new.me ≡ (locks heap.now (says (Said.Gives body.now.page body.now.pages) seat.old.me.0), seat.old.me.1) }
{
    give_as::<Brand>(shared, seat, body, heap);
}

fn unlock_missed_as<J: Missing>(
    shared: &Shared,
    seat: &mut Seat<Item, SeatView>,
    heap: Pages,
    _line: u64,
    _pages: u32,
    _class: u8,
)
    requires table { seat.old.table_id ≡ shared.now }
    requires out { seat.old.me.0.out ≡ true }
    requires mine { MissesRun heap J.line J.pages J.class seat.old.me.0 }
    requires empty { seat.old.me.1 ≡ (0, Item.Nothing) ∷ [] }
    ensures table { seat.new.table_id ≡ seat.old.table_id }
    ensures view { seat.new.me ≡ (unlocks (says (Said.Misses J.line (cycle_at seat.old.me.0.view.generation) J.pages J.class) seat.old.me.0), []) }
{
    let table = &shared.table;
    put_heap(shared, seat, heap);
    table.shared.store::<Miss<J>>(seat, 0, 0);
    table.shared.wake_one(0);
}

// Gives the heap and the lock back, where the journal's last line says that no run was free: the entry comes with this step.
pub(crate) fn unlock_missed(
    shared: &Shared,
    seat: &mut Seat<Item, SeatView>,
    heap: Pages,
    line: u64,
    pages: u32,
    class: u8,
)
    requires table { seat.old.table_id ≡ shared.now }
    requires out { seat.old.me.0.out ≡ true }
    requires mine { MissesRun heap line pages class seat.old.me.0 }
    requires empty { seat.old.me.1 ≡ (0, Item.Nothing) ∷ [] }
    ensures table { seat.new.table_id ≡ seat.old.table_id }
    ensures view { seat.new.me ≡ (unlocks (says (Said.Misses line (cycle_at seat.old.me.0.view.generation) pages class) seat.old.me.0), []) }
{
    unlock_missed_as::<Brand>(shared, seat, heap, line, pages, class);
}

fn unlock_told_as<J: Hearing>(
    shared: &Shared,
    seat: &mut Seat<Item, SeatView>,
    heap: Pages,
    _run: Option<Run>,
)
    // the seat
    requires table { seat.old.table_id ≡ shared.now }
    requires out { seat.old.me.0.out ≡ true }
    requires alone { seat.old.me.0.drives ≡ true → seat.old.me.0.away ≡ [] }

    // the journal, and the heap with its slot
    requires picked { J.journal ≡ told_if seat.old.me.0.drives heap.past }
    requires mine { ScavengesRun heap _run seat.old.me.0 }
    requires empty { seat.old.me.1 ≡ (0, Item.Nothing) ∷ [] }

    // the seat behind it
    ensures table { seat.new.table_id ≡ seat.old.table_id }
    ensures view { seat.new.me ≡ (unlocks (hears J.journal seat.old.me.0), []) }
{
    let table = &shared.table;
    put_heap(shared, seat, heap);
    table.shared.store::<Hear<J>>(seat, 0, 0);
    table.shared.wake_one(0);
}

// Gives the heap and the lock back, after a scavenging step or none. The driver, while no worker is out, is told the journal; another
// worker knows of none.
pub(crate) fn unlock_told(
    shared: &Shared,
    seat: &mut Seat<Item, SeatView>,
    heap: Pages,
    run: Option<Run>,
)
    // the seat
    requires table { seat.old.table_id ≡ shared.now }
    requires out { seat.old.me.0.out ≡ true }
    requires alone { seat.old.me.0.drives ≡ true → seat.old.me.0.away ≡ [] }

    // the heap with its slot
    requires mine { ScavengesRun heap run seat.old.me.0 }
    requires empty { seat.old.me.1 ≡ (0, Item.Nothing) ∷ [] }

    // the seat behind it
    ensures table { seat.new.table_id ≡ seat.old.table_id }
    ensures view { seat.new.me ≡ (unlocks (hears (told_if seat.old.me.0.drives heap.past) seat.old.me.0), []) }
{
    unlock_told_as::<Brand>(shared, seat, heap, run);
}

fn unlock_settled_as<J: Hearing>(shared: &Shared, seat: &mut Seat<Item, SeatView>, heap: Pages)
    // the seat
    requires table { seat.old.table_id ≡ shared.now }
    requires out { seat.old.me.0.out ≡ true }

    // the cycle may end
    requires alone { (seat.old.me.0.drives ≡ true) × (seat.old.me.0.away ≡ []) }
    requires bare { seat.old.me.0.view.own.cache ≡ None }
    requires may { MaySettle (known seat.old.table_id seat.old.me.0) }

    // the journal, and the heap with its slot
    requires picked { J.journal ≡ Some heap.past }
    requires mine { KeepsHeap heap seat.old.me.0 }
    requires empty { seat.old.me.1 ≡ (0, Item.Nothing) ∷ [] }

    // the seat behind it
    ensures table { seat.new.table_id ≡ seat.old.table_id }
    ensures view { seat.new.me ≡ (unlocks (hears J.journal seat.old.me.0), []) }

    // how the cycle ended
    ensures ended { HasEnded heap.past seat.old.me.0 }
{
    let table = &shared.table;
    put_heap(shared, seat, heap);
    table.shared.store::<Settle<J>>(seat, 0, 0);
    table.shared.wake_one(0);
}

// Gives the heap and the lock back, as a cycle ends, and the driver is told the journal.
pub(crate) fn unlock_settled(shared: &Shared, seat: &mut Seat<Item, SeatView>, heap: Pages)
    // the seat
    requires table { seat.old.table_id ≡ shared.now }
    requires out { seat.old.me.0.out ≡ true }

    // the cycle may end
    requires alone { (seat.old.me.0.drives ≡ true) × (seat.old.me.0.away ≡ []) }
    requires bare { seat.old.me.0.view.own.cache ≡ None }
    requires may { MaySettle (known seat.old.table_id seat.old.me.0) }

    // the heap with its slot
    requires mine { KeepsHeap heap seat.old.me.0 }
    requires empty { seat.old.me.1 ≡ (0, Item.Nothing) ∷ [] }

    // the seat behind it
    ensures table { seat.new.table_id ≡ seat.old.table_id }
    ensures view { seat.new.me ≡ (unlocks (hears (Some heap.past) seat.old.me.0), []) }

    // how the cycle ended
    ensures ended { HasEnded heap.past seat.old.me.0 }
{
    unlock_settled_as::<Brand>(shared, seat, heap);
}

fn pull_block_as<J: OfPull>(
    shared: &Shared,
    seat: &mut Seat<Item, SeatView>,
    number: u32,
    _heap: &Pages,
    _line: u64,
    _block: Block,
)
    // the seat and its number
    requires table { seat.old.table_id ≡ shared.now }
    requires out { seat.old.me.0.out ≡ true }
    requires number { number < 70 }
    requires own { number ≡ seat.old.me.0.number }

    // the line and its block
    requires picked { (J.line ≡ _line) × (J.block ≡ _block) × (J.heap ≡ _heap.now) }
    requires run { PullsRun _heap.now _line _block seat.old.me.0 }

    // the seat behind it
    ensures table { seat.new.table_id ≡ seat.old.table_id }
    ensures view { seat.new.me ≡ (locks J.heap (says (Said.Pulls J.line (cycle_at seat.old.me.0.view.generation) seat.old.me.0.number J.block) seat.old.me.0), seat.old.me.1) }
{
    let table = &shared.table;
    let word = event_word(number) as usize;
    table.shared.fetch_add::<Pull<J>>(seat, word, 1);
}

// Counts the pull of a block, which the journal's line of that number tells.
pub(crate) fn pull_block(
    shared: &Shared,
    seat: &mut Seat<Item, SeatView>,
    number: u32,
    heap: &Pages,
    line: u64,
    block: Block,
)
    // the seat and its number
    requires table { seat.old.table_id ≡ shared.now }
    requires out { seat.old.me.0.out ≡ true }
    requires number { number < 70 }
    requires own { number ≡ seat.old.me.0.number }

    // the line and its block
    requires run { PullsRun heap.now line block seat.old.me.0 }

    // the seat behind it
    ensures table { seat.new.table_id ≡ seat.old.table_id }
    ensures view { seat.new.me ≡ (locks heap.now (says (Said.Pulls line (cycle_at seat.old.me.0.view.generation) seat.old.me.0.number block) seat.old.me.0), seat.old.me.1) }
{
    pull_block_as::<Brand>(shared, seat, number, heap, line, block);
}

// Gives the heap and the lock back, where no page was free: the entry comes with this step.
pub(crate) fn unlock_barren(shared: &Shared, seat: &mut Seat<Item, SeatView>, heap: Pages)
    requires table { seat.old.table_id ≡ shared.now }
    requires out { seat.old.me.0.out ≡ true }
    requires mine { KeepsHeap heap seat.old.me.0 }
    requires empty { seat.old.me.1 ≡ (0, Item.Nothing) ∷ [] }
    ensures table { seat.new.table_id ≡ seat.old.table_id }
    ensures view { seat.new.me ≡ (unlocks (says Said.FindsNoPage seat.old.me.0), []) }
{
    let table = &shared.table;
    put_heap(shared, seat, heap);
    table.shared.store::<FindNoPage>(seat, 0, 0);
    table.shared.wake_one(0);
}

fn settle_block_as<J: OfPull>(
    shared: &Shared,
    seat: &mut Seat<Item, SeatView>,
    number: u32,
    _heap: &Pages,
    _line: u64,
)
    // the seat and its number
    requires table { seat.old.table_id ≡ shared.now }
    requires out { seat.old.me.0.out ≡ true }
    requires number { number < 70 }
    requires own { number ≡ seat.old.me.0.number }

    // the line that settles
    requires picked { (J.line ≡ _line) × (J.heap ≡ _heap.now) }
    requires run { SettlesRun _heap.now _line seat.old.me.0 }

    // the seat behind it
    ensures table { seat.new.table_id ≡ seat.old.table_id }
    ensures view { seat.new.me ≡ (locks J.heap (says (Said.Settles J.line) seat.old.me.0), seat.old.me.1) }
{
    let table = &shared.table;
    let word = event_word(number) as usize;
    table.shared.fetch_add::<SettleBlock<J>>(seat, word, 1);
}

// Counts that the worker's block was settled by lines up to that of this number.
pub(crate) fn settle_block(
    shared: &Shared,
    seat: &mut Seat<Item, SeatView>,
    number: u32,
    heap: &Pages,
    line: u64,
)
    // the seat and its number
    requires table { seat.old.table_id ≡ shared.now }
    requires out { seat.old.me.0.out ≡ true }
    requires number { number < 70 }
    requires own { number ≡ seat.old.me.0.number }

    // the line that settles
    requires run { SettlesRun heap.now line seat.old.me.0 }

    // the seat behind it
    ensures table { seat.new.table_id ≡ seat.old.table_id }
    ensures view { seat.new.me ≡ (locks heap.now (says (Said.Settles line) seat.old.me.0), seat.old.me.1) }
{
    settle_block_as::<Brand>(shared, seat, number, heap, line);
}

fn cut_off_as<J: OfCut>(
    shared: &Shared,
    seat: &mut Seat<Item, SeatView>,
    body: &Body,
    _left: Block,
    generation: u64,
)
    // the seat
    requires table { seat.old.table_id ≡ shared.now }
    requires out { seat.old.me.0.out ≡ true }

    // the page and the generation
    requires region { IsOfRegion body.now.page seat.old.table_id seat.old.me.0 }
    requires generation { generation ≡ seat.old.me.0.view.generation }

    // the run and its body
    requires picked { (J.span ≡ span_of body.now) × (J.left ≡ _left) }
    requires cut { CutsRun body.now _left seat.old.me.0 }
    requires is_new { IsNew body.now.pages body.now.class body.now }
    requires class { body.now.class < 136 }

    // the seat behind it
    ensures table { seat.new.table_id ≡ seat.old.table_id }
    ensures view { seat.new.me ≡ (says_of (SaidOf.Cuts J.left) J.span seat.old.me.0, seat.old.me.1) }

    // what is known of the page
    ensures untouched { IsUntouched seat.old.me.0.view.generation seat.old.me.0.view.own J.span.page }
    ensures nothing { mine J.span.page seat.old.me.0.view.own ≡ 0 }
{
    let table = &shared.table;
    let place = word_of_page(body.page);
    table.shared.store::<Cut<J>>(seat, place, generation);
}

// The store of G, at the first page of a run that was cut out of the worker's block for a body.
pub(crate) fn cut_off(
    shared: &Shared,
    seat: &mut Seat<Item, SeatView>,
    body: &Body,
    left: Block,
    generation: u64,
)
    // the seat
    requires table { seat.old.table_id ≡ shared.now }
    requires out { seat.old.me.0.out ≡ true }

    // the page and the generation
    requires region { IsOfRegion body.now.page seat.old.table_id seat.old.me.0 }
    requires generation { generation ≡ seat.old.me.0.view.generation }

    // the run and its body
    requires cut { CutsRun body.now left seat.old.me.0 }
    requires is_new { IsNew body.now.pages body.now.class body.now }
    requires class { body.now.class < 136 }

    // the seat behind it
    ensures table { seat.new.table_id ≡ seat.old.table_id }
    ensures view { seat.new.me ≡ (says_of (SaidOf.Cuts left) (span_of body.now) seat.old.me.0, seat.old.me.1) }

    // what is known of the page
    ensures untouched { IsUntouched seat.old.me.0.view.generation seat.old.me.0.view.own body.now.page }
    ensures nothing { mine body.now.page seat.old.me.0.view.own ≡ 0 }
{
    cut_off_as::<Brand>(shared, seat, body, left, generation);
}

fn find_no_cut_as<J: OfNumbers>(
    shared: &Shared,
    seat: &mut Seat<Item, SeatView>,
    number: u32,
    _pages: u32,
    _left: u32,
)
    // the seat and its number
    requires table { seat.old.table_id ≡ shared.now }
    requires out { seat.old.me.0.out ≡ true }
    requires number { number < 70 }
    requires own { number ≡ seat.old.me.0.number }

    // the pages that were asked for, and those left
    requires picked { (J.first ≡ _pages) × (J.second ≡ _left) }

    // the seat behind it
    ensures table { seat.new.table_id ≡ seat.old.table_id }
    ensures view { seat.new.me ≡ (says (Said.FindsNoCut J.first J.second) seat.old.me.0, seat.old.me.1) }
{
    let table = &shared.table;
    let word = event_word(number) as usize;
    table.shared.load::<FindNoCut<J>>(seat, word);
}

// The log is told that the worker's block had no run of so many pages, and how many pages it has left. The step reads the worker's own
// event word, which nobody else writes.
pub(crate) fn find_no_cut(
    shared: &Shared,
    seat: &mut Seat<Item, SeatView>,
    number: u32,
    pages: u32,
    left: u32,
)
    requires table { seat.old.table_id ≡ shared.now }
    requires out { seat.old.me.0.out ≡ true }
    requires number { number < 70 }
    requires own { number ≡ seat.old.me.0.number }
    ensures table { seat.new.table_id ≡ seat.old.table_id }
    ensures view { seat.new.me ≡ (says (Said.FindsNoCut pages left) seat.old.me.0, seat.old.me.1) }
{
    find_no_cut_as::<Brand>(shared, seat, number, pages, left);
}
