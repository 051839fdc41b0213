//! What a seat knows, and what lies in the slots. No value of `SeatView` is made.
use page_alloc::Pages;
use page_bitmap::Line;
use span_laws::View;
use span_state::Body;
use std::collections::LinkedList;

/// What a seat knows.
pub struct SeatView {
    /// The number of the worker whose seat it is.
    pub number: u64,
    /// Whether the seat is a worker's; of one that was taken in nothing is said.
    pub out: bool,
    /// Whether it is the driver's.
    pub drives: bool,
    /// Whether it went out with a page cache.
    pub caching: bool,
    /// The numbers that the driver has handed out.
    pub away: LinkedList<u64>,
    /// 1 plus the page whose slot is out with the seat, or 0.
    pub slot_out: u64,
    /// The heap as its last step left it, while the worker has the heap lock.
    pub heap: Option<Pages>,
    /// The whole journal, the newest line first, where the driver was told of it while no worker was out, and nothing was written since.
    pub journal: Option<LinkedList<Line>>,
    /// For each worker's number 1 plus the block of the swept sets' part that the worker drew and has put into no spine yet, or 0. Those of numbers
    /// whose part the seat has not are of an earlier time.
    pub spares: LinkedList<u64>,
    /// The entry that the seat loaded last, where it names a block.
    pub found: Option<Found>,
    /// What contracts see. The parts of a seat that is not the driver's are those of the time at which it was handed out.
    pub view: View,
    /// How far the driver is with a mark end, while one is under way; the seat is not out then.
    pub emptying: Emptying,
}

/// An entry of a set's spine, and the block that it names.
pub struct Found {
    /// The number of the set.
    pub set: u64,
    /// The number of the entry in the set's spine.
    pub entry: u64,
    /// The number of the block in the set's part.
    pub block: u64,
}

/// How far the driver is with a mark end: it empties the unswept sets in the order of their numbers, a set's cells, then the entries of
/// its spine and then its word, and behind all sets the counters and the number of blocks drawn.
pub struct Emptying {
    /// How many unswept sets are empty.
    pub sets: u64,
    /// How many cells of the next one are empty.
    pub cells: u64,
    /// 1 plus the block that has the next cell, once the spine's entry was read, or 0.
    pub block: u64,
    /// How many entries of its spine are empty.
    pub entries: u64,
    /// The tail of that set, once its word was read.
    pub tail: Option<u64>,
    /// How many of the three counters are 0.
    pub counters: u64,
    /// Whether no block of the unswept sets' part is drawn any more.
    pub undrawn: bool,
}

/// What a slot holds: slot 0 the heap, slot p + 1 the body of the span that begins at page p. Nothing lies there while the
/// worker has it in hand.
#[derive(Drop)]
pub enum Item {
    /// Nothing: no span begins at the page, or a worker has its body.
    Nothing,
    /// The pages with their journal.
    Heap(Pages),
    /// The body of a span.
    Span(Body),
}

/// How large the table is.
#[derive(Drop)]
pub struct Size {
    /// The pages of the region.
    pub pages: u32,
    /// The goal for backed pages.
    pub goal: u32,
    /// How many processors may have page caches.
    pub procs: u32,
    /// How many workers there are, with the driver.
    pub workers: u32,
}
