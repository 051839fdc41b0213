//! What each step tells.
use crate::view::{Item, SeatView};
use atomic_table::{Join, Play, Split};
use std::marker::{Brand, PhantomData};

pub(crate) struct ReadGeneration;

impl Play<Item, SeatView> for ReadGeneration {
    ghost use Rattle.span_table.specs.Plays.{Read};

    ghost then = { Read };
}

pub(crate) struct Look;

impl Play<Item, SeatView> for Look {
    ghost use Rattle.span_table.specs.Plays.{Looked};

    ghost then = { Looked };
}

pub(crate) struct Lock;

impl Play<Item, SeatView> for Lock {
    ghost use Rattle.span_table.specs.Plays.{Locked};

    ghost then = { Locked };
}

pub(crate) struct LockAlone;

impl Play<Item, SeatView> for LockAlone {
    ghost use Rattle.span_table.specs.Plays.{LockedAlone};

    ghost then = { LockedAlone };
}

pub(crate) struct Unlock;

impl Play<Item, SeatView> for Unlock {
    ghost use Rattle.span_table.specs.Plays.{Unlocked};

    ghost then = { Unlocked };
}

pub(crate) struct Acquire;

impl Play<Item, SeatView> for Acquire {
    ghost use Rattle.span_table.specs.Plays.{Acquired};

    ghost then = { Acquired };
}

pub(crate) struct Return;

impl Play<Item, SeatView> for Return {
    ghost use Rattle.span_table.specs.Plays.{Returned};

    ghost then = { Returned };
}

/// The span for which a run was taken, or whose run was given back, and the heap then, which a call of the program picks.
pub trait OfRun {
    ghost use Rattle.page_alloc.specs.Heap.{PageHeap};
    ghost use Rattle.span_laws.specs.declared.view.Span.{Span};

    ghost span: { Span };

    ghost heap: { PageHeap };
}

impl OfRun for Brand {
    ghost use Rattle.span_laws.specs.Views.{no_span};
    ghost use Rattle.span_table.specs.Seats.{no_pages};

    ghost span = { no_span };

    ghost heap = { no_pages };
}

pub(crate) struct Take<J> {
    run: PhantomData<J>,
}

impl<J: OfRun> Play<Item, SeatView> for Take<J> {
    ghost use Rattle.span_table.specs.Plays.{Took};

    ghost then = { Took J.span J.heap };
}

pub(crate) struct Give<J> {
    run: PhantomData<J>,
}

impl<J: OfRun> Play<Item, SeatView> for Give<J> {
    ghost use Rattle.span_table.specs.Plays.{Gave};

    ghost then = { Gave J.span J.heap };
}

/// The number of a page, which a call of the program picks.
pub trait Numbered {
    ghost use Rattle.std.specs.Prelude.{ℕ};

    ghost number: { ℕ };
}

impl Numbered for Brand {
    ghost number = { 0 };
}

/// The number of a worker that is handed out, and its page cache, if it gets one, which a call of the program picks.
pub trait Leaving {
    ghost use Rattle.std.specs.Prelude.{ℕ, Option};
    ghost use Rattle.page_cache.specs.Cache.{Cache};

    ghost number: { ℕ };

    ghost cache: { Option Cache };
}

impl Leaving for Brand {
    ghost use Rattle.std.specs.Prelude.{None};

    ghost number = { 0 };

    ghost cache = { None };
}

pub(crate) struct HandOut<J> {
    leaving: PhantomData<J>,
}

impl<J: Leaving> Split<SeatView> for HandOut<J> {
    ghost use Rattle.span_table.specs.Seats.{sent_out, without_number};

    ghost left = { without_number J.number };

    ghost right = { sent_out J.cache J.number };
}

pub(crate) struct TakeIn;

impl Join<SeatView> for TakeIn {
    ghost use Rattle.span_table.specs.Seats.{spent_seat_view, with_number};

    ghost both = { with_number };

    ghost spent = { spent_seat_view };
}

pub(crate) struct Fetch<J> {
    page: PhantomData<J>,
}

impl<J: Numbered> Play<Item, SeatView> for Fetch<J> {
    ghost use Rattle.span_table.specs.Plays.{Fetched};

    ghost then = { Fetched J.number };
}

pub(crate) struct Claim<J> {
    page: PhantomData<J>,
}

impl<J: Numbered> Play<Item, SeatView> for Claim<J> {
    ghost use Rattle.span_table.specs.Plays.{Claimed};

    ghost then = { Claimed J.number };
}

pub(crate) struct Raise<J> {
    page: PhantomData<J>,
}

impl<J: Numbered> Play<Item, SeatView> for Raise<J> {
    ghost use Rattle.span_table.specs.Plays.{Raised};

    ghost then = { Raised J.number };
}

/// The Miss line that the journal has last: its number, pages and span class, which a call of the program picks.
pub trait Missing {
    ghost use Rattle.std.specs.Prelude.{ℕ};

    ghost line: { ℕ };

    ghost pages: { ℕ };

    ghost class: { ℕ };
}

impl Missing for Brand {
    ghost line = { 0 };

    ghost pages = { 0 };

    ghost class = { 0 };
}

pub(crate) struct Miss<J> {
    missing: PhantomData<J>,
}

impl<J: Missing> Play<Item, SeatView> for Miss<J> {
    ghost use Rattle.span_table.specs.Plays.{Missed};

    ghost then = { Missed J.line J.pages J.class };
}

/// A span, which a call of the program picks.
pub trait OfSpan {
    ghost use Rattle.span_laws.specs.declared.view.Span.{Span};

    ghost span: { Span };
}

impl OfSpan for Brand {
    ghost use Rattle.span_laws.specs.Views.{no_span};

    ghost span = { no_span };
}

pub(crate) struct Check;

impl Play<Item, SeatView> for Check {
    ghost use Rattle.span_table.specs.Plays.{Checked};

    ghost then = { Checked };
}

pub(crate) struct Release<J> {
    span: PhantomData<J>,
}

impl<J: OfSpan> Play<Item, SeatView> for Release<J> {
    ghost use Rattle.span_table.specs.Plays.{Released};

    ghost then = { Released J.span };
}

pub(crate) struct Cache<J> {
    page: PhantomData<J>,
}

impl<J: Numbered> Play<Item, SeatView> for Cache<J> {
    ghost use Rattle.span_table.specs.Plays.{Cached};

    ghost then = { Cached J.number };
}

pub(crate) struct ReadCache;

impl Play<Item, SeatView> for ReadCache {
    ghost use Rattle.span_table.specs.Plays.{CacheRead};

    ghost then = { CacheRead };
}

pub(crate) struct Uncache<J> {
    page: PhantomData<J>,
}

impl<J: Numbered> Play<Item, SeatView> for Uncache<J> {
    ghost use Rattle.span_table.specs.Plays.{Uncached};

    ghost then = { Uncached J.number };
}

pub(crate) struct UncacheStale<J> {
    span: PhantomData<J>,
}

impl<J: OfSpan> Play<Item, SeatView> for UncacheStale<J> {
    ghost use Rattle.span_table.specs.Plays.{UncachedStale};

    ghost then = { UncachedStale J.span };
}

/// A body in which an object is placed, and the index, which a call of the program picks.
pub trait OfPlace {
    ghost use Rattle.std.specs.Prelude.{ℕ};
    ghost use Rattle.span_laws.specs.declared.view.Span.{Span};

    ghost span: { Span };

    ghost index: { ℕ };
}

impl OfPlace for Brand {
    ghost use Rattle.span_laws.specs.Views.{no_span};

    ghost span = { no_span };

    ghost index = { 0 };
}

pub(crate) struct Place<J> {
    place: PhantomData<J>,
}

impl<J: OfPlace> Play<Item, SeatView> for Place<J> {
    ghost use Rattle.span_table.specs.Plays.{Placed};

    ghost then = { Placed J.index J.span };
}

/// A cell of a set, or an entry of its spine, which a call of the program picks.
pub trait OfCell {
    ghost use Rattle.std.specs.Prelude.{ℕ};

    ghost set: { ℕ };

    ghost index: { ℕ };
}

impl OfCell for Brand {
    ghost set = { 0 };

    ghost index = { 0 };
}

pub(crate) struct LookCell<J> {
    cell: PhantomData<J>,
}

impl<J: OfCell> Play<Item, SeatView> for LookCell<J> {
    ghost use Rattle.span_table.specs.Plays.{LookedCell};

    ghost then = { LookedCell J.set J.index };
}

pub(crate) struct LookSpine<J> {
    cell: PhantomData<J>,
}

impl<J: OfCell> Play<Item, SeatView> for LookSpine<J> {
    ghost use Rattle.span_table.specs.Plays.{LookedSpine};

    ghost then = { LookedSpine J.set J.index };
}

pub(crate) struct SeeEntry<J> {
    entry: PhantomData<J>,
}

impl<J: OfCell> Play<Item, SeatView> for SeeEntry<J> {
    ghost use Rattle.span_table.specs.Plays.{SawEntry};

    ghost then = { SawEntry J.set J.index };
}

pub(crate) struct Draw;

impl Play<Item, SeatView> for Draw {
    ghost use Rattle.span_table.specs.Plays.{Drew};

    ghost then = { Drew };
}

pub(crate) struct PutBlock<J> {
    entry: PhantomData<J>,
}

impl<J: OfCell> Play<Item, SeatView> for PutBlock<J> {
    ghost use Rattle.span_table.specs.Plays.{Put};

    ghost then = { Put J.set J.index };
}

pub(crate) struct LookBeyond<J> {
    cell: PhantomData<J>,
}

impl<J: OfCell> Play<Item, SeatView> for LookBeyond<J> {
    ghost use Rattle.span_table.specs.Plays.{LookedBeyond};

    ghost then = { LookedBeyond J.set J.index };
}

pub(crate) struct Fill;

impl Play<Item, SeatView> for Fill {
    ghost use Rattle.span_table.specs.Plays.{Filled};

    ghost then = { Filled };
}

pub(crate) struct RaiseEntry<J> {
    page: PhantomData<J>,
}

impl<J: Numbered> Play<Item, SeatView> for RaiseEntry<J> {
    ghost use Rattle.span_table.specs.Plays.{RaisedEntry};

    ghost then = { RaisedEntry J.number };
}

pub(crate) struct ReadCount;

impl Play<Item, SeatView> for ReadCount {
    ghost use Rattle.span_table.specs.Plays.{ReadCounter};

    ghost then = { ReadCounter };
}

pub(crate) struct Add;

impl Play<Item, SeatView> for Add {
    ghost use Rattle.span_table.specs.Plays.{AddedTo};

    ghost then = { AddedTo };
}

/// What is known of the journal, which a call of the program picks.
pub trait Hearing {
    ghost use Rattle.std.specs.Prelude.{List, Option};
    ghost use Rattle.page_bitmap.specs.declared.line.Line.{Line};

    ghost journal: { Option (List Line) };
}

impl Hearing for Brand {
    ghost use Rattle.std.specs.Prelude.{None};

    ghost journal = { None };
}

pub(crate) struct Hear<J> {
    journal: PhantomData<J>,
}

impl<J: Hearing> Play<Item, SeatView> for Hear<J> {
    ghost use Rattle.span_table.specs.Plays.{Heard};

    ghost then = { Heard J.journal };
}

pub(crate) struct Settle<J> {
    journal: PhantomData<J>,
}

impl<J: Hearing> Play<Item, SeatView> for Settle<J> {
    ghost use Rattle.span_table.specs.Plays.{Settled};

    ghost then = { Settled J.journal };
}

pub(crate) struct Begin;

impl Play<Item, SeatView> for Begin {
    ghost use Rattle.span_table.specs.Plays.{Began};

    ghost then = { Began };
}

pub(crate) struct Measure;

impl Play<Item, SeatView> for Measure {
    ghost use Rattle.span_table.specs.Plays.{Measured};

    ghost then = { Measured };
}

pub(crate) struct EmptyCell;

impl Play<Item, SeatView> for EmptyCell {
    ghost use Rattle.span_table.specs.Plays.{EmptiedCell};

    ghost then = { EmptiedCell };
}

pub(crate) struct FindBlock;

impl Play<Item, SeatView> for FindBlock {
    ghost use Rattle.span_table.specs.Plays.{FoundBlock};

    ghost then = { FoundBlock };
}

pub(crate) struct EmptyEntry;

impl Play<Item, SeatView> for EmptyEntry {
    ghost use Rattle.span_table.specs.Plays.{EmptiedEntry};

    ghost then = { EmptiedEntry };
}

pub(crate) struct EmptyDrawn;

impl Play<Item, SeatView> for EmptyDrawn {
    ghost use Rattle.span_table.specs.Plays.{EmptiedDrawn};

    ghost then = { EmptiedDrawn };
}

pub(crate) struct EmptySet;

impl Play<Item, SeatView> for EmptySet {
    ghost use Rattle.span_table.specs.Plays.{EmptiedSet};

    ghost then = { EmptiedSet };
}

pub(crate) struct EmptyCounter;

impl Play<Item, SeatView> for EmptyCounter {
    ghost use Rattle.span_table.specs.Plays.{EmptiedCounter};

    ghost then = { EmptiedCounter };
}

/// The marks of a mark end, which a call of the program picks.
pub trait OfMarks {
    ghost use Rattle.std.specs.Prelude.{ℕ, List};

    ghost marks: { List (ℕ × ℕ) };
}

impl OfMarks for Brand {
    ghost use Rattle.std.specs.Prelude.{[]};

    ghost marks = { [] };
}

pub(crate) struct Turn<J> {
    marks: PhantomData<J>,
}

impl<J: OfMarks> Play<Item, SeatView> for Turn<J> {
    ghost use Rattle.span_table.specs.Plays.{Turned};

    ghost then = { Turned J.marks };
}

pub(crate) struct Note;

impl Play<Item, SeatView> for Note {
    ghost use Rattle.span_table.specs.Plays.{Noted};

    ghost then = { Noted };
}

/// A block that was pulled by the line of this number, and the heap then, which a call of the program picks.
pub trait OfPull {
    ghost use Rattle.std.specs.Prelude.{ℕ};
    ghost use Rattle.page_alloc.specs.Heap.{PageHeap};
    ghost use Rattle.page_cache.specs.declared.block.Block.{Block};

    ghost line: { ℕ };

    ghost block: { Block };

    ghost heap: { PageHeap };
}

impl OfPull for Brand {
    ghost use Rattle.span_table.specs.Seats.{no_block, no_pages};

    ghost line = { 0 };

    ghost block = { no_block };

    ghost heap = { no_pages };
}

pub(crate) struct Pull<J> {
    pull: PhantomData<J>,
}

impl<J: OfPull> Play<Item, SeatView> for Pull<J> {
    ghost use Rattle.span_table.specs.Plays.{Pulled};

    ghost then = { Pulled J.line J.block J.heap };
}

pub(crate) struct FindNoPage;

impl Play<Item, SeatView> for FindNoPage {
    ghost use Rattle.span_table.specs.Plays.{FoundNoPage};

    ghost then = { FoundNoPage };
}

pub(crate) struct SettleBlock<J> {
    pull: PhantomData<J>,
}

impl<J: OfPull> Play<Item, SeatView> for SettleBlock<J> {
    ghost use Rattle.span_table.specs.Plays.{SettledBlock};

    ghost then = { SettledBlock J.line J.heap };
}

/// A span that is cut out of a block, and what is left of the block, which a call of the program picks.
pub trait OfCut {
    ghost use Rattle.page_cache.specs.declared.block.Block.{Block};
    ghost use Rattle.span_laws.specs.declared.view.Span.{Span};

    ghost span: { Span };

    ghost left: { Block };
}

impl OfCut for Brand {
    ghost use Rattle.span_laws.specs.Views.{no_span};
    ghost use Rattle.span_table.specs.Seats.{no_block};

    ghost span = { no_span };

    ghost left = { no_block };
}

pub(crate) struct Cut<J> {
    cut: PhantomData<J>,
}

impl<J: OfCut> Play<Item, SeatView> for Cut<J> {
    ghost use Rattle.span_table.specs.Plays.{CutOff};

    ghost then = { CutOff J.span J.left };
}

/// Two numbers, which a call of the program picks.
pub trait OfNumbers {
    ghost use Rattle.std.specs.Prelude.{ℕ};

    ghost first: { ℕ };

    ghost second: { ℕ };
}

impl OfNumbers for Brand {
    ghost first = { 0 };

    ghost second = { 0 };
}

pub(crate) struct FindNoCut<J> {
    pages: PhantomData<J>,
}

impl<J: OfNumbers> Play<Item, SeatView> for FindNoCut<J> {
    ghost use Rattle.span_table.specs.Plays.{FoundNoCut};

    ghost then = { FoundNoCut J.first J.second };
}
