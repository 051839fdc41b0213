ghost use Rattle.std.specs.Prelude.{◌≡◌, ◌<◌, ℕ, [], OnOk};
ghost use Rattle.span_table_tests.specs.Rows.{HasTurned, IsFreeDriver};
ghost use Rattle.span_state.specs.MarkSet.{dead_of};
ghost use Rattle.sweeper_tests.specs.Rows.{IsReady, IsStage};

use crate::meet::{Met, meet_entry, meet_page};
use fallible_list::NoMemory;
use profile_cycle::{Count, Ring};
use size_classes::{MAX_CHUNKS, PAGE_SIZE, span_pages};
use span_set::{Distance, Hand, Shop};
use span_state::Marks;
use span_table::{Shared, Step, Worker};
use span_table_tests::turns::{LARGE, place, start, turn};
use std::alloc::Global;
use std::sync::Wait;
use sweeper::{Paid, Refused, SweptOne, finish, new_span, pay, reclaim, sweep_one};

// The goal for backed pages.
const GOAL: u32 = 8;

/// What a hand works on between its calls, with a ring of two buckets. The hand is the driver's, or that of a worker with a page cache.
#[derive(Drop)]
pub(crate) struct Scene {
    shared: Shared,
    marks: Marks,
    ring: Ring,
    hand: Hand,
    ghost ready: { IsReady shared ring marks hand },
}

// Adds to the counters of the cycle, which begin anew behind its mark end.
fn count(shared: &Shared, w: &mut Worker)
    requires free { IsFreeDriver shared.now w.old }
    ensures free { IsFreeDriver shared.now w.new }
    ensures generation { w.new.view.generation ≡ w.old.view.generation }
{
    shared.add_swept(w, 100);
    shared.add_spent(w, 1 << 20);
    shared.claim_chunk(w);
}

// Takes a large span of so many pages, at least five, with its object, and marks that where it is to live on.
fn add_span<R: Wait>(
    rt: &R,
    shared: &Shared,
    w: &mut Worker,
    marks: &mut Marks,
    pages: u32,
    marked: bool,
) -> Result<(), NoMemory>
    requires stage { IsStage shared.now marks.old w.old }
    ensures stage { OnOk result (IsStage shared.now marks.new w.new) }
{
    let page = place(rt, shared, w, pages.max(5))?;
    if marked {
        return marks.add(page, 0);
    }
    Ok(())
}

// Takes all these spans.
fn add_spans<R: Wait>(
    rt: &R,
    shared: &Shared,
    w: &mut Worker,
    marks: &mut Marks,
    spans: &[(u32, bool)],
) -> Result<(), NoMemory>
    requires stage { IsStage shared.now marks.old w.old }
    ensures stage { OnOk result (IsStage shared.now marks.new w.new) }
{
    for span in spans {
        add_span(rt, shared, w, marks, span.0, span.1)?;
    }
    Ok(())
}

// Takes all these spans in the first cycle, and ends it with a mark end. All that may run out of memory stands here, where nothing is owned.
fn pass_mark_end<R: Wait>(
    rt: &R,
    shared: &Shared,
    w: &mut Worker,
    marks: &mut Marks,
    spans: &[(u32, bool)],
) -> Result<(), NoMemory>
    requires free { IsFreeDriver shared.now w.old }
    requires generation { w.old.view.generation ≡ 4 }
    requires unmarked { marks.old.pairs ≡ [] }
    requires undead { (page : ℕ) → dead_of marks.old page ≡ [] }
    ensures turned { OnOk result (HasTurned shared.now marks.new.pairs w.new) }
    ensures undead { OnOk result ((page : ℕ) → dead_of marks.new page ≡ []) }
{
    count(shared, w);
    add_spans(rt, shared, w, marks, spans)?;
    turn(shared, w, marks)
}

impl Scene {
    /// A region of one chunk in its first cycle, without spans.
    pub(crate) fn first(alloc: Global) -> Result<Scene, NoMemory> {
        let (ring, tally) = Ring::new(alloc, 2)?;
        let (shared, w) = start(alloc, 1, GOAL)?;
        let marks = Marks::empty(alloc);
        let hand = Hand::new(alloc, w, tally);
        Ok(Scene {
            shared,
            marks,
            ring,
            hand,
        })
    }

    /// The same for the worker of processor 0, who has a page cache.
    pub(crate) fn cached(alloc: Global) -> Result<Scene, NoMemory> {
        let (ring, tally) = Ring::new(alloc, 2)?;
        let (shared, mut driver) = Shared::new(alloc, 1, GOAL, 1)?;
        let w = shared.hand_out_for(&mut driver, 0);
        let marks = Marks::empty(alloc);
        let hand = Hand::new(alloc, w, tally);
        Ok(Scene {
            shared,
            marks,
            ring,
            hand,
        })
    }

    /// A region of so many chunks, from 1 to 4096, behind its first mark end, with large spans of so many pages, at least five each,
    /// and whether their objects are marked. NoMemory for other numbers of chunks.
    pub(crate) fn after_mark_end<R: Wait>(
        rt: &R,
        alloc: Global,
        chunks: u32,
        spans: &[(u32, bool)],
    ) -> Result<Scene, NoMemory> {
        if chunks == 0 || chunks > MAX_CHUNKS {
            return Err(NoMemory);
        }
        let (ring, tally) = Ring::new(alloc, 2)?;
        let (shared, mut w) = start(alloc, chunks, GOAL)?;
        let mut marks = Marks::empty(alloc);
        pass_mark_end(rt, &shared, &mut w, &mut marks, spans)?;
        let hand = Hand::new(alloc, w, tally);
        Ok(Scene {
            shared,
            marks,
            ring,
            hand,
        })
    }

    /// A sampled object of the bucket, 0 or 1, died in the span of the page. NoMemory for other buckets.
    pub(crate) fn die(&mut self, page: u32, bucket: u32) -> Result<(), NoMemory> {
        if bucket > 1 {
            return Err(NoMemory);
        }
        self.marks.add_dead(page, bucket)
    }

    /// So many bytes were spent.
    pub(crate) fn spend(&mut self, bytes: u64) {
        self.shared.add_spent(&mut self.hand.worker, bytes);
    }

    /// The next sweep.
    pub(crate) fn sweep<R: Wait>(&mut self, rt: &R) -> Result<SweptOne, NoMemory> {
        let Scene {
            shared,
            marks,
            ring,
            hand,
        } = self;
        let shop = Shop {
            shared,
            marks,
            ring,
            distance: Distance::of(PAGE_SIZE),
            pages: 0,
        };
        sweep_one(rt, &shop, hand)
    }

    /// All sweeps that are left.
    pub(crate) fn finish<R: Wait>(&mut self, rt: &R) -> Result<(), NoMemory> {
        let Scene {
            shared,
            marks,
            ring,
            hand,
        } = self;
        let shop = Shop {
            shared,
            marks,
            ring,
            distance: Distance::of(PAGE_SIZE),
            pages: 0,
        };
        finish(rt, &shop, hand)
    }

    /// Pays for so many bytes with a credit, where so many pages were to be swept over a distance, which is a page where it is less.
    pub(crate) fn pay<R: Wait>(
        &mut self,
        rt: &R,
        pages: u32,
        distance: u64,
        bytes: u64,
        credit: u32,
    ) -> Result<Paid, NoMemory> {
        let Scene {
            shared,
            marks,
            ring,
            hand,
        } = self;
        let shop = Shop {
            shared,
            marks,
            ring,
            distance: Distance::of(distance),
            pages,
        };
        pay(rt, &shop, hand, bytes, credit)
    }

    /// Reclaims so many pages.
    pub(crate) fn reclaim<R: Wait>(&mut self, rt: &R, pages: u32) -> Result<u32, NoMemory> {
        let Scene {
            shared,
            marks,
            ring,
            hand,
        } = self;
        let shop = Shop {
            shared,
            marks,
            ring,
            distance: Distance::of(PAGE_SIZE),
            pages: 0,
        };
        reclaim(rt, &shop, hand, pages)
    }

    /// The page of a new large span of so many pages, at least five.
    pub(crate) fn make<R: Wait>(&mut self, rt: &R, pages: u32) -> Result<u32, Refused> {
        let Scene {
            shared,
            marks,
            ring,
            hand,
        } = self;
        let shop = Shop {
            shared,
            marks,
            ring,
            distance: Distance::of(PAGE_SIZE),
            pages: 0,
        };
        match new_span(rt, &shop, hand, pages.max(5), 1) {
            Ok(body) => Ok(body.page),
            Err(refused) => Err(refused),
        }
    }

    /// The page of a new span of a size class from 1 to 67.
    pub(crate) fn make_small<R: Wait>(&mut self, rt: &R, class: u8) -> Result<u32, Refused> {
        let Scene {
            shared,
            marks,
            ring,
            hand,
        } = self;
        let shop = Shop {
            shared,
            marks,
            ring,
            distance: Distance::of(PAGE_SIZE),
            pages: 0,
        };
        let class = class.max(1).min(67);
        match new_span(rt, &shop, hand, span_pages(class), class * 2) {
            Ok(body) => Ok(body.page),
            Err(refused) => Err(refused),
        }
    }

    /// How many pages the block of the worker's page cache has left: None for the driver, who has no page cache.
    pub(crate) fn pages_left(&self) -> Option<u32> {
        self.hand.worker.cached_pages()
    }

    /// Sweeps the span of a page of the region, where it waits, by its word. NoMemory for other pages.
    pub(crate) fn meet<R: Wait>(&mut self, rt: &R, page: u32) -> Result<Met, NoMemory> {
        let Scene {
            shared,
            marks,
            ring,
            hand,
        } = self;
        if page >= shared.region(&hand.worker) {
            return Err(NoMemory);
        }
        hand.reserve_note()?;
        let shop = Shop {
            shared,
            marks,
            ring,
            distance: Distance::of(PAGE_SIZE),
            pages: 0,
        };
        Ok(meet_page(rt, &shop, hand, page))
    }

    /// Pops an entry of the unswept full set of large spans, and sweeps its span where it waits.
    pub(crate) fn pop<R: Wait>(&mut self, rt: &R) -> Result<Met, NoMemory> {
        let Scene {
            shared,
            marks,
            ring,
            hand,
        } = self;
        hand.reserve_note()?;
        let shop = Shop {
            shared,
            marks,
            ring,
            distance: Distance::of(PAGE_SIZE),
            pages: 0,
        };
        Ok(meet_entry(rt, &shop, hand, LARGE))
    }

    /// The next scavenging step.
    pub(crate) fn scavenge<R: Wait>(&mut self, rt: &R) -> Result<Step, NoMemory> {
        self.shared.scavenge_step(rt, &mut self.hand.worker)
    }

    /// The generation, the swept pages and the spent bytes of this cycle.
    pub(crate) fn counters(&mut self) -> (u64, u64, u64) {
        let Scene { shared, hand, .. } = self;
        let generation = shared.generation(&mut hand.worker);
        let swept = shared.swept(&mut hand.worker);
        (generation, swept, shared.spent(&mut hand.worker))
    }

    /// How many pages spans have.
    pub(crate) fn taken<R: Wait>(&mut self, rt: &R) -> u32 {
        self.shared.pages_taken(rt, &mut self.hand.worker)
    }

    /// How many notes the hand has.
    pub(crate) fn notes(&self) -> usize {
        self.hand.notes.len()
    }

    /// What is published of a bucket, 0 or any other for 1, after a full sweep.
    pub(crate) fn swept(&mut self, bucket: u32) -> Count {
        self.ring.after_sweep(&mut self.hand.tally);
        self.ring.published(&mut self.hand.tally, bucket.min(1))
    }

    /// The same after a mark end.
    pub(crate) fn marked(&mut self, bucket: u32) -> Count {
        self.ring.next_cycle(&mut self.hand.tally);
        self.ring.published(&mut self.hand.tally, bucket.min(1))
    }
}
