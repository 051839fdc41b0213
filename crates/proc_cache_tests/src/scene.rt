use crate::objects::Object;
use crate::turns::{large, look, prepare, reclaim_pages, small, sweep_next, turn};
use central_lists::FromSets;
use fallible_list::NoMemory;
use proc_cache::{Placed, Proc, Refused};
use profile_cycle::{Count, Ring};
use size_classes::PAGE_SIZE;
use span_set::{Distance, Hand, Shop};
use span_state::{Marks, SweepNote};
use span_table::Shared;
use std::alloc::Global;
use std::marker::Model;
use std::sync::Wait;
use sweep_lists::Entries;
use sweeper::SweptOne;
use trace_reader::{Event, Header};

/// A processor on the driver's hand, and what they work on: a region of one chunk, and a ring of two buckets.
#[derive(Drop)]
pub struct Scene {
    alloc: Global,
    shared: Shared,
    marks: Marks,
    ring: Ring,
    hand: Hand,
    proc: Proc,
    objects: Entries<Object>,
    pages: u32,
}

impl Model for Scene {
    ghost use Rattle.proc_cache_tests.specs.Ready.{AreObjects, IsReady};

    ghost Value = { Unit {0} };

    ghost view = { λ _. tt };

    ghost invariant = { λ s. IsReady s.shared s.ring s.marks s.hand s.proc × AreObjects s.hand.worker.view.own.log s.objects.items };
}

impl Scene {
    /// A region without spans, and processor 0 of a trace with seed 1 and this rate, or 2^30 where it is more.
    pub fn start(alloc: Global, rate: u64) -> Result<Scene, NoMemory> {
        let header = Header {
            version: 1,
            chunks: 1,
            procs: 1,
            rate: rate.min(1 << 30),
            seed: 1,
            goal: 512,
        };
        let proc = Proc::new(alloc, 0, &header)?;
        let (ring, tally) = Ring::new(alloc, 2)?;
        let (shared, driver) = Shared::new(alloc, 1, 512, 0)?;
        let marks = Marks::empty(alloc);
        let hand = Hand::new(alloc, driver, tally);
        let objects = Entries::new(alloc);
        Ok(Scene {
            alloc,
            shared,
            marks,
            ring,
            hand,
            proc,
            objects,
            pages: 0,
        })
    }

    /// From now on a cycle has to sweep so many pages for each 8192 bytes that are allocated in it.
    pub fn pace(&mut self, pages: u32) {
        self.pages = pages;
    }

    /// An object of 1 to 32768 bytes, which counts toward bucket 0 or 1.
    pub fn small<R: Wait>(
        &mut self,
        rt: &R,
        size: u64,
        scan: bool,
        bucket: u32,
    ) -> Result<Placed, Refused> {
        if size == 0 || size > 32768 || bucket > 1 {
            return Err(Refused::NoMemory);
        }
        let shop = Shop {
            shared: &self.shared,
            marks: &self.marks,
            ring: &self.ring,
            distance: Distance::of(PAGE_SIZE),
            pages: self.pages,
        };
        let event = Event {
            proc: 0,
            size,
            scan,
            stack: 0,
        };
        small(
            rt,
            &shop,
            &mut self.hand,
            &mut self.proc,
            &mut self.objects,
            event,
            bucket,
        )
    }

    /// An object of so many pages, at least 5, which counts toward bucket 0 or 1.
    pub fn large<R: Wait>(&mut self, rt: &R, pages: u32, bucket: u32) -> Result<Placed, Refused> {
        if bucket > 1 {
            return Err(Refused::NoMemory);
        }
        let shop = Shop {
            shared: &self.shared,
            marks: &self.marks,
            ring: &self.ring,
            distance: Distance::of(PAGE_SIZE),
            pages: self.pages,
        };
        large(
            rt,
            &shop,
            &mut self.hand,
            &mut self.proc,
            pages.max(5),
            bucket,
        )
    }

    /// A sampled object of bucket 0 or 1 died in the span of the page.
    pub fn die(&mut self, page: u32, bucket: u32) -> Result<(), NoMemory> {
        if bucket > 1 {
            return Err(NoMemory);
        }
        self.marks.add_dead(page, bucket)
    }

    /// A mark end behind a sweep of all spans. These objects live, each by the page of its span and its index. They lived at the mark end before, or are
    /// small ones that were placed since, in spans of one page; for others the call fails, and nothing is marked.
    pub fn mark_end<R: Wait>(&mut self, rt: &R, live: &[(u32, u32)]) -> Result<(), NoMemory> {
        let shop = Shop {
            shared: &self.shared,
            marks: &self.marks,
            ring: &self.ring,
            distance: Distance::of(PAGE_SIZE),
            pages: 0,
        };
        let marks = prepare(
            rt,
            self.alloc,
            &shop,
            &mut self.hand,
            &mut self.proc,
            &self.objects,
            live,
        )?;
        turn(
            &self.shared,
            &mut self.ring,
            &self.marks,
            &mut self.hand,
            &self.proc,
            &marks,
        );
        self.marks = marks;
        self.objects.clear();
        Ok(())
    }

    /// Reclaims so many pages.
    pub fn reclaim<R: Wait>(&mut self, rt: &R, pages: u32) -> Result<u32, NoMemory> {
        let shop = Shop {
            shared: &self.shared,
            marks: &self.marks,
            ring: &self.ring,
            distance: Distance::of(PAGE_SIZE),
            pages: self.pages,
        };
        reclaim_pages(rt, &shop, &mut self.hand, &self.proc, pages)
    }

    /// Sweeps the next span of the unswept sets.
    pub fn sweep<R: Wait>(&mut self, rt: &R) -> Result<SweptOne, NoMemory> {
        let shop = Shop {
            shared: &self.shared,
            marks: &self.marks,
            ring: &self.ring,
            distance: Distance::of(PAGE_SIZE),
            pages: self.pages,
        };
        sweep_next(rt, &shop, &mut self.hand, &self.proc)
    }

    /// A span of a span class, from 0 to 135, for a cache. The scene is left; where memory ran out it is given back.
    pub fn cache_span(self, class: u8) -> Result<FromSets, Scene> {
        let Scene {
            alloc,
            shared,
            marks,
            ring,
            mut hand,
            proc,
            objects,
            pages,
        } = self;
        let shop = Shop {
            shared: &shared,
            marks: &marks,
            ring: &ring,
            distance: Distance::of(PAGE_SIZE),
            pages: 0,
        };
        match look(&shop, &mut hand, &proc, class.min(135)) {
            Ok(found) => Ok(found),
            Err(NoMemory) => Err(Scene {
                alloc,
                shared,
                marks,
                ring,
                hand,
                proc,
                objects,
                pages,
            }),
        }
    }

    /// The sweeps so far, the oldest first.
    pub fn sweeps(&self) -> &[SweepNote] {
        self.hand.notes.as_slice()
    }

    /// What is published of bucket 0 or 1 behind a full sweep.
    pub fn published(&mut self, bucket: u32) -> Count {
        if bucket > 1 {
            return Count {
                allocs: 0,
                frees: 0,
            };
        }
        self.ring.after_sweep(&mut self.hand.tally);
        self.ring.published(&mut self.hand.tally, bucket)
    }
}
