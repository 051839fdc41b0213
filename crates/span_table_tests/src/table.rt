ghost use Rattle.std.specs.Prelude.{◌≡◌, OnOk};
ghost use Rattle.span_table_tests.specs.Rows.{IsFreeDriver, IsReady};

use crate::helpers::{cached, claim_large, found, large, pop, push_large, raise, reset};
use crate::turns::{LARGE, place, start, turn};
use fallible_list::{List, NoMemory};
use page_bitmap::Line;
use span_set::{Claim, Pop, PopBase, SetId, fill, pop_unswept};
use span_state::Marks;
use span_table::{Refused, Shared, Step, Uncached, Worker};
use std::alloc::Global;
use std::sync::Wait;

// The shared spans of a region of one chunk, and the driver, who has claimed no cell.
#[derive(Drop)]
pub(crate) struct Table {
    shared: Shared,
    driver: Worker,
    ghost ready: { IsReady shared driver },
}

// What a pop answers, without the body.
#[derive(Clone, Copy, Debug, PartialEq, Eq)]
pub(crate) enum Popped {
    Taken(u32),
    Empty(u32, u32),
    NotYet(u32),
}

fn without_body(pop: Pop) -> Popped {
    match pop {
        Pop::Taken(body) => Popped::Taken(body.page),
        Pop::Empty { head, tail } => Popped::Empty(head, tail),
        Pop::NotYet { head } => Popped::NotYet(head),
    }
}

// Pushes large spans of so many pages, at least five, to the full set.
fn place_all<R: Wait>(
    rt: &R,
    shared: &Shared,
    w: &mut Worker,
    spans: &[u32],
) -> Result<(), NoMemory>
    requires free { IsFreeDriver shared.now w.old }
    ensures free { OnOk result (IsFreeDriver shared.now w.new) }
    ensures generation { OnOk result (w.new.view.generation ≡ w.old.view.generation) }
{
    for pages in spans {
        place(rt, shared, w, (*pages).max(5))?;
    }
    Ok(())
}

// Ends the first mark phase behind such spans, of which none is marked.
fn end_mark<R: Wait>(
    rt: &R,
    alloc: Global,
    shared: &Shared,
    w: &mut Worker,
    spans: &[u32],
) -> Result<(), NoMemory>
    requires free { IsFreeDriver shared.now w.old }
    requires generation { w.old.view.generation ≡ 4 }
    ensures ready { OnOk result (IsReady shared.now w.new) }
{
    place_all(rt, shared, w, spans)?;
    turn(shared, w, &Marks::empty(alloc))?;
    Ok(())
}

impl Table {
    // With this goal for backed pages.
    pub(crate) fn new(alloc: Global, goal: u32) -> Result<Table, NoMemory> {
        let (shared, driver) = Shared::new(alloc, 1, goal, 0)?;
        Ok(Table { shared, driver })
    }

    // Behind a mark end, for which such spans were pushed to the full set.
    pub(crate) fn behind_mark_end<R: Wait>(
        rt: &R,
        alloc: Global,
        spans: &[u32],
    ) -> Result<Table, NoMemory> {
        let (shared, mut driver) = start(alloc, 1, 512)?;
        end_mark(rt, alloc, &shared, &mut driver, spans)?;
        Ok(Table { shared, driver })
    }

    // `take_span` of so many pages, at least five, for a large span: its page.
    pub(crate) fn take<R: Wait>(&mut self, rt: &R, pages: u32) -> Result<u32, Refused> {
        match self.shared.take_span(rt, &mut self.driver, pages.max(5), 0) {
            Ok(body) => Ok(body.page),
            Err(refused) => Err(refused),
        }
    }

    // `try_span` of the same.
    pub(crate) fn try_take<R: Wait>(
        &mut self,
        rt: &R,
        pages: u32,
    ) -> Result<Option<u32>, NoMemory> {
        match self.shared.try_span(rt, &mut self.driver, pages.max(5), 0) {
            Ok(Some(body)) => Ok(Some(body.page)),
            Ok(None) => Ok(None),
            Err(none) => Err(none),
        }
    }

    // The word that `acquire` finds at a page of the region.
    pub(crate) fn word(&mut self, page: u32) -> Result<Option<u64>, NoMemory> {
        if page >= self.shared.region(&self.driver) {
            return Err(NoMemory);
        }
        Ok(found(&self.shared, &mut self.driver, page))
    }

    // Takes a large span, caches it, and takes it out: the word while it was cached, and what the way out answers.
    pub(crate) fn cache<R: Wait>(
        &mut self,
        rt: &R,
        pages: u32,
    ) -> Result<(u64, Uncached), NoMemory> {
        cached(rt, &self.shared, &mut self.driver, pages)
    }

    // Takes a large span, places its object and pushes it to the full set: its page.
    pub(crate) fn push<R: Wait>(&mut self, rt: &R, pages: u32) -> Result<u32, Refused> {
        let Table { shared, driver } = self;
        let body = large(rt, shared, driver, pages)?;
        let page = body.page;
        push_large(shared, driver, body);
        Ok(page)
    }

    // The same by `claim` and `fill`: the claim, and what a pop answered between them.
    pub(crate) fn claim<R: Wait>(
        &mut self,
        rt: &R,
        pages: u32,
    ) -> Result<(Claim, Popped), Refused> {
        let Table { shared, driver } = self;
        let body = large(rt, shared, driver, pages)?;
        let claim = claim_large(shared, driver, body);
        let between = without_body(pop(shared, driver, LARGE));
        fill(shared, driver, claim);
        Ok((claim, between))
    }

    // `pop_swept` of a set, whose class is taken modulo 136.
    pub(crate) fn pop(&mut self, class: u8, full: bool) -> Popped {
        let class = class % 136;
        without_body(pop(&self.shared, &mut self.driver, SetId { class, full }))
    }

    // `pop_unswept` of the same.
    pub(crate) fn pop_unswept(&mut self, class: u8, full: bool) -> PopBase {
        let class = class % 136;
        pop_unswept(&self.shared, &mut self.driver, SetId { class, full })
    }

    // `raise_swept` or `raise_unswept` of a set, whose number is taken modulo 544, where head and tail are these, by the page in the
    // cell at that head: the page that was popped, or the head and the tail that were found. NoMemory where head and tail are out of
    // order or the cell is not filled.
    pub(crate) fn raise(
        &mut self,
        set: u32,
        head: u32,
        tail: u32,
    ) -> Result<Result<u32, (u32, u32)>, NoMemory> {
        raise(&self.shared, &mut self.driver, set % 544, head, tail)
    }

    // `reset_set` of such a set of the unswept part, if it is seen empty; else its head and tail.
    pub(crate) fn reset(&mut self, set: u32) -> Result<Option<(u32, u32)>, NoMemory> {
        reset(&self.shared, &mut self.driver, set % 544)
    }

    // Head and tail of a set, whose number is taken modulo 544.
    pub(crate) fn look(&mut self, set: u32) -> (u32, u32) {
        self.shared.look(&mut self.driver, set % 544)
    }

    // The cell of such a set.
    pub(crate) fn look_cell(&mut self, set: u32, index: u32) -> u64 {
        self.shared.look_cell(&mut self.driver, set % 544, index)
    }

    pub(crate) fn generation(&mut self) -> u64 {
        self.shared.generation(&mut self.driver)
    }

    pub(crate) fn add_swept(&mut self, pages: u32) -> u64 {
        self.shared.add_swept(&mut self.driver, pages)
    }

    pub(crate) fn add_spent(&mut self, bytes: u64) -> u64 {
        self.shared.add_spent(&mut self.driver, bytes)
    }

    pub(crate) fn claim_chunk(&mut self) -> u64 {
        self.shared.claim_chunk(&mut self.driver)
    }

    pub(crate) fn swept(&mut self) -> u64 {
        self.shared.swept(&mut self.driver)
    }

    pub(crate) fn spent(&mut self) -> u64 {
        self.shared.spent(&mut self.driver)
    }

    pub(crate) fn pages_taken<R: Wait>(&mut self, rt: &R) -> u32 {
        self.shared.pages_taken(rt, &mut self.driver)
    }

    pub(crate) fn scavenge<R: Wait>(&mut self, rt: &R) -> Result<Step, NoMemory> {
        self.shared.scavenge_step(rt, &mut self.driver)
    }

    // `journal_copy`, behind a scavenging step, by which the driver knows the journal.
    pub(crate) fn lines<R: Wait>(&mut self, rt: &R, alloc: Global) -> Result<List<Line>, NoMemory> {
        self.shared.scavenge_step(rt, &mut self.driver)?;
        self.shared.journal_copy(alloc, &mut self.driver)
    }

    // `close`, behind such a step: the taken pages and the lines of the pages that it answers.
    pub(crate) fn close<R: Wait>(self, rt: &R) -> Result<(u32, Vec<Line>), NoMemory> {
        let Table { shared, mut driver } = self;
        shared.scavenge_step(rt, &mut driver)?;
        let pages = shared.close(driver);
        Ok((pages.taken(), pages.into_journal()))
    }
}
