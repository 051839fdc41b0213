//! All spans, with a table by page beside them. Only the methods here write the two, always both. A life comes and goes under the
//! heap lock; a mark end writes what each keeps.

ghost use Rattle.std.specs.Prelude.{◌≡◌, ◌==◌, ◌≤◌, ◌<◌, true, map, length, nat_lt, if◌then◌else◌, None, OnOk, OnErr, IfOk, option_map, [], ◌∷◌, ◌++◌};
ghost use Rattle.std.specs.List.{All, find};
ghost use Rattle.sweep_laws.specs.ChangesOfLives.{marks_at, mark_life, change_life, drop_life as dropped_life, keep_marked as kept_marked, allocate_index as allocated_too};
ghost use Rattle.sweep_laws.specs.Lists.{rises};
ghost use Rattle.sweep_laws.specs.Reading.{life_in};
ghost use Rattle.sweep_lists.specs.Views.{life_view, LifeRoom};

use crate::life::Life;
use crate::places::{
    allocate_at, first_at, keep_marked_at, make_place, mark_all, mark_all_by, next_at, take_pages,
    tell_next, tell_start,
};
use fallible_list::NoMemory;
use span_state::Marks;
use std::alloc::Global;
use std::marker::Model;

/// The spans from their Take to their Give, in the order of their Takes, with room for more. A table by page tells
/// which is the first that begins there, so that no list is scanned for it.
#[derive(Debug, Drop)]
pub struct Lives {
    // In order. The place of a life that left is empty until all places up to the room are used.
    places: Vec<Option<Life>>,
    // How many lives there are.
    used: usize,
    space: usize,
    // For each page of the region, the first place whose life begins there.
    starts: Vec<Option<usize>>,
    // Whether two lives may begin at one page.
    doubled: bool,
}

impl Model for Lives {
    ghost use Rattle.sweep_laws.specs.State.{LifeState};
    ghost use Rattle.sweep_lists.specs.Room.{Tabled};
    ghost use Rattle.sweep_lists.specs.KeptLives.{lives_view, AreKept};

    ghost Value = { Tabled LifeState };

    ghost view = { lives_view };

    ghost invariant = { AreKept };
}

impl Lives {
    /// No lives and no room, with a table of the pages of a region of so many pages.
    pub fn with_table(alloc: Global, pages: u32) -> Result<Self, NoMemory>
        ensures { IfOk result (λ lives. lives ≡ record { items = []; space = 0; reach = pages }) }
    {
        let starts = vec![in alloc; None; pages as usize]?;
        Ok(Lives {
            places: Vec::new(alloc),
            used: 0,
            space: 0,
            starts,
            doubled: false,
        })
    }

    /// How many lives there are.
    pub fn len(&self) -> usize
        ensures { result ≡ length self.now.items }
    {
        self.used
    }

    /// Whether there are no lives.
    pub fn is_empty(&self) -> bool
        ensures { result ≡ (length self.now.items == 0) }
    {
        self.used == 0
    }

    /// The first life that begins at a page: one look into the table for a page of the region, a scan of the lives for
    /// another.
    #[inline(always)]
    pub fn find(&self, page: u32) -> Option<&Life>
        ensures { option_map (λ life. life_view life.now) result ≡ find (λ life. life.page == page) self.now.items }
    {
        match first_at(&self.starts, &self.places, page) {
            Some(i) => self.places[i].as_ref(),
            None => None,
        }
    }

    /// The same where the table reaches over the page, None where it does not.
    #[inline(always)]
    pub fn find_told(&self, page: u32) -> Option<&Life>
        ensures { option_map (λ life. life_view life.now) result ≡ (if nat_lt page self.now.reach then find (λ life. life.page == page) self.now.items else None) }
    {
        if page as usize >= self.starts.len() {
            return None;
        }
        self.find(page)
    }

    /// Makes room for `space` lives at least. It fails only where there is less room.
    pub fn reserve(&mut self, space: usize) -> Result<(), NoMemory>
        ensures items { self.new.items ≡ self.old.items }
        ensures reach { self.new.reach ≡ self.old.reach }
        ensures grows { self.old.space ≤ self.new.space }
        ensures ok { OnOk result (space ≤ self.new.space) }
        ensures full { OnErr result (self.old.space < space) }
        ensures err { OnErr result (self.new ≡ self.old) }
    {
        if self.space < space {
            self.places
                .reserve(space.saturating_sub(self.places.len()))?;
            self.space = space;
        }
        Ok(())
    }

    /// Makes room for one life more. It fails only where there is no room.
    pub fn reserve_one(&mut self) -> Result<(), NoMemory>
        ensures items { self.new.items ≡ self.old.items }
        ensures reach { self.new.reach ≡ self.old.reach }
        ensures grows { self.old.space ≤ self.new.space }
        ensures ok { OnOk result (length self.new.items < self.new.space) }
        ensures full { OnErr result (self.old.space ≤ length self.old.items) }
        ensures err { OnErr result (self.new ≡ self.old) }
    {
        let space = self.used + 1;
        self.reserve(space)
    }

    /// Puts a life at the end, whose lists have room for its objects and whose table reaches over them.
    pub fn push(&mut self, life: Life)
        requires space { length self.old.items < self.old.space }
        requires room { LifeRoom life }
        ensures { self.new ≡ record self.old { items = self.old.items ++ life_view life ∷ [] } }
    {
        make_place(&mut self.places, &mut self.starts, self.space);
        let place = self.places.len();
        let doubled = tell_next(&mut self.starts, life.page, place, self.doubled);
        self.doubled = doubled;
        let _ = self.places.push(Some(life));
        self.used += 1;
    }

    /// The first life that begins at a page leaves. Answers its pages, 0 where there is none.
    pub fn drop_life(&mut self, page: u32) -> u32
        ensures lives { self.new ≡ record self.old { items = dropped_life page self.old.items } }
        ensures pages { result ≡ (life_in page self.old.items).pages }
    {
        match first_at(&self.starts, &self.places, page) {
            Some(i) => {
                let pages = take_pages(&mut self.places[i]);
                let next = next_at(&self.places, page, self.doubled);
                tell_start(&mut self.starts, page, next);
                self.used -= 1;
                pages
            }
            None => 0,
        }
    }

    /// What was marked stays allocated in the first life that begins at a page. It fails only where more is marked than
    /// the life has objects.
    pub fn keep_marked(&mut self, page: u32) -> Result<(), NoMemory>
        ensures ok { OnOk result (self.new ≡ record self.old { items = change_life page kept_marked self.old.items }) }
        ensures err { OnErr result (self.new ≡ self.old) }
        ensures full { OnErr result ((life_in page self.old.items).count < length (life_in page self.old.items).kept) }
    {
        match first_at(&self.starts, &self.places, page) {
            Some(i) => keep_marked_at(&mut self.places[i]),
            None => Ok(()),
        }
    }

    /// An index of the first life that begins at a page is allocated. It fails only where as many are allocated as the
    /// life has objects.
    #[inline(always)]
    pub fn allocate(&mut self, page: u32, index: u32) -> Result<(), NoMemory>
        ensures ok { OnOk result (self.new ≡ record self.old { items = change_life page (allocated_too index) self.old.items }) }
        ensures err { OnErr result (self.new ≡ self.old) }
        ensures full { OnErr result ((life_in page self.old.items).count ≤ length (life_in page self.old.items).allocated) }
    {
        match first_at(&self.starts, &self.places, page) {
            Some(i) => allocate_at(&mut self.places[i], index),
            None => Ok(()),
        }
    }

    /// Each life keeps its marks, of marks that rise. It fails only where a life has more marks than objects.
    pub fn mark(&mut self, marks: &[(u32, u32)]) -> Result<(), NoMemory>
        requires { rises marks.now ≡ true }
        ensures ok { OnOk result (self.new ≡ record self.old { items = map (mark_life marks.now) self.old.items }) }
        ensures err { OnErr result (self.new ≡ self.old) }
        ensures full { OnErr result (All (λ life. length (marks_at life.page marks.now) ≤ life.count) self.old.items → ⊥) }
    {
        make_place(&mut self.places, &mut self.starts, self.used + 1);
        mark_all(&mut self.places, marks)
    }

    /// Each life keeps its marks. It fails only where a life has more marks than objects.
    pub fn mark_by(&mut self, marks: &Marks) -> Result<(), NoMemory>
        ensures ok { OnOk result (self.new ≡ record self.old { items = map (mark_life marks.now.pairs) self.old.items }) }
        ensures err { OnErr result (self.new ≡ self.old) }
        ensures full { OnErr result (All (λ life. length (marks_at life.page marks.now.pairs) ≤ life.count) self.old.items → ⊥) }
    {
        make_place(&mut self.places, &mut self.starts, self.used + 1);
        mark_all_by(&mut self.places, marks)
    }
}
