//! One span. What is allocated is written by the worker that has the span: it allocates in its cache, and ends its sweep. What is
//! kept is written by a mark end alone, and read by the sweep behind it.

ghost use Rattle.std.specs.Prelude.{◌≡◌, ◌≤◌, ◌<◌, ℕ, true, length, OnOk, OnErr, slice_index_or};
ghost use Rattle.sweep_laws.specs.ChangesOfLives.{marks_at, keep_marked as kept_marked, allocate_index as allocated_too};
ghost use Rattle.sweep_laws.specs.Lists.{rises};
ghost use Rattle.sweep_lists.specs.Loops.{marked};
ghost use Rattle.sweep_lists.specs.Views.{life_view, LifeRoom};

use crate::entries::Entries;
use crate::indices::Indices;
use fallible_list::NoMemory;
use span_state::Marks;
use sweep_reads::run_of;

/// A span from its Take to its Give.
#[derive(Debug, Drop)]
pub struct Life {
    /// The first page.
    pub page: u32,
    /// The number of pages.
    pub pages: u32,
    /// The number of objects for which it has place.
    pub count: u32,
    /// The span class: twice the size class, plus 1 for objects without pointers.
    pub class: u8,
    /// The indices that are allocated.
    pub allocated: Indices,
    /// The allocated indices that the last mark end marked.
    pub kept: Entries<u32>,
}

impl Life {
    // What was marked stays allocated.
    pub(crate) fn keep_marked(&mut self) -> Result<(), NoMemory>
        ensures ok { OnOk result (life_view self.new ≡ kept_marked (life_view self.old)) }
        ensures err { OnErr result (self.new ≡ self.old) }
        ensures room { LifeRoom self.old → LifeRoom self.new }
        ensures full { OnErr result (self.old.allocated.space < length self.old.kept.items) }
    {
        // Mostly all objects live: then nothing is to be done.
        if self.allocated.as_slice() == self.kept.as_slice() {
            return Ok(());
        }
        self.allocated.reserve(self.kept.len())?;
        self.allocated.copy_from(self.kept.as_slice());
        Ok(())
    }

    // An index is allocated.
    #[inline(always)]
    pub(crate) fn allocate(&mut self, index: u32) -> Result<(), NoMemory>
        ensures ok { OnOk result (life_view self.new ≡ allocated_too index (life_view self.old)) }
        ensures err { OnErr result (self.new ≡ self.old) }
        ensures room { LifeRoom self.old → LifeRoom self.new }
        ensures full { OnErr result (self.old.allocated.space ≤ length self.old.allocated.items) }
    {
        if !self.allocated.has_room() {
            return self.allocate_more(index);
        }
        self.allocated.push(index);
        Ok(())
    }

    // The same with more room.
    #[cold]
    #[inline(never)]
    fn allocate_more(&mut self, index: u32) -> Result<(), NoMemory>
        ensures ok { OnOk result (life_view self.new ≡ allocated_too index (life_view self.old)) }
        ensures err { OnErr result (self.new ≡ self.old) }
        ensures room { LifeRoom self.old → LifeRoom self.new }
        ensures full { OnErr result (self.old.allocated.space ≤ length self.old.allocated.items) }
    {
        self.allocated.reserve_one()?;
        self.allocated.push(index);
        Ok(())
    }

    // Makes room for the marks of this life, which may begin at `hint`. Answers where they end.
    pub(crate) fn reserve_marks(
        &mut self,
        marks: &[(u32, u32)],
        hint: usize,
    ) -> Result<usize, NoMemory>
        requires { rises marks.now ≡ true }
        ensures view { life_view self.new ≡ life_view self.old }
        ensures ok { OnOk result (length (marks_at self.new.page marks.now) ≤ self.new.kept.space) }
        ensures room { LifeRoom self.old → LifeRoom self.new }
        ensures full { OnErr result (self.old.kept.space < length (marks_at self.old.page marks.now)) }
    {
        let run = run_of(marks, self.page, hint);
        self.kept.reserve(run.end - run.start)?;
        Ok(run.end)
    }

    // What is kept is what is marked. The marks of this life may begin at `hint`. Answers where they end.
    pub(crate) fn set_marks(&mut self, marks: &[(u32, u32)], hint: usize) -> usize
        requires rising { rises marks.now ≡ true }
        requires room { length (marks_at self.old.page marks.now) ≤ self.old.kept.space }
        ensures { self.new ≡ marked marks.now 0 self.old }
    {
        let run = run_of(marks, self.page, hint);
        self.keep_marks(&marks[run.start..run.end]);
        run.end
    }

    // Makes room for the marks of this life.
    pub(crate) fn reserve_marked(&mut self, marks: &Marks) -> Result<(), NoMemory>
        ensures view { life_view self.new ≡ life_view self.old }
        ensures ok { OnOk result (length (marks_at self.new.page marks.now.pairs) ≤ self.new.kept.space) }
        ensures room { LifeRoom self.old → LifeRoom self.new }
        ensures full { OnErr result (self.old.kept.space < length (marks_at self.old.page marks.now.pairs)) }
    {
        self.kept.reserve(marks.len_at(self.page))
    }

    // What is kept is what is marked.
    pub(crate) fn set_marked(&mut self, marks: &Marks)
        requires { length (marks_at self.old.page marks.now.pairs) ≤ self.old.kept.space }
        ensures { self.new ≡ marked marks.now.pairs 0 self.old }
    {
        self.kept.copy_marked(marks, self.page);
    }

    // What is kept is what some marks name, all of them in this life.
    fn keep_marks(&mut self, marks: &[(u32, u32)])
        requires pages { (k : ℕ) (d : ℕ × ℕ) → k < length marks.now → (slice_index_or marks.now k d).0 ≡ self.old.page }
        requires room { length (marks_at self.old.page marks.now) ≤ self.old.kept.space }
        ensures { self.new ≡ marked marks.now 0 self.old }
    {
        self.kept.copy_seconds(marks);
    }
}
