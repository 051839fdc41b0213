ghost use Rattle.std.specs.Prelude.{◌≡◌, ℕ, ◌&&◌, not, true};

use crate::{Body, Marks};

/// What a sweep found: how many objects it kept, and how many it freed.
#[derive(Clone, Copy, Debug, PartialEq, Eq)]
pub struct Swept {
    /// The marked objects.
    pub kept: u32,
    /// The objects that were allocated and are not marked.
    pub freed: u32,
}

/// A sweep, as the report tells it.
#[derive(Clone, Copy, Debug, PartialEq, Eq)]
pub struct SweepNote {
    /// The cycle, which is the number of the mark end before it.
    pub cycle: u32,
    /// The span's first page.
    pub page: u32,
    /// How many objects were kept.
    pub kept: u32,
    /// How many objects were freed.
    pub freed: u32,
}

impl Body {
    ghost use Rattle.span_state.specs.Bits.{count_below};
    ghost use Rattle.span_state.specs.MarkSet.{is_marked};
    ghost use Rattle.span_state.specs.Spans.{allocated, IsSameSpan};

    /// Makes the marked indices of the page the allocated ones, and the free index 0.
    /// It reads a word of marks for 64 objects, as `sweep` of `mgcsweep.go` takes over the mark bits.
    pub fn sweep(&mut self, marks: &Marks) -> Swept
        // only what is allocated is marked
        requires { (k : ℕ) → is_marked marks.now self.old.page k ≡ true → allocated self.old k ≡ true }
        ensures allocated { (k : ℕ) → allocated self.new k ≡ is_marked marks.now self.old.page k }
        ensures next { self.new.next ≡ 0 }
        ensures same { IsSameSpan self.old self.new }
        ensures kept { result.kept ≡ count_below self.old.count (is_marked marks.now self.old.page) }
        ensures freed { result.freed ≡ count_below self.old.count
            (λ k. allocated self.old k && not (is_marked marks.now self.old.page k)) }
    {
        let mut bits = [0; 16];
        let mut kept = 0;
        let mut freed = 0;
        for group in 0..self.count.div_ceil(64) {
            let marked = marks.word(self.page, group);
            let taken = self.bits[group as usize];
            kept += marked.count_ones();
            freed += (taken & !marked).count_ones();
            bits[group as usize] = marked;
        }
        self.bits = bits;
        self.next = 0;
        Swept { kept, freed }
    }
}
