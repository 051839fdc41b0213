ghost use Rattle.std.specs.Prelude.{◌≡◌, ℕ, ◌<◌, ◌≤◌, true, false};
ghost use Rattle.span_state.specs.Bits.{bit_of};

/// The body of a span: where it lies, what it is cut into, and which of its objects are allocated.
#[derive(Debug, Drop)]
pub struct Body {
    /// The first page.
    pub page: u32,
    /// How many pages.
    pub pages: u32,
    /// The bytes of an object.
    pub slot: u64,
    /// How many objects, from 1 to 1024.
    pub count: u32,
    /// The span class.
    pub class: u8,
    /// The number of the journal line that took the span.
    pub life: u64,
    /// The free index: each object below it is allocated.
    pub next: u32,
    /// One bit an object, the lowest bit of the first word first: set where the object is allocated.
    pub bits: [u64; 16],
    pub ghost some_object: { 1 ≤ count },
    pub ghost few_objects: { count ≤ 1024 },
    pub ghost next_within: { next ≤ count },
    pub ghost full_below_next: { (k : ℕ) → k < next → bit_of bits k ≡ true },
    pub ghost clear_past_count: { (k : ℕ) → count ≤ k → bit_of bits k ≡ false },
}

impl Body {
    ghost use Rattle.std.specs.Prelude.{◌+◌, MatchOption};
    ghost use Rattle.span_state.specs.Bits.{HasFree, IsFull, with_bit};
    ghost use Rattle.span_state.specs.Spans.{allocated, IsSameSpan};

    /// A span with nothing allocated. `count` is from 1 to 1024.
    pub fn new(page: u32, pages: u32, slot: u64, count: u32, class: u8, life: u64) -> Self
        requires { (1 ≤ count) × (count ≤ 1024) }

        // what it is made of
        ensures page { result.page ≡ page }
        ensures pages { result.pages ≡ pages }
        ensures slot { result.slot ≡ slot }
        ensures count { result.count ≡ count }
        ensures class { result.class ≡ class }
        ensures life { result.life ≡ life }

        // nothing is allocated
        ensures next { result.next ≡ 0 }
        ensures allocated { (k : ℕ) → allocated result k ≡ false }
    {
        Body {
            page,
            pages,
            slot,
            count,
            class,
            life,
            next: 0,
            bits: [0; 16],
        }
    }

    /// The lowest index that is not allocated, which is at least `next`; none exactly where all are allocated.
    /// Word by word, as `nextFreeIndex` of `mbitmap.go`.
    pub fn next_free(&self) -> Option<u32>
        ensures { MatchOption result (IsFull self.now.count (allocated self.now))
            (λ k. HasFree self.now.count (allocated self.now) k) }
    {
        for word in (self.next / 64) as usize..16 {
            let below = self.bits[word].trailing_ones();
            if below < 64 {
                let index = word as u32 * 64 + below;
                return (index < self.count).then_some(index);
            }
        }
        None
    }

    /// Allocates the index that `next_free` answers.
    pub fn take_index(&mut self, index: u32)
        requires { HasFree self.old.count (allocated self.old) index }
        ensures allocated { (k : ℕ) → allocated self.new k ≡ with_bit index (allocated self.old) k }
        ensures next { self.new.next ≡ index + 1 }
        ensures same { IsSameSpan self.old self.new }
    {
        self.bits[(index / 64) as usize] |= 1 << (index % 64);
        self.next = index + 1;
    }
}
