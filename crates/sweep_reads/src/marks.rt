//! The marks of one page, out of marks that rise: they stand side by side. Nothing is written here.

ghost use Rattle.std.specs.Prelude.{◌≡◌, ◌≢◌, ◌<◌, ◌≤◌, ◌+◌, ◌-◌, ℕ, true, length, slice_index_or, slice_range};
ghost use Rattle.sweep_laws.specs.Lists.{rises};
ghost use Rattle.sweep_laws.specs.ChangesOfLives.{marks_at};
ghost use Rattle.sweep_reads.specs.Marks.{IsFrom};

/// Where the marks of a page stand: from the place `start` on, and before the place `end`.
#[derive(Clone, Copy, Debug)]
pub struct Run {
    /// How many marks stand before them.
    pub start: usize,
    /// How many stand before them and with them.
    pub end: usize,
}

/// The marks of a page. They are searched for only where they do not begin at `hint`.
pub fn run_of(marks: &[(u32, u32)], page: u32, hint: usize) -> Run
    requires { rises marks.now ≡ true }
    ensures order { result.start ≤ result.end }
    ensures bound { result.end ≤ length marks.now }
    ensures marks { marks_at page (slice_range marks.now result.start result.end) ≡ marks_at page marks.now }
    ensures count { length (marks_at page marks.now) ≡ result.end - result.start }
    ensures pages { (k : ℕ) (d : ℕ × ℕ) → k < length (slice_range marks.now result.start result.end) → (slice_index_or (slice_range marks.now result.start result.end) k d).0 ≡ page }
{
    let start = start_of(marks, page, hint);
    let end = end_of(marks, page, start);
    Run { start, end }
}

// How many marks stand before those of a page and of the pages behind it.
fn start_of(marks: &[(u32, u32)], page: u32, hint: usize) -> usize
    requires { rises marks.now ≡ true }
    ensures { IsFrom result page marks.now }
{
    if is_before(marks, page, hint) && is_behind(marks, page, hint) {
        hint
    } else {
        marks.partition_point(|mark| mark.0 < page)
    }
}

// Whether the first `n` marks stand before those of a page.
fn is_before(marks: &[(u32, u32)], page: u32, n: usize) -> bool
    requires { rises marks.now ≡ true }
    ensures bound { result ≡ true → n ≤ length marks.now }
    ensures before { result ≡ true → (k : ℕ) (d : ℕ × ℕ) → k < n → (slice_index_or marks.now k d).0 < page }
{
    n <= marks.len() && (n == 0 || marks[n - 1].0 < page)
}

// Whether all marks behind the first `n` are of a page or of pages behind it.
fn is_behind(marks: &[(u32, u32)], page: u32, n: usize) -> bool
    requires { rises marks.now ≡ true }
    ensures { result ≡ true → (k : ℕ) (d : ℕ × ℕ) → n ≤ k → k < length marks.now → page ≤ (slice_index_or marks.now k d).0 }
{
    match marks.get(n) {
        Some(mark) => page <= mark.0,
        None => true,
    }
}

// How many marks stand before those of the pages behind a page, whose own begin at `start`. Long strides pass over most of them.
fn end_of(marks: &[(u32, u32)], page: u32, start: usize) -> usize
    requires rising { rises marks.now ≡ true }
    requires start { IsFrom start page marks.now }
    ensures end { IsFrom result (page + 1) marks.now }
    ensures order { start ≤ result }
{
    let long = strides_of(marks, page, start, 16);
    let short = strides_of(marks, page, long, 4);
    strides_of(marks, page, short, 1)
}

// How far whole strides go over the marks of a page, from `start` on. Where the last mark of a stride is of the page, those
// between are too.
fn strides_of(marks: &[(u32, u32)], page: u32, start: usize, stride: usize) -> usize
    // the marks
    requires rising { rises marks.now ≡ true }

    // the stride, and where it begins
    requires stride { 0 < stride }
    requires bound { start ≤ length marks.now }
    requires before { (k : ℕ) (d : ℕ × ℕ) → k < start → (slice_index_or marks.now k d).0 < page + 1 }

    // where it ends
    ensures order { start ≤ result }
    ensures bound { result ≤ length marks.now }
    ensures before { (k : ℕ) (d : ℕ × ℕ) → k < result → (slice_index_or marks.now k d).0 < page + 1 }
    ensures last { (k : ℕ) (d : ℕ × ℕ) → k + 1 ≡ result + stride → k < length marks.now → (slice_index_or marks.now k d).0 ≢ page }
{
    let mut end = start;
    while stride <= marks.len() - end && marks[end + (stride - 1)].0 == page {
        end += stride;
    }
    end
}
