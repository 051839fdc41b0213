//! What a run of a trace answers, as a report, and when a report is sound.
//!
//! `specs/Sound.antt` has the rules that a report meets, over the words of `specs/Requests.antt`, `Needs.antt`,
//! `Objects.antt`, `Rules.antt`, `Orders.antt`, `Sweeps.antt`, `Sampled.antt` and `Profile.antt`, and `specs/Broken.antt` the
//! first rule that one breaks. `specs/Making.antt` has journals without page caches, and the line that makes a life.
//! `specs/Text.antt` is the text of a report. How a run stays sound so far is `sound_run`'s.
//!
//! `marks_of` finds the places that a mark end marks, and `totals_of` counts the objects of each size class, from a trace
//! and its answers: `specs/Places.antt`, `Found.antt`, `Marked.antt` and `Counted.antt`.
#![tactic(auto)]

mod laws;
mod lookups;
mod marks;
mod places;
mod totals;
mod versions;

use edge_io::List;
pub use laws::{
    a_life_has_one_making_line, a_plain_journal_meets_rule_2, an_address_has_one_place,
    an_object_sits_at_its_place, rate_0_has_an_empty_profile, version_1_has_no_page_caches,
};
pub use lookups::spans_at;
pub use marks::marks_of;
use page_bitmap::Line;
pub use places::{PackedPlace, Place};
use span_state::SweepNote;
pub use totals::totals_of;
pub use versions::{CACHING_VERSION, TINY_VERSION, caching_procs};

/// What an allocation answers.
#[derive(Clone, Copy, Debug, PartialEq, Eq)]
pub enum Answer {
    /// The object's address, in bytes from address 0.
    Placed(u64),
    /// The object has size 0: it is not allocated, and all such objects share one address that is not told.
    Zero,
    /// No free run of pages was long enough; the number is that of the journal line of this miss, from 0.
    Missed(u64),
}

/// The placed objects of a size class, over a whole trace.
#[derive(Clone, Copy, Debug, PartialEq, Eq)]
pub struct Total {
    /// The size class, from 0 to 67; class 0 has the objects above 32768 bytes.
    pub class: u8,
    /// How many objects were placed.
    pub mallocs: u64,
    /// How many of them don't live in the last cycle.
    pub frees: u64,
}

/// The sampled objects of one stack and one slot size, as of a mark end.
#[derive(Clone, Copy, Debug, PartialEq, Eq)]
pub struct Prof {
    /// The mark end's number, from 1.
    pub mark: u32,
    /// The number of the stack that allocated the objects.
    pub stack: u32,
    /// The bytes of a slot.
    pub size: u64,
    /// How many sampled objects of cycles before the mark end were allocated.
    pub allocs: u64,
    /// How many of them the mark end doesn't mark.
    pub frees: u64,
}

/// What a run prints.
#[derive(Debug, Drop)]
pub struct Report {
    /// The answer of each object, by its number from 0.
    pub answers: List<Answer>,
    /// The lines of the page journal, in the order in which they were made; a line's number is its place, from 0.
    pub journal: List<Line>,
    /// The sweeps, by their cycle and then by the span's first page.
    pub sweeps: List<SweepNote>,
    /// The totals of the size classes that have placed objects, by class.
    pub totals: List<Total>,
    /// The published profile, by mark end, then by stack, then by slot size.
    pub profile: List<Prof>,
}
