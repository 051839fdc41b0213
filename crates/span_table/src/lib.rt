//! The running state of spans in one atomic table, on which all workers step at the same time.
//!
//! The words of the table are those of `table_words`; slot 0 has the pages with their journal, and slot p + 1 the body of the span
//! that begins at page p. Each worker has a seat of the table. `specs/Running.antt` has the rule of the table while it runs: the words, the
//! slots and the views of all seats show one state, of which the rule of `span_laws` holds; `specs/Turning.antt` has it at a mark end.
//! `specs/Plays.antt` says what each step tells, and `specs/Known.antt` what contracts see of a worker. What a worker's steps make of its
//! own part, what calls ask and what they answer, is in `span_laws`.
#![tactic(auto)]

mod blocks;
mod caches;
mod cells;
mod counters;
mod journals;
mod laws;
mod locks;
mod mark_end;
mod page_caches;
mod places;
mod plays;
mod rule;
mod scans;
mod sets;
mod shared;
mod sizes;
mod spans;
mod steps;
mod view;
mod words;

pub use laws::{a_span_is_swept_by_one, the_lock_stands_apart, the_table_shows_one_state};
pub use rule::OneState;
pub use shared::{Shared, Worker};
pub use span_laws::{
    Acquired, Cell, Entry, Part, Refused, Said, SaidOf, Span, Step, Uncached, View,
};
pub use table_words::SETS;
pub use view::{Item, SeatView, Size};
