//! Traces of a heap, as text.
#![tactic(auto)]

mod draft;
mod fault;
mod laws;
mod limits;
mod live;
mod reader;
mod short;
mod span;
mod statement;
mod trace;
mod whole;
pub mod words;

pub use fault::{TraceFault, Which};
pub use laws::{
    a_trace_has_one_spelling, bytes_spell_one_trace, what_is_not_refused_is_spelled,
    what_is_refused_spells_no_trace, what_is_spelled_is_not_refused,
};
pub use limits::{FIRST_MAX_CHUNKS, FIRST_MAX_PAGES, LATEST_VERSION};
pub use reader::{expect_end, read_trace};
pub use span::Span;
pub use trace::{Cycle, Event, Header, MarkEnd, Trace};
pub use whole::{TRACE_BYTES, read_whole};
