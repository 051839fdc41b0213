//! The heap profile of a run as Go's legacy heap text: what it tells of a trace and its answers, its one writer and its reader.
//!
//! `specs/Published.antt` says what the profile of a trace and its answers is, `specs/Text.antt` what its text is, `specs/Lawful.antt`
//! which profiles have one, and `specs/Refusal.antt` why bytes are none.
#![tactic(auto)]

mod asked;
mod counts;
mod heap;
mod laws;
mod order;
mod past;
mod reader;
mod sums;
mod text;
mod words;
mod write;

pub use heap::heap_of;
pub use laws::{a_heap_text_is_of_one_profile, a_trace_and_its_answers_have_one_heap_text};
pub use reader::read_heap;
pub use text::{HeapLine, HeapText};
pub use write::write_heap;
