//! The text of a report, both ways: its one writer, its reader, and the law that a text is of at most one report. What the text is stands
//! with the report (`cycle_history`).
#![tactic(auto)]

mod fault;
mod item;
mod laws;
mod lines;
mod order;
mod parse;
mod reader;
mod words;
mod write;

pub use fault::ReportFault;
pub use laws::{
    a_text_is_not_refused, bytes_have_one_refusal, lines_in_turn_begin_a_text, text_of_one_report,
};
pub use order::Ordered;
pub use reader::read_report;
pub use words::address;
pub use write::write_report;
