//! A line of text that is put together without taking memory.
#![tactic(auto)]

mod counter;
mod digits;
mod line;
mod object_line;

pub use counter::Counter;
pub use line::TextLine;
pub use object_line::ObjectLine;
