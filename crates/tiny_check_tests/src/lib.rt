//! Traces of version 3: their bases, and reports of them, typed by hand.
//!
//! `bases` has what the base of a trace with its answers is, and `judged` which rule a report breaks first, and at which line, whole
//! and in pieces. `read` reads both from their texts.
#![tactic(auto)]

#[cfg(test)]
mod bases;
#[cfg(test)]
mod judged;
#[cfg(test)]
mod read;
