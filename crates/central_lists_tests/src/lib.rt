//! What `cache_span` answers, row by row, through the public calls of `central_lists`: of a table without spans, and over sets that a mark end left.
#![tactic(auto)]

#[cfg(test)]
mod rows;
#[cfg(test)]
mod tests;
