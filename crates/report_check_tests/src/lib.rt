//! Broken reports, typed by hand: which rule each breaks first, and at which line.
//!
//! `tests` tries the rules 1 to 4 alone, over the tables of `answers`, `journal`, `misses` and `places`; `totals` tries rule 8
//! alone; and `later` all nine rules, over its own table, where nothing is sampled, and that of `profile`, where all is.
//! `beside` tries each of these reports by the judge in pieces too. `cached` tries rule 2 where
//! processors have page caches, over its own table. `text` reads the traces and reports of all tables.
#![tactic(auto)]

#[cfg(test)]
mod answers;
#[cfg(test)]
mod beside;
#[cfg(test)]
mod cached;
#[cfg(test)]
mod journal;
#[cfg(test)]
mod later;
#[cfg(test)]
mod misses;
#[cfg(test)]
mod places;
#[cfg(test)]
mod profile;
#[cfg(test)]
mod tests;
#[cfg(test)]
mod text;
#[cfg(test)]
mod totals;
