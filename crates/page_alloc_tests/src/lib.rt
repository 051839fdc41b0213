//! Pages, worked by hand: what a chunk and a region answer, and sums of runs of pages, their words and merges. And the pages of
//! a region beside a plain body that goes page by page, without page caches and with those of two processors.
#![tactic(auto)]

#[cfg(test)]
mod cached_body;
#[cfg(test)]
mod chunk;
#[cfg(test)]
mod plain_body;
#[cfg(test)]
mod region;
#[cfg(test)]
mod tests;
