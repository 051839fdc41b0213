//! What the adapters of `edge_io` over std's readers and writers hand on when these fail in the middle of a stream, and what
//! streams in memory give and take in pieces, and what a gate that holds two workers does.
#![tactic(auto)]

#[cfg(test)]
mod gates;
#[cfg(test)]
mod tests;
