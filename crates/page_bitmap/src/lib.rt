//! A chunk of 512 pages: which of them are free and which are scavenged, as two bitmaps.
#![tactic(auto)]

mod bitmap;
mod chunk;
mod line;
mod search;
mod word;

pub use bitmap::Bitmap;
pub use chunk::Chunk;
pub use line::{Line, Run};
