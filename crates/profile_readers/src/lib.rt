//! Readers of a live profile: a publisher shows one profile after another on a board, and watchers read it there without
//! taking memory and without waiting.
//!
//! Contracts see a publisher as the list of its publishes, the oldest first, and a watcher as those that it knows of. What a
//! board showed is one list, of which each watcher knows a beginning. That list exists in the proofs alone; when the program
//! runs, there is one number, its length.
#![tactic(auto)]

mod history;
mod profile;
mod publisher;
mod viewer;
mod watcher;

pub use history::{Board, Opened};
pub use publisher::{Publisher, Told, board};
pub use viewer::{Sight, Viewer};
pub use watcher::Watcher;
